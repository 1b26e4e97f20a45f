//! Propagation: a clause whose literals are all false but one makes that one true.
ghost use Rattle.std.specs.Prelude.{◌≡◌, ◌≢◌, ◌≤◌, ◌<◌, ◌+◌, false, length, All, IsTrue, IfSome, IfNone, Some};
ghost use Rattle.sat_clauses.specs.ClauseLists.{has, without as without_literal};
ghost use Rattle.sat_links.specs.Watches.{watches_of, StandsAfter};
ghost use Rattle.sat_solver.specs.Entries.{IsConflict, IsFalseIn, IsFalseClause, AllSettled, Extends, truth_in};
ghost use Rattle.sat_solver.specs.Trails.{IsTrail};
ghost use Rattle.sat_solver.specs.Watching.{Watches, IsShort};
ghost use Rattle.sat_solver.specs.Pairing.{Paired, GoesOn, IsHeld, HoldsFirst, AllDone, VisitIs};

use crate::store::Store;
use crate::trail::Trail;
use sat_clauses::Lit;
use sat_links::Watch;

/// What came of a look at a watch of a literal that became false: it stays with it, it moves to another literal of its
/// clause, or the clause at a place is false.
#[derive(Clone, Copy)]
pub(crate) enum Visit {
    Stays,
    Moves,
    Conflict(u64),
}

impl Trail {
    /// Puts literals at the end of the present level for as long as a clause has one free literal and no other that
    /// isn't false. It looks at the clauses that watch a literal which became false and wasn't worked through yet. The
    /// answer is the place of a clause that is false, or `None` where no clause is false or unit.
    pub fn propagate(&mut self, store: &mut Store) -> Option<u64>
        requires { Paired self.old store.old }
        ensures extends { Extends store.old.clauses self.old.level self.old.entries self.new.entries }
        ensures settled { IfNone result (AllSettled self.new.entries store.old.clauses) }
        ensures worked { IfNone result (self.new.worked ≡ length self.new.entries) }
        ensures conflict { IfSome result (IsConflict self.new.entries store.old.clauses) }
        ensures worked_on { self.old.worked ≤ self.new.worked }
        ensures level { self.new.level ≡ self.old.level }
        ensures vars { self.new.vars ≡ self.old.vars }
        ensures trail { IsTrail self.new }
        ensures clauses { store.new.clauses ≡ store.old.clauses }
        ensures paired { Paired self.new store.new }
    {
        if let Some(place) = self.look_at_short(store) {
            return Some(place);
        }
        'work: while let Some(lit) = self.next_false() {
            if let Some(place) = self.walk(store, lit) {
                return Some(place);
            }
            self.work_on();
        }
        None
    }

    /// Looks at the clauses of at most one literal that weren't seen on level 0.
    fn look_at_short(&mut self, store: &mut Store) -> Option<u64>
        requires { Paired self.old store.old }
        ensures goes_on { GoesOn self.old store.old self.new store.new }
        ensures held { IfNone result (HoldsFirst (length store.new.short) self.new.entries store.new self.new.level) }
        ensures conflict { IfSome result (IsConflict self.new.entries store.old.clauses) }
    {
        'short: for at in store.seen()..store.short().len() {
            let place = store.short()[at];
            if !self.hold(store, place) {
                return Some(place);
            }
            if self.level() == 0 {
                store.see(at + 1);
            }
        }
        None
    }

    /// Makes the literal of a clause that has one true, if it is free. The answer is `false` where the clause is false.
    fn hold(&mut self, store: &Store, place: u64) -> bool
        requires paired { Paired self.old store.now }
        requires short { IsShort store.now.clauses place }
        ensures goes_on { GoesOn self.old store.now self.new store.now }
        ensures held { IsTrue result → IsHeld self.new.entries store.now.clauses self.new.level place }
        ensures conflict { result ≡ false → IsConflict self.new.entries store.now.clauses place }
    {
        let Some(lit) = store.clause(place).first().copied() else {
            return false;
        };
        match self.truth(lit) {
            Some(value) => value,
            None => {
                self.force(lit, place);
                true
            }
        }
    }

    /// Whether a literal is true, where its variable has a value.
    pub fn truth(&self, lit: Lit) -> Option<bool>
        requires { (1 ≤ lit.var) × (lit.var ≤ self.now.vars) }
        ensures { result ≡ truth_in self.now.entries lit }
    {
        match self.values()[(lit.var - 1) as usize] {
            Some(value) => Some(value == lit.positive),
            None => None,
        }
    }

    /// Looks at each clause that watches a literal which became false.
    fn walk(&mut self, store: &mut Store, lit: Lit) -> Option<u64>
        requires paired { Paired self.old store.old }
        requires falsified { IsFalseIn self.old.entries lit }
        ensures goes_on { GoesOn self.old store.old self.new store.new }
        ensures worked { self.new.worked ≡ self.old.worked }
        ensures done { IfNone result (AllDone self.new store.new lit) }
        ensures conflict { IfSome result (IsConflict self.new.entries store.old.clauses) }
    {
        let mut before = None;
        let mut at = store.first(lit);
        'watches: while let Some(watch) = at {
            at = store.next(watch);
            match self.visit(store, lit, before, watch) {
                Visit::Stays => before = Some(watch),
                Visit::Moves => {}
                Visit::Conflict(place) => return Some(place),
            }
        }
        None
    }

    /// Looks at the clause of a watch of a false literal, which stands right after `before` or first. Where another
    /// literal of the clause isn't false it is watched instead.
    fn visit(&mut self, store: &mut Store, lit: Lit, before: Option<Watch>, watch: Watch) -> Visit
        requires paired { Paired self.old store.old }
        requires falsified { IsFalseIn self.old.entries lit }
        requires watches { Watches store.old.pairs lit watch }
        requires place { StandsAfter (watches_of store.old.lists lit) before watch }
        ensures goes_on { GoesOn self.old store.old self.new store.new }
        ensures worked { self.new.worked ≡ self.old.worked }
        ensures visit { VisitIs store.old store.new self.new lit watch result }
    {
        let pair = store.pair(watch.clause);
        let clause = store.clause(pair.place);
        let other = pair.guard(watch.slot);
        let truth = self.truth(other);
        if truth == Some(true) {
            return Visit::Stays;
        }
        if let Some(to) = self.other_than_false(clause, other) {
            store.rewatch(lit, before, watch, to, pair);
            return Visit::Moves;
        }
        if truth == Some(false) {
            return Visit::Conflict(pair.place);
        }
        self.force(other, pair.place);
        Visit::Stays
    }

    /// A literal of a clause, other than a given one, that isn't false.
    fn other_than_false(&self, clause: &[Lit], other: Lit) -> Option<Lit>
        requires { All (λ lit. (1 ≤ lit.var) × (lit.var ≤ self.now.vars)) clause.now }
        ensures there { IfSome result (λ lit. IsTrue (has clause.now lit)) }
        ensures differs { IfSome result (λ lit. lit ≢ other) }
        ensures not_false { IfSome result (λ lit. ¬ IsFalseIn self.now.entries lit) }
        ensures none { IfNone result (IsFalseClause self.now.entries (without_literal clause.now other)) }
    {
        'literals: for lit in clause {
            if *lit != other && self.truth(*lit) != Some(false) {
                return Some(*lit);
            }
        }
        None
    }
}
