//! The state of a search.
ghost use Rattle.std.specs.Prelude.{◌≡◌, ◌+◌, ◌++◌, ◌∷◌, [], ◌≤◌, ◌<◌, ◌^◌, length, take, All, OnOk, OnErr, IfOk, MatchOption, IfSome, IfNone, None, IsSome, IsTrue, false};
ghost use Rattle.sat_clauses.specs.ClauseLists.{IsClause, has, without, holds};
ghost use Rattle.sat_solver.specs.Stores.{greatest_var};
ghost use Rattle.sat_solver.specs.Entries.{IsConflict, IsFreeIn, IsFalseClause, AllSettled, Extends, up_to, values_of};
ghost use Rattle.sat_solver.specs.Trails.{empty_trail, with_entry};
ghost use Rattle.sat_solver.specs.Lessons.{Asserts, IsSecond};
ghost use Rattle.sat_solver.specs.Watching.{IsWatching};
ghost use Rattle.sat_solver.specs.Pairing.{Learnt};

use crate::analysis::analyze;
use crate::lesson::{Assertion, Lesson, Making};
use crate::order::Order;
use crate::question::Question;
use crate::solver::assignment;
use crate::store::Store;
use crate::trail::Trail;
use sat_clauses::{Assignment, Clauses, Derivation, Lit, Step};
use std::alloc::{AllocError as NoMemory, Global};

/// What a turn of a search comes to: it goes on, all variables have values and no clause is false, or the empty clause
/// was derived.
#[derive(Clone, Copy)]
pub(crate) enum Turn {
    GoesOn,
    Holds,
    Derives,
}

/// The clauses, the trail, the order of decisions, the steps that made the learnt clauses, the clause in the
/// making, which is kept from one conflict to the next, and the last given clause as the question.
#[derive(Drop)]
pub struct Search {
    pub store: Store,
    pub trail: Trail,
    pub(crate) order: Order,
    pub(crate) steps: Vec<Step>,
    making: Making,
    question: Question,
}

impl Search {
    ghost use Rattle.sat_solver.specs.Searches.{IsSearch, Opens, Keeps, Stays, GivesTruths, LearnsOrEnds, TurnIs, steps_in, weight_of};

    /// The search among clauses, which begins with no values.
    pub fn new(alloc: Global, clauses: &Clauses) -> Result<Search, NoMemory>
        ensures search { IfOk result IsSearch }
        ensures clauses { IfOk result (λ _. All IsClause clauses.now) }
        ensures store { IfOk result (λ search. search.store.clauses ≡ clauses.now) }
        ensures vars { IfOk result (λ search. search.trail.vars ≡ greatest_var clauses.now) }
        ensures steps { IfOk result (λ search. steps_in search ≡ []) }
    {
        let store = Store::new(alloc, clauses)?;
        let vars = store.vars();
        let last = store.count().saturating_sub(1);
        Ok(Search {
            trail: Trail::new(alloc, vars)?,
            order: Order::new(alloc, vars)?,
            store,
            steps: Vec::new(alloc),
            making: Making::new(alloc),
            question: Question {
                clause: last,
                at: 0,
            },
        })
    }

    /// Propagates, and then decides or learns. At each turn that goes on, the list of literal counts per level rises in
    /// lexicographic order.
    pub(crate) fn turn(&mut self, alloc: Global) -> Result<Turn, NoMemory>
        requires { IsSearch self.old }
        ensures { IfOk result (TurnIs self.old self.new) }
    {
        let Some(conflict) = self.propagate() else {
            return if self.decide() {
                Ok(Turn::GoesOn)
            } else {
                Ok(Turn::Holds)
            };
        };
        if self.learn(alloc, conflict)? {
            Ok(Turn::GoesOn)
        } else {
            Ok(Turn::Derives)
        }
    }

    /// Puts literals at the end of the present level as long as a clause forces one. The answer is the place of a clause
    /// that is false, or `None` where no clause is false or unit.
    pub fn propagate(&mut self) -> Option<u64>
        requires { IsSearch self.old }
        ensures search { IsSearch self.new }
        ensures extends { Extends self.old.store.clauses self.old.trail.level self.old.trail.entries self.new.trail.entries }
        ensures settled { IfNone result (AllSettled self.new.trail.entries self.old.store.clauses) }
        ensures worked { IfNone result (self.new.trail.worked ≡ length self.new.trail.entries) }
        ensures conflict { IfSome result (IsConflict self.new.trail.entries self.old.store.clauses) }
        ensures farther { weight_of self.old ≤ weight_of self.new }
        ensures vars { self.new.trail.vars ≡ self.old.trail.vars }
        ensures clauses { self.new.store.clauses ≡ self.old.store.clauses }
        ensures steps { self.new.steps ≡ self.old.steps }
    {
        self.trail.propagate(&mut self.store)
    }

    /// Opens a level with a free literal, which becomes true.
    pub fn decide_literal(&mut self, lit: Lit)
        requires search { IsSearch self.old }
        requires worked { self.old.trail.worked ≡ length self.old.trail.entries }
        requires within { (1 ≤ lit.var) × (lit.var ≤ self.old.trail.vars) }
        requires free { IsFreeIn self.old.trail.entries lit }
        ensures search { IsSearch self.new }
        ensures opened { self.new.trail ≡ with_entry self.old.trail (record { lit = lit; level = self.old.trail.level + 1; reason = None }) }
        ensures farther { weight_of self.old < weight_of self.new }
        ensures clauses { self.new.store.clauses ≡ self.old.store.clauses }
        ensures steps { self.new.steps ≡ self.old.steps }
    {
        self.trail.decide_literal(lit);
    }

    /// Opens a level with a literal that the search chooses. The answer is `false` where all variables have values.
    pub fn decide(&mut self) -> bool
        requires search { IsSearch self.old }
        requires worked { self.old.trail.worked ≡ length self.old.trail.entries }
        ensures search { IsSearch self.new }
        ensures opened { IsTrue result → Opens self.old self.new }
        ensures farther { IsTrue result → weight_of self.old < weight_of self.new }
        ensures valued { result ≡ false → All IsSome (values_of self.old.trail.vars self.old.trail.entries) }
        ensures same { result ≡ false → self.new.trail ≡ self.old.trail }
        ensures vars { self.new.trail.vars ≡ self.old.trail.vars }
        ensures clauses { self.new.store.clauses ≡ self.old.store.clauses }
        ensures steps { self.new.steps ≡ self.old.steps }
    {
        let Some(lit) = self.chosen() else {
            return self.decide_last();
        };
        self.decide_literal(lit);
        true
    }

    /// A free literal: one of the question while that is open, else the negation of a variable by a walk back from the
    /// kept place in the order. Where it finds none there may be free variables nevertheless.
    fn chosen(&mut self) -> Option<Lit>
        requires { IsSearch self.old }
        ensures search { IsSearch self.new }
        ensures within { IfSome result (λ lit. (1 ≤ lit.var) × (lit.var ≤ self.old.trail.vars)) }
        ensures free { IfSome result (IsFreeIn self.old.trail.entries) }
        ensures trail { self.new.trail ≡ self.old.trail }
        ensures store { self.new.store ≡ self.old.store }
        ensures steps { self.new.steps ≡ self.old.steps }
    {
        match self.question.open(&self.trail, &self.store) {
            Some(lit) => Some(lit),
            None => match self.order.next_free(&self.trail) {
                Some(var) => Some(Lit {
                    var,
                    positive: false,
                }),
                None => None,
            },
        }
    }

    /// Decides the last free variable of the queue. The answer is `false` where all have values.
    fn decide_last(&mut self) -> bool
        requires search { IsSearch self.old }
        requires worked { self.old.trail.worked ≡ length self.old.trail.entries }
        ensures search { IsSearch self.new }
        ensures opened { IsTrue result → Opens self.old self.new }
        ensures farther { IsTrue result → weight_of self.old < weight_of self.new }
        ensures valued { result ≡ false → All IsSome (values_of self.old.trail.vars self.old.trail.entries) }
        ensures same { result ≡ false → self.new ≡ self.old }
        ensures vars { self.new.trail.vars ≡ self.old.trail.vars }
        ensures clauses { self.new.store.clauses ≡ self.old.store.clauses }
        ensures steps { self.new.steps ≡ self.old.steps }
    {
        self.trail.decide(&self.order.queue).is_some()
    }

    /// Drops the values of all levels above a level, which is then the present one.
    pub fn jump_back(&mut self, level: u64)
        requires search { IsSearch self.old }
        requires level { level ≤ self.old.trail.level }
        ensures search { IsSearch self.new }
        ensures entries { self.new.trail.entries ≡ up_to level self.old.trail.entries }
        ensures prefix { self.new.trail.entries ≡ take (length self.new.trail.entries) self.old.trail.entries }
        ensures level { self.new.trail.level ≡ level }
        ensures vars { self.new.trail.vars ≡ self.old.trail.vars }
        ensures store { self.new.store ≡ self.old.store }
        ensures steps { self.new.steps ≡ self.old.steps }
    {
        self.order.release(self.trail.entries(), level);
        self.trail.jump_back(level);
    }

    /// Takes all values back, and makes room for the variables up to a number. Without memory the search stays as it is.
    pub fn reach(&mut self, alloc: Global, vars: u64) -> Result<(), NoMemory>
        requires search { IsSearch self.old }
        requires more { self.old.trail.vars ≤ vars }
        ensures search { OnOk result (IsSearch self.new) }
        ensures trail { OnOk result (self.new.trail ≡ empty_trail vars) }
        ensures clauses { OnOk result (self.new.store.clauses ≡ self.old.store.clauses) }
        ensures steps { OnOk result (self.new.steps ≡ self.old.steps) }
        ensures err { OnErr result (self.new ≡ self.old) }
    {
        let trail = Trail::new(alloc, vars)?;
        let order = Order::new(alloc, vars)?;
        self.store.reach(vars)?;
        self.store.see(0);
        self.trail = trail;
        self.order = order;
        Ok(())
    }

    /// Puts a clause last while no variable has a value. It becomes the question. Without memory the search stays as it is.
    pub fn add(&mut self, clause: Vec<Lit>) -> Result<(), NoMemory>
        requires search { IsSearch self.old }
        requires empty { self.old.trail.entries ≡ [] }
        requires clause { IsClause clause.items }
        requires within { All (λ lit. lit.var ≤ self.old.trail.vars) clause.items }
        ensures search { OnOk result (IsSearch self.new) }
        ensures clauses { OnOk result (self.new.store.clauses ≡ self.old.store.clauses ++ clause.items ∷ []) }
        ensures trail { OnOk result (self.new.trail ≡ self.old.trail) }
        ensures steps { OnOk result (self.new.steps ≡ self.old.steps) }
        ensures err { OnErr result (self.new ≡ self.old) }
    {
        let place = self.store.count();
        self.store.add(clause)?;
        self.question = Question {
            clause: place,
            at: 0,
        };
        Ok(())
    }

    /// The values as an assignment, where all variables have values and no clause is false.
    pub fn assignment(&self, alloc: Global) -> Result<Assignment, NoMemory>
        requires search { IsSearch self.now }
        requires valued { All IsSome (values_of self.now.trail.vars self.now.trail.entries) }
        requires settled { AllSettled self.now.trail.entries self.now.store.clauses }
        ensures holds { IfOk result (λ assignment. IsTrue (holds assignment.values.items self.now.store.clauses)) }
        ensures truths { IfOk result (λ assignment. GivesTruths assignment self.now.trail) }
    {
        let _clauses = self.store.count();
        let found = assignment(alloc, self.trail.values())?;
        Ok(found)
    }

    /// Forgets the steps that were made so far.
    pub fn forget_steps(&mut self)
        ensures steps { steps_in self.new ≡ [] }
        ensures rest { self.new ≡ record self.old { steps = self.new.steps } }
    {
        self.steps.clear();
    }

    /// Learns from the false clause at a place. The answer is `false` where the empty clause was derived. Without memory the
    /// clauses stay.
    pub fn learn(&mut self, alloc: Global, conflict: u64) -> Result<bool, NoMemory>
        requires search { IsSearch self.old }
        requires conflict { IsConflict self.old.trail.entries self.old.store.clauses conflict }
        ensures learns { IfOk result (LearnsOrEnds self.old self.new) }
        ensures err { OnErr result (Stays self.old self.new) }
    {
        let place = self.store.count();
        let Lesson {
            clause,
            chain,
            asserted,
        } = analyze(alloc, &self.trail, &self.store, conflict, &mut self.making)?;
        self.steps.push(Step {
            first: conflict,
            chain,
        })?;
        let Some(assertion) = asserted else {
            return Ok(false);
        };
        self.order.postpone(clause.as_slice());
        self.assert(clause, assertion, place)?;
        Ok(true)
    }

    /// The derivation that the steps make.
    pub(crate) fn into_derivation(self) -> Derivation
        ensures { result.steps ≡ self.steps }
    {
        Derivation { steps: self.steps }
    }

    /// Jumps back to the level at which a learnt clause has one free literal, keeps the clause, and makes that literal
    /// true. The clause goes to a place, and watches it and a literal of the level.
    fn assert(&mut self, clause: Vec<Lit>, assertion: Assertion, place: u64) -> Result<(), NoMemory>
        requires search { IsSearch self.old }
        requires clause { IsClause clause.items }
        requires falsified { IsFalseClause self.old.trail.entries clause.items }
        requires asserts { Asserts self.old.trail clause.items assertion.lit assertion.level }
        requires place { place ≡ length self.old.store.clauses }
        requires second { IsSecond self.old.trail.entries (without clause.items assertion.lit) assertion.level assertion.second }
        ensures search { OnOk result (IsSearch self.new) }
        ensures store { OnOk result (self.new.store.clauses ≡ self.old.store.clauses ++ clause.items ∷ []) }
        ensures kept { OnOk result (Keeps self.old self.new) }
        ensures farther { OnOk result (weight_of self.old < weight_of self.new) }
        ensures vars { OnOk result (self.new.trail.vars ≡ self.old.trail.vars) }
        ensures steps { OnOk result (self.new.steps ≡ self.old.steps) }
        ensures err { OnErr result (Stays self.old self.new) }
    {
        self.jump_back(assertion.level);
        keep(&mut self.store, clause, assertion)?;
        self.trail.force(assertion.lit, place);
        Ok(())
    }
}

/// Puts a learnt clause last, which watches what it asserts and its second literal.
fn keep(store: &mut Store, clause: Vec<Lit>, assertion: Assertion) -> Result<(), NoMemory>
    requires clause { IsClause clause.items }
    requires within { All (λ lit. lit.var ≤ store.old.vars) clause.items }
    requires first { IsTrue (has clause.items assertion.lit) }
    requires second { MatchOption assertion.second (without clause.items assertion.lit ≡ []) (λ lit. IsTrue (has (without clause.items assertion.lit) lit)) }
    requires watching { IsWatching store.old }
    ensures learns { OnOk result (Learnt store.old store.new clause.items assertion.lit assertion.second) }
    ensures watching { OnOk result (IsWatching store.new) }
    ensures err { OnErr result (store.new ≡ store.old) }
{
    match assertion.second {
        Some(second) => store.push(clause, assertion.lit, second),
        None => store.push_short(clause),
    }
}
