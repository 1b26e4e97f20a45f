//! The clauses that a solver looks at.
ghost use Rattle.std.specs.Prelude.{◌≡◌, ◌≢◌, ◌++◌, ◌∷◌, [], ◌^◌, ◌<◌, ◌≤◌, length, slice_get, slice_set, All, IsTrue, OnOk, OnErr, IfOk, Some, Contains, List};
ghost use Rattle.sat_clauses.specs.declared.literal.Lit.{Lit};
ghost use Rattle.sat_clauses.specs.ClauseLists.{has, IsClause};
ghost use Rattle.sat_links.specs.Watches.{IsListed, watches_of, joined, StandsAfter, Follows, without as without_watch};
ghost use Rattle.sat_solver.specs.Keeping.{KeepsClauses};
ghost use Rattle.sat_solver.specs.Stores.{greatest_in, greatest_var};
ghost use Rattle.sat_solver.specs.Watching.{guard, moved, Watches, IsWatching};

use crate::pair::Pair;
use sat_clauses::{Clauses, Lit};
use sat_links::{Watch, WatchLists};
use std::alloc::{AllocError as NoMemory, Global};
use std::marker::Model;

/// Clauses by their places, counted from 0, over the variables from 1 to a number. A clause of two literals or more
/// watches two of them; the places of the others stand in a list of their own.
#[derive(Drop)]
pub struct Store {
    clauses: Vec<Vec<Lit>>,
    vars: u64,
    pairs: Vec<Pair>,
    lists: WatchLists,
    short: Vec<u64>,
    seen: usize,
}

impl Model for Store {
    ghost use Rattle.sat_clauses.specs.ClauseLists.{literal_lists};
    ghost use Rattle.sat_solver.specs.Stores.{StoreState};

    ghost Value = { StoreState };

    ghost use Rattle.sat_solver.specs.Keeping.{KeepsClauses};

    ghost view = { λ s. record { clauses = literal_lists s.clauses.items; vars = s.vars; pairs = s.pairs.items; lists = s.lists; short = s.short.items; seen = s.seen } };

    ghost invariant = { λ s. KeepsClauses s.vars (literal_lists s.clauses.items) };
}

impl Store {
    /// The clauses with their places, and the variables up to the greatest that stands in them.
    pub fn new(alloc: Global, clauses: &Clauses) -> Result<Store, NoMemory>
        ensures clauses { IfOk result (λ store. store.clauses ≡ clauses.now) }
        ensures vars { IfOk result (λ store. store.vars ≡ greatest_var clauses.now) }
        ensures watching { IfOk result IsWatching }
        ensures unseen { IfOk result (λ store. store.seen ≡ 0) }
    {
        let mut store = Store::empty(alloc, greatest_of(clauses))?;
        for place in 0..clauses.count() {
            let clause = Vec::from_slice(alloc, clauses.clause(place))?;
            store.add(clause)?;
        }
        Ok(store)
    }

    /// No clauses over the variables up to a number.
    fn empty(alloc: Global, vars: u64) -> Result<Store, NoMemory>
        ensures clauses { IfOk result (λ store. store.clauses ≡ []) }
        ensures vars { IfOk result (λ store. store.vars ≡ vars) }
        ensures watching { IfOk result IsWatching }
        ensures unseen { IfOk result (λ store. store.seen ≡ 0) }
    {
        Ok(Store {
            clauses: Vec::new(alloc),
            vars,
            pairs: Vec::new(alloc),
            lists: WatchLists::new(alloc, vars)?,
            short: Vec::new(alloc),
            seen: 0,
        })
    }

    /// Makes room for the variables up to a number. Without memory the store stays as it is.
    pub(crate) fn reach(&mut self, vars: u64) -> Result<(), NoMemory>
        requires small { vars < 2 ^ 63 }
        requires more { self.old.vars ≤ vars }
        requires watching { IsWatching self.old }
        ensures ok { OnOk result (self.new ≡ record self.old { vars = vars; lists = self.new.lists }) }
        ensures watching { OnOk result (IsWatching self.new) }
        ensures err { OnErr result (self.new ≡ self.old) }
    {
        self.lists.reach(vars)?;
        self.vars = vars;
        Ok(())
    }

    /// Puts a clause last, and lets it watch its first two literals. Without memory the store stays as it is.
    pub(crate) fn add(&mut self, clause: Vec<Lit>) -> Result<(), NoMemory>
        requires clause { IsClause clause.items }
        requires within { All (λ lit. lit.var ≤ self.old.vars) clause.items }
        requires watching { IsWatching self.old }
        ensures clauses { OnOk result (self.new.clauses ≡ self.old.clauses ++ clause.items ∷ []) }
        ensures vars { OnOk result (self.new.vars ≡ self.old.vars) }
        ensures watching { OnOk result (IsWatching self.new) }
        ensures seen { OnOk result (self.new.seen ≡ self.old.seen) }
        ensures err { OnErr result (self.new ≡ self.old) }
    {
        if clause.len() < 2 {
            return self.push_short(clause);
        }
        let (first, second) = (clause[0], clause[1]);
        self.push(clause, first, second)
    }

    /// Puts a clause last that has one literal, or none. Without memory the store stays as it is.
    pub(crate) fn push_short(&mut self, clause: Vec<Lit>) -> Result<(), NoMemory>
        requires clause { IsClause clause.items }
        requires within { All (λ lit. lit.var ≤ self.old.vars) clause.items }
        requires short { length clause.items < 2 }
        requires watching { IsWatching self.old }
        ensures ok { OnOk result (self.new ≡ record self.old { clauses = self.old.clauses ++ clause.items ∷ []; short = self.old.short ++ length self.old.clauses ∷ [] }) }
        ensures watching { OnOk result (IsWatching self.new) }
        ensures err { OnErr result (self.new ≡ self.old) }
    {
        let place = self.clauses.len() as u64;
        self.clauses.reserve(1)?;
        self.short.push(place)?;
        self.clauses.push_reserved(clause);
        Ok(())
    }

    /// Puts a clause last that watches two of its literals. Without memory the store stays as it is.
    pub(crate) fn push(&mut self, clause: Vec<Lit>, first: Lit, second: Lit) -> Result<(), NoMemory>
        requires clause { IsClause clause.items }
        requires within { All (λ lit. lit.var ≤ self.old.vars) clause.items }
        requires first { IsTrue (has clause.items first) }
        requires second { IsTrue (has clause.items second) }
        requires differ { first ≢ second }
        requires watching { IsWatching self.old }
        ensures ok { OnOk result (self.new ≡ record self.old { clauses = self.old.clauses ++ clause.items ∷ []; pairs = self.old.pairs ++ record { place = length self.old.clauses; first = first; second = second } ∷ []; lists = self.new.lists }) }
        ensures watching { OnOk result (IsWatching self.new) }
        ensures err { OnErr result (self.new ≡ self.old) }
    {
        let place = self.clauses.len() as u64;
        self.clauses.reserve(1)?;
        self.pairs.reserve(1)?;
        self.lists.add_clause(first, second)?;
        self.pairs.push_reserved(Pair {
            place,
            first,
            second,
        });
        self.clauses.push_reserved(clause);
        Ok(())
    }

    /// How many clauses there are.
    pub(crate) fn count(&self) -> u64
        ensures count { result ≡ length self.now.clauses }
        ensures few { result < 2 ^ 62 }
        ensures kept { KeepsClauses self.now.vars self.now.clauses }
    {
        self.clauses.as_slice().len() as u64
    }

    /// The number of variables.
    pub fn vars(&self) -> u64
        ensures { result ≡ self.now.vars }
    {
        self.vars
    }

    /// The literals of the clause at a place.
    pub(crate) fn clause(&self, place: u64) -> &[Lit]
        requires { place < length self.now.clauses }
        ensures found { slice_get self.now.clauses place ≡ Some result.now }
        ensures clause { IsClause result.now }
        ensures within { All (λ lit. lit.var ≤ self.now.vars) result.now }
    {
        self.clauses[place as usize].as_slice()
    }

    /// The places of the clauses that watch nothing.
    pub(crate) fn short(&self) -> &[u64]
        ensures { result.now ≡ self.now.short }
    {
        self.short.as_slice()
    }

    /// How many of those were seen to hold on level 0, from the first on.
    pub(crate) fn seen(&self) -> usize
        ensures { result ≡ self.now.seen }
    {
        self.seen
    }

    /// Notes how many were seen.
    pub(crate) fn see(&mut self, seen: usize)
        ensures { self.new ≡ record self.old { seen = seen } }
    {
        self.seen = seen;
    }

    /// The pair of a number.
    pub(crate) fn pair(&self, number: u64) -> Pair
        requires { number < length self.now.pairs }
        ensures { slice_get self.now.pairs number ≡ Some result }
    {
        self.pairs[number as usize]
    }

    /// The first watch of a literal.
    pub(crate) fn first(&self, lit: Lit) -> Option<Watch>
        requires { IsListed self.now.lists lit }
        ensures { result ≡ slice_get (watches_of self.now.lists lit) 0 }
    {
        self.lists.first(lit)
    }

    /// The watch after a watch of a literal.
    pub(crate) fn next(&self, watch: Watch) -> Option<Watch>
        requires { Contains (joined self.now.lists) watch }
        ensures { Follows self.now.lists watch result }
    {
        self.lists.next(watch)
    }

    /// Lets a watch of one literal be one of another.
    pub(crate) fn rewatch(
        &mut self,
        lit: Lit,
        before: Option<Watch>,
        watch: Watch,
        to: Lit,
        pair: Pair,
    )
        requires lit { IsListed self.old.lists lit }
        requires to { IsListed self.old.lists to }
        requires watches { Watches self.old.pairs lit watch }
        requires pair { slice_get self.old.pairs watch.clause ≡ Some pair }
        requires new { to ≢ lit }
        requires other { to ≢ guard pair watch.slot }
        requires there { (clause : List Lit) → slice_get self.old.clauses pair.place ≡ Some clause → IsTrue (has clause to) }
        requires place { StandsAfter (watches_of self.old.lists lit) before watch }
        requires watching { IsWatching self.old }
        ensures store { self.new ≡ record self.old { pairs = slice_set self.old.pairs watch.clause (moved pair watch.slot to); lists = self.new.lists } }
        ensures left { watches_of self.new.lists lit ≡ without_watch watch (watches_of self.old.lists lit) }
        ensures watching { IsWatching self.new }
    {
        self.lists.rewatch(lit, before, watch, to);
        self.pairs[watch.clause as usize] = pair.moved(watch.slot, to);
    }
}

/// The greatest variable that stands in clauses, or 0.
fn greatest_of(clauses: &Clauses) -> u64
    ensures { result ≡ greatest_var clauses.now }
{
    let mut vars = 0;
    for place in 0..clauses.count() {
        vars = greatest(clauses.clause(place)).max(vars);
    }
    vars
}

/// The greatest variable that stands in literals, or 0.
pub fn greatest(lits: &[Lit]) -> u64
    ensures { result ≡ greatest_in lits.now }
{
    let mut greatest = 0;
    for lit in lits {
        greatest = lit.var.max(greatest);
    }
    greatest
}
