//! Lists of watched literals.
ghost use Rattle.std.specs.Prelude.{◌≡◌, ◌≢◌, ℕ, ◌+◌, ◌-◌, ◌*◌, ◌<◌, ◌≤◌, ◌^◌, [], ◌∷◌, ◌++◌, length, replicate, slice_get, slice_set, slice_index_or, Some, None, Contains, IfSome, OnOk, OnErr, IfOk};
ghost use Rattle.sat_links.specs.Watches.{place_of, IsListed, watches_of, joined, slot_of, HasClauses, without, OthersStay, StandsAfter, Follows};
ghost use Rattle.sat_links.specs.Links.{next_of, Relinks, Cuts};
ghost use Rattle.std.specs.List.Sorted.{IsPermutation};

use sat_clauses::Lit;
use std::alloc::{AllocError as NoMemory, Global};
use std::marker::Model;

/// One of the two literals that a clause watches: the number of the clause, from 0, and slot 0 or 1.
#[derive(Clone, Copy, Debug, PartialEq, Eq, Hash)]
pub struct Watch {
    pub clause: u64,
    pub slot: u8,
}

/// For each literal of some variables the list of its watches. A clause sees the list of these lists, in which that of
/// a literal stands at `place_of` it.
#[derive(Drop)]
pub struct WatchLists {
    links: Links,
}

impl Model for WatchLists {
    ghost use Rattle.std.specs.Prelude.{List};
    ghost use Rattle.sat_links.specs.declared.watches.Watch.{Watch};

    ghost Value = { List (List Watch) };

    ghost use Rattle.sat_links.specs.Links.{lists_of, IsLinked};

    ghost view = { λ w. lists_of w.links.heads.items w.links.next.items };

    ghost invariant = { λ w. IsLinked w.links.heads.items w.links.next.items };
}

impl WatchLists {
    /// An empty list for each literal of the variables from 1 to `vars`.
    pub fn new(alloc: Global, vars: u64) -> Result<WatchLists, NoMemory>
        ensures { IfOk result (λ lists. lists ≡ replicate (2 * vars) []) }
    {
        let mut heads = Vec::new(alloc);
        for _ in 0..vars {
            heads.push(None)?;
            heads.push(None)?;
        }
        let next = Vec::new(alloc);
        Ok(WatchLists {
            links: Links { heads, next },
        })
    }

    /// Adds an empty list for each literal of the variables up to `vars` that has none. Without memory the lists stay as
    /// they are.
    pub fn reach(&mut self, vars: u64) -> Result<(), NoMemory>
        requires small { vars < 2 ^ 63 }
        requires more { length self.old ≤ 2 * vars }
        ensures ok { OnOk result (self.new ≡ self.old ++ replicate (2 * vars - length self.old) []) }
        ensures err { OnErr result (self.new ≡ self.old) }
    {
        self.links.heads.resize(2 * vars as usize, None)?;
        Ok(())
    }

    /// Adds a clause that watches two literals, and gives its number, which is the count of the clauses added before.
    /// Its slot 0 stands first in the list of `first`, and its slot 1 in that of `second`. Without memory the lists
    /// stay as they are.
    pub fn add_clause(&mut self, first: Lit, second: Lit) -> Result<u64, NoMemory>
        requires first { IsListed self.old first }
        requires second { IsListed self.old second }
        requires different { first ≢ second }
        ensures number { IfOk result (λ clause. HasClauses clause self.old) }
        ensures first { IfOk result (λ clause. watches_of self.new first ≡ slot_of clause 0 ∷ watches_of self.old first) }
        ensures second { IfOk result (λ clause. watches_of self.new second ≡ slot_of clause 1 ∷ watches_of self.old second) }
        ensures others { OthersStay self.old self.new first second }
        ensures literals { length self.new ≡ length self.old }
        ensures each_once { IfOk result (λ clause. HasClauses (clause + 1) self.new) }
        ensures err { OnErr result (self.new ≡ self.old) }
    {
        let clause = self.links.next.len() as u64;
        self.links.next.push([None, None])?;
        self.links.put_first(Watch { clause, slot: 0 }, first);
        self.links.put_first(Watch { clause, slot: 1 }, second);
        Ok(clause)
    }

    /// The first watch of a literal, or `None` where it has none.
    pub fn first(&self, lit: Lit) -> Option<Watch>
        requires { IsListed self.now lit }
        ensures { result ≡ slice_get (watches_of self.now lit) 0 }
    {
        self.links.heads[place(lit)]
    }

    /// The watch after one of the watches in the list in which it stands, or `None` where that ends.
    pub fn next(&self, watch: Watch) -> Option<Watch>
        requires { Contains (joined self.now) watch }
        ensures { Follows self.now watch result }
    {
        self.links.next(watch)
    }

    /// Moves a watch of `lit` to the front of the list of `to`. It stands right after `before`, or first for `None`. All
    /// other watches keep their lists and their order.
    pub fn rewatch(&mut self, lit: Lit, before: Option<Watch>, watch: Watch, to: Lit)
        requires lit { IsListed self.old lit }
        requires to { IsListed self.old to }
        requires different { lit ≢ to }
        requires place { StandsAfter (watches_of self.old lit) before watch }
        ensures left { watches_of self.new lit ≡ without watch (watches_of self.old lit) }
        ensures front { watches_of self.new to ≡ watch ∷ watches_of self.old to }
        ensures others { OthersStay self.old self.new lit to }
        ensures literals { length self.new ≡ length self.old }
        ensures same_watches { IsPermutation (joined self.old) (joined self.new) }
    {
        self.links.cut(lit, before, watch);
        self.links.put_first(watch, to);
    }
}

/// The first watch of each literal, and what follows the two watches of each clause.
#[derive(Drop)]
struct Links {
    heads: Vec<Option<Watch>>,
    next: Vec<[Option<Watch>; 2]>,
}

impl Links {
    /// The watch after a watch.
    fn next(&self, watch: Watch) -> Option<Watch>
        requires clause { watch.clause < length self.now.next.items }
        requires slot { watch.slot < 2 }
        ensures { result ≡ next_of self.now.next.items watch }
    {
        self.next[watch.clause as usize][watch.slot as usize]
    }

    /// Makes another watch, or none, follow a watch.
    fn set_next(&mut self, watch: Watch, next: Option<Watch>)
        requires clause { watch.clause < length self.old.next.items }
        requires slot { watch.slot < 2 }
        ensures heads { self.new.heads.items ≡ self.old.heads.items }
        ensures next { Relinks self.old.next.items watch next self.new.next.items }
    {
        set_slot(&mut self.next[watch.clause as usize], watch.slot, next);
    }

    /// Takes a watch out of the list of a literal, in which it stands after `before`, or first.
    fn cut(&mut self, lit: Lit, before: Option<Watch>, watch: Watch)
        requires lit { 1 ≤ lit.var }
        requires place { place_of lit < length self.old.heads.items }
        requires before { IfSome before (λ other. (other.clause < length self.old.next.items) × (other.slot < 2)) }
        requires clause { watch.clause < length self.old.next.items }
        requires slot { watch.slot < 2 }
        ensures { Cuts self.old.heads.items self.old.next.items (place_of lit) before watch self.new.heads.items self.new.next.items }
    {
        let after = self.next(watch);
        match before {
            None => self.heads[place(lit)] = after,
            Some(before) => self.set_next(before, after),
        }
    }

    /// Puts a watch at the front of the list of a literal.
    fn put_first(&mut self, watch: Watch, lit: Lit)
        requires lit { 1 ≤ lit.var }
        requires place { place_of lit < length self.old.heads.items }
        requires clause { watch.clause < length self.old.next.items }
        requires slot { watch.slot < 2 }
        ensures heads { self.new.heads.items ≡ slice_set self.old.heads.items (place_of lit) (Some watch) }
        ensures next { Relinks self.old.next.items watch (slice_index_or self.old.heads.items (place_of lit) None) self.new.next.items }
    {
        let first = self.heads[place(lit)];
        self.set_next(watch, first);
        self.heads[place(lit)] = Some(watch);
    }
}

/// Makes another watch, or none, follow the watch of one slot of a clause.
fn set_slot(links: &mut [Option<Watch>; 2], slot: u8, next: Option<Watch>)
    requires { slot < 2 }
    ensures here { slice_index_or links.new slot None ≡ next }
    ensures others { (other : ℕ) → other ≢ slot → slice_index_or links.new other None ≡ slice_index_or links.old other None }
{
    links[slot as usize] = next;
}

/// The place of a literal among the lists.
fn place(lit: Lit) -> usize
    requires var { 1 ≤ lit.var }
    requires small { place_of lit < 2 ^ 64 }
    ensures { result ≡ place_of lit }
{
    let sign = if lit.positive { 0 } else { 1 };
    2 * (lit.var as usize - 1) + sign
}
