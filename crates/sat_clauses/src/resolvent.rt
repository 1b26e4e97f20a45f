//! A clause in the making.
ghost use Rattle.std.specs.Prelude.{◌≡◌, ◌≢◌, ℕ, [], Some, slice_get, IfSome, IfNone, IfOk, OnOk, OnErr};
ghost use Rattle.std.specs.List.{IsDistinct};
ghost use Rattle.indexmap.specs.IndexMap.{get};
ghost use Rattle.sat_clauses.specs.Literals.{same_literal, opposite as opposite_of};
ghost use Rattle.sat_clauses.specs.ClauseLists.{has, with_literal, without, joined, distinct_literals, resolvent};
ghost use Rattle.sat_clauses.specs.Resolvents.{IsPlaced};

use crate::literal::Lit;
use indexmap::IndexMap;
use std::alloc::{AllocError as NoMemory, Global};
use std::marker::Model;

/// A clause to which literals are added, and from which they are taken, by resolution. A clause sees the list of its
/// literals, of which no two are the same.
///
/// A literal that is taken out leaves an empty slot, and its place stays noted. So a literal costs the same however
/// long the clause is, and nothing has to be cleaned between two clauses.
#[derive(Drop)]
pub struct Resolvent {
    slots: Vec<Option<Lit>>,
    places: IndexMap<Lit, usize>,
}

impl Model for Resolvent {
    ghost use Rattle.std.specs.Prelude.{List};
    ghost use Rattle.sat_clauses.specs.declared.literal.Lit.{Lit};

    ghost Value = { List Lit };

    ghost use Rattle.indexmap.specs.IndexMap.{get};
    ghost use Rattle.sat_clauses.specs.Literals.{same_literal};
    ghost use Rattle.sat_clauses.specs.Resolvents.{filled, IsPlaced};

    ghost view = { λ r. filled r.slots.items };

    ghost invariant = { λ r. IsPlaced r.slots.items (get same_literal r.places) };
}

impl Resolvent {
    /// The clause without literals.
    pub fn new(alloc: Global) -> Resolvent
        ensures { result ≡ [] }
    {
        Resolvent {
            slots: Vec::new(alloc),
            places: IndexMap::new(alloc),
        }
    }

    /// Takes all literals out.
    pub fn clear(&mut self)
        ensures { self.new ≡ [] }
    {
        self.slots.clear();
    }

    /// Makes it the clause of some literals, each once, in the order in which they stand first. Without memory it is
    /// empty.
    pub fn start(&mut self, lits: &[Lit]) -> Result<(), NoMemory>
        ensures ok { OnOk result (self.new ≡ distinct_literals lits.now) }
        ensures err { OnErr result (self.new ≡ []) }
    {
        self.clear();
        for lit in lits {
            if let Err(error) = self.insert(*lit) {
                self.clear();
                return Err(error);
            }
        }
        Ok(())
    }

    /// Replaces it by its resolvent with another clause. Without memory it is empty.
    pub fn resolve(&mut self, pivot: Lit, other: &[Lit]) -> Result<(), NoMemory>
        ensures ok { OnOk result (self.new ≡ resolvent pivot self.old other.now) }
        ensures err { OnErr result (self.new ≡ []) }
    {
        let opposite = pivot.opposite();
        self.remove(pivot);
        for lit in other {
            if *lit != opposite {
                if let Err(error) = self.insert(*lit) {
                    self.clear();
                    return Err(error);
                }
            }
        }
        Ok(())
    }

    /// Whether it has a literal.
    pub fn contains(&self, lit: Lit) -> bool
        ensures { result ≡ has self.now lit }
    {
        slot_of(&self.slots, &self.places, lit).is_some()
    }

    /// Its literals in order.
    pub fn literals(&self, alloc: Global) -> Result<Vec<Lit>, NoMemory>
        ensures literals { IfOk result (λ lits. lits.items ≡ self.now) }
        ensures distinct { IfOk result (λ lits. IsDistinct same_literal lits.items) }
    {
        let slots = self.slots.as_slice();
        let mut lits = Vec::new(alloc);
        for slot in slots {
            if let Some(lit) = slot {
                lits.push(*lit)?;
            }
        }
        Ok(lits)
    }

    /// Puts a literal last, where it is new. Without memory the clause stays as it is.
    fn insert(&mut self, lit: Lit) -> Result<(), NoMemory>
        ensures ok { OnOk result (self.new ≡ with_literal self.old lit) }
        ensures err { OnErr result (self.new ≡ self.old) }
    {
        if slot_of(&self.slots, &self.places, lit).is_some() {
            return Ok(());
        }
        self.places.insert(lit, self.slots.len())?;
        self.slots.push(Some(lit))?;
        Ok(())
    }

    /// Takes a literal out, if it is there.
    fn remove(&mut self, lit: Lit)
        ensures { self.new ≡ without self.old lit }
    {
        if let Some(place) = slot_of(&self.slots, &self.places, lit) {
            self.slots[place] = None;
        }
    }
}

/// The place of the slot that a literal fills.
fn slot_of(slots: &[Option<Lit>], places: &IndexMap<Lit, usize>, lit: Lit) -> Option<usize>
    requires { IsPlaced slots.now (get same_literal places.now) }
    ensures there { IfSome result (λ place. slice_get slots.now place ≡ Some (Some lit)) }
    ensures nowhere { IfNone result ((place : ℕ) → slice_get slots.now place ≢ Some (Some lit)) }
{
    let place = *places.get(&lit)?;
    if place < slots.len() && slots[place] == Some(lit) {
        Some(place)
    } else {
        None
    }
}
