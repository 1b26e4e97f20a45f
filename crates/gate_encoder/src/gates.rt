//! Named gates over a list of clauses.

ghost use Rattle.std.specs.Prelude.{◌≡◌, ◌+◌, ◌<◌, ◌≤◌, ◌^◌, true, All, IfSome, IfOk, OnOk, OnErr, length, is_some};
ghost use Rattle.std.specs.List.{position_or_len};
ghost use Rattle.std.specs.Map.{keys_of};
ghost use Rattle.gate_encoder.specs.Entries.{numbered, stated, all_of, any_of, equal_of};
ghost use Rattle.gate_encoder.specs.Writing.{IsNumbered, nothing, has_number, literal, steps, write, gate_steps, after_steps, IsCut};
ghost use Rattle.gate_encoder.specs.Appending.{clauses_of, literals_in};

use crate::parts::{Parts, push_gate};
use indexmap::IndexSet;
use sat_clauses::{Clauses, Lit};
use std::alloc::{AllocError as NoMemory, Global};
use std::hash::Hash;
use std::marker::Model;

/// Clauses under construction, in which keys have literals. The first key has the variable 1, and each other one the next; a key
/// without a gate is a variable that is free. Contracts see the keys in the order of their numbers, each with whether its gate is
/// written, and the clauses.
#[derive(Drop)]
pub struct Gates<K: Eq + Hash + Drop> {
    keys: IndexSet<K>,
    // Of each key, whether its gate is written.
    written: Vec<bool>,
    clauses: Clauses,
}

impl<K: Eq + Hash + Drop> Model for Gates<K> {
    ghost use Rattle.gate_encoder.specs.Writing.{Written};

    ghost Value = { Written K };

    ghost use Rattle.std.specs.Prelude.{◌≡◌, length};
    ghost use Rattle.std.specs.List.{zip};

    ghost view = { λ g. record { keys = zip g.keys.keys g.written.items; clauses = g.clauses } };

    ghost invariant = { λ g. length g.written.items ≡ length g.keys.keys };
}

impl<K: Eq + Hash + Drop> Gates<K> {
    /// Nothing written.
    pub fn new(alloc: Global) -> Gates<K>
        ensures { result ≡ nothing }
    {
        Gates {
            keys: IndexSet::new(alloc),
            written: Vec::new(alloc),
            clauses: Clauses::new(alloc),
        }
    }

    /// The positive literal of a key's variable, or `None` where the key has no number.
    pub fn lit(&self, key: &K) -> Option<Lit>
        ensures numbered { is_some result ≡ has_number K.eq self.now key.now }
        ensures literal { IfSome result (λ lit. lit ≡ literal K.eq self.now key.now) }
    {
        let place = self.keys.get_index_of(key)?;
        Some(literal_at(place))
    }

    /// The literal of a key, which gets the next number where it has none. Without memory nothing changes.
    pub fn number(&mut self, key: K) -> Result<Lit, NoMemory>
        ensures written { OnOk result (self.new ≡ write K.eq self.old (numbered key)) }
        ensures literal { IfOk result (λ lit. lit ≡ literal K.eq self.old key) }
        ensures numbered { IfOk result (IsNumbered self.new) }
        ensures grown { length self.old.keys ≤ length self.new.keys }
        ensures err { OnErr result (self.new ≡ self.old) }
    {
        let place = self.place_of(key)?;
        Ok(literal_at(place))
    }

    /// States a clause over literals of keys. Without memory nothing changes.
    pub fn assert(&mut self, lits: &[Lit]) -> Result<(), NoMemory>
        requires { All (IsNumbered self.old) lits.now }
        ensures written { OnOk result (self.new ≡ write K.eq self.old (stated lits.now)) }
        ensures err { OnErr result (self.new ≡ self.old) }
    {
        self.clauses.push(lits)?;
        Ok(())
    }

    /// Writes the gate of a key that is true where all parts are, and gives the key's literal. A key keeps the number that it has,
    /// and another gets the next. Of a key whose gate is written already nothing is written. After `NoMemory` only the first
    /// steps were taken: the number, and some of the clauses.
    pub fn and(&mut self, key: K, parts: &[Lit]) -> Result<Lit, NoMemory>
        requires { All (IsNumbered self.old) parts.now }
        ensures written { OnOk result (self.new ≡ write K.eq self.old (all_of key parts.now)) }
        ensures literal { IfOk result (λ lit. lit ≡ literal K.eq self.old key) }
        ensures numbered { IfOk result (IsNumbered self.new) }
        ensures grown { length self.old.keys ≤ length self.new.keys }
        ensures err { OnErr result (IsCut K.eq self.old (steps K.eq self.old (all_of key parts.now)) self.new) }
    {
        self.gate(key, Parts::All(parts))
    }

    /// Writes the gate of a key that is true where a part is, as `and` writes one.
    pub fn or(&mut self, key: K, parts: &[Lit]) -> Result<Lit, NoMemory>
        requires { All (IsNumbered self.old) parts.now }
        ensures written { OnOk result (self.new ≡ write K.eq self.old (any_of key parts.now)) }
        ensures literal { IfOk result (λ lit. lit ≡ literal K.eq self.old key) }
        ensures numbered { IfOk result (IsNumbered self.new) }
        ensures grown { length self.old.keys ≤ length self.new.keys }
        ensures err { OnErr result (IsCut K.eq self.old (steps K.eq self.old (any_of key parts.now)) self.new) }
    {
        self.gate(key, Parts::Any(parts))
    }

    /// Writes the gate of a key that is true where two literals have one value, as `and` writes one.
    pub fn equal(&mut self, key: K, left: Lit, right: Lit) -> Result<Lit, NoMemory>
        requires left { IsNumbered self.old left }
        requires right { IsNumbered self.old right }
        ensures written { OnOk result (self.new ≡ write K.eq self.old (equal_of key left right)) }
        ensures literal { IfOk result (λ lit. lit ≡ literal K.eq self.old key) }
        ensures numbered { IfOk result (IsNumbered self.new) }
        ensures grown { length self.old.keys ≤ length self.new.keys }
        ensures err { OnErr result (IsCut K.eq self.old (steps K.eq self.old (equal_of key left right)) self.new) }
    {
        self.gate(key, Parts::Equal(left, right))
    }

    // The allocator of all that is kept.
    pub(crate) fn allocator(&self) -> Global {
        *self.written.allocator()
    }

    // Writes a key's gate.
    fn gate(&mut self, key: K, parts: Parts) -> Result<Lit, NoMemory>
        requires { All (IsNumbered self.old) (literals_in parts) }
        ensures written { OnOk result (self.new ≡ after_steps K.eq self.old (gate_steps K.eq self.old key (clauses_of (literal K.eq self.old key) parts.entry))) }
        ensures literal { IfOk result (λ lit. lit ≡ literal K.eq self.old key) }
        ensures numbered { IfOk result (IsNumbered self.new) }
        ensures grown { length self.old.keys ≤ length self.new.keys }
        ensures err { OnErr result (IsCut K.eq self.old (gate_steps K.eq self.old key (clauses_of (literal K.eq self.old key) parts.entry)) self.new) }
    {
        let place = self.place_of(key)?;
        let lit = literal_at(place);
        if !self.written[place] {
            push_gate(self.allocator(), &mut self.clauses, lit, parts)?;
            self.written[place] = true;
        }
        Ok(lit)
    }

    // The place of a key among the keys, which is the next one where the key has none.
    fn place_of(&mut self, key: K) -> Result<usize, NoMemory>
        ensures written { OnOk result (self.new ≡ write K.eq self.old (numbered key)) }
        ensures grown { length self.old.keys ≤ length self.new.keys }
        ensures place { IfOk result (λ place. place ≡ position_or_len (K.eq key) (keys_of self.old.keys)) }
        ensures within { IfOk result (λ place. place < length self.new.keys) }
        ensures small { OnOk result (length self.new.keys < 2 ^ 63) }
        ensures err { OnErr result (self.new ≡ self.old) }
    {
        self.written.reserve(1)?;
        let (place, added) = self.keys.insert_full(key)?;
        if added {
            self.written.push_reserved(false);
        }
        Ok(place)
    }

    /// The clauses that were written.
    pub fn into_clauses(self) -> Clauses
        ensures { result ≡ self.clauses }
    {
        self.clauses
    }
}

// The positive literal of the key at a place, whose number is one more.
fn literal_at(place: usize) -> Lit
    requires { place + 1 < 2 ^ 63 }
    ensures { result ≡ record { var = place + 1; positive = true } }
{
    Lit {
        var: place as u64 + 1,
        positive: true,
    }
}
