//! The trail: the literals that became true, in their order.
ghost use Rattle.std.specs.Prelude.{◌≡◌, ◌+◌, ◌++◌, ◌∷◌, [], ◌≤◌, ◌<◌, ◌^◌, length, take, min, false, All, IfOk, None, Some, IfSome, IfNone, IsSome, IsNone, ◌↔◌};
ghost use Rattle.sat_links.specs.Queues.{IsQueue, IsLastFree};
ghost use Rattle.sat_solver.specs.Entries.{entry_of, value_in, values_of, IsFreeIn, decisions, up_to};
ghost use Rattle.sat_solver.specs.Stores.{StoreState};
ghost use Rattle.sat_solver.specs.Trails.{IsTrail, empty_trail, with_entry};
ghost use Rattle.sat_solver.specs.Watching.{IsWatching};
ghost use Rattle.sat_solver.specs.Pairing.{IsNextFalse, Paired};

use crate::entry::Entry;
use sat_clauses::Lit;
use sat_links::DecisionQueue;
use std::alloc::{AllocError as NoMemory, Global};
use std::marker::Model;

/// The literals that became true, oldest first, with their levels. Level 0 needs no decision, and each decision opens
/// the next level.
#[derive(Drop)]
pub struct Trail {
    values: Vec<Option<bool>>,
    levels: Vec<u64>,
    entries: Vec<Entry>,
    level: u64,
    worked: usize,
}

impl Model for Trail {
    ghost use Rattle.std.specs.Prelude.{length, vec_capacity};
    ghost use Rattle.sat_solver.specs.Trails.{TrailState, KeepsTrail};

    ghost Value = { TrailState };

    ghost view = { λ t. record { vars = length t.values.items; entries = t.entries.items; level = t.level; worked = t.worked } };

    ghost invariant = { λ t. KeepsTrail t.values.items t.levels.items t.entries.items t.level t.worked (vec_capacity t.entries) };
}

impl Trail {
    /// A trail of the variables 1 to `vars` on which none has a value.
    pub fn new(alloc: Global, vars: u64) -> Result<Trail, NoMemory>
        ensures empty { IfOk result (λ trail. trail ≡ empty_trail vars) }
        ensures trail { IfOk result IsTrail }
        ensures small { IfOk result (λ _. vars < 2 ^ 63) }
        ensures paired { IfOk result (λ trail. (store : StoreState) → store.vars ≡ vars → IsWatching store → store.seen ≡ 0 → Paired trail store) }
    {
        let count = vars as usize;
        Ok(Trail {
            values: vec![in alloc; None; count]?,
            levels: vec![in alloc; 0; count]?,
            entries: Vec::with_capacity(alloc, count)?,
            level: 0,
            worked: 0,
        })
    }

    /// The values of the variables, that of variable v at v - 1.
    pub fn values(&self) -> &[Option<bool>]
        ensures values { result.now ≡ values_of self.now.vars self.now.entries }
        ensures length { length result.now ≡ self.now.vars }
        ensures trail { IsTrail self.now }
    {
        self.values.as_slice()
    }

    /// The present level.
    pub fn level(&self) -> u64
        ensures { result ≡ self.now.level }
    {
        self.level
    }

    /// The literals with their levels, oldest first.
    pub(crate) fn entries(&self) -> &[Entry]
        ensures entries { result.now ≡ self.now.entries }
        ensures trail { IsTrail self.now }
    {
        self.entries.as_slice()
    }

    /// The level on which a variable got its value.
    pub(crate) fn level_of(&self, var: u64) -> u64
        requires { (1 ≤ var) × (var ≤ self.now.vars) }
        ensures { IfSome (entry_of self.now.entries var) (λ entry. result ≡ entry.level) }
    {
        self.levels[(var - 1) as usize]
    }

    /// Whether the level last noted for a variable is the present one. It is a hint, on which nothing rests.
    pub(crate) fn seems_latest(&self, var: u64) -> bool {
        let at = var.saturating_sub(1) as usize;
        at < self.levels.len() && self.levels[at] == self.level
    }

    /// Puts a literal at the end.
    fn push(&mut self, entry: Entry)
        requires within { (1 ≤ entry.lit.var) × (entry.lit.var ≤ self.old.vars) }
        requires free { value_in self.old.entries entry.lit.var ≡ None }
        requires level { entry.level ≡ decisions (self.old.entries ++ entry ∷ []) }
        ensures pushed { self.new ≡ with_entry self.old entry }
        ensures trail { IsTrail self.new }
    {
        let at = (entry.lit.var - 1) as usize;
        self.values[at] = Some(entry.lit.positive);
        self.levels[at] = entry.level;
        self.entries.push_reserved(entry);
        self.level = entry.level;
    }

    /// Puts a free literal at the end of the present level, forced by the clause at a place.
    pub(crate) fn force(&mut self, lit: Lit, reason: u64)
        requires within { (1 ≤ lit.var) × (lit.var ≤ self.old.vars) }
        requires free { IsFreeIn self.old.entries lit }
        ensures forced { self.new ≡ with_entry self.old (record { lit = lit; level = self.old.level; reason = Some reason }) }
        ensures trail { IsTrail self.new }
    {
        self.push(Entry {
            lit,
            level: self.level,
            reason: Some(reason),
        });
    }

    /// The literal that became false by the first entry that wasn't worked through.
    pub(crate) fn next_false(&self) -> Option<Lit>
        ensures next { IsNextFalse self.now result }
        ensures trail { IsTrail self.now }
    {
        if self.worked < self.entries.len() {
            Some(self.entries[self.worked].lit.opposite())
        } else {
            None
        }
    }

    /// Notes that one literal more was worked through.
    pub(crate) fn work_on(&mut self)
        requires { self.old.worked < length self.old.entries }
        ensures worked { self.new ≡ record self.old { worked = self.old.worked + 1 } }
        ensures trail { IsTrail self.new }
    {
        self.worked += 1;
    }

    /// Opens a level with the last variable of a queue that has no value. It becomes false, and the answer is its
    /// literal. Where all variables have values the answer is `None`, and the trail stays as it is.
    pub fn decide(&mut self, queue: &DecisionQueue) -> Option<Lit>
        requires { IsQueue self.old.vars queue.now }
        ensures last { IfSome result (λ lit. IsLastFree (values_of self.old.vars self.old.entries) queue.now lit.var) }
        ensures negative { IfSome result (λ lit. lit.positive ≡ false) }
        ensures opened { IfSome result (λ lit. self.new ≡ with_entry self.old (record { lit = lit; level = self.old.level + 1; reason = None })) }
        ensures none { IsNone result ↔ All IsSome (values_of self.old.vars self.old.entries) }
        ensures unchanged { IfNone result (self.new ≡ self.old) }
        ensures vars { self.new.vars ≡ self.old.vars }
        ensures trail { IsTrail self.new }
        ensures paired { (store : StoreState) → Paired self.old store → self.old.worked ≡ length self.old.entries → Paired self.new store }
    {
        let var = queue.last_free(self.values())?;
        let lit = Lit {
            var,
            positive: false,
        };
        self.decide_literal(lit);
        Some(lit)
    }

    /// Opens a level with a free literal, which becomes true.
    pub fn decide_literal(&mut self, lit: Lit)
        requires within { (1 ≤ lit.var) × (lit.var ≤ self.old.vars) }
        requires free { IsFreeIn self.old.entries lit }
        ensures opened { self.new ≡ with_entry self.old (record { lit = lit; level = self.old.level + 1; reason = None }) }
        ensures trail { IsTrail self.new }
        ensures paired { (store : StoreState) → Paired self.old store → self.old.worked ≡ length self.old.entries → Paired self.new store }
    {
        self.push(Entry {
            lit,
            level: self.level + 1,
            reason: None,
        });
    }

    /// Drops the literals of all levels above a level, which is then the present one.
    pub fn jump_back(&mut self, level: u64)
        requires { level ≤ self.old.level }
        ensures entries { self.new.entries ≡ up_to level self.old.entries }
        ensures prefix { self.new.entries ≡ take (length self.new.entries) self.old.entries }
        ensures level { self.new.level ≡ level }
        ensures worked { self.new.worked ≡ min self.old.worked (length self.new.entries) }
        ensures vars { self.new.vars ≡ self.old.vars }
        ensures trail { IsTrail self.new }
        ensures paired { (store : StoreState) → Paired self.old store → Paired self.new store }
    {
        'back: while let Some(last) = self.entries.last().copied() {
            if last.level <= level {
                break;
            }
            self.values[(last.lit.var - 1) as usize] = None;
            self.entries.pop();
        }
        self.level = level;
        self.worked = self.worked.min(self.entries.len());
    }
}
