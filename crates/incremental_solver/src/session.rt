//! Questions about one set of clauses, one after the other.
ghost use Rattle.std.specs.Prelude.{◌≡◌, ℕ, ◌≤◌, ◌<◌, [], List, length, slice_get, Some, All, OnOk, IfOk};
ghost use Rattle.sat_clauses.specs.declared.literal.Lit.{Lit};
ghost use Rattle.sat_clauses.specs.Literals.{IsLiteral};
ghost use Rattle.incremental_solver.specs.Answers.{IsAnswerWith};

use crate::inquiry::inquire;
use crate::solver::AnswerWith;
use sat_clauses::{Clauses, Lit};
use sat_solver::{Search, greatest};
use std::alloc::{AllocError as NoMemory, Global};

/// The search, which is kept from one question to the next, and how many of the added clauses it knows.
#[derive(Drop)]
pub(crate) struct Session {
    alloc: Global,
    pub(crate) search: Search,
    pub(crate) known: u64,
}

impl Session {
    ghost use Rattle.incremental_solver.specs.Sessions.{IsSession, IsReady, FitsNew};

    /// A search without clauses.
    pub(crate) fn new(alloc: Global) -> Result<Session, NoMemory>
        ensures { IfOk result (IsSession []) }
    {
        let search = Search::new(alloc, &Clauses::new(alloc))?;
        Ok(Session {
            alloc,
            search,
            known: 0,
        })
    }

    /// Finds an assignment that holds the added clauses and makes the assumptions true, or that there is none.
    pub(crate) fn solve_with(
        &mut self,
        added: &Clauses,
        assumptions: &[Lit],
    ) -> Result<AnswerWith, NoMemory>
        requires session { IsSession added.now self.old }
        requires literals { All IsLiteral assumptions.now }
        ensures session { IsSession added.now self.new }
        ensures answer { IfOk result (IsAnswerWith added.now assumptions.now) }
    {
        self.take_over(added, assumptions)?;
        inquire(self.alloc, &mut self.search, assumptions)
    }

    /// Takes over the clauses that were added since the last question, and makes room for the variables of the
    /// assumptions. Then no level is open.
    fn take_over(&mut self, added: &Clauses, assumptions: &[Lit]) -> Result<(), NoMemory>
        requires session { IsSession added.now self.old }
        ensures session { IsSession added.now self.new }
        ensures ready { OnOk result (IsReady added.now assumptions.now self.new) }
    {
        let vars = self.room(added, assumptions);
        if self.known == added.count() && vars == self.search.store.vars() {
            self.search.jump_back(0);
            return Ok(());
        }
        self.search.reach(self.alloc, vars)?;
        self.take_new(added)
    }

    /// The greatest variable of the search, the assumptions and the clauses that it doesn't know.
    fn room(&self, added: &Clauses, assumptions: &[Lit]) -> u64
        ensures old { self.now.search.store.vars ≤ result }
        ensures assumed { All (λ lit. lit.var ≤ result) assumptions.now }
        ensures new { FitsNew added.now self.now.known result }
    {
        let mut vars = greatest(assumptions).max(self.search.store.vars());
        for place in self.known..added.count() {
            vars = greatest(added.clause(place)).max(vars);
        }
        vars
    }

    /// Takes over the clauses that it doesn't know, while no variable has a value.
    fn take_new(&mut self, added: &Clauses) -> Result<(), NoMemory>
        requires session { IsSession added.now self.old }
        requires empty { self.old.search.trail.entries ≡ [] }
        requires fits { FitsNew added.now self.old.known self.old.search.trail.vars }
        ensures session { IsSession added.now self.new }
        ensures all { OnOk result (self.new.known ≡ length added.now) }
        ensures trail { OnOk result (self.new.search.trail ≡ self.old.search.trail) }
    {
        for place in self.known..added.count() {
            let clause = Vec::from_slice(self.alloc, added.clause(place))?;
            self.search.add(clause)?;
            self.known = place + 1;
        }
        Ok(())
    }
}
