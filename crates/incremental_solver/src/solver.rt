//! The solver.
ghost use Rattle.std.specs.Prelude.{◌≡◌, ◌++◌, ◌∷◌, [], length, All, OnOk, OnErr, IfOk};
ghost use Rattle.sat_clauses.specs.Literals.{IsLiteral};
ghost use Rattle.sat_clauses.specs.ClauseLists.{distinct_literals};
ghost use Rattle.incremental_solver.specs.Answers.{IsAnswerWith};

use crate::session::Session;
use sat_clauses::{Assignment, Clauses, Lit};
use std::alloc::{AllocError as NoMemory, Global};
use std::marker::Model;

/// What `solve_with` finds: an assignment that holds clauses and assumptions, or that there is none.
#[derive(Debug, PartialEq, Eq, Drop)]
pub enum AnswerWith {
    Sat(Assignment),
    Unsat,
}

/// Clauses to which others can be added, and about which questions are asked. A clause of a contract sees the list of the
/// added clauses. What the questions taught is kept beside it, and no derivation is.
#[derive(Drop)]
pub struct Solver {
    added: Clauses,
    session: Session,
}

impl Model for Solver {
    ghost use Rattle.std.specs.Prelude.{List};
    ghost use Rattle.sat_clauses.specs.declared.literal.Lit.{Lit};

    ghost Value = { List (List Lit) };

    ghost use Rattle.incremental_solver.specs.Sessions.{IsSession};

    ghost view = { λ s. s.added };

    ghost invariant = { λ s. IsSession s.added s.session };
}

impl Solver {
    /// A solver without clauses.
    pub fn new(alloc: Global) -> Result<Solver, NoMemory>
        ensures { IfOk result (λ solver. solver ≡ []) }
    {
        Ok(Solver {
            added: Clauses::new(alloc),
            session: Session::new(alloc)?,
        })
    }

    /// Puts a clause last and gives its place, from 0. It has each of the literals once, in the order in which they stand
    /// first. Without memory the clauses stay as they are.
    pub fn add_clause(&mut self, lits: &[Lit]) -> Result<u64, NoMemory>
        requires { All IsLiteral lits.now }
        ensures ok { OnOk result (self.new ≡ self.old ++ distinct_literals lits.now ∷ []) }
        ensures place { IfOk result (λ place. place ≡ length self.old) }
        ensures err { OnErr result (self.new ≡ self.old) }
    {
        let place = self.added.push(lits)?;
        Ok(place)
    }

    /// Finds an assignment that holds the clauses and makes the assumptions true, or that there is none. Assumptions may
    /// repeat, oppose each other, or name variables that stand in no clause. The clauses stay, without memory too.
    ///
    /// Clauses that were added since the last call are copied once. Otherwise a call costs what it propagates and decides,
    /// and for an assignment the number of variables.
    pub fn solve_with(&mut self, assumptions: &[Lit]) -> Result<AnswerWith, NoMemory>
        requires { All IsLiteral assumptions.now }
        ensures answer { IfOk result (IsAnswerWith self.old assumptions.now) }
        ensures same { self.new ≡ self.old }
    {
        self.session.solve_with(&self.added, assumptions)
    }
}
