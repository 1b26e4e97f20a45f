//! The solver.
ghost use Rattle.std.specs.Prelude.{◌≡◌, false, map, unwrap_or, IfOk};
ghost use Rattle.sat_solver.specs.Solutions.{IsAnswer};

use crate::search::{Search, Turn};
use sat_clauses::{Assignment, Clauses, Derivation};
use std::alloc::{AllocError as NoMemory, Global};

/// What `solve` finds: an assignment that holds the clauses, or a derivation of the empty clause from them.
#[derive(Debug, PartialEq, Eq, Drop)]
pub enum Answer {
    Sat(Assignment),
    Unsat(Derivation),
}

/// Finds an assignment that holds the clauses, or a derivation of the empty clause from them.
pub fn solve(alloc: Global, clauses: &Clauses) -> Result<Answer, NoMemory>
    ensures { IfOk result (IsAnswer clauses.now) }
{
    let mut search = Search::new(alloc, clauses)?;
    'turns: loop {
        match search.turn(alloc)? {
            Turn::GoesOn => {}
            Turn::Holds => return Ok(Answer::Sat(assignment(alloc, search.trail.values())?)),
            Turn::Derives => return Ok(Answer::Unsat(search.into_derivation())),
        }
    }
}

/// The values as an assignment, in which a variable without a value is false.
pub fn assignment(alloc: Global, values: &[Option<bool>]) -> Result<Assignment, NoMemory>
    ensures { IfOk result (λ assignment. assignment.values.items ≡ map (λ value. unwrap_or value false) values.now) }
{
    let values = values
        .iter()
        .map(|value| value.unwrap_or(false))
        .collect(alloc)?;
    Ok(Assignment { values })
}
