//! A link, checked and followed.
ghost use Rattle.std.specs.Prelude.{◌≡◌, ◌&&◌, IfOk, IsTrue};
ghost use Rattle.sat_clauses.specs.Literals.{opposite as opposite_of};
ghost use Rattle.sat_clauses.specs.ClauseLists.{has, resolvent};

use sat_clauses::{Lit, Resolvent};
use std::alloc::AllocError as NoMemory;

/// Replaces a clause that has the pivot by its resolvent with another that has the opposite of the pivot, and answers
/// `true`. Where one lacks its literal the answer is `false`.
pub(crate) fn resolve(clause: &mut Resolvent, pivot: Lit, other: &[Lit]) -> Result<bool, NoMemory>
    ensures answer { IfOk result (λ found. found ≡ (has clause.old pivot && has other.now (opposite_of pivot))) }
    ensures resolved { IfOk result (λ found. IsTrue found → clause.new ≡ resolvent pivot clause.old other.now) }
{
    if !clause.contains(pivot) || !other.contains(&pivot.opposite()) {
        return Ok(false);
    }
    clause.resolve(pivot, other)?;
    Ok(true)
}
