//! The clauses that a step may use.
ghost use Rattle.std.specs.Prelude.{◌≡◌, ◌++◌, slice_get, All, IfSome};
ghost use Rattle.std.specs.Option.{option_copied};
ghost use Rattle.std.specs.List.{IsDistinct};
ghost use Rattle.sat_clauses.specs.Literals.{same_literal};
ghost use Rattle.sat_clauses.specs.ClauseLists.{literal_lists};

use sat_clauses::{Clauses, Lit};

/// The clause of a number, of the given ones and then of those that steps made.
pub(crate) fn known_clause<'a>(
    clauses: &'a Clauses,
    made: &'a [Vec<Lit>],
    number: u64,
) -> Option<&'a [Lit]>
    requires { All (IsDistinct same_literal) (literal_lists made.now) }
    ensures known { option_copied result ≡ slice_get (clauses.now ++ literal_lists made.now) number }
    ensures distinct { IfSome result (λ clause. IsDistinct same_literal clause.now) }
{
    let count = clauses.count();
    if number < count {
        return Some(clauses.clause(number));
    }
    let clause = made.get((number - count) as usize)?;
    Some(clause.as_slice())
}
