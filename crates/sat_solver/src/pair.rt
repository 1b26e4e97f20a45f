//! The two literals that a clause watches.
ghost use Rattle.std.specs.Prelude.{◌≡◌};
ghost use Rattle.sat_solver.specs.Watching.{guard, moved as moved_to};

use sat_clauses::Lit;

/// The place of a clause of two literals or more, and the two of its literals that it watches by the slots 0 and 1.
#[derive(Clone, Copy, Debug, PartialEq, Eq)]
pub struct Pair {
    pub place: u64,
    pub first: Lit,
    pub second: Lit,
}

impl Pair {
    /// The literal that isn't watched by a slot but by the other.
    pub(crate) fn guard(self, slot: u8) -> Lit
        ensures { result ≡ guard self slot }
    {
        if slot == 0 { self.second } else { self.first }
    }

    /// The pair that watches another literal by a slot.
    pub(crate) fn moved(self, slot: u8, lit: Lit) -> Pair
        ensures { result ≡ moved_to self slot lit }
    {
        if slot == 0 {
            Pair { first: lit, ..self }
        } else {
            Pair {
                second: lit,
                ..self
            }
        }
    }
}
