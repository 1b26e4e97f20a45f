//! Literals, and assignments that make them true or false.
ghost use Rattle.std.specs.Prelude.{◌≡◌};
ghost use Rattle.sat_clauses.specs.Literals.{opposite as opposite_of};

/// A variable or its negation. Variables have the numbers from 1 to 9,223,372,036,854,775,807.
#[derive(Clone, Copy, Debug, PartialEq, Eq, Hash)]
pub struct Lit {
    pub var: u64,
    pub positive: bool,
}

impl Lit {
    /// The literal of the same variable with the other sign.
    pub fn opposite(self) -> Lit
        ensures { result ≡ opposite_of self }
    {
        Lit {
            var: self.var,
            positive: !self.positive,
        }
    }
}

/// A value for each variable, the one of variable v at v - 1. A variable past the end is false.
#[derive(Debug, PartialEq, Eq, Drop)]
pub struct Assignment {
    pub values: Vec<bool>,
}
