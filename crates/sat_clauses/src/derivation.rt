//! Derivations: steps that make clauses by resolution.
use crate::literal::Lit;

/// Resolves the clause made so far with the clause of the number `clause`. The first has `pivot`, the second its
/// opposite.
#[derive(Clone, Copy, Debug, PartialEq, Eq)]
pub struct Link {
    pub pivot: Lit,
    pub clause: u64,
}

/// Makes one clause. It begins with the clause of the number `first`, and each link replaces the clause made so far by
/// its literals without the pivot, joined with those of the link's clause without the opposite of the pivot.
#[derive(Debug, PartialEq, Eq, Drop)]
pub struct Step {
    pub first: u64,
    pub chain: Vec<Link>,
}

/// Steps one after the other. Of n given clauses the numbers are 0 to n - 1, and step i, from 0, makes clause n + i.
#[derive(Debug, PartialEq, Eq, Drop)]
pub struct Derivation {
    pub steps: Vec<Step>,
}
