//! Clauses of literals, assignments, and derivations by resolution.
#![tactic(auto)]

mod clauses;
mod derivation;
mod laws;
mod literal;
mod resolvent;
#[cfg(test)]
mod tests;

pub use clauses::Clauses;
pub use derivation::{Derivation, Link, Step};
pub use laws::{distinct_literals_are_sets, resolution_is_sound, resolvents_are_sets};
pub use literal::{Assignment, Lit};
pub use resolvent::Resolvent;
