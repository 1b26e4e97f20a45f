//! A checker of derivations, which stands on the clauses alone and trusts no solver.
#![tactic(auto)]

mod check;
mod fault;
mod known;
mod resolution;
#[cfg(test)]
mod tests;

pub use check::check_derivation;
pub use fault::{CheckError, StepFault};
