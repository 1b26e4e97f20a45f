//! A solver that is asked about one set of clauses time and again, each time under other assumptions.
#![tactic(auto)]

mod inquiry;
mod session;
mod solver;
#[cfg(test)]
mod tests;

pub use solver::{AnswerWith, Solver};
