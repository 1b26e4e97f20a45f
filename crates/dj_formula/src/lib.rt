//! Formulas over the features of a product line, and their values in a configuration.
#![tactic(auto)]

mod evaluation;
mod formula;
#[cfg(test)]
mod tests;

pub use evaluation::{eval, eval_in};
pub use formula::{Formula, Gate};
