//! Presence conditions: the formulas of a source over the numbers of its features.
#![tactic(auto)]

mod building;
mod numbers;

pub use building::{constant_true, formula_of};
pub use numbers::number_in;
