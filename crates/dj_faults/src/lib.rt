//! The first fault of a parsed product line.
#![tactic(auto)]

mod classes;
mod deltas;
mod fault;
mod features;
mod least;
mod numbers;
mod operations;
mod parts;
mod spots;
mod trees;

pub use fault::{LineFault, first_fault};
pub use least::earlier;
pub use numbers::repeated;
pub use parts::chain_of;
