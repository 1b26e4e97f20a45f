//! Class tables as Java text.
#![tactic(auto)]

mod expression;
mod members;
mod pieces;
mod table;

pub use table::write;

#[cfg(test)]
mod tests;
