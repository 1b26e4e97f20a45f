//! Reads product lines and Java files: from their tokens to syntax trees.
#![tactic(auto)]

mod answers;
mod classes;
mod deltas;
mod error;
mod leaves;
mod members;
mod parts;
mod resolve;
mod sources;
mod tables;
#[cfg(test)]
mod tests;

pub use answers::{parse, parse_java};
pub use error::ParseError;
