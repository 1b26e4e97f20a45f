//! From the bytes of a file to an accepted product line, or to the reason why it is refused.
#![tactic(auto)]

mod laws;
mod reading;
#[cfg(test)]
mod tests;

pub use laws::{one_answer, one_java_table, refusals_are_said};
pub use reading::{FileError, read_line};
