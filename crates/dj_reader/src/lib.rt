//! What parsers of the grammar share: single tokens, and what a reader promises.
#![tactic(auto)]

mod reading;
mod stack;
mod terminals;

pub use reading::{ReadError, Reading};
pub use stack::Stack;
pub use terminals::{is_name, is_sign, is_word};
