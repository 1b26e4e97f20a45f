//! Java files, read from bytes into class tables.
#![tactic(auto)]

mod error;
mod faults;
mod growing;
mod laws;
mod named;
mod reading;
mod tables;
#[cfg(test)]
mod tests;

pub use dj_lexer::LexFault;
pub use dj_refusals::JavaFault;
pub use error::JavaError;
pub use laws::one_answer;
pub use reading::read;
