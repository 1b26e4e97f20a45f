//! The program, over any files and any output: what it answers to words.
#![tactic(auto)]

mod answer;
mod checking;
mod commands;
mod generation;
mod laws;
mod outcome;
mod program;
mod reading;
mod status;
mod texts;
mod typechecking;

pub use laws::{answers_of_words, generated_texts_typecheck};
pub use program::run;
pub use status::Status;
