//! The sample line of a number of features.
#![tactic(auto)]

mod line_text;
#[cfg(test)]
mod tests;

pub use line_text::sample;
