//! The outside edge: files of the system and an output of it, as `dj_io` sees files and sinks.
#![tactic(auto)]

mod files;
mod output;
#[cfg(test)]
mod tests;

pub use files::SystemFiles;
pub use output::Output;
