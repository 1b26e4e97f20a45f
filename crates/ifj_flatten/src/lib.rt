//! Class tables in which each version of a method is a method of its own.
#![tactic(auto)]

mod body;
mod flat;
mod growing;
mod made;
mod versions;

pub use flat::flatten;

#[cfg(test)]
mod tests;
