//! One class table typed: the least instance of a rule that it breaks, or none.
#![tactic(auto)]

mod bodies;
mod chains;
mod declarations;
mod inheritance;
mod kind;
mod least;
mod lookups;
mod parameters;
mod scope;
mod typing;
mod visitor;

pub use typing::{TypeError, type_table};

#[cfg(test)]
mod method_tests;
#[cfg(test)]
mod tests;
