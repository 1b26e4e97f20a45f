//! Structures linked by index: a queue of variables, and lists of watches.
#![tactic(auto)]

mod queue;
#[cfg(test)]
mod tests;
mod watches;

pub use queue::DecisionQueue;
pub use watches::{Watch, WatchLists};
