//! A solver of clauses: it finds an assignment that holds them, or derives the empty clause from them.
#![tactic(auto)]

mod analysis;
mod entry;
mod laws;
mod lesson;
mod order;
mod pair;
mod propagate;
mod question;
mod search;
mod solver;
mod store;
#[cfg(test)]
mod tests;
mod trail;

pub use laws::weight_is_lexicographic;
pub use search::Search;
pub use solver::{Answer, assignment, solve};
pub use store::{Store, greatest};
pub use trail::Trail;
