//! Trees in one list, in post-order, and one walk over them that carries a promise on each node to
//! the whole tree.
#![tactic(auto)]

mod arena;
mod visit;

pub use arena::{Arena, NodeId, Shape};
pub use visit::{Visit, WalkError, walk};

#[cfg(test)]
mod tests;
