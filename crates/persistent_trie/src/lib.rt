//! Maps from numbers to values, of which every version stays as it is.
#![tactic(auto)]

mod node;
mod trie;

pub use trie::{Root, Trie};
