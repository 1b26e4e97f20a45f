//! Names as numbers, and places of byte offsets.
#![tactic(auto)]

mod names;
mod place;

pub use names::{Name, Names, names_are_distinct};
pub use place::{Place, place_of};
