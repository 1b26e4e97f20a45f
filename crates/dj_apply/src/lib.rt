//! From a line and a configuration to its class table, or to the least rule that it breaks on the way there.
#![tactic(auto)]

mod apply;
mod attempts;
mod bodies;
mod conflict_search;
mod growing;
mod least;
mod least_places;
mod members;
mod overlaps;
mod parts;
mod pass;
mod products;
mod rules;
mod signatures;
mod steps;
mod things;

pub use overlaps::{Thing, overlap};
pub use products::{ApplyError, product};
pub use rules::judge;
