//! Which members and superclasses the classes of a table have, each found in as many steps as a number has bits, however
//! long the chain of superclasses.
#![tactic(auto)]

mod chains;
mod clashes;
mod lineages;
mod members;
mod owned;
mod signatures;

pub use clashes::turns;
pub use lineages::Lineages;
pub use owned::{Owned, owned_method};
pub use signatures::same_signature;
