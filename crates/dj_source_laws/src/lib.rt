//! Laws of accepted sources, and of sources that tokens spell: what stands once, the order of the parts, and which
//! places tell things apart.
#![tactic(auto)]

mod laws;

pub use laws::{accepted_has_chain, place_tells, said_is_listed, stand_once};
