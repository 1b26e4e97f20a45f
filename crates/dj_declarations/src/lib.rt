//! Reads the declarations of product lines and of Java files, exactly as the grammar spells them.
#![tactic(auto)]

mod classes;
mod deltas;
mod laws;
mod members;
mod operations;
mod parts;
mod raw;
mod sources;
mod terminals;
mod trees;

pub use classes::read_classes;
pub use laws::{one_reading, sources_are_read};
pub use raw::{
    RawChange, RawClass, RawClassOp, RawDelta, RawField, RawItem, RawMember, RawMemberOp,
    RawMethod, RawPart, RawSource,
};
pub use sources::read_source;
