//! Class tables: classes with a superclass, fields and methods, each with the bodies that it keeps.
#![tactic(auto)]

mod copy;
mod entry;
mod fields;
mod keyed;
mod lookups;
mod methods;
mod owned;
mod table;

pub use entry::{Body, ClassEntry, FieldEntry, MethodEntry};
pub use lookups::Found;
pub use table::Table;

#[cfg(test)]
mod tests;
