//! The well typed product of a configuration, or the least rule that counts in it.
#![tactic(auto)]

mod typed_product;

pub use typed_product::{VariantError, variant};
