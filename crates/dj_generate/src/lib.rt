//! The Java text of one configuration.
#![tactic(auto)]

mod generation;
mod laws;

pub use dj_variant::VariantError;
pub use generation::generate;
pub use laws::one_text;
