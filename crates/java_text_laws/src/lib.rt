//! Laws of the canonical Java text: it reads back.
#![tactic(auto)]

mod laws;

pub use laws::{flat_products_are_writable, texts_read_back};
