//! Why a file is refused.
#![tactic(auto)]

mod refusal;

pub use refusal::{JavaFault, Refusal};
