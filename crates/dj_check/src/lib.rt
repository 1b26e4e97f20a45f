//! Lines of few features judged configuration by configuration.
#![tactic(auto)]

mod choices;
mod trial;

pub use choices::is_valid;
pub use trial::{MOST_FEATURES, Small, check_small, is_void};
