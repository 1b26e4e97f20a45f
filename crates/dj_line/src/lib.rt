//! Accepted product lines, with their configurations and orders.
#![tactic(auto)]

mod acceptance;
mod configurations;
mod errors;
mod line;
mod order_words;
mod orders;
mod tables;
mod word_pieces;

pub use acceptance::accept;
pub use dj_faults::LineFault;
pub use errors::{Config, ConfigError, LineError, Order, OrderError};
pub use line::Line;
pub use word_pieces::pieces;
