//! Reads formulas, token by token, however deep they nest.
#![tactic(auto)]

mod formula;
mod laws;
mod machine;
mod steps;

pub use formula::read_formula;
pub use laws::{formulas_are_read, one_formula};
pub use machine::FormulaMark;
