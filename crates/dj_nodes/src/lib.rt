//! Names from tokens, and the nodes of formulas and expressions, put into arenas.
#![tactic(auto)]

mod expression;
mod formula;
mod spot;

pub use expression::{ExprNodes, add_expr};
pub use formula::{FormulaNodes, add_formula};
pub use spot::add_spot;
