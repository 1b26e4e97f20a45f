//! Reads expressions, token by token, however deep they nest.
#![tactic(auto)]

mod expression;
mod finishing;
mod laws;
mod machine;
mod steps;

pub use expression::read_expr;
pub use laws::{expressions_are_read, one_expression};
pub use machine::ExprMark;
