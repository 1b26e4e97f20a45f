//! What declarations speak of by number.
use arena_walk::Arena;
use dj_names::Names;
use dj_tree::{ExprNode, FormulaNode};

/// The names and the nodes of formulas and expressions so far.
#[derive(Drop)]
pub struct Tables {
    pub names: Names,
    pub formulas: Arena<FormulaNode>,
    pub exprs: Arena<ExprNode>,
}
