//! Formulas over features.
ghost use Rattle.std.specs.Prelude.{◌≡◌};

use crate::declarations::Spot;
use arena_walk::Shape;

/// A node of a formula. Its parts are its children, from left to right.
#[derive(Clone, Copy, Debug, PartialEq, Eq, Drop)]
pub enum FormulaNode {
    True,
    False,
    /// A feature by its name.
    Feature(Spot),
    Not,
    And,
    Or,
    /// The left part implies the right one.
    Implies,
    /// Both parts have the same value.
    Same,
}

impl Shape for FormulaNode {
    ghost use Rattle.dj_tree.specs.Arities.{formula_arity};

    ghost arity_of = { formula_arity };

    fn arity(&self) -> usize {
        match self {
            FormulaNode::True | FormulaNode::False | FormulaNode::Feature(_) => 0,
            FormulaNode::Not => 1,
            FormulaNode::And | FormulaNode::Or | FormulaNode::Implies | FormulaNode::Same => 2,
        }
    }
}
