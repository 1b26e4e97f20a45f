//! Formulas as trees of gates.

use arena_walk::{Arena, NodeId, Shape};

/// A node of a formula. Its operands are its children, in order.
#[derive(Clone, Copy, Debug, PartialEq, Eq)]
pub enum Gate {
    /// A truth value, over no operand.
    Constant(bool),
    /// Whether the feature of this number is chosen, over no operand. Numbers count from 0.
    Feature(u32),
    /// Over one operand.
    Not,
    /// Over two operands.
    And,
    /// Over two operands.
    Or,
    /// The first of two operands implies the second.
    Implies,
    /// Both of two operands are true, or both are false.
    Same,
}

impl Shape for Gate {
    ghost use Rattle.dj_formula.specs.Gates.{operands};

    ghost arity_of = { operands };

    fn arity(&self) -> usize {
        match self {
            Gate::Constant(_) | Gate::Feature(_) => 0,
            Gate::Not => 1,
            Gate::And | Gate::Or | Gate::Implies | Gate::Same => 2,
        }
    }
}

/// A formula: the tree of `nodes` whose root has the number `root`, which is `tree_of`. Other nodes of
/// the arena don't belong to it.
#[derive(Drop)]
pub struct Formula {
    pub nodes: Arena<Gate>,
    pub root: NodeId,
}
