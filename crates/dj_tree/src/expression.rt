//! Expressions of method bodies.
ghost use Rattle.std.specs.Prelude.{◌≡◌};

use crate::declarations::Spot;
use arena_walk::Shape;

/// A node of an expression. Its parts are its children, from left to right. A number that stands alone
/// or first is the byte offset of a keyword.
#[derive(Clone, Copy, Debug, PartialEq, Eq, Drop)]
pub enum ExprNode {
    /// A parameter by its name.
    Variable(Spot),
    This(u32),
    Null(u32),
    /// A field of the child.
    Field(Spot),
    /// A call of a method of the first child, with so many arguments, the other children.
    Call(Spot, u32),
    /// A new object of a class.
    New(Spot),
    /// The child as an object of a class.
    Cast(Spot),
    /// The second child put into a field of the first.
    Assign(Spot),
    /// A call of the body before, with so many arguments, the children.
    Original(u32, u32),
}

impl Shape for ExprNode {
    ghost use Rattle.dj_tree.specs.Arities.{expr_arity};

    ghost arity_of = { expr_arity };

    fn arity(&self) -> usize {
        match self {
            ExprNode::Variable(_) | ExprNode::This(_) | ExprNode::Null(_) | ExprNode::New(_) => 0,
            ExprNode::Field(_) | ExprNode::Cast(_) => 1,
            ExprNode::Assign(_) => 2,
            ExprNode::Call(_, arguments) => *arguments as usize + 1,
            ExprNode::Original(_, arguments) => *arguments as usize,
        }
    }
}
