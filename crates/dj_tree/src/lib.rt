//! Syntax trees of product lines and of Java files, and their grammar as a relation.
#![tactic(auto)]

mod declarations;
mod expression;
mod formula;
mod laws;
mod listed;
mod source;

pub use declarations::{
    ClassChange, ClassDecl, ClassOp, DeltaDecl, FieldDecl, Item, MemberOp, Method, PartDecl, Spot,
};
pub use expression::ExprNode;
pub use formula::FormulaNode;
pub use laws::{grammar_examples, spelled_is_laid};
pub use listed::Listed;
pub use source::{Instance, JavaSource, Source};
