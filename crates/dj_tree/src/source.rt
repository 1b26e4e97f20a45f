//! Whole sources.
use crate::declarations::{ClassDecl, DeltaDecl, PartDecl, Spot};
use crate::expression::ExprNode;
use crate::formula::FormulaNode;
use crate::listed::Listed;
use arena_walk::{Arena, NodeId};
use dj_names::Names;

/// A product line as its text says it, with the names, formulas and expressions that the rest speaks
/// of by number. `plain_source` gives its plain tree.
#[derive(Drop)]
pub struct Source {
    pub names: Names,
    pub title: Spot,
    pub features: Listed<Spot>,
    /// The formula of valid configurations.
    pub valid: NodeId,
    pub parts: Listed<PartDecl>,
    pub deltas: Listed<DeltaDecl>,
    pub formulas: Arena<FormulaNode>,
    pub exprs: Arena<ExprNode>,
}

/// A Java file as its text says it. `plain_java` gives its plain classes.
#[derive(Drop)]
pub struct JavaSource {
    pub names: Names,
    pub classes: Listed<ClassDecl>,
    pub exprs: Arena<ExprNode>,
}

/// A rule that is broken, with the byte offset of its place. The second place is the first again, but
/// for rule 1, which has two.
#[derive(Clone, Copy, Debug, PartialEq, Eq)]
pub struct Instance {
    pub rule: u8,
    pub at: u32,
    pub second: u32,
}
