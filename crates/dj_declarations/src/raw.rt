//! Declarations as their tokens, which are spans of the text that was read.
use dj_lexer::Token;
use dj_nodes::{ExprNodes, FormulaNodes};

/// A field or a parameter, with its type.
#[derive(Clone, Copy, Drop)]
pub struct RawField {
    pub kind: Token,
    pub name: Token,
}

/// A method, whose body is its nodes in post-order.
#[derive(Drop)]
pub struct RawMethod {
    pub declared: RawField,
    pub parameters: Vec<RawField>,
    pub body: ExprNodes,
}

/// A field or a method.
#[derive(Drop)]
pub enum RawMember {
    Field(RawField),
    Method(RawMethod),
}

/// A class, with its superclass where one is given, and its members in order.
#[derive(Drop)]
pub struct RawClass {
    pub name: Token,
    pub parent: Option<Token>,
    pub members: Vec<RawMember>,
}

/// What a delta does to a member of a class that it modifies.
#[derive(Drop)]
pub enum RawMemberOp {
    Adds(RawMember),
    Modifies(RawMethod),
    RemovesField(Token),
    RemovesMethod(Token),
}

/// The change of a class: its new superclass where one is given, and what is done to its members, in order.
#[derive(Drop)]
pub struct RawChange {
    pub name: Token,
    pub parent: Option<Token>,
    pub members: Vec<RawMemberOp>,
}

/// What a delta does to a class.
#[derive(Drop)]
pub enum RawClassOp {
    Adds(RawClass),
    Modifies(RawChange),
    Removes(Token),
}

/// A delta and its operations, in order.
#[derive(Drop)]
pub struct RawDelta {
    pub name: Token,
    pub ops: Vec<RawClassOp>,
}

/// A delta in a part, with its condition as nodes in post-order.
#[derive(Drop)]
pub struct RawItem {
    pub delta: Token,
    pub when: Option<FormulaNodes>,
}

/// A part, the part that it comes after, if any, and its deltas in order.
#[derive(Drop)]
pub struct RawPart {
    pub name: Token,
    pub after: Option<Token>,
    pub items: Vec<RawItem>,
}

/// A product line: its name, features, formula of valid configurations (nodes in post-order), parts and deltas.
#[derive(Drop)]
pub struct RawSource {
    pub title: Token,
    pub features: Vec<Token>,
    pub valid: FormulaNodes,
    pub parts: Vec<RawPart>,
    pub deltas: Vec<RawDelta>,
}
