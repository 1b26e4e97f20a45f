//! What product lines and Java files declare.
use crate::listed::Listed;
use arena_walk::NodeId;
use dj_names::Name;

/// A name in the source's table of names, with the byte offset of the token that says it.
#[derive(Clone, Copy, Debug, PartialEq, Eq)]
pub struct Spot {
    pub name: Name,
    pub at: u32,
}

/// A field or a parameter, with its type.
#[derive(Clone, Copy, Debug, PartialEq, Eq)]
pub struct FieldDecl {
    pub kind: Spot,
    pub spot: Spot,
}

/// A method, whose body is the tree of a node of the source's expressions.
#[derive(Drop)]
pub struct Method {
    pub result: Spot,
    pub spot: Spot,
    pub parameters: Listed<FieldDecl>,
    pub body: NodeId,
}

/// A class. No parent is `Object`.
#[derive(Drop)]
pub struct ClassDecl {
    pub spot: Spot,
    pub parent: Option<Spot>,
    pub fields: Listed<FieldDecl>,
    pub methods: Listed<Method>,
}

/// An operation on a member of a class.
#[derive(Drop)]
pub enum MemberOp {
    AddsField(FieldDecl),
    AddsMethod(Method),
    ModifiesMethod(Method),
    RemovesField(Spot),
    RemovesMethod(Spot),
}

/// A change of a class: a new parent, where one is given, and operations on its members.
#[derive(Drop)]
pub struct ClassChange {
    pub spot: Spot,
    pub parent: Option<Spot>,
    pub members: Listed<MemberOp>,
}

/// An operation on a class.
#[derive(Drop)]
pub enum ClassOp {
    Adds(ClassDecl),
    Modifies(ClassChange),
    Removes(Spot),
}

/// A delta module.
#[derive(Drop)]
pub struct DeltaDecl {
    pub spot: Spot,
    pub ops: Listed<ClassOp>,
}

/// A delta's place in a part, with its condition: the tree of a node of the source's formulas. No
/// condition is true.
#[derive(Clone, Copy, Debug, PartialEq, Eq)]
pub struct Item {
    pub delta: Spot,
    pub when: Option<NodeId>,
}

/// A part, with the name of the part that it follows, where it follows one.
#[derive(Drop)]
pub struct PartDecl {
    pub spot: Spot,
    pub after: Option<Spot>,
    pub items: Listed<Item>,
}
