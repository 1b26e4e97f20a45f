//! The members of an operation, in the order of their names.
ghost use Rattle.std.specs.Prelude.{◌≡◌, ◌<◌, ◌++◌, List, length, All, map, IfOk, OnOk};
ghost use Rattle.dj_names.specs.Texts.{Text};
ghost use Rattle.dj_tree.specs.declared.expression.ExprNode.{ExprNode};
ghost use Rattle.std.specs.List.Sorted.{IsPermutation};
ghost use Rattle.dj_tree.specs.Plain.{plain_class, plain_change, plain_field, plain_method, plain_member};
ghost use Rattle.dj_tree.specs.Trees.{adds_field, adds_method, adds_class, modifies_class};
ghost use Rattle.dj_tree.specs.WellFormed.{IsField, IsMethod, IsMember, IsClass, IsChange};
ghost use Rattle.dj_source_laws.specs.Once.{members_in};
ghost use Rattle.dj_apply.specs.Members.{plain_taken, plain_members, IsTaken};

use dj_names::Name;
use dj_tree::{ClassChange, ClassDecl, FieldDecl, MemberOp, Method, Source, Spot};
use std::alloc::{AllocError as NoMemory, Global};

/// An operation on a member of a class. The fields and the methods of an added class are members that are added to it.
#[derive(Clone, Copy)]
pub enum Member<'a> {
    AddsField(&'a FieldDecl),
    AddsMethod(&'a Method),
    ModifiesMethod(&'a Method),
    RemovesField(Spot),
    RemovesMethod(Spot),
}

/// A member with the text of its name.
#[derive(Clone, Copy)]
pub struct NamedMember<'a> {
    pub name: &'a str,
    pub member: Member<'a>,
}

// The members of an added class, in the order of their names.
pub fn members_of_class<'a>(
    alloc: Global,
    source: &'a Source,
    class: &'a ClassDecl,
) -> Result<Vec<NamedMember<'a>>, NoMemory>
    requires { IsClass source.now.names source.now.exprs class.now }
    ensures members { IfOk result (λ members. IsPermutation (members_in (adds_class (plain_class source.now.names source.now.exprs class.now))) (plain_members source.now.names source.now.exprs members.items)) }
    ensures known { IfOk result (λ members. All (λ m. IsTaken source.now.names source.now.exprs m.member) members.items) }
{
    let mut members = Vec::new(alloc);
    push_fields(&mut members, source, class.fields.as_slice())?;
    push_methods(&mut members, source, class.methods.as_slice())?;
    sort(&mut members)?;
    Ok(members)
}

// The members of a change, in the order of their names.
pub fn members_of_change<'a>(
    alloc: Global,
    source: &'a Source,
    change: &'a ClassChange,
) -> Result<Vec<NamedMember<'a>>, NoMemory>
    requires { IsChange source.now.names source.now.exprs change.now }
    ensures members { IfOk result (λ members. IsPermutation (members_in (modifies_class (plain_change source.now.names source.now.exprs change.now))) (plain_members source.now.names source.now.exprs members.items)) }
    ensures known { IfOk result (λ members. All (λ m. IsTaken source.now.names source.now.exprs m.member) members.items) }
{
    let mut members = Vec::new(alloc);
    push_members(&mut members, source, change.members.as_slice())?;
    sort(&mut members)?;
    Ok(members)
}

// Puts members into the order of their names. What changes one class at its end takes the least time.
fn sort(members: &mut Vec<NamedMember>) -> Result<(), NoMemory>
    ensures { IsPermutation members.old.items members.new.items }
{
    members.sort_by(|one, other| one.name.cmp(other.name))
}

// Puts the fields of an added class behind other members.
fn push_fields<'a>(
    members: &mut Vec<NamedMember<'a>>,
    source: &'a Source,
    fields: &'a [FieldDecl],
) -> Result<(), NoMemory>
    requires fields_known { All (IsField source.now.names) fields.now }
    requires known { All (λ m. IsTaken source.now.names source.now.exprs m.member) members.old.items }
    ensures pushed { OnOk result (plain_members source.now.names source.now.exprs members.new.items
        ≡ plain_members source.now.names source.now.exprs members.old.items ++ map (λ f. adds_field (plain_field source.now.names f)) fields.now) }
    ensures known { OnOk result (All (λ m. IsTaken source.now.names source.now.exprs m.member) members.new.items) }
{
    for field in fields {
        members.push(NamedMember {
            name: source.names.text(field.spot.name),
            member: Member::AddsField(field),
        })?;
    }
    Ok(())
}

// Puts the methods of an added class behind other members.
fn push_methods<'a>(
    members: &mut Vec<NamedMember<'a>>,
    source: &'a Source,
    methods: &'a [Method],
) -> Result<(), NoMemory>
    requires methods_known { All (IsMethod source.now.names source.now.exprs) methods.now }
    requires known { All (λ m. IsTaken source.now.names source.now.exprs m.member) members.old.items }
    ensures pushed { OnOk result (plain_members source.now.names source.now.exprs members.new.items
        ≡ plain_members source.now.names source.now.exprs members.old.items ++ map (λ m. adds_method (plain_method source.now.names source.now.exprs m)) methods.now) }
    ensures known { OnOk result (All (λ m. IsTaken source.now.names source.now.exprs m.member) members.new.items) }
{
    for method in methods {
        members.push(NamedMember {
            name: source.names.text(method.spot.name),
            member: Member::AddsMethod(method),
        })?;
    }
    Ok(())
}

// Puts the members of a change behind other members.
fn push_members<'a>(
    members: &mut Vec<NamedMember<'a>>,
    source: &'a Source,
    operations: &'a [MemberOp],
) -> Result<(), NoMemory>
    requires operations_known { All (IsMember source.now.names source.now.exprs) operations.now }
    requires known { All (λ m. IsTaken source.now.names source.now.exprs m.member) members.old.items }
    ensures pushed { OnOk result (plain_members source.now.names source.now.exprs members.new.items
        ≡ plain_members source.now.names source.now.exprs members.old.items ++ map (plain_member source.now.names source.now.exprs) operations.now) }
    ensures known { OnOk result (All (λ m. IsTaken source.now.names source.now.exprs m.member) members.new.items) }
{
    for operation in operations {
        members.push(named_member(source, operation))?;
    }
    Ok(())
}

// A member of a change with the text of its name.
fn named_member<'a>(source: &'a Source, operation: &'a MemberOp) -> NamedMember<'a>
    requires { IsMember source.now.names source.now.exprs operation.now }
    ensures plain { plain_taken source.now.names source.now.exprs result.member ≡ plain_member source.now.names source.now.exprs operation.now }
    ensures known { IsTaken source.now.names source.now.exprs result.member }
{
    let member = member_of(operation);
    let name = source.names.text(name_of(operation));
    NamedMember { name, member }
}

// The name of a member of a change.
fn name_of(operation: &MemberOp) -> Name
    ensures { (names : List Text) (exprs : List ExprNode) → IsMember names exprs operation.now → result.0 < length names }
{
    match operation {
        MemberOp::AddsField(field) => field.spot.name,
        MemberOp::AddsMethod(method) | MemberOp::ModifiesMethod(method) => method.spot.name,
        MemberOp::RemovesField(spot) | MemberOp::RemovesMethod(spot) => spot.name,
    }
}

// The same member.
fn member_of(operation: &MemberOp) -> Member<'_>
    ensures plain { (names : List Text) (exprs : List ExprNode) → plain_taken names exprs result ≡ plain_member names exprs operation.now }
    ensures known { (names : List Text) (exprs : List ExprNode) → IsMember names exprs operation.now → IsTaken names exprs result }
{
    match operation {
        MemberOp::AddsField(field) => Member::AddsField(field),
        MemberOp::AddsMethod(method) => Member::AddsMethod(method),
        MemberOp::ModifiesMethod(method) => Member::ModifiesMethod(method),
        MemberOp::RemovesField(spot) => Member::RemovesField(*spot),
        MemberOp::RemovesMethod(spot) => Member::RemovesMethod(*spot),
    }
}
