//! The names by which the things of a source are told apart, in lists.
ghost use Rattle.std.specs.Prelude.{◌≡◌, map, IfOk};
ghost use Rattle.std.specs.List.{filter_map, flat_map};
ghost use Rattle.dj_faults.specs.Spots.{class_spot, field_spot, method_spot};

use dj_tree::{ClassOp, DeltaDecl, FieldDecl, Item, MemberOp, Method, PartDecl, Spot};
use std::alloc::{AllocError as NoMemory, Global};

// The name of each delta.
pub fn delta_names(alloc: Global, deltas: &[DeltaDecl]) -> Result<Vec<Spot>, NoMemory>
    ensures { IfOk result (λ v. v.items ≡ map (λ d. d.spot) deltas.now) }
{
    let mut names = Vec::new(alloc);
    for delta in deltas {
        names.push(delta.spot)?;
    }
    Ok(names)
}

// The deltas that items name.
fn deltas_of(alloc: Global, items: &[Item]) -> Result<Vec<Spot>, NoMemory>
    ensures { IfOk result (λ v. v.items ≡ map (λ i. i.delta) items.now) }
{
    items.iter().map(|item| item.delta).collect(alloc)
}

// The deltas that the items of all parts name.
pub fn item_names(alloc: Global, parts: &[PartDecl]) -> Result<Vec<Spot>, NoMemory>
    ensures { IfOk result (λ v. v.items ≡ flat_map (λ p. map (λ i. i.delta) p.items) parts.now) }
{
    let mut names = Vec::new(alloc);
    for part in parts {
        let more = deltas_of(alloc, part.items.as_slice())?;
        names.extend_from_slice(&more)?;
    }
    Ok(names)
}

// The name of each part.
pub fn part_names(alloc: Global, parts: &[PartDecl]) -> Result<Vec<Spot>, NoMemory>
    ensures { IfOk result (λ v. v.items ≡ map (λ p. p.spot) parts.now) }
{
    parts.iter().map(|part| part.spot).collect(alloc)
}

// The names of the parts that some part comes after.
pub fn after_names(alloc: Global, parts: &[PartDecl]) -> Result<Vec<Spot>, NoMemory>
    ensures { IfOk result (λ v. v.items ≡ filter_map (λ p. p.after) parts.now) }
{
    parts.iter().filter_map(|part| part.after).collect(alloc)
}

// The name of each field.
pub fn field_names(alloc: Global, fields: &[FieldDecl]) -> Result<Vec<Spot>, NoMemory>
    ensures { IfOk result (λ v. v.items ≡ map (λ f. f.spot) fields.now) }
{
    fields.iter().map(|field| field.spot).collect(alloc)
}

// The name of each method.
pub fn method_names(alloc: Global, methods: &[Method]) -> Result<Vec<Spot>, NoMemory>
    ensures { IfOk result (λ v. v.items ≡ map (λ m. m.spot) methods.now) }
{
    methods.iter().map(|method| method.spot).collect(alloc)
}

// The class that an operation is on.
pub fn class_of(operation: &ClassOp) -> Spot
    ensures { result ≡ class_spot operation.now }
{
    match operation {
        ClassOp::Adds(class) => class.spot,
        ClassOp::Modifies(change) => change.spot,
        ClassOp::Removes(spot) => *spot,
    }
}

// The field that an operation is on, where it is on one.
fn field_of(operation: &MemberOp) -> Option<Spot>
    ensures { result ≡ field_spot operation.now }
{
    match operation {
        MemberOp::AddsField(field) => Some(field.spot),
        MemberOp::RemovesField(spot) => Some(*spot),
        MemberOp::AddsMethod(_) | MemberOp::ModifiesMethod(_) | MemberOp::RemovesMethod(_) => None,
    }
}

// The method that an operation is on, where it is on one.
fn method_of(operation: &MemberOp) -> Option<Spot>
    ensures { result ≡ method_spot operation.now }
{
    match operation {
        MemberOp::AddsMethod(method) | MemberOp::ModifiesMethod(method) => Some(method.spot),
        MemberOp::RemovesMethod(spot) => Some(*spot),
        MemberOp::AddsField(_) | MemberOp::RemovesField(_) => None,
    }
}

// The class that each operation is on.
pub fn classes_changed(alloc: Global, operations: &[ClassOp]) -> Result<Vec<Spot>, NoMemory>
    ensures { IfOk result (λ v. v.items ≡ map class_spot operations.now) }
{
    let mut names = Vec::new(alloc);
    for operation in operations {
        names.push(class_of(operation))?;
    }
    Ok(names)
}

// The fields that operations are on.
pub fn fields_changed(alloc: Global, operations: &[MemberOp]) -> Result<Vec<Spot>, NoMemory>
    ensures { IfOk result (λ v. v.items ≡ filter_map field_spot operations.now) }
{
    operations.iter().filter_map(field_of).collect(alloc)
}

// The methods that operations are on.
pub fn methods_changed(alloc: Global, operations: &[MemberOp]) -> Result<Vec<Spot>, NoMemory>
    ensures { IfOk result (λ v. v.items ≡ filter_map method_spot operations.now) }
{
    operations.iter().filter_map(method_of).collect(alloc)
}
