//! Faults in the operations of deltas, all found on one way over them.
ghost use Rattle.std.specs.Prelude.{◌≡◌, None, All, map, IfOk};
ghost use Rattle.dj_tree.specs.Plain.{plain_source, plain_method, plain_member, plain_operation};
ghost use Rattle.dj_tree.specs.WellFormed.{IsMethod, IsMember, IsOperation};
ghost use Rattle.dj_calculus.specs.Contents.{class_name};
ghost use Rattle.dj_calculus.specs.FaultPlaces.{FaultStands, Repeats};
ghost use Rattle.dj_faults.specs.LeastPlace.{IsLeastPlace, Among, first_place};
ghost use Rattle.dj_faults.specs.Numbers.{IsSound};
ghost use Rattle.dj_faults.specs.Inside.{Inside, RepeatedOperation, RepeatedMember, RepeatedParameter, line_fault, InMethod, InModified, InMember, Twice, InMethods, InOperation, InOperations};
ghost use Rattle.dj_faults.specs.Places.{place_of, AreLeast};

use crate::least::earlier;
use crate::numbers::repeated;
use crate::spots::{classes_changed, field_names, fields_changed, method_names, methods_changed};
use crate::trees::originals_in;
use dj_tree::{ClassChange, ClassDecl, ClassOp, MemberOp, Method, Source};
use std::alloc::{AllocError as NoMemory, Global};

/// The least place of each fault that stands in operations of deltas.
#[derive(Clone, Copy)]
pub struct Places {
    pub repeated_operation: Option<u32>,
    pub repeated_member: Option<u32>,
    pub repeated_parameter: Option<u32>,
    pub original_outside: Option<u32>,
}

// No fault stands anywhere.
fn nowhere() -> Places
    ensures { (fault : Inside) → place_of result fault ≡ None }
{
    Places {
        repeated_operation: None,
        repeated_member: None,
        repeated_parameter: None,
        original_outside: None,
    }
}

// The lesser of two places, or the only one, for each fault.
fn earlier_each(one: Places, other: Places) -> Places
    ensures { (fault : Inside) → place_of result fault ≡ first_place (place_of one fault) (place_of other fault) }
{
    Places {
        repeated_operation: earlier(one.repeated_operation, other.repeated_operation),
        repeated_member: earlier(one.repeated_member, other.repeated_member),
        repeated_parameter: earlier(one.repeated_parameter, other.repeated_parameter),
        original_outside: earlier(one.original_outside, other.original_outside),
    }
}

// The least place of a parameter that was named before in the method.
fn repeated_parameter(
    alloc: Global,
    source: &Source,
    method: &Method,
) -> Result<Option<u32>, NoMemory>
    requires sound { IsSound source.now }
    requires method { IsMethod source.now.names source.now.exprs method.now }
    ensures { IfOk result (IsLeastPlace (InModified RepeatedParameter (plain_method source.now.names source.now.exprs method.now))) }
{
    let names = field_names(alloc, method.parameters.as_slice())?;
    repeated(alloc, names.as_slice())
}

// The least place of an operation of a change on the field, or on the method, of an earlier one.
fn repeated_member_operation(
    alloc: Global,
    source: &Source,
    change: &ClassChange,
) -> Result<Option<u32>, NoMemory>
    requires sound { IsSound source.now }
    requires change { IsOperation source.now.names source.now.exprs (ClassOp.Modifies change.now) }
    ensures { IfOk result (IsLeastPlace (Twice RepeatedOperation (plain_operation source.now.names source.now.exprs (ClassOp.Modifies change.now)))) }
{
    let fields = fields_changed(alloc, change.members.as_slice())?;
    let methods = methods_changed(alloc, change.members.as_slice())?;
    let field = repeated(alloc, fields.as_slice())?;
    let method = repeated(alloc, methods.as_slice())?;
    Ok(earlier(field, method))
}

// The least place of a field, or of a method, of a class whose name an earlier one has.
fn repeated_member(
    alloc: Global,
    source: &Source,
    class: &ClassDecl,
) -> Result<Option<u32>, NoMemory>
    requires sound { IsSound source.now }
    requires class { IsOperation source.now.names source.now.exprs (ClassOp.Adds class.now) }
    ensures { IfOk result (IsLeastPlace (Twice RepeatedMember (plain_operation source.now.names source.now.exprs (ClassOp.Adds class.now)))) }
{
    let fields = field_names(alloc, class.fields.as_slice())?;
    let methods = method_names(alloc, class.methods.as_slice())?;
    let field = repeated(alloc, fields.as_slice())?;
    let method = repeated(alloc, methods.as_slice())?;
    Ok(earlier(field, method))
}

// The least place of an operation on the class of an earlier one.
fn repeated_class(
    alloc: Global,
    source: &Source,
    operations: &[ClassOp],
) -> Result<Option<u32>, NoMemory>
    requires sound { IsSound source.now }
    requires operations { All (IsOperation source.now.names source.now.exprs) operations.now }
    ensures { IfOk result (IsLeastPlace (Repeats (map class_name (map (plain_operation source.now.names source.now.exprs) operations.now)))) }
{
    let classes = classes_changed(alloc, operations)?;
    repeated(alloc, classes.as_slice())
}

// The faults in a method that isn't modified.
fn in_method(alloc: Global, source: &Source, method: &Method) -> Result<Places, NoMemory>
    requires sound { IsSound source.now }
    requires method { IsMethod source.now.names source.now.exprs method.now }
    ensures { IfOk result (AreLeast (λ fault. InMethod fault (plain_method source.now.names source.now.exprs method.now))) }
{
    let parameter = repeated_parameter(alloc, source, method)?;
    let original = originals_in(alloc, source, method.body)?;
    Ok(Places {
        repeated_operation: None,
        repeated_member: None,
        repeated_parameter: parameter,
        original_outside: original,
    })
}

// The faults in a method that is modified.
fn in_modified(alloc: Global, source: &Source, method: &Method) -> Result<Places, NoMemory>
    requires sound { IsSound source.now }
    requires method { IsMethod source.now.names source.now.exprs method.now }
    ensures { IfOk result (AreLeast (λ fault. InModified fault (plain_method source.now.names source.now.exprs method.now))) }
{
    let parameter = repeated_parameter(alloc, source, method)?;
    Ok(Places {
        repeated_operation: None,
        repeated_member: None,
        repeated_parameter: parameter,
        original_outside: None,
    })
}

// The faults in an operation on a member.
fn in_member(alloc: Global, source: &Source, member: &MemberOp) -> Result<Places, NoMemory>
    requires sound { IsSound source.now }
    requires member { IsMember source.now.names source.now.exprs member.now }
    ensures { IfOk result (AreLeast (λ fault. InMember fault (plain_member source.now.names source.now.exprs member.now))) }
{
    match member {
        MemberOp::AddsMethod(method) => in_method(alloc, source, method),
        MemberOp::ModifiesMethod(method) => in_modified(alloc, source, method),
        MemberOp::AddsField(_) | MemberOp::RemovesField(_) | MemberOp::RemovesMethod(_) => {
            Ok(nowhere())
        }
    }
}

// The faults in the methods of a class.
fn in_class(alloc: Global, source: &Source, methods: &[Method]) -> Result<Places, NoMemory>
    requires sound { IsSound source.now }
    requires methods { All (IsMethod source.now.names source.now.exprs) methods.now }
    ensures { IfOk result (AreLeast (λ fault. Among (λ m. InMethod fault (plain_method source.now.names source.now.exprs m)) methods.now)) }
{
    let mut least = nowhere();
    for method in methods {
        let here = in_method(alloc, source, method)?;
        least = earlier_each(least, here);
    }
    Ok(least)
}

// The faults in the members of a change.
fn in_change(alloc: Global, source: &Source, members: &[MemberOp]) -> Result<Places, NoMemory>
    requires sound { IsSound source.now }
    requires members { All (IsMember source.now.names source.now.exprs) members.now }
    ensures { IfOk result (AreLeast (λ fault. Among (λ m. InMember fault (plain_member source.now.names source.now.exprs m)) members.now)) }
{
    let mut least = nowhere();
    for member in members {
        let here = in_member(alloc, source, member)?;
        least = earlier_each(least, here);
    }
    Ok(least)
}

// The faults in the methods of an operation.
fn in_methods(alloc: Global, source: &Source, operation: &ClassOp) -> Result<Places, NoMemory>
    requires sound { IsSound source.now }
    requires operation { IsOperation source.now.names source.now.exprs operation.now }
    ensures { IfOk result (AreLeast (λ fault. InMethods fault (plain_operation source.now.names source.now.exprs operation.now))) }
{
    match operation {
        ClassOp::Adds(class) => in_class(alloc, source, class.methods.as_slice()),
        ClassOp::Modifies(change) => in_change(alloc, source, change.members.as_slice()),
        ClassOp::Removes(_) => Ok(nowhere()),
    }
}

// The members of an operation that stand twice.
fn twice(alloc: Global, source: &Source, operation: &ClassOp) -> Result<Places, NoMemory>
    requires sound { IsSound source.now }
    requires operation { IsOperation source.now.names source.now.exprs operation.now }
    ensures { IfOk result (AreLeast (λ fault. Twice fault (plain_operation source.now.names source.now.exprs operation.now))) }
{
    match operation {
        ClassOp::Adds(class) => {
            let member = repeated_member(alloc, source, class)?;
            Ok(Places {
                repeated_operation: None,
                repeated_member: member,
                repeated_parameter: None,
                original_outside: None,
            })
        }
        ClassOp::Modifies(change) => {
            let member = repeated_member_operation(alloc, source, change)?;
            Ok(Places {
                repeated_operation: member,
                repeated_member: None,
                repeated_parameter: None,
                original_outside: None,
            })
        }
        ClassOp::Removes(_) => Ok(nowhere()),
    }
}

// The faults in an operation.
fn in_operation(alloc: Global, source: &Source, operation: &ClassOp) -> Result<Places, NoMemory>
    requires sound { IsSound source.now }
    requires operation { IsOperation source.now.names source.now.exprs operation.now }
    ensures { IfOk result (AreLeast (λ fault. InOperation fault (plain_operation source.now.names source.now.exprs operation.now))) }
{
    let here = twice(alloc, source, operation)?;
    let inside = in_methods(alloc, source, operation)?;
    Ok(earlier_each(here, inside))
}

// The faults in each of a delta's operations.
fn in_each(alloc: Global, source: &Source, operations: &[ClassOp]) -> Result<Places, NoMemory>
    requires sound { IsSound source.now }
    requires operations { All (IsOperation source.now.names source.now.exprs) operations.now }
    ensures { IfOk result (AreLeast (λ fault. Among (λ o. InOperation fault (plain_operation source.now.names source.now.exprs o)) operations.now)) }
{
    let mut least = nowhere();
    for operation in operations {
        let here = in_operation(alloc, source, operation)?;
        least = earlier_each(least, here);
    }
    Ok(least)
}

// The faults in a delta's operations, taken together.
fn in_delta(alloc: Global, source: &Source, operations: &[ClassOp]) -> Result<Places, NoMemory>
    requires sound { IsSound source.now }
    requires operations { All (IsOperation source.now.names source.now.exprs) operations.now }
    ensures { IfOk result (AreLeast (λ fault. InOperations (plain_operation source.now.names source.now.exprs) fault operations.now)) }
{
    let class = repeated_class(alloc, source, operations)?;
    let mut places = in_each(alloc, source, operations)?;
    places.repeated_operation = earlier(class, places.repeated_operation);
    Ok(places)
}

/// The least places of the faults that stand in operations of deltas.
pub fn in_deltas(alloc: Global, source: &Source) -> Result<Places, NoMemory>
    requires { IsSound source.now }
    ensures { IfOk result (AreLeast (λ fault. FaultStands (plain_source source.now) (line_fault fault))) }
{
    let mut least = nowhere();
    for delta in source.deltas.as_slice() {
        let here = in_delta(alloc, source, delta.ops.as_slice())?;
        least = earlier_each(least, here);
    }
    Ok(least)
}
