//! Whether an operation breaks a rule on a table.
ghost use Rattle.std.specs.Prelude.{◌≡◌, ℕ, None, Some, All, IsSome, MatchOption, is_some, if◌then◌else◌};
ghost use Rattle.std.specs.FinMap as map;
ghost use Rattle.dj_tree.specs.Plain.{plain_spot, plain_member, plain_method, plain_change, plain_operation};
ghost use Rattle.dj_tree.specs.WellFormed.{IsKnown, IsMember, IsMethod, IsChange, IsOperation};
ghost use Rattle.dj_tree.specs.Trees.{modifies_method, modifies_class};
ghost use Rattle.dj_calculus.specs.Instances.{IsNotAfter, IsLeast};
ghost use Rattle.dj_calculus.specs.LineRules.{OperationRule};
ghost use Rattle.ifj_table.specs.Lookups.{own_field, own_method};
ghost use Rattle.ifj_table.specs.Tables.{plain_table};
ghost use Rattle.dj_apply.specs.Least.{IsLeastBy, Among};
ghost use Rattle.dj_apply.specs.Judging.{Breaks, MemberBreaks, instance_at};

use crate::least::earlier;
use crate::signatures::has_signature;
use dj_tree::{ClassChange, ClassOp, Instance, MemberOp, Method, Source, Spot};
use ifj_table::Table;

/// The least rule of 2 to 8, with the place at which it is broken, that an operation of the source breaks on a table;
/// `None` where it breaks none, as `OperationRule` says. Each member of a change is judged by the class as it stands in
/// the table. It takes no memory.
pub fn judge(table: &Table, source: &Source, operation: &ClassOp) -> Option<Instance>
    requires { IsOperation source.now.names source.now.exprs operation.now }
    ensures { MatchOption result
        ((rule at : ℕ) → ¬ (OperationRule (plain_table table.now) (plain_operation source.now.names source.now.exprs operation.now) rule at))
        (IsLeast (Breaks (plain_table table.now) (plain_operation source.now.names source.now.exprs operation.now))) }
{
    match operation {
        ClassOp::Adds(class) => broken(has_class(table, source, class.spot), 2, class.spot.at),
        ClassOp::Removes(spot) => broken(!has_class(table, source, *spot), 3, spot.at),
        ClassOp::Modifies(change) => judge_change(table, source, change),
    }
}

// The rule at the place, where it is broken.
fn broken(is_broken: bool, rule: u8, at: u32) -> Option<Instance>
    ensures { result ≡ (if is_broken then Some (instance_at rule at) else None) }
{
    let second = at;
    is_broken.then_some(Instance { rule, at, second })
}

// Whether the table has a class of a name of the source.
fn has_class(table: &Table, source: &Source, class: Spot) -> bool
    requires { IsKnown source.now.names class }
    ensures { result ≡ is_some (map.get (plain_table table.now) (plain_spot source.now.names class).text) }
{
    table.class_named(source.names.text(class.name)).is_some()
}

// Whether the class has a field of a name of the source.
fn has_field(table: &Table, source: &Source, class: &str, field: Spot) -> bool
    requires { IsKnown source.now.names field }
    ensures { result ≡ is_some (own_field (plain_table table.now) class.now (plain_spot source.now.names field).text) }
{
    table
        .own_field(class, source.names.text(field.name))
        .is_some()
}

// Whether the class has a method of a name of the source.
fn has_method(table: &Table, source: &Source, class: &str, method: Spot) -> bool
    requires { IsKnown source.now.names method }
    ensures { result ≡ is_some (own_method (plain_table table.now) class.now (plain_spot source.now.names method).text) }
{
    table
        .own_method(class, source.names.text(method.name))
        .is_some()
}

// The rule that a change breaks first.
fn judge_change(table: &Table, source: &Source, change: &ClassChange) -> Option<Instance>
    requires { IsChange source.now.names source.now.exprs change.now }
    ensures { IsLeastBy IsNotAfter (Breaks (plain_table table.now) (modifies_class (plain_change source.now.names source.now.exprs change.now))) result }
{
    let class = source.names.text(change.spot.name);
    if has_class(table, source, change.spot) {
        judge_members(table, source, class, change.members.as_slice())
    } else {
        broken(true, 3, change.spot.at)
    }
}

// The rule that one of the members of a change breaks first.
fn judge_members(
    table: &Table,
    source: &Source,
    class: &str,
    members: &[MemberOp],
) -> Option<Instance>
    requires { All (IsMember source.now.names source.now.exprs) members.now }
    ensures { IsLeastBy IsNotAfter (Among (λ m. MemberBreaks (plain_table table.now) class.now (plain_member source.now.names source.now.exprs m)) members.now) result }
{
    let mut least = None;
    for member in members {
        let here = judge_member(table, source, class, member);
        least = earlier(least, here);
    }
    least
}

// The rule that a member of a change breaks.
fn judge_member(table: &Table, source: &Source, class: &str, member: &MemberOp) -> Option<Instance>
    requires { IsMember source.now.names source.now.exprs member.now }
    ensures { IsLeastBy IsNotAfter (MemberBreaks (plain_table table.now) class.now (plain_member source.now.names source.now.exprs member.now)) result }
{
    match member {
        MemberOp::AddsField(field) => {
            broken(
                has_field(table, source, class, field.spot),
                4,
                field.spot.at,
            )
        }
        MemberOp::RemovesField(spot) => broken(!has_field(table, source, class, *spot), 5, spot.at),
        MemberOp::AddsMethod(method) => {
            broken(
                has_method(table, source, class, method.spot),
                6,
                method.spot.at,
            )
        }
        MemberOp::RemovesMethod(spot) => broken(
            !has_method(table, source, class, *spot),
            7,
            spot.at,
        ),
        MemberOp::ModifiesMethod(method) => judge_modified(table, source, class, method),
    }
}

// The rule that a modified method breaks.
fn judge_modified(table: &Table, source: &Source, class: &str, method: &Method) -> Option<Instance>
    requires { IsMethod source.now.names source.now.exprs method.now }
    ensures { IsLeastBy IsNotAfter (MemberBreaks (plain_table table.now) class.now (modifies_method (plain_method source.now.names source.now.exprs method.now))) result }
{
    match table.own_method(class, source.names.text(method.spot.name)) {
        Some(old) => broken(
            !has_signature(table, old, source, method),
            8,
            method.spot.at,
        ),
        None => broken(true, 7, method.spot.at),
    }
}
