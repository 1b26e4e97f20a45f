//! What an operation makes of a table.
ghost use Rattle.std.specs.Prelude.{◌≡◌, ◌≢◌, ℕ, None, Some, All, Contains, map, OnOk};
ghost use Rattle.std.specs.FinMap as finite;
ghost use Rattle.dj_tree.specs.Plain.{plain_spot, plain_class, plain_change, plain_operation};
ghost use Rattle.dj_tree.specs.WellFormed.{IsKnown, IsClass, IsChange, IsExprNode};
ghost use Rattle.dj_tree.specs.Trees.{adds_class, modifies_class, removes_class};
ghost use Rattle.dj_calculus.specs.LineRules.{OperationRule};
ghost use Rattle.dj_calculus.specs.Operations.{apply};
ghost use Rattle.dj_calculus.specs.Subclasses.{object};
ghost use Rattle.dj_calculus.specs.Things.{does};
ghost use Rattle.dj_source_laws.specs.Once.{members_in};
ghost use Rattle.ifj_table.specs.Tables.{plain_table};
ghost use Rattle.dj_apply.specs.Members.{plain_members, IsTaken};
ghost use Rattle.dj_apply.specs.Ready.{AreMembers, IsReady, HasBody};
ghost use Rattle.dj_apply.specs.Taking.{CanTake, Takes};

use crate::growing::GrowingTable;
use crate::members::{NamedMember, members_of_change, members_of_class};
use dj_tree::{ClassChange, ClassDecl, ClassOp, Source, Spot};
use std::alloc::{AllocError as NoMemory, Global};

// Applies an operation that breaks no rule on the table. Without memory the table is of no use.
pub fn apply_operation(
    alloc: Global,
    table: &mut GrowingTable,
    source: &Source,
    operation: &ClassOp,
) -> Result<(), NoMemory>
    requires ready { IsReady source.now.names source.now.exprs operation.now }
    requires unbroken { (rule at : ℕ) → ¬ (OperationRule (plain_table table.old.table) (plain_operation source.now.names source.now.exprs operation.now) rule at) }
    ensures { OnOk result (apply (plain_operation source.now.names source.now.exprs operation.now) (plain_table table.old.table) ≡ Some (plain_table table.new.table)) }
{
    match operation {
        ClassOp::Adds(class) => apply_class(alloc, table, source, class),
        ClassOp::Modifies(change) => apply_change(alloc, table, source, change),
        ClassOp::Removes(spot) => {
            remove_class(table, source, *spot);
            Ok(())
        }
    }
}

// Adds a class that isn't there.
fn apply_class(
    alloc: Global,
    table: &mut GrowingTable,
    source: &Source,
    class: &ClassDecl,
) -> Result<(), NoMemory>
    requires known { IsClass source.now.names source.now.exprs class.now }
    requires nodes { All (IsExprNode source.now.names) source.now.exprs }
    requires declarable { (plain_spot source.now.names class.now.spot).text ≢ object }
    requires members { AreMembers (members_in (adds_class (plain_class source.now.names source.now.exprs class.now))) }
    requires absent { finite.get (plain_table table.old.table) (plain_spot source.now.names class.now.spot).text ≡ None }
    ensures { OnOk result (apply (adds_class (plain_class source.now.names source.now.exprs class.now)) (plain_table table.old.table) ≡ Some (plain_table table.new.table)) }
{
    let members = members_of_class(alloc, source, class)?;
    table.add_class(&source.names, class)?;
    take_members(table, source, source.names.text(class.spot.name), &members)
}

// Changes a class on which the change is defined.
fn apply_change(
    alloc: Global,
    table: &mut GrowingTable,
    source: &Source,
    change: &ClassChange,
) -> Result<(), NoMemory>
    requires known { IsChange source.now.names source.now.exprs change.now }
    requires nodes { All (IsExprNode source.now.names) source.now.exprs }
    requires members { AreMembers (members_in (modifies_class (plain_change source.now.names source.now.exprs change.now))) }
    requires unbroken { (rule at : ℕ) → ¬ (OperationRule (plain_table table.old.table) (modifies_class (plain_change source.now.names source.now.exprs change.now)) rule at) }
    ensures { OnOk result (apply (modifies_class (plain_change source.now.names source.now.exprs change.now)) (plain_table table.old.table) ≡ Some (plain_table table.new.table)) }
{
    let members = members_of_change(alloc, source, change)?;
    let class = source.names.text(change.spot.name);
    table.take_parent(&source.names, class, change.parent)?;
    take_members(table, source, class, &members)
}

// Takes out a class that is there.
fn remove_class(table: &mut GrowingTable, source: &Source, class: Spot)
    requires known { IsKnown source.now.names class }
    requires there { (rule at : ℕ) → ¬ (OperationRule (plain_table table.old.table) (removes_class (plain_spot source.now.names class)) rule at) }
    ensures { apply (removes_class (plain_spot source.now.names class)) (plain_table table.old.table) ≡ Some (plain_table table.new.table) }
{
    table.table.remove_class(source.names.text(class.name));
}

// Adds, modifies and removes members of a class, one after the other.
fn take_members(
    table: &mut GrowingTable,
    source: &Source,
    class: &str,
    members: &[NamedMember],
) -> Result<(), NoMemory>
    requires known { All (λ m. IsTaken source.now.names source.now.exprs m.member) members.now }
    requires nodes { All (IsExprNode source.now.names) source.now.exprs }
    requires bodies { All HasBody (plain_members source.now.names source.now.exprs members.now) }
    requires can { CanTake (plain_table table.old.table) class.now (map does (plain_members source.now.names source.now.exprs members.now)) }
    ensures { OnOk result (Takes (plain_table table.old.table) (plain_table table.new.table) class.now (map does (plain_members source.now.names source.now.exprs members.now))) }
{
    for member in members {
        table.take_member(source, class, member.member)?;
    }
    Ok(())
}
