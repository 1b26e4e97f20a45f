//! The operations of a part, attempted one after the other.
ghost use Rattle.std.specs.Prelude.{◌≡◌, ◌++◌, All, map, IfOk, OnOk};
ghost use Rattle.std.specs.List.Sorted.{IsPermutation};
ghost use Rattle.dj_tree.specs.Plain.{plain_operation};
ghost use Rattle.dj_tree.specs.WellFormed.{IsOperation};
ghost use Rattle.dj_calculus.specs.Instances.{IsNotAfter};
ghost use Rattle.dj_product_laws.specs.Passes.{attempt as attempt_of, attempt_all};
ghost use Rattle.ifj_table.specs.Tables.{plain_table};
ghost use Rattle.dj_apply.specs.Attempts.{IsMet, plain_operations};
ghost use Rattle.dj_apply.specs.Judging.{Breaks};
ghost use Rattle.dj_apply.specs.Least.{IsLeastBy};
ghost use Rattle.dj_apply.specs.Ready.{IsReady};

use crate::apply::apply_operation;
use crate::growing::GrowingTable;
use crate::least::earlier;
use crate::rules::judge;
use crate::things::class_of;
use dj_tree::{ClassOp, Instance, Source};
use std::alloc::{AllocError as NoMemory, Global};

/// An operation with the text of the name of its class.
#[derive(Clone, Copy)]
pub struct NamedOperation<'a> {
    pub name: &'a str,
    pub operation: &'a ClassOp,
}

// Puts operations into the order of the names of their classes. What adds classes at the end of a table takes the least
// time.
pub fn sort(operations: &mut Vec<NamedOperation>) -> Result<(), NoMemory>
    ensures { IsPermutation operations.old.items operations.new.items }
{
    operations.sort_by(|one, other| one.name.cmp(other.name))
}

// Puts the operations of a delta behind others.
pub fn push_operations<'a>(
    operations: &mut Vec<NamedOperation<'a>>,
    source: &'a Source,
    more: &'a [ClassOp],
) -> Result<(), NoMemory>
    requires ready { All (IsReady source.now.names source.now.exprs) more.now }
    requires others_ready { All (λ x. IsReady source.now.names source.now.exprs x.operation.now) operations.old.items }
    ensures pushed { OnOk result (plain_operations source.now.names source.now.exprs operations.new.items
        ≡ plain_operations source.now.names source.now.exprs operations.old.items ++ map (plain_operation source.now.names source.now.exprs) more.now) }
    ensures ready { OnOk result (All (λ x. IsReady source.now.names source.now.exprs x.operation.now) operations.new.items) }
{
    for operation in more {
        let class = class_of(operation);
        let name = source.names.text(class.name);
        operations.push(NamedOperation { name, operation })?;
    }
    Ok(())
}

// Attempts operations one after the other, and gives the least rule that is met, with its place. One that breaks a rule
// on the table changes nothing. Without memory the table is of no use.
pub fn attempt_each(
    alloc: Global,
    table: &mut GrowingTable,
    source: &Source,
    operations: &[NamedOperation],
) -> Result<Option<Instance>, NoMemory>
    requires { All (λ x. IsReady source.now.names source.now.exprs x.operation.now) operations.now }
    ensures table { OnOk result (plain_table table.new.table ≡ attempt_all (plain_operations source.now.names source.now.exprs operations.now) (plain_table table.old.table)) }
    ensures met { IfOk result (IsLeastBy IsNotAfter (IsMet (plain_operations source.now.names source.now.exprs operations.now) (plain_table table.old.table))) }
{
    let mut least = None;
    for operation in operations {
        let here = attempt(alloc, table, source, operation.operation)?;
        least = earlier(least, here);
    }
    Ok(least)
}

// Applies an operation where it breaks no rule on the table, and gives the least one that it breaks, with its place.
fn attempt(
    alloc: Global,
    table: &mut GrowingTable,
    source: &Source,
    operation: &ClassOp,
) -> Result<Option<Instance>, NoMemory>
    requires { IsReady source.now.names source.now.exprs operation.now }
    ensures table { OnOk result (plain_table table.new.table ≡ attempt_of (plain_operation source.now.names source.now.exprs operation.now) (plain_table table.old.table)) }
    ensures broken { IfOk result (IsLeastBy IsNotAfter (Breaks (plain_table table.old.table) (plain_operation source.now.names source.now.exprs operation.now))) }
{
    match judge(&table.table, source, operation) {
        Some(broken) => Ok(Some(broken)),
        None => {
            apply_operation(alloc, table, source, operation)?;
            Ok(None)
        }
    }
}
