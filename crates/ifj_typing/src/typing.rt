//! The judge of one class table.
ghost use Rattle.std.specs.Prelude.{OnOk, IfErr, IfOk};
ghost use Rattle.dj_tree.specs.declared.source.Instance.{Instance};
ghost use Rattle.dj_calculus.specs.Instances.{IsLeast};
ghost use Rattle.dj_calculus.specs.TableRules.{CountsIn};
ghost use Rattle.dj_calculus.specs.Typing.{WellTyped};
ghost use Rattle.ifj_table.specs.Tables.{plain_table};
ghost use Rattle.ifj_lineages.specs.Lineages.{AreLineages};
ghost use Rattle.ifj_typing.specs.Broken.{IfBroken};
ghost use Rattle.ifj_typing.specs.Declarations.{BreaksDeclarations};
ghost use Rattle.ifj_typing.specs.Least.{IsLeastOf};

use crate::bodies::bodies_fault;
use crate::declarations::declarations_fault;
use crate::inheritance::inheritance_fault;
use dj_tree::Instance;
use ifj_lineages::Lineages;
use ifj_table::Table;
use std::alloc::{AllocError as NoMemory, Global};

/// Why a table isn't said to be well typed: the least instance of a rule that counts in it, or want of memory.
#[derive(Clone, Copy, Debug, PartialEq, Eq)]
pub enum TypeError {
    Broken(Instance),
    NoMemory,
}

/// Whether a table is well typed, as `WellTyped` says. Where it isn't, the answer is the least instance that counts in
/// it: of the lowest layer that has any, the one with the least rule, and then the least place, a byte offset. Its second
/// place is the first again. `NoMemory` is for want of memory alone.
pub fn type_table(alloc: Global, table: &Table) -> Result<(), TypeError>
    ensures typed { OnOk result (WellTyped (plain_table table.now)) }
    ensures clean { OnOk result ((i : Instance) → ¬ (CountsIn (plain_table table.now) i)) }
    ensures least { IfErr result (λ error. IfBroken error (IsLeast (CountsIn (plain_table table.now)))) }
    ensures untyped { IfErr result (λ error. IfBroken error (λ _. ¬ (WellTyped (plain_table table.now)))) }
{
    match least_instance(alloc, table) {
        Ok(None) => Ok(()),
        Ok(Some(instance)) => Err(TypeError::Broken(instance)),
        Err(_) => Err(TypeError::NoMemory),
    }
}

// The least instance that counts in a table.
fn least_instance(alloc: Global, table: &Table) -> Result<Option<Instance>, NoMemory>
    ensures { IfOk result (IsLeastOf (CountsIn (plain_table table.now))) }
{
    let declarations = declarations_fault(alloc, table)?;
    match declarations {
        Some(instance) => Ok(Some(instance)),
        None => {
            let lineages = Lineages::new(alloc, table)?;
            higher_instance(alloc, table, &lineages)
        }
    }
}

// The least instance where no rule of layer 3 is broken.
fn higher_instance(
    alloc: Global,
    table: &Table,
    lineages: &Lineages,
) -> Result<Option<Instance>, NoMemory>
    requires lineages { AreLineages table.now lineages.now }
    requires declared { (i : Instance) → ¬ (BreaksDeclarations table.now i) }
    ensures { IfOk result (IsLeastOf (CountsIn (plain_table table.now))) }
{
    match inheritance_fault(table, lineages) {
        Some(instance) => Ok(Some(instance)),
        None => bodies_fault(alloc, table, lineages),
    }
}
