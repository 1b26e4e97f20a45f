//! The operations of a part of a line.
ghost use Rattle.std.specs.Prelude.{◌≡◌, ℕ, ◌-◌, ◌<◌, ◌≤◌, List, ◌∷◌, ◌++◌, [], Some, All, length, slice_get, IfOk, OnOk};
ghost use Rattle.std.specs.List.Sorted.{IsPermutation};
ghost use Rattle.dj_line.specs.Placing.{numbers_along};
ghost use Rattle.dj_line.specs.Lines.{plain_line};
ghost use Rattle.dj_apply.specs.ActiveOperations.{active_operations, IsSourceOf};
ghost use Rattle.dj_apply.specs.Attempts.{plain_operations};
ghost use Rattle.dj_apply.specs.Ready.{IsReady};

use crate::attempts::{NamedOperation, push_operations, sort};
use crate::overlaps::delta_at;
use dj_line::{Config, Line};
use dj_tree::Source;
use std::alloc::{AllocError as NoMemory, Global};

// Puts the operations of a delta behind others, where it is active.
pub fn push_active<'a>(
    alloc: Global,
    operations: &mut Vec<NamedOperation<'a>>,
    line: &Line,
    source: &'a Source,
    config: &Config,
    delta: u32,
) -> Result<(), NoMemory>
    requires source { IsSourceOf (plain_line line.now) source.now }
    requires features { length config.now.chosen.items ≡ length (plain_line line.now).features }
    requires below { delta < length (plain_line line.now).deltas }
    requires ready { All (λ x. IsReady source.now.names source.now.exprs x.operation.now) operations.old.items }
    ensures pushed { OnOk result (plain_operations source.now.names source.now.exprs operations.new.items
        ≡ plain_operations source.now.names source.now.exprs operations.old.items ++ active_operations (plain_line line.now) config.now.chosen.items (delta ∷ [])) }
    ensures ready { OnOk result (All (λ x. IsReady source.now.names source.now.exprs x.operation.now) operations.new.items) }
{
    if line.is_active(alloc, config, delta)? {
        let declared = delta_at(source, delta);
        push_operations(operations, source, declared.ops.as_slice())
    } else {
        Ok(())
    }
}

// The operations of the active deltas of a part, by its number along the chain and from 1, in the order of the names of
// their classes.
pub fn operations_of_part<'a>(
    alloc: Global,
    line: &Line,
    source: &'a Source,
    config: &Config,
    part: u32,
) -> Result<Vec<NamedOperation<'a>>, NoMemory>
    requires source { IsSourceOf (plain_line line.now) source.now }
    requires features { length config.now.chosen.items ≡ length (plain_line line.now).features }
    requires from_one { 1 ≤ part }
    requires within { part ≤ length (plain_line line.now).parts }
    ensures operations { IfOk result (λ operations. (numbers : List ℕ) × (slice_get (numbers_along (plain_line line.now)) (part - 1) ≡ Some numbers)
        × IsPermutation (active_operations (plain_line line.now) config.now.chosen.items numbers) (plain_operations source.now.names source.now.exprs operations.items)) }
    ensures ready { IfOk result (λ operations. All (λ x. IsReady source.now.names source.now.exprs x.operation.now) operations.items) }
{
    let mut operations = Vec::new(alloc);
    push_each_active(
        alloc,
        &mut operations,
        line,
        source,
        config,
        line.items(part),
    )?;
    sort(&mut operations)?;
    Ok(operations)
}

// Puts the operations of the active ones of these deltas behind others.
fn push_each_active<'a>(
    alloc: Global,
    operations: &mut Vec<NamedOperation<'a>>,
    line: &Line,
    source: &'a Source,
    config: &Config,
    deltas: &[u32],
) -> Result<(), NoMemory>
    requires source { IsSourceOf (plain_line line.now) source.now }
    requires features { length config.now.chosen.items ≡ length (plain_line line.now).features }
    requires below { All (λ delta. delta < length (plain_line line.now).deltas) deltas.now }
    requires none { operations.old.items ≡ [] }
    ensures pushed { OnOk result (plain_operations source.now.names source.now.exprs operations.new.items ≡ active_operations (plain_line line.now) config.now.chosen.items deltas.now) }
    ensures ready { OnOk result (All (λ x. IsReady source.now.names source.now.exprs x.operation.now) operations.new.items) }
{
    for delta in deltas {
        push_active(alloc, operations, line, source, config, *delta)?;
    }
    Ok(())
}
