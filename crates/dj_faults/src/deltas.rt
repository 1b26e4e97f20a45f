//! Faults of deltas and of their places in parts.
ghost use Rattle.std.specs.Prelude.{IfOk};
ghost use Rattle.dj_tree.specs.Plain.{plain_source};
ghost use Rattle.dj_calculus.specs.Faults.{RepeatedDelta, UnknownDelta, DeltaNotPlaced, DeltaPlacedTwice};
ghost use Rattle.dj_calculus.specs.FaultPlaces.{FaultStands};
ghost use Rattle.dj_faults.specs.LeastPlace.{IsLeastPlace};
ghost use Rattle.dj_faults.specs.Numbers.{IsSound};

use crate::numbers::{repeated, unknown};
use crate::spots::{delta_names, item_names};
use dj_tree::Source;
use std::alloc::{AllocError as NoMemory, Global};

// The least place of a delta that was declared before.
pub fn repeated_delta(alloc: Global, source: &Source) -> Result<Option<u32>, NoMemory>
    requires { IsSound source.now }
    ensures { IfOk result (IsLeastPlace (FaultStands (plain_source source.now) RepeatedDelta)) }
{
    let declared = delta_names(alloc, source.deltas.as_slice())?;
    repeated(alloc, declared.as_slice())
}

// The least place of an item that names no declared delta.
pub fn unknown_delta(alloc: Global, source: &Source) -> Result<Option<u32>, NoMemory>
    requires { IsSound source.now }
    ensures { IfOk result (IsLeastPlace (FaultStands (plain_source source.now) UnknownDelta)) }
{
    let declared = delta_names(alloc, source.deltas.as_slice())?;
    let placed = item_names(alloc, source.parts.as_slice())?;
    unknown(alloc, placed.as_slice(), declared.as_slice())
}

// The least place of a declared delta that no item names.
pub fn delta_not_placed(alloc: Global, source: &Source) -> Result<Option<u32>, NoMemory>
    requires { IsSound source.now }
    ensures { IfOk result (IsLeastPlace (FaultStands (plain_source source.now) DeltaNotPlaced)) }
{
    let declared = delta_names(alloc, source.deltas.as_slice())?;
    let placed = item_names(alloc, source.parts.as_slice())?;
    unknown(alloc, declared.as_slice(), placed.as_slice())
}

// The least place of an item that names the delta of an earlier one.
pub fn delta_placed_twice(alloc: Global, source: &Source) -> Result<Option<u32>, NoMemory>
    requires { IsSound source.now }
    ensures { IfOk result (IsLeastPlace (FaultStands (plain_source source.now) DeltaPlacedTwice)) }
{
    let placed = item_names(alloc, source.parts.as_slice())?;
    repeated(alloc, placed.as_slice())
}
