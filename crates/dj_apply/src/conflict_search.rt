//! The least conflict of the active deltas of a line.
ghost use Rattle.std.specs.Prelude.{◌≡◌, ◌-◌, ◌<◌, ◌≤◌, [], ◌∷◌, ◌++◌, List, Some, All, map, length, slice_get, IfOk, OnOk};
ghost use Rattle.std.specs.List.{flat_map};
ghost use Rattle.dj_names.specs.Texts.{AreDistinct};
ghost use Rattle.dj_tree.specs.Plain.{plain_operation};
ghost use Rattle.dj_tree.specs.Trees.{Operation, Part};
ghost use Rattle.dj_tree.specs.WellFormed.{IsOperation};
ghost use Rattle.dj_calculus.specs.Parts.{chain};
ghost use Rattle.dj_calculus.specs.Things as calculus;
ghost use Rattle.dj_calculus.specs.Things.{touched_by};
ghost use Rattle.dj_line.specs.Lines.{plain_line};
ghost use Rattle.dj_product_laws.specs.LineConflicts.{ConflictIn};
ghost use Rattle.dj_apply.specs.ActiveOperations.{active_operations, active_deltas, IsSourceOf};
ghost use Rattle.dj_apply.specs.Kept.{Keeps};
ghost use Rattle.dj_apply.specs.Least.{IsLeastBy, Among};
ghost use Rattle.dj_apply.specs.Overlaps.{IsNoLater, ThingsClash, OperationsClash, DeltasClash, PartClash};

use crate::least_places::LeastPlaces;
use crate::overlaps::{Thing, earlier, operations_of};
use crate::pass::{chain_length, part_number};
use crate::things::{thing_at, touched_count};
use dj_line::{Config, Line};
use dj_names::names_are_distinct;
use dj_tree::{ClassOp, Source};
use std::alloc::{AllocError as NoMemory, Global};

// The least conflict of two active deltas of one part, where there is one: the places of two things that conflict, that
// of the delta of the earlier item first.
pub fn least_conflict(
    alloc: Global,
    line: &Line,
    config: &Config,
) -> Result<Option<Thing>, NoMemory>
    requires features { length config.now.chosen.items ≡ length (plain_line line.now).features }
    ensures { IfOk result (IsLeastBy IsNoLater (λ found. ConflictIn (plain_line line.now) config.now.chosen.items found.first found.second)) }
{
    let mut least = None;
    let count = chain_length(line);
    for number in 0..count {
        let part = part_number(number)?;
        let here = conflict_of_part(alloc, line, config, part)?;
        least = earlier(least, here);
    }
    Ok(least)
}

// The least conflict of two active deltas of a part, by its number along the chain and from 1.
fn conflict_of_part(
    alloc: Global,
    line: &Line,
    config: &Config,
    part: u32,
) -> Result<Option<Thing>, NoMemory>
    requires features { length config.now.chosen.items ≡ length (plain_line line.now).features }
    requires from_one { 1 ≤ part }
    requires within { part ≤ length (plain_line line.now).parts }
    ensures { IfOk result (λ found. (p : Part) × (slice_get (chain (plain_line line.now)) (part - 1) ≡ Some p)
        × IsLeastBy IsNoLater (PartClash (plain_line line.now) config.now.chosen.items p) found) }
{
    let source = line.source();
    conflict_of_deltas(alloc, line, source, config, line.items(part))
}

// The least conflict of two of the active ones of these deltas. Each is looked at once, against the things of all earlier
// ones together.
fn conflict_of_deltas(
    alloc: Global,
    line: &Line,
    source: &Source,
    config: &Config,
    deltas: &[u32],
) -> Result<Option<Thing>, NoMemory>
    requires source { IsSourceOf (plain_line line.now) source.now }
    requires features { length config.now.chosen.items ≡ length (plain_line line.now).features }
    requires below { All (λ delta. delta < length (plain_line line.now).deltas) deltas.now }
    ensures { IfOk result (IsLeastBy IsNoLater (DeltasClash (active_deltas (plain_line line.now) config.now.chosen.items deltas.now))) }
{
    names_are_distinct(&source.names);
    let mut places = LeastPlaces::new(alloc);
    let mut least = None;
    for delta in deltas {
        let here = compare_and_keep(alloc, &mut places, line, source, config, *delta)?;
        least = earlier(least, here);
    }
    Ok(least)
}

// The least conflict of the operations of a delta, where it is active, with earlier ones, the places of whose things are
// kept. Those of the delta are kept too from then on.
fn compare_and_keep(
    alloc: Global,
    places: &mut LeastPlaces,
    line: &Line,
    source: &Source,
    config: &Config,
    delta: u32,
) -> Result<Option<Thing>, NoMemory>
    requires source { IsSourceOf (plain_line line.now) source.now }
    requires distinct { AreDistinct source.now.names }
    requires features { length config.now.chosen.items ≡ length (plain_line line.now).features }
    requires below { delta < length (plain_line line.now).deltas }
    ensures kept { (before : List Operation) → Keeps source.now.names places.old (flat_map touched_by before)
        → OnOk result (Keeps source.now.names places.new (flat_map touched_by (before ++ active_operations (plain_line line.now) config.now.chosen.items (delta ∷ [])))) }
    ensures least { (before : List Operation) → Keeps source.now.names places.old (flat_map touched_by before)
        → IfOk result (IsLeastBy IsNoLater (OperationsClash before (active_operations (plain_line line.now) config.now.chosen.items (delta ∷ [])))) }
{
    if line.is_active(alloc, config, delta)? {
        let others = operations_of(source, delta);
        let here = conflict_of_operations(source, places, others);
        keep_operations(source, places, others)?;
        Ok(here)
    } else {
        Ok(None)
    }
}

// The least conflict of the things whose places are kept with those of operations.
fn conflict_of_operations(
    source: &Source,
    places: &LeastPlaces,
    others: &[ClassOp],
) -> Option<Thing>
    requires known { All (IsOperation source.now.names source.now.exprs) others.now }
    ensures { (before : List calculus.Thing) → Keeps source.now.names places.now before
        → IsLeastBy IsNoLater (Among (ThingsClash before) (map (plain_operation source.now.names source.now.exprs) others.now)) result }
{
    let mut least = None;
    for other in others {
        let here = conflict_of_operation(source, places, other);
        least = earlier(least, here);
    }
    least
}

// The least conflict of the things whose places are kept with those of an operation.
fn conflict_of_operation(source: &Source, places: &LeastPlaces, other: &ClassOp) -> Option<Thing>
    requires known { IsOperation source.now.names source.now.exprs other.now }
    ensures { (before : List calculus.Thing) → Keeps source.now.names places.now before
        → IsLeastBy IsNoLater (ThingsClash before (plain_operation source.now.names source.now.exprs other.now)) result }
{
    let mut least = None;
    let count = touched_count(other);
    for number in 0..count {
        let thing = thing_at(other, number);
        let here = places.conflict_with(thing);
        least = earlier(least, here);
    }
    least
}

// Keeps the places of the things of operations too. Without memory the places are of no use.
fn keep_operations(
    source: &Source,
    places: &mut LeastPlaces,
    others: &[ClassOp],
) -> Result<(), NoMemory>
    requires distinct { AreDistinct source.now.names }
    requires known { All (IsOperation source.now.names source.now.exprs) others.now }
    ensures { (before : List calculus.Thing) → Keeps source.now.names places.old before
        → OnOk result (Keeps source.now.names places.new (before ++ flat_map touched_by (map (plain_operation source.now.names source.now.exprs) others.now))) }
{
    for other in others {
        keep_operation(source, places, other)?;
    }
    Ok(())
}

// Keeps the places of the things of an operation too.
fn keep_operation(
    source: &Source,
    places: &mut LeastPlaces,
    other: &ClassOp,
) -> Result<(), NoMemory>
    requires distinct { AreDistinct source.now.names }
    requires known { IsOperation source.now.names source.now.exprs other.now }
    ensures { (before : List calculus.Thing) → Keeps source.now.names places.old before
        → OnOk result (Keeps source.now.names places.new (before ++ touched_by (plain_operation source.now.names source.now.exprs other.now))) }
{
    let count = touched_count(other);
    for number in 0..count {
        let thing = thing_at(other, number);
        places.keep(thing)?;
    }
    Ok(())
}
