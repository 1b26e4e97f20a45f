//! The least conflict of two deltas.
ghost use Rattle.std.specs.Prelude.{◌≡◌, ◌≢◌, ◌↔◌, ◌<◌, List, Some, None, IsTrue, All, map, length, slice_get, MatchOption, if◌then◌else◌};
ghost use Rattle.dj_names.specs.Texts.{Text, AreDistinct};
ghost use Rattle.dj_tree.specs.Trees.{Delta};
ghost use Rattle.dj_tree.specs.Plain.{plain_operation, plain_source};
ghost use Rattle.dj_tree.specs.WellFormed.{IsOperation, IsWellFormed};
ghost use Rattle.dj_calculus.specs.Conflicts.{Disjoint, LeastConflict};
ghost use Rattle.dj_line.specs.Lines.{plain_line};
ghost use Rattle.dj_apply.specs.Least.{IsLeastBy, IsEarlierOf, Among};
ghost use Rattle.dj_apply.specs.Touched.{plain_thing, IsTouched};
ghost use Rattle.dj_apply.specs.Overlaps.{IsNoLater, Clash, ThingClash, OperationClash, OperationsClash};

use crate::things::{Touched, class_of, conflicts, thing_at, touched_count};
use dj_line::Line;
use dj_names::names_are_distinct;
use dj_tree::{ClassOp, DeltaDecl, Source};

/// Two conflicting things of two deltas: the byte offsets of the names that say them, that of the first delta first.
#[derive(Clone, Copy, Debug, PartialEq, Eq)]
pub struct Thing {
    pub first: u32,
    pub second: u32,
}

// Whether the first pair isn't after the other: by its first place, then by its second.
fn is_no_later(one: Thing, other: Thing) -> bool
    ensures { IsTrue result ↔ IsNoLater one other }
{
    if one.first != other.first {
        return one.first < other.first;
    }
    one.second <= other.second
}

// The pair that isn't after the other, or the only one.
pub fn earlier(one: Option<Thing>, other: Option<Thing>) -> Option<Thing>
    ensures { IsEarlierOf IsNoLater one other result }
{
    match (one, other) {
        (Some(one), Some(other)) => {
            if is_no_later(one, other) {
                Some(one)
            } else {
                Some(other)
            }
        }
        (Some(one), None) => Some(one),
        (None, other) => other,
    }
}

/// The least conflict of two deltas of a line, by their numbers, which differ: of the things of the first delta and those
/// of the second that conflict, the pair with the least place in the first, and then the least in the second. `None`
/// where the deltas are disjoint. It takes no memory, and time in the product of their operations and of the things that
/// they touch of one class.
pub fn overlap(line: &Line, first: u32, second: u32) -> Option<Thing>
    requires first_there { first < length (plain_line line.now).deltas }
    requires second_there { second < length (plain_line line.now).deltas }
    requires different { first ≢ second }
    ensures { (one other : Delta) → slice_get (plain_line line.now).deltas first ≡ Some one → slice_get (plain_line line.now).deltas second ≡ Some other
        → MatchOption result (Disjoint one other) (λ found. LeastConflict one other found.first found.second) }
{
    let source = line.source();
    names_are_distinct(&source.names);
    let ones = operations_of(source, first);
    let others = operations_of(source, second);
    least_overlap(source, ones, others)
}

// The operations of the delta of a number.
pub fn operations_of(source: &Source, delta: u32) -> &[ClassOp]
    requires well_formed { IsWellFormed source.now }
    requires there { delta < length source.now.deltas }
    ensures operations { (d : Delta) → slice_get (plain_source source.now).deltas delta ≡ Some d → d.operations ≡ map (plain_operation source.now.names source.now.exprs) result.now }
    ensures known { All (IsOperation source.now.names source.now.exprs) result.now }
{
    let delta = delta_at(source, delta);
    delta.ops.as_slice()
}

// The delta of a number.
pub fn delta_at(source: &Source, delta: u32) -> &DeltaDecl
    requires { delta < length source.now.deltas }
    ensures { slice_get source.now.deltas delta ≡ Some result.now }
{
    &source.deltas.as_slice()[delta as usize]
}

// The least conflict of the things of two lists of operations. It takes no memory.
fn least_overlap(source: &Source, ones: &[ClassOp], others: &[ClassOp]) -> Option<Thing>
    requires distinct { AreDistinct source.now.names }
    requires ones_known { All (IsOperation source.now.names source.now.exprs) ones.now }
    requires others_known { All (IsOperation source.now.names source.now.exprs) others.now }
    ensures { IsLeastBy IsNoLater (OperationsClash (map (plain_operation source.now.names source.now.exprs) ones.now) (map (plain_operation source.now.names source.now.exprs) others.now)) result }
{
    let mut least = None;
    for one in ones {
        let here = overlap_with_each(source, one, others);
        least = earlier(least, here);
    }
    least
}

// The least conflict of the things of an operation and those of others.
fn overlap_with_each(source: &Source, one: &ClassOp, others: &[ClassOp]) -> Option<Thing>
    requires distinct { AreDistinct source.now.names }
    requires one_known { IsOperation source.now.names source.now.exprs one.now }
    requires others_known { All (IsOperation source.now.names source.now.exprs) others.now }
    ensures { IsLeastBy IsNoLater (Among (OperationClash (plain_operation source.now.names source.now.exprs one.now)) (map (plain_operation source.now.names source.now.exprs) others.now)) result }
{
    let mut least = None;
    for other in others {
        let here = overlap_of_operations(source, one, other);
        least = earlier(least, here);
    }
    least
}

// The least conflict of the things of two operations.
fn overlap_of_operations(source: &Source, one: &ClassOp, other: &ClassOp) -> Option<Thing>
    requires distinct { AreDistinct source.now.names }
    requires one_known { IsOperation source.now.names source.now.exprs one.now }
    requires other_known { IsOperation source.now.names source.now.exprs other.now }
    ensures { IsLeastBy IsNoLater (OperationClash (plain_operation source.now.names source.now.exprs one.now) (plain_operation source.now.names source.now.exprs other.now)) result }
{
    let class = class_of(one);
    let other_class = class_of(other);
    if class.name.0 == other_class.name.0 {
        overlap_within_class(source, one, other)
    } else {
        None
    }
}

// The least conflict of the things of two operations, thing by thing.
fn overlap_within_class(source: &Source, one: &ClassOp, other: &ClassOp) -> Option<Thing>
    requires distinct { AreDistinct source.now.names }
    requires one_known { IsOperation source.now.names source.now.exprs one.now }
    requires other_known { IsOperation source.now.names source.now.exprs other.now }
    ensures { IsLeastBy IsNoLater (OperationClash (plain_operation source.now.names source.now.exprs one.now) (plain_operation source.now.names source.now.exprs other.now)) result }
{
    let mut least = None;
    let count = touched_count(one);
    for number in 0..count {
        let thing = thing_at(one, number);
        let here = overlap_of_thing(source, thing, other);
        least = earlier(least, here);
    }
    least
}

// The least conflict of a thing and those of an operation.
fn overlap_of_thing(source: &Source, one: Touched, other: &ClassOp) -> Option<Thing>
    requires distinct { AreDistinct source.now.names }
    requires one_known { IsTouched source.now.names one }
    requires other_known { IsOperation source.now.names source.now.exprs other.now }
    ensures { IsLeastBy IsNoLater (ThingClash (plain_thing source.now.names one) (plain_operation source.now.names source.now.exprs other.now)) result }
{
    let mut least = None;
    let count = touched_count(other);
    for number in 0..count {
        let thing = thing_at(other, number);
        let here = clash(one, thing);
        least = earlier(least, here);
    }
    least
}

// The places of two things, where they conflict.
fn clash(one: Touched, other: Touched) -> Option<Thing>
    ensures { (names : List Text) → AreDistinct names → IsTouched names one → IsTouched names other → IsLeastBy IsNoLater (Clash (plain_thing names one) (plain_thing names other)) result }
{
    let places = Thing {
        first: one.at,
        second: other.at,
    };
    pair_if(conflicts(one, other), places)
}

// The pair, where there is one.
fn pair_if(is_there: bool, pair: Thing) -> Option<Thing>
    ensures { result ≡ (if is_there then Some pair else None) }
{
    is_there.then_some(pair)
}
