//! The faults of a source, in the order in which they are looked for.
ghost use Rattle.std.specs.Prelude.{ℕ, ◌<◌, ◌↔◌, IfOk, IfSome, IsNone};
ghost use Rattle.dj_tree.specs.Plain.{plain_source};
ghost use Rattle.dj_tree.specs.WellFormed.{IsWellFormed};
ghost use Rattle.dj_calculus.specs.Accepted.{FirstFault, IsAccepted};
ghost use Rattle.dj_calculus.specs.Faults.{Fault, fault_rank};
ghost use Rattle.dj_calculus.specs.FaultPlaces.{FaultStands};
ghost use Rattle.dj_faults.specs.LeastPlace.{IsLeastPlace};
ghost use Rattle.dj_faults.specs.Inside.{line_fault};
ghost use Rattle.dj_faults.specs.LineFaults.{fault_of};
ghost use Rattle.dj_faults.specs.Numbers.{IsSound};
ghost use Rattle.dj_faults.specs.Places.{AreLeast};

use crate::classes::reserved_class;
use crate::deltas::{delta_not_placed, delta_placed_twice, repeated_delta, unknown_delta};
use crate::features::{repeated_feature, too_many_features, unknown_feature};
use crate::operations::{Places, in_deltas};
use crate::parts::{parts_no_chain, repeated_part, unknown_part};
use dj_names::names_are_distinct;
use dj_tree::Source;
use std::alloc::{AllocError as NoMemory, Global};

/// A fault of a source that the grammar accepts. `fault_of` says which one.
#[derive(Clone, Copy, Debug, PartialEq, Eq, Drop)]
pub enum LineFault {
    /// A feature is listed twice.
    RepeatedFeature,
    /// A formula names what is no feature.
    UnknownFeature,
    /// There are more than 4,096 features.
    TooManyFeatures,
    /// A delta is declared twice.
    RepeatedDelta,
    /// An item names no declared delta.
    UnknownDelta,
    /// No item names a declared delta.
    DeltaNotPlaced,
    /// Two items name one delta.
    DeltaPlacedTwice,
    /// Two parts have one name.
    RepeatedPart,
    /// A part comes after none that there is.
    UnknownPart,
    /// A part isn't reached along the chain of parts.
    PartsNoChain,
    /// Two operations of a delta are on one class, or two in a change on one field or method.
    RepeatedOperation,
    /// A class has two fields, or two methods, of one name.
    RepeatedMember,
    /// A method has two parameters of one name.
    RepeatedParameter,
    /// An operation is on `Object`.
    ReservedClass,
    /// `original` is called in a method that isn't modified.
    OriginalOutside,
}

/// The faults in the order in which they are looked for.
const FAULTS: [LineFault; 15] = [
    LineFault::RepeatedFeature,
    LineFault::UnknownFeature,
    LineFault::TooManyFeatures,
    LineFault::RepeatedDelta,
    LineFault::UnknownDelta,
    LineFault::DeltaNotPlaced,
    LineFault::DeltaPlacedTwice,
    LineFault::RepeatedPart,
    LineFault::UnknownPart,
    LineFault::PartsNoChain,
    LineFault::RepeatedOperation,
    LineFault::RepeatedMember,
    LineFault::RepeatedParameter,
    LineFault::ReservedClass,
    LineFault::OriginalOutside,
];

/// The first fault of a source, with its place as a byte offset, or `None` where the source is accepted,
/// as `FirstFault` and `IsAccepted` say. The one error is want of memory.
pub fn first_fault(alloc: Global, source: &Source) -> Result<Option<(LineFault, u32)>, NoMemory>
    requires { IsWellFormed source.now }
    ensures accepted { IfOk result (λ found. IsNone found ↔ IsAccepted (plain_source source.now)) }
    ensures first { IfOk result (λ found. IfSome found (λ f. FirstFault (plain_source source.now) (fault_of f.0) f.1)) }
{
    names_are_distinct(&source.names);
    let inside = in_deltas(alloc, source)?;
    for fault in FAULTS {
        if let Some(at) = least_place(alloc, source, inside, fault)? {
            return Ok(Some((fault, at)));
        }
    }
    Ok(None)
}

// The least place at which a fault stands, where none that is looked for before it stands anywhere. `inside` has
// those of faults in operations.
fn least_place(
    alloc: Global,
    source: &Source,
    inside: Places,
    fault: LineFault,
) -> Result<Option<u32>, NoMemory>
    requires sound { IsSound source.now }
    requires inside { AreLeast (λ other. FaultStands (plain_source source.now) (line_fault other)) inside }
    requires earlier { (other : Fault) (at : ℕ) → fault_rank other < fault_rank (fault_of fault) → ¬ FaultStands (plain_source source.now) other at }
    ensures { IfOk result (IsLeastPlace (FaultStands (plain_source source.now) (fault_of fault))) }
{
    match fault {
        LineFault::RepeatedFeature => repeated_feature(alloc, source),
        LineFault::UnknownFeature => unknown_feature(alloc, source),
        LineFault::TooManyFeatures => Ok(too_many_features(source)),
        LineFault::RepeatedDelta => repeated_delta(alloc, source),
        LineFault::UnknownDelta => unknown_delta(alloc, source),
        LineFault::DeltaNotPlaced => delta_not_placed(alloc, source),
        LineFault::DeltaPlacedTwice => delta_placed_twice(alloc, source),
        LineFault::RepeatedPart => repeated_part(alloc, source),
        LineFault::UnknownPart => unknown_part(alloc, source),
        LineFault::PartsNoChain => parts_no_chain(alloc, source),
        LineFault::RepeatedOperation => Ok(inside.repeated_operation),
        LineFault::RepeatedMember => Ok(inside.repeated_member),
        LineFault::RepeatedParameter => Ok(inside.repeated_parameter),
        LineFault::ReservedClass => Ok(reserved_class(source)),
        LineFault::OriginalOutside => Ok(inside.original_outside),
    }
}
