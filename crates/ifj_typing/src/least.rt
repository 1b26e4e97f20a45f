//! The least of instances.
ghost use Rattle.std.specs.Prelude.{MatchBool, ◌<◌, length};
ghost use Rattle.dj_calculus.specs.Instances.{IsNotAfter};
ghost use Rattle.ifj_typing.specs.Least.{IsLesser, IsLeastOf, Before, OfElement, IsFault};

use crate::kind::Typed;
use dj_tree::Instance;

/// Whether an instance isn't after the other.
pub fn is_first(one: Instance, other: Instance) -> bool
    ensures { MatchBool result (IsNotAfter one other) (IsNotAfter other one) }
{
    if one.rule != other.rule {
        return one.rule < other.rule;
    }
    if one.at != other.at {
        return one.at < other.at;
    }
    one.second <= other.second
}

/// The lesser of two instances that may be there.
pub fn lesser(one: Option<Instance>, other: Option<Instance>) -> Option<Instance>
    ensures { IsLesser one other result }
{
    let Some(first) = one else {
        return other;
    };
    let Some(second) = other else {
        return one;
    };
    if is_first(first, second) { one } else { other }
}

// The instance that was found for an expression.
fn fault_of(out: &Typed) -> Option<Instance>
    ensures { IsLeastOf (IsFault out.now) result }
{
    match out.found {
        Ok(_) => None,
        Err(instance) => Some(instance),
    }
}

/// The least instance among those of expressions that were judged.
pub fn least_fault(outs: &[Typed]) -> Option<Instance>
    ensures { IsLeastOf (Before (OfElement IsFault outs.now) (length outs.now)) result }
{
    let mut least = None;
    for out in outs {
        least = lesser(least, fault_of(out));
    }
    least
}
