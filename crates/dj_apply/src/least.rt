//! The least of several instances of rules.
ghost use Rattle.std.specs.Prelude.{◌↔◌, IsTrue};
ghost use Rattle.dj_calculus.specs.Instances.{IsNotAfter};
ghost use Rattle.dj_apply.specs.Least.{IsEarlierOf};

use dj_tree::Instance;

// Whether the first instance isn't after the other: by rule, then by place, then by second place.
fn is_not_after(one: Instance, other: Instance) -> bool
    ensures { IsTrue result ↔ IsNotAfter one other }
{
    if one.rule != other.rule {
        return one.rule < other.rule;
    }
    if one.at != other.at {
        return one.at < other.at;
    }
    one.second <= other.second
}

// The instance that isn't after the other, or the only one.
pub fn earlier(one: Option<Instance>, other: Option<Instance>) -> Option<Instance>
    ensures { IsEarlierOf IsNotAfter one other result }
{
    match (one, other) {
        (Some(one), Some(other)) => {
            if is_not_after(one, other) {
                Some(one)
            } else {
                Some(other)
            }
        }
        (Some(one), None) => Some(one),
        (None, other) => other,
    }
}
