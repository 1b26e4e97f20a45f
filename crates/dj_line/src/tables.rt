//! The tables of a line.

ghost use Rattle.std.specs.Prelude.{◌≡◌, ℕ, ◌<◌, ◌≤◌, Some, length, map, slice_get, All, IfOk};
ghost use Rattle.dj_tree.specs.declared.declarations.Item.{Item};
ghost use Rattle.dj_line.specs.declared.tables.Placing.{Placing};
ghost use Rattle.dj_line.specs.Numbering.{StandOnce, number_by, IsSetTo};

use arena_walk::NodeId;
use dj_conditions::number_in;
use dj_tree::{DeltaDecl, Item, Spot};
use indexmap::IndexSet;
use std::alloc::{AllocError as NoMemory, Global};

/// Where a delta stands: the number of its part along the chain, from 1, or 0 where it is not placed
/// yet, and its condition.
#[derive(Clone, Copy)]
pub(crate) struct Placing {
    pub(crate) part: u32,
    pub(crate) when: Option<NodeId>,
}

// The names of the features, in order.
pub(crate) fn feature_names(alloc: Global, features: &[Spot]) -> Result<IndexSet<u32>, NoMemory>
    requires { StandOnce (map (λ f. f.name.0) features.now) }
    ensures { IfOk result (λ names. names.keys ≡ map (λ f. f.name.0) features.now) }
{
    let mut names = IndexSet::new(alloc);
    for feature in features {
        names.insert(feature.name.0)?;
    }
    Ok(names)
}

// The names of the deltas, in order.
pub(crate) fn delta_names(alloc: Global, deltas: &[DeltaDecl]) -> Result<IndexSet<u32>, NoMemory>
    requires { StandOnce (map (λ d. d.spot.name.0) deltas.now) }
    ensures { IfOk result (λ names. names.keys ≡ map (λ d. d.spot.name.0) deltas.now) }
{
    let mut names = IndexSet::new(alloc);
    for delta in deltas {
        names.insert(delta.spot.name.0)?;
    }
    Ok(names)
}

// The numbers of the deltas of these items.
pub(crate) fn item_numbers(
    alloc: Global,
    items: &[Item],
    deltas: &IndexSet<u32>,
) -> Result<Vec<u32>, NoMemory>
    requires { length deltas.now.keys ≤ 4294967295 }
    ensures { IfOk result (λ numbers. numbers.items ≡ map (number_by deltas.now.keys) items.now) }
{
    let mut numbers = Vec::new(alloc);
    for item in items {
        numbers.push(number_in(deltas, item.delta.name.0))?;
    }
    Ok(numbers)
}

// Places the deltas of these items in a part.
pub(crate) fn place(placings: &mut [Placing], items: &[Item], deltas: &IndexSet<u32>, part: u32)
    requires few { length deltas.now.keys ≤ 4294967295 }
    requires within { All (λ i. number_by deltas.now.keys i < length placings.old) items.now }
    ensures { (delta : ℕ) (p : Placing) → slice_get placings.new delta ≡ Some p → IsSetTo placings.old (number_by deltas.now.keys) items.now part delta p }
{
    for item in items {
        placings[number_in(deltas, item.delta.name.0) as usize] = Placing {
            part,
            when: item.when,
        };
    }
}
