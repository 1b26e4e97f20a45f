//! Faults of features, and of the names in formulas.
ghost use Rattle.std.specs.Prelude.{◌≡◌, ℕ, All, nat_eq, IfOk};
ghost use Rattle.indexmap.specs.IndexSet.{contains};
ghost use Rattle.dj_tree.specs.Plain.{plain_source, plain_item};
ghost use Rattle.dj_tree.specs.WellFormed.{IsItem};
ghost use Rattle.dj_calculus.specs.Faults.{RepeatedFeature, UnknownFeature, TooManyFeatures};
ghost use Rattle.dj_calculus.specs.FaultPlaces.{FaultStands};
ghost use Rattle.dj_faults.specs.LeastPlace.{IsLeastPlace, Among};
ghost use Rattle.dj_faults.specs.Numbers.{IsSound, is_met};
ghost use Rattle.dj_faults.specs.Inside.{UnknownInItem};

use crate::least::earlier;
use crate::numbers::{numbers, repeated};
use crate::trees::unknown_names;
use dj_tree::{Item, Source};
use indexmap::IndexSet;
use std::alloc::{AllocError as NoMemory, Global};

/// A line has at most so many features.
const MOST_FEATURES: usize = 4096;

// The least place of a feature that was listed before.
pub fn repeated_feature(alloc: Global, source: &Source) -> Result<Option<u32>, NoMemory>
    requires { IsSound source.now }
    ensures { IfOk result (IsLeastPlace (FaultStands (plain_source source.now) RepeatedFeature)) }
{
    repeated(alloc, source.features.as_slice())
}

// The place of the first feature that is one too many.
pub fn too_many_features(source: &Source) -> Option<u32>
    requires { IsSound source.now }
    ensures { IsLeastPlace (FaultStands (plain_source source.now) TooManyFeatures) result }
{
    let features = source.features.as_slice();
    if features.len() > MOST_FEATURES {
        Some(features[MOST_FEATURES].at)
    } else {
        None
    }
}

// The least place of a name in the condition of an item that is no feature.
fn in_item(
    alloc: Global,
    source: &Source,
    features: &IndexSet<u32>,
    item: &Item,
) -> Result<Option<u32>, NoMemory>
    requires sound { IsSound source.now }
    requires features { (n : ℕ) → contains nat_eq features.now n ≡ is_met source.now.features n }
    requires item { IsItem source.now.names source.now.formulas item.now }
    ensures { IfOk result (IsLeastPlace (UnknownInItem (plain_source source.now).features (plain_item source.now.names source.now.formulas item.now))) }
{
    match item.when {
        Some(root) => unknown_names(alloc, source, features, root),
        None => Ok(None),
    }
}

// The least place of a name in the conditions of items that is no feature.
fn in_items(
    alloc: Global,
    source: &Source,
    features: &IndexSet<u32>,
    items: &[Item],
) -> Result<Option<u32>, NoMemory>
    requires sound { IsSound source.now }
    requires features { (n : ℕ) → contains nat_eq features.now n ≡ is_met source.now.features n }
    requires items { All (IsItem source.now.names source.now.formulas) items.now }
    ensures { IfOk result (IsLeastPlace (Among (λ i. UnknownInItem (plain_source source.now).features (plain_item source.now.names source.now.formulas i)) items.now)) }
{
    let mut least = None;
    for item in items {
        let here = in_item(alloc, source, features, item)?;
        least = earlier(least, here);
    }
    Ok(least)
}

// The least place of a name in the conditions of all parts that is no feature.
fn in_parts(
    alloc: Global,
    source: &Source,
    features: &IndexSet<u32>,
) -> Result<Option<u32>, NoMemory>
    requires sound { IsSound source.now }
    requires features { (n : ℕ) → contains nat_eq features.now n ≡ is_met source.now.features n }
    ensures { IfOk result (IsLeastPlace (Among (λ p. Among (λ i. UnknownInItem (plain_source source.now).features (plain_item source.now.names source.now.formulas i)) p.items) source.now.parts)) }
{
    let mut least = None;
    for part in source.parts.as_slice() {
        let here = in_items(alloc, source, features, part.items.as_slice())?;
        least = earlier(least, here);
    }
    Ok(least)
}

// The least place of a name in a formula that is no feature.
pub fn unknown_feature(alloc: Global, source: &Source) -> Result<Option<u32>, NoMemory>
    requires { IsSound source.now }
    ensures { IfOk result (IsLeastPlace (FaultStands (plain_source source.now) UnknownFeature)) }
{
    let features = numbers(alloc, source.features.as_slice())?;
    let valid = unknown_names(alloc, source, &features, source.valid)?;
    let conditions = in_parts(alloc, source, &features)?;
    Ok(earlier(valid, conditions))
}
