//! Names by their numbers: which are met twice, and which aren't met.
ghost use Rattle.std.specs.Prelude.{◌≡◌, ℕ, true, length, nat_eq, Some, None, IfOk, OnOk, if◌then◌else◌};
ghost use Rattle.indexmap.specs.IndexSet.{contains};
ghost use Rattle.dj_faults.specs.LeastPlace.{IsLeastPlace, Among};
ghost use Rattle.dj_faults.specs.Numbers.{is_met, Again, Unmet};

use crate::least::earlier;
use dj_tree::Spot;
use indexmap::IndexSet;
use std::alloc::{AllocError as NoMemory, Global};

// The place of a name whose number is met already. It is met from then on.
fn meet(met: &mut IndexSet<u32>, spot: Spot) -> Result<Option<u32>, NoMemory>
    ensures again { IfOk result (λ again. again ≡ (if contains nat_eq met.old spot.name.0 then Some spot.at else None)) }
    ensures met { OnOk result ((n : ℕ) → contains nat_eq met.new n ≡ (if nat_eq spot.name.0 n then true else contains nat_eq met.old n)) }
{
    let (_, is_new) = met.insert_full(spot.name.0)?;
    Ok(if is_new { None } else { Some(spot.at) })
}

/// The least place of a name whose number stands before it in the list, or None where each number stands once:
/// `IsLeastPlace` of `Again`.
pub fn repeated(alloc: Global, spots: &[Spot]) -> Result<Option<u32>, NoMemory>
    ensures { IfOk result (IsLeastPlace (Again spots.now (length spots.now))) }
{
    let mut met = IndexSet::new(alloc);
    let mut least = None;
    for spot in spots {
        let again = meet(&mut met, *spot)?;
        least = earlier(least, again);
    }
    Ok(least)
}

// The numbers of names.
pub fn numbers(alloc: Global, spots: &[Spot]) -> Result<IndexSet<u32>, NoMemory>
    ensures { IfOk result (λ met. (n : ℕ) → contains nat_eq met n ≡ is_met spots.now n) }
{
    let mut met = IndexSet::new(alloc);
    for spot in spots {
        meet(&mut met, *spot)?;
    }
    Ok(met)
}

// The place of a name whose number isn't met.
pub fn unmet(met: &IndexSet<u32>, spot: Spot) -> Option<u32>
    ensures { result ≡ (if contains nat_eq met.now spot.name.0 then None else Some spot.at) }
{
    if met.contains(&spot.name.0) {
        None
    } else {
        Some(spot.at)
    }
}

// The least place of a name whose number none of the others has.
pub fn unknown(alloc: Global, spots: &[Spot], others: &[Spot]) -> Result<Option<u32>, NoMemory>
    ensures { IfOk result (IsLeastPlace (Among (Unmet others.now) spots.now)) }
{
    let met = numbers(alloc, others)?;
    let mut least = None;
    for spot in spots {
        least = earlier(least, unmet(&met, *spot));
    }
    Ok(least)
}
