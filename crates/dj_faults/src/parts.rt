//! Faults of parts, and their chain.
ghost use Rattle.std.specs.Prelude.{◌≡◌, ℕ, ◌<◌, ◌++◌, All, length, nat_eq, slice_get, Some, None, IfOk, IfSome, OnOk, is_some, is_none, if◌then◌else◌};
ghost use Rattle.std.specs.List.{filter_map, find};
ghost use Rattle.std.specs.Option.{option_map, option_and_then, option_to_list};
ghost use Rattle.indexmap.specs.IndexMap.{get};
ghost use Rattle.dj_tree.specs.Plain.{plain_source};
ghost use Rattle.dj_tree.specs.WellFormed.{IsWellFormed};
ghost use Rattle.dj_calculus.specs.Parts.{chain};
ghost use Rattle.dj_calculus.specs.Faults.{RepeatedPart, UnknownPart, PartsNoChain};
ghost use Rattle.dj_calculus.specs.FaultPlaces.{FaultStands};
ghost use Rattle.dj_faults.specs.LeastPlace.{IsLeastPlace};
ghost use Rattle.dj_faults.specs.Numbers.{IsSound};
ghost use Rattle.dj_faults.specs.Chains.{comes_after_name, IsNumberOf};

use crate::numbers::{repeated, unknown};
use crate::spots::{after_names, part_names};
use dj_names::names_are_distinct;
use dj_tree::{PartDecl, Source, Spot};
use indexmap::IndexMap;
use std::alloc::{AllocError as NoMemory, Global};

// The least place of a part whose name an earlier one has.
pub fn repeated_part(alloc: Global, source: &Source) -> Result<Option<u32>, NoMemory>
    requires { IsSound source.now }
    ensures { IfOk result (IsLeastPlace (FaultStands (plain_source source.now) RepeatedPart)) }
{
    let names = part_names(alloc, source.parts.as_slice())?;
    repeated(alloc, names.as_slice())
}

// The least place of an `after` that names no part.
pub fn unknown_part(alloc: Global, source: &Source) -> Result<Option<u32>, NoMemory>
    requires { IsSound source.now }
    ensures { IfOk result (IsLeastPlace (FaultStands (plain_source source.now) UnknownPart)) }
{
    let names = part_names(alloc, source.parts.as_slice())?;
    let after = after_names(alloc, source.parts.as_slice())?;
    unknown(alloc, after.as_slice(), names.as_slice())
}

// The number of the first part without `after`.
fn first_part(parts: &[PartDecl]) -> Option<usize>
    ensures { IsNumberOf parts.now (length parts.now) (find (λ p. is_none p.after) parts.now) result }
{
    for (number, part) in parts.iter().enumerate() {
        if part.after.is_none() {
            return Some(number);
        }
    }
    None
}

// Notes that a part comes after the one of its `after`, where none is noted for that name yet.
fn follow(
    followers: &mut IndexMap<u32, usize>,
    part: &PartDecl,
    number: usize,
) -> Result<(), NoMemory>
    ensures { OnOk result ((n : ℕ) → get nat_eq followers.new n
        ≡ (if is_some (get nat_eq followers.old n) then get nat_eq followers.old n else (if comes_after_name n part.now then Some number else None))) }
{
    if let Some(after) = part.after {
        if followers.get(&after.name.0).is_none() {
            followers.insert(after.name.0, number)?;
        }
    }
    Ok(())
}

// For the name of a part the number of the first part that comes after it.
fn followers_of(alloc: Global, parts: &[PartDecl]) -> Result<IndexMap<u32, usize>, NoMemory>
    ensures { IfOk result (λ m. (n : ℕ) → IsNumberOf parts.now (length parts.now) (find (comes_after_name n) parts.now) (get nat_eq m n)) }
{
    let mut followers = IndexMap::new(alloc);
    for (number, part) in parts.iter().enumerate() {
        follow(&mut followers, part, number)?;
    }
    Ok(followers)
}

// The number of the part that comes after this one.
fn next_part(
    parts: &[PartDecl],
    followers: &IndexMap<u32, usize>,
    next: Option<usize>,
) -> Option<usize>
    requires within { IfSome next (λ k. k < length parts.now) }
    requires followers { (n : ℕ) → IsNumberOf parts.now (length parts.now) (find (comes_after_name n) parts.now) (get nat_eq followers.now n) }
    ensures { IsNumberOf parts.now (length parts.now) (option_and_then (λ p. find (comes_after_name p.spot.name.0) parts.now) (option_and_then (slice_get parts.now) next)) result }
{
    match next {
        Some(number) => followers.get(&parts[number].spot.name.0).copied(),
        None => None,
    }
}

/// The numbers of the parts of the chain, from 0 in the order of the source, as `chain` says, where no
/// part is repeated. The one error is want of memory.
pub fn chain_of(alloc: Global, source: &Source) -> Result<Vec<usize>, NoMemory>
    requires well_formed { IsWellFormed source.now }
    requires once { (at : ℕ) → ¬ FaultStands (plain_source source.now) RepeatedPart at }
    ensures within { IfOk result (λ v. All (λ k. k < length source.now.parts) v.items) }
    ensures chain { IfOk result (λ v. filter_map (slice_get (plain_source source.now).parts) v.items ≡ chain (plain_source source.now)) }
{
    names_are_distinct(&source.names);
    let parts = source.parts.as_slice();
    let followers = followers_of(alloc, parts)?;
    let mut numbers = Vec::new(alloc);
    let mut next = first_part(parts);
    for _step in 0..parts.len() {
        push_some(&mut numbers, next)?;
        next = next_part(parts, &followers, next);
    }
    Ok(numbers)
}

// Puts a number last, where there is one.
fn push_some(numbers: &mut Vec<usize>, next: Option<usize>) -> Result<(), NoMemory>
    ensures { OnOk result (numbers.new.items ≡ numbers.old.items ++ option_to_list next) }
{
    if let Some(number) = next {
        numbers.push(number)?;
    }
    Ok(())
}

// The names of parts by their numbers.
fn names_of(alloc: Global, parts: &[PartDecl], numbers: &[usize]) -> Result<Vec<Spot>, NoMemory>
    requires { All (λ k. k < length parts.now) numbers.now }
    ensures { IfOk result (λ v. v.items ≡ filter_map (λ k. option_map (λ p. p.spot) (slice_get parts.now k)) numbers.now) }
{
    let mut names = Vec::new(alloc);
    for number in numbers {
        names.push(parts[*number].spot)?;
    }
    Ok(names)
}

// The least place of a part that isn't reached, where no part is repeated.
pub fn parts_no_chain(alloc: Global, source: &Source) -> Result<Option<u32>, NoMemory>
    requires sound { IsSound source.now }
    requires once { (at : ℕ) → ¬ FaultStands (plain_source source.now) RepeatedPart at }
    ensures { IfOk result (IsLeastPlace (FaultStands (plain_source source.now) PartsNoChain)) }
{
    let reached = chain_of(alloc, source)?;
    let reached = names_of(alloc, source.parts.as_slice(), reached.as_slice())?;
    let names = part_names(alloc, source.parts.as_slice())?;
    unknown(alloc, names.as_slice(), reached.as_slice())
}
