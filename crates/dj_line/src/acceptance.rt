//! Lines of accepted sources.

ghost use Rattle.std.specs.Prelude.{◌≡◌, ◌≢◌, ◌↔◌, MatchResult, IsOk, ℕ, ◌<◌, ◌≤◌, Some, length, map, slice_get, All, IfOk, IfSome};
ghost use Rattle.std.specs.List.{filter_map};
ghost use Rattle.dj_names.specs.Texts.{AreDistinct};
ghost use Rattle.dj_tree.specs.Plain.{plain_source};
ghost use Rattle.dj_tree.specs.Spells.{Laid};
ghost use Rattle.dj_tree.specs.WellFormed.{IsWellFormed};
ghost use Rattle.dj_tree.specs.declared.declarations.PartDecl.{PartDecl};
ghost use Rattle.dj_calculus.specs.Accepted.{IsAccepted, FirstFault};
ghost use Rattle.dj_calculus.specs.Parts.{chain as chain_of_source};
ghost use Rattle.dj_formula.specs.declared.formula.Formula.{Formula as FormulaOf};
ghost use Rattle.dj_conditions.specs.Conditions.{StandsFor};
ghost use Rattle.dj_line.specs.declared.tables.Placing.{Placing as PlacingOf};
ghost use Rattle.dj_faults.specs.declared.fault.LineFault.{LineFault as FaultOfLine};
ghost use Rattle.dj_faults.specs.LineFaults.{fault_of};
ghost use Rattle.dj_line.specs.Lines.{plain_line};
ghost use Rattle.dj_line.specs.LineErrors.{IsLineError};
ghost use Rattle.dj_line.specs.Placing.{condition_of, numbers_along};
ghost use Rattle.dj_line.specs.Numbering.{number_by, ArePlaced, HasItems, IsPlaced, when_formula};

use crate::errors::LineError;
use crate::line::Line;
use crate::tables::{Placing, delta_names, feature_names, item_numbers, place};
use arena_walk::NodeId;
use dj_conditions::{constant_true, formula_of};
use dj_faults::{chain_of, first_fault};
use dj_formula::Formula;
use dj_names::names_are_distinct;
use dj_tree::{PartDecl, Source};
use indexmap::IndexSet;
use std::alloc::{AllocError as NoMemory, Global};

/// The line of a source, or the first fault that stands in it, with the byte offset of its place.
pub fn accept(alloc: Global, source: Source) -> Result<Line, LineError>
    requires well_formed { IsWellFormed source }
    requires laid { Laid (plain_source source) }
    ensures line { IfOk result (λ line. plain_line line ≡ plain_source source) }
    ensures given { result ≢ Err LineError.NoMemory → (IsOk result ↔ IsAccepted (plain_source source)) }
    ensures refused { (fault : FaultOfLine) (at : ℕ) → result ≢ Err LineError.NoMemory
        → ((result ≡ Err (LineError.Refused fault at)) ↔ FirstFault (plain_source source) (fault_of fault) at) }
{
    judged(alloc, source)
}

fn judged(alloc: Global, source: Source) -> Result<Line, LineError>
    requires well_formed { IsWellFormed source }
    requires laid { Laid (plain_source source) }
    ensures { MatchResult result (λ line. (plain_line line ≡ plain_source source) × IsAccepted (plain_source source)) (IsLineError (plain_source source)) }
{
    match first_fault(alloc, &source)? {
        Some((fault, at)) => Err(LineError::Refused(fault, at)),
        None => Ok(accepted(alloc, source)?),
    }
}

// The line of an accepted source.
fn accepted(alloc: Global, source: Source) -> Result<Line, NoMemory>
    requires well_formed { IsWellFormed source }
    requires laid { Laid (plain_source source) }
    requires accepted { IsAccepted (plain_source source) }
    ensures { IfOk result (λ line. plain_line line ≡ plain_source source) }
{
    names_are_distinct(&source.names);
    let chain = chain_of(alloc, &source)?;
    line_of(alloc, source, &chain)
}

// The line of an accepted source. `chain` has the numbers of its parts, from 0, along the chain.
fn line_of(alloc: Global, source: Source, chain: &[usize]) -> Result<Line, NoMemory>
    requires well_formed { IsWellFormed source }
    requires laid { Laid (plain_source source) }
    requires accepted { IsAccepted (plain_source source) }
    requires distinct { AreDistinct source.names }
    requires within { All (λ k. k < length source.parts) chain.now }
    requires chain { filter_map (slice_get (plain_source source).parts) chain.now ≡ chain_of_source (plain_source source) }
    ensures { IfOk result (λ line. plain_line line ≡ plain_source source) }
{
    few_deltas(&source);
    few_parts(&source);
    let features = feature_names(alloc, source.features.as_slice())?;
    let deltas = delta_names(alloc, source.deltas.as_slice())?;
    let items = chain_items(alloc, source.parts.as_slice(), chain, &deltas)?;
    let placings = chain_placings(alloc, source.parts.as_slice(), chain, &deltas)?;
    finished(alloc, source, features, deltas, items, &placings)
}

// The names of deltas stand at places that differ, so numbers of 32 bits are enough for them.
fn few_deltas(source: &Source)
    requires { Laid (plain_source source.now) }
    ensures { length source.now.deltas ≤ 4294967295 }
{
    if let Some(delta) = source.deltas.as_slice().last() {
        has_32_bits(delta.spot.at);
    }
}

// And so it is with parts.
fn few_parts(source: &Source)
    requires { Laid (plain_source source.now) }
    ensures { length source.now.parts ≤ 4294967295 }
{
    if let Some(part) = source.parts.as_slice().last() {
        has_32_bits(part.spot.at);
    }
}

fn has_32_bits(at: u32)
    ensures { at ≤ 4294967295 }
{
    let _ = at;
}

// The numbers of the deltas of each part of the chain.
fn chain_items(
    alloc: Global,
    parts: &[PartDecl],
    chain: &[usize],
    deltas: &IndexSet<u32>,
) -> Result<Vec<Vec<u32>>, NoMemory>
    requires few { length deltas.now.keys ≤ 4294967295 }
    requires within { All (λ k. k < length parts.now) chain.now }
    ensures { IfOk result (λ items. HasItems (number_by deltas.now.keys) parts.now chain.now (map (λ v. v.items) items.items)) }
{
    let mut items = Vec::new(alloc);
    for part in chain {
        let part = &parts[*part];
        items.push(item_numbers(alloc, part.items.as_slice(), deltas)?)?;
    }
    Ok(items)
}

// Where each delta stands, as the parts of the chain place them.
fn chain_placings(
    alloc: Global,
    parts: &[PartDecl],
    chain: &[usize],
    deltas: &IndexSet<u32>,
) -> Result<Vec<Placing>, NoMemory>
    requires few { length deltas.now.keys ≤ 4294967295 }
    requires few_parts { length chain.now ≤ 4294967295 }
    requires within { All (λ k. k < length parts.now) chain.now }
    requires numbered { (k : ℕ) (part : PartDecl) → slice_get parts.now k ≡ Some part → All (λ i. number_by deltas.now.keys i < length deltas.now.keys) part.items }
    ensures count { IfOk result (λ placings. length placings.items ≡ length deltas.now.keys) }
    ensures placed { IfOk result (λ placings. ArePlaced (number_by deltas.now.keys) parts.now chain.now (length chain.now) placings.items) }
{
    let mut placings = vec![in alloc; Placing {
        part: 0,
        when: None
    }; deltas.len()]?;
    for (k, part) in chain.iter().enumerate() {
        let items = parts[*part].items.as_slice();
        place(&mut placings, items, deltas, k as u32 + 1);
    }
    Ok(placings)
}

// The formula of a condition.
fn condition(
    alloc: Global,
    source: &Source,
    features: &IndexSet<u32>,
    when: Option<NodeId>,
) -> Result<Formula, NoMemory>
    requires well_formed { IsWellFormed source.now }
    requires distinct { AreDistinct source.now.names }
    requires there { IfSome when (λ root. root.0 < length source.now.formulas) }
    requires features { features.now.keys ≡ map (λ f. f.name.0) source.now.features }
    requires few { length source.now.features ≤ 4096 }
    ensures { IfOk result (λ formula. StandsFor (plain_source source.now) formula (when_formula source.now when)) }
{
    match when {
        None => constant_true(alloc),
        Some(root) => formula_of(alloc, source, features, root),
    }
}

// The condition of each delta.
fn conditions(
    alloc: Global,
    source: &Source,
    features: &IndexSet<u32>,
    placings: &[Placing],
) -> Result<Vec<Formula>, NoMemory>
    requires well_formed { IsWellFormed source.now }
    requires distinct { AreDistinct source.now.names }
    requires placed { (delta : ℕ) (p : PlacingOf) → slice_get placings.now delta ≡ Some p → IsPlaced source.now delta p }
    requires features { features.now.keys ≡ map (λ f. f.name.0) source.now.features }
    requires few { length source.now.features ≤ 4096 }
    ensures count { IfOk result (λ formulas. length formulas.items ≡ length placings.now) }
    ensures stand { IfOk result (λ formulas. (delta : ℕ) (formula : FormulaOf) → slice_get formulas.items delta ≡ Some formula
        → StandsFor (plain_source source.now) formula (condition_of (plain_source source.now) delta)) }
{
    let mut formulas = Vec::new(alloc);
    for placing in placings {
        formulas.push(condition(alloc, source, features, placing.when)?)?;
    }
    Ok(formulas)
}

// The part of each delta.
fn part_numbers(alloc: Global, placings: &[Placing]) -> Result<Vec<u32>, NoMemory>
    ensures { IfOk result (λ numbers. numbers.items ≡ map (λ p. p.part) placings.now) }
{
    placings.iter().map(|placing| placing.part).collect(alloc)
}

// The line of a source and of what is known of it.
fn finished(
    alloc: Global,
    source: Source,
    features: IndexSet<u32>,
    deltas: IndexSet<u32>,
    items: Vec<Vec<u32>>,
    placings: &[Placing],
) -> Result<Line, NoMemory>
    requires well_formed { IsWellFormed source }
    requires laid { Laid (plain_source source) }
    requires accepted { IsAccepted (plain_source source) }
    requires distinct { AreDistinct source.names }
    requires features { features.keys ≡ map (λ f. f.name.0) source.features }
    requires deltas { deltas.keys ≡ map (λ d. d.spot.name.0) source.deltas }
    requires few { length source.deltas ≤ 4294967295 }
    requires items { map (λ v. v.items) items.items ≡ numbers_along (plain_source source) }
    requires count { length placings.now ≡ length source.deltas }
    requires placed { (delta : ℕ) (p : PlacingOf) → slice_get placings.now delta ≡ Some p → IsPlaced source delta p }
    ensures { IfOk result (λ line. plain_line line ≡ plain_source source) }
{
    let valid = formula_of(alloc, &source, &features, source.valid)?;
    let conditions = conditions(alloc, &source, &features, placings)?;
    let part_numbers = part_numbers(alloc, placings)?;
    Ok(Line {
        source,
        features,
        deltas,
        items,
        part_numbers,
        valid,
        conditions,
    })
}
