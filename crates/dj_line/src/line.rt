//! An accepted line.

ghost use Rattle.std.specs.Prelude.{◌≡◌, ◌≤◌, List, false, length, map, All, MatchOption};
ghost use Rattle.dj_names.specs.Texts.{AreDistinct};
ghost use Rattle.dj_tree.specs.Plain.{plain_source, plain_spot};
ghost use Rattle.dj_tree.specs.declared.declarations.Spot.{Spot};
ghost use Rattle.dj_tree.specs.Spells.{Laid};
ghost use Rattle.dj_tree.specs.WellFormed.{IsKnown, IsWellFormed};
ghost use Rattle.dj_calculus.specs.Accepted.{IsAccepted};
ghost use Rattle.dj_calculus.specs.Configurations.{is_named};
ghost use Rattle.dj_calculus.specs.Expressions.{HasExpressions};
ghost use Rattle.dj_line.specs.Naming.{IsNamedAt};
ghost use Rattle.dj_tree.specs.Propositions.{IsWellFormed-prop};
ghost use Rattle.dj_line.specs.Tables.{AreTables, AreTables-prop};

use dj_formula::Formula;
use dj_names::Names;
use dj_tree::Source;
use indexmap::IndexSet;

/// A product line that no fault stands in. `plain_line` gives its plain source. Features and deltas
/// have numbers, in the order in which the source lists them, from 0; parts have numbers along the
/// chain, from 1.
#[derive(Drop)]
pub struct Line {
    pub(crate) source: Source,
    // The names of the features and of the deltas, in the order in which the source lists them.
    pub(crate) features: IndexSet<u32>,
    pub(crate) deltas: IndexSet<u32>,
    // The deltas of each part along the chain, in the order of its items.
    pub(crate) items: Vec<Vec<u32>>,
    // The part of each delta.
    pub(crate) part_numbers: Vec<u32>,
    pub(crate) valid: Formula,
    // The condition of each delta.
    pub(crate) conditions: Vec<Formula>,
    ghost well_formed: { IsWellFormed source } by { IsWellFormed-prop source },
    ghost accepted: { IsAccepted (plain_source source) },
    ghost laid: { ∥ Laid (plain_source source) ∥₁ },
    ghost distinct: { AreDistinct source.names },
    ghost tables: { AreTables source features.keys deltas.keys (map (λ v. v.items) items.items) part_numbers.items valid conditions.items } by { AreTables-prop source features.keys deltas.keys (map (λ v. v.items) items.items) part_numbers.items valid conditions.items },
}

impl Line {
    ghost use Rattle.std.specs.Prelude.{◌≡◌, ◌-◌, ◌<◌, ◌≤◌, Some, length, slice_get, IfSome, All};
    ghost use Rattle.std.specs.Option.{ForSome};
    ghost use Rattle.arena_walk.specs.Tree.{nodes};
    ghost use Rattle.dj_formula.specs.Value.{tree_of, HasValue, HasFeaturesBelow};
    ghost use Rattle.dj_conditions.specs.Conditions.{gates_of};
    ghost use Rattle.dj_calculus.specs.Configurations.{Configuration, chosen};
    ghost use Rattle.dj_calculus.specs.Formulas.{value as plain_value};
    ghost use Rattle.dj_line.specs.Lines.{plain_line};
    ghost use Rattle.dj_line.specs.Placing.{numbers_along, StandsIn, formula_of};

    /// The source, which is accepted. All its bodies are expressions.
    pub fn source(&self) -> &Source
        ensures line { plain_source result.now ≡ plain_line self.now }
        ensures well_formed { IsWellFormed result.now }
        ensures accepted { IsAccepted (plain_line self.now) }
        ensures laid { ∥ Laid (plain_line self.now) ∥₁ }
        ensures expressions { HasExpressions (plain_line self.now) }
    {
        &self.source
    }

    /// How many features the line has.
    pub fn feature_count(&self) -> usize
        ensures { result ≡ length (plain_line self.now).features }
    {
        self.source.features.as_slice().len()
    }

    /// How many deltas the line has.
    pub fn delta_count(&self) -> usize
        ensures { result ≡ length (plain_line self.now).deltas }
    {
        self.source.deltas.as_slice().len()
    }

    /// How many parts the line has.
    pub fn part_count(&self) -> usize
        ensures { result ≡ length (plain_line self.now).parts }
    {
        self.source.parts.as_slice().len()
    }

    /// The formula of valid configurations (`None`), or the condition of the delta of a number, which is
    /// constantly true where its item has none. Each feature stands in it by its number, and its nodes are those of
    /// the formula in post-order, so a node's number is its place in post-order.
    pub fn formula(&self, of: Option<u32>) -> &Formula
        requires { IfSome of (λ delta. delta < length (plain_line self.now).deltas) }
        ensures there { result.now.root.0 < length result.now.nodes }
        ensures tree { tree_of result.now ≡ Some (gates_of (plain_line self.now).features (formula_of (plain_line self.now) of)) }
        ensures nodes { result.now.nodes ≡ nodes (gates_of (plain_line self.now).features (formula_of (plain_line self.now) of)) }
        ensures features { ForSome (tree_of result.now) (HasFeaturesBelow (length (plain_line self.now).features)) }
        ensures value { (c : Configuration) → HasValue result.now c (plain_value (chosen (plain_line self.now) c) (formula_of (plain_line self.now) of)) }
    {
        match of {
            None => &self.valid,
            Some(delta) => &self.conditions[delta as usize],
        }
    }

    /// The number of the part, along the chain and from 1, that has an item of the delta.
    pub fn part_of(&self, delta: u32) -> u32
        requires { delta < length (plain_line self.now).deltas }
        ensures part { StandsIn (plain_line self.now) delta result }
        ensures from_one { 1 ≤ result }
        ensures within { result ≤ length (plain_line self.now).parts }
    {
        self.part_numbers[delta as usize]
    }

    /// The deltas of the part of this number, along the chain and from 1, in the order of its items.
    pub fn items(&self, part: u32) -> &[u32]
        requires from_one { 1 ≤ part }
        requires within { part ≤ length (plain_line self.now).parts }
        ensures numbers { slice_get (numbers_along (plain_line self.now)) (part - 1) ≡ Some result.now }
        ensures below { All (λ delta. delta < length (plain_line self.now).deltas) result.now }
    {
        self.items[part as usize - 1].as_slice()
    }

    // The number of the feature of this name.
    pub(crate) fn feature_named(&self, text: &str) -> Option<u32>
        ensures { MatchOption result (is_named (plain_line self.now).features text.now ≡ false)
            (λ number. IsNamedAt (plain_line self.now).features number text.now) }
    {
        number_named(&self.source.names, &self.features, text)
    }

    // The number of the delta of this name.
    pub(crate) fn delta_named(&self, text: &str) -> Option<u32>
        ensures { MatchOption result (is_named (map (λ d. d.name) (plain_line self.now).deltas) text.now ≡ false)
            (λ number. IsNamedAt (map (λ d. d.name) (plain_line self.now).deltas) number text.now) }
    {
        number_named(&self.source.names, &self.deltas, text)
    }
}

// The number of the key that is the name of this text.
fn number_named(names: &Names, keys: &IndexSet<u32>, text: &str) -> Option<u32>
    requires few { length keys.now.keys ≤ 4294967295 }
    ensures { (spots : List Spot) → keys.now.keys ≡ map (λ s. s.name.0) spots → All (IsKnown names.now) spots
        → MatchOption result (is_named (map (plain_spot names.now) spots) text.now ≡ false)
        (λ number. IsNamedAt (map (plain_spot names.now) spots) number text.now) }
{
    let name = names.find(text)?;
    let number = keys.get_index_of(&name.0)?;
    Some(number as u32)
}
