//! Faults in formulas and in bodies.
ghost use Rattle.std.specs.Prelude.{◌≡◌, ℕ, ◌<◌, Contains, length, nat_eq, IfOk};
ghost use Rattle.indexmap.specs.IndexSet.{contains};
ghost use Rattle.arena_walk.specs.Tree.{nodes};
ghost use Rattle.dj_tree.specs.Trees.{OriginalForm};
ghost use Rattle.dj_tree.specs.Plain.{plain_source, plain_formula, plain_expr};
ghost use Rattle.dj_faults.specs.LeastPlace.{IsLeastPlace};
ghost use Rattle.dj_faults.specs.Numbers.{IsSound, is_met};
ghost use Rattle.dj_faults.specs.Inside.{UnknownIn, OriginalIn, UnknownName};

use crate::least::least_of;
use crate::numbers::unmet;
use arena_walk::{NodeId, Visit, walk};
use dj_tree::{ExprNode, FormulaNode, Source};
use indexmap::IndexSet;
use std::alloc::{AllocError as NoMemory, Global};
use std::convert::Infallible;

// Finds the least place of a name in a formula that is none of the features.
#[derive(Drop)]
struct UnknownNames<'a> {
    features: &'a IndexSet<u32>,
}

impl Visit<FormulaNode> for UnknownNames<'_> {
    ghost use Rattle.std.specs.Prelude.{◌≡◌, ⊤, nat_eq};
    ghost use Rattle.std.proofs.Common.{refl, sym, ◌∙◌, subst};
    ghost use Rattle.indexmap.specs.IndexSet.{contains};
    ghost use Rattle.arena_walk.specs.Tree.{nodes};
    ghost use Rattle.dj_faults.specs.LeastPlace.{IsLeastPlace, Among};
    ghost use Rattle.dj_faults.specs.Inside.{UnknownIn};

    type Out = Option<u32>;

    type Fault = Infallible;

    ghost stands = { λ visitor tree out. IsLeastPlace (Among (UnknownIn (contains nat_eq visitor.features.now)) (nodes tree)) out };

    ghost grew = { λ old new. new.features.now ≡ old.features.now };

    ghost admits = { λ _ _ _. ⊤ };

    ghost failed = { λ _ _. ⊥ };

    ghost grew_reflexive = { λ _. refl };

    ghost grew_transitive = { λ _ _ _ first second. second ∙ first };

    ghost still_stands = { λ _ _ tree out grown stood. subst (λ features. IsLeastPlace (Among (UnknownIn (contains nat_eq features)) (nodes tree)) out) (sym grown) stood };

    ghost still_admits = { λ _ _ _ _ _ admitted. admitted };

    fn node(
        &mut self,
        node: &FormulaNode,
        _at: NodeId,
        children: &[Option<u32>],
    ) -> Result<Option<u32>, Infallible> {
        Ok(least_of(unknown_at(self.features, node), children))
    }
}

// The place of a node that is no known feature.
fn unknown_at(features: &IndexSet<u32>, node: &FormulaNode) -> Option<u32>
    ensures { IsLeastPlace (UnknownIn (contains nat_eq features.now) node.now) result }
{
    match node {
        FormulaNode::Feature(spot) => unmet(features, *spot),
        _ => None,
    }
}

// The least place of a name in a formula that is none of the features, whose numbers these are.
pub fn unknown_names(
    alloc: Global,
    source: &Source,
    features: &IndexSet<u32>,
    root: NodeId,
) -> Result<Option<u32>, NoMemory>
    requires sound { IsSound source.now }
    requires features { (n : ℕ) → contains nat_eq features.now n ≡ is_met source.now.features n }
    requires there { root.0 < length source.now.formulas }
    ensures { IfOk result (IsLeastPlace (UnknownName (plain_source source.now).features (plain_formula source.now.names source.now.formulas root.0))) }
{
    match walk(
        alloc,
        &source.formulas,
        root,
        &mut UnknownNames { features },
    ) {
        Ok(least) => Ok(least),
        Err(_) => Err(NoMemory),
    }
}

// Finds the least `original(..)` of an expression.
#[derive(Drop)]
struct Originals;

impl Visit<ExprNode> for Originals {
    ghost use Rattle.std.specs.Prelude.{⊤};
    ghost use Rattle.arena_walk.specs.Tree.{nodes};
    ghost use Rattle.dj_faults.specs.LeastPlace.{IsLeastPlace, Among};
    ghost use Rattle.dj_faults.specs.Inside.{OriginalIn};

    type Out = Option<u32>;

    type Fault = Infallible;

    ghost stands = { λ _ tree out. IsLeastPlace (Among OriginalIn (nodes tree)) out };

    ghost grew = { λ _ _. ⊤ };

    ghost admits = { λ _ _ _. ⊤ };

    ghost failed = { λ _ _. ⊥ };

    ghost grew_reflexive = { λ _. tt };

    ghost grew_transitive = { λ _ _ _ _ _. tt };

    ghost still_stands = { λ _ _ _ _ _ stood. stood };

    ghost still_admits = { λ _ _ _ _ _ admitted. admitted };

    fn node(
        &mut self,
        node: &ExprNode,
        _at: NodeId,
        children: &[Option<u32>],
    ) -> Result<Option<u32>, Infallible> {
        Ok(least_of(original_at(node), children))
    }
}

// The place of a node that is an `original(..)`.
fn original_at(node: &ExprNode) -> Option<u32>
    ensures { IsLeastPlace (OriginalIn node.now) result }
{
    match node {
        ExprNode::Original(place, _) => Some(*place),
        _ => None,
    }
}

// The least place of an `original(..)` in a body.
pub fn originals_in(alloc: Global, source: &Source, root: NodeId) -> Result<Option<u32>, NoMemory>
    requires { root.0 < length source.now.exprs }
    ensures { IfOk result (IsLeastPlace (λ at. Contains (nodes (plain_expr source.now.names source.now.exprs root.0)) (OriginalForm at))) }
{
    match walk(alloc, &source.exprs, root, &mut Originals) {
        Ok(least) => Ok(least),
        Err(_) => Err(NoMemory),
    }
}
