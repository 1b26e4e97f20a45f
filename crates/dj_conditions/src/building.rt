//! Building formulas.

ghost use Rattle.std.specs.Prelude.{◌≡◌, ◌<◌, ◌≤◌, length, map, IfOk};
ghost use Rattle.dj_names.specs.Texts.{AreDistinct};
ghost use Rattle.dj_tree.specs.Trees.{always, Source as PlainSource};
ghost use Rattle.dj_tree.specs.Plain.{plain_source, plain_formula};
ghost use Rattle.dj_tree.specs.WellFormed.{IsWellFormed};
ghost use Rattle.dj_tree.specs.declared.formula.FormulaNode.{FormulaNode};
ghost use Rattle.dj_conditions.specs.Conditions.{StandsFor};
ghost use Rattle.dj_conditions.specs.NodeGates.{node_gate};

use crate::numbers::number_in;
use arena_walk::{Arena, NodeId};
use dj_formula::{Formula, Gate};
use dj_tree::{FormulaNode, Source};
use indexmap::IndexSet;
use std::alloc::{AllocError as NoMemory, Global};

/// The formula of a node of the source's formulas. `features` has the names of the features, in the
/// order in which the source lists them. It takes time in the size of the node's tree. The one error
/// is want of memory.
pub fn formula_of(
    alloc: Global,
    source: &Source,
    features: &IndexSet<u32>,
    root: NodeId,
) -> Result<Formula, NoMemory>
    requires well_formed { IsWellFormed source.now }
    requires distinct { AreDistinct source.now.names }
    requires there { root.0 < length source.now.formulas }
    requires features { features.now.keys ≡ map (λ f. f.name.0) source.now.features }
    requires few { length source.now.features ≤ 4096 }
    ensures { IfOk result (λ formula. StandsFor (plain_source source.now) formula (plain_formula source.now.names source.now.formulas root.0)) }
{
    let first = source.formulas.first(root);
    let mut nodes = Arena::new(alloc);
    for number in first.0 as usize..root.0 as usize {
        let node = source.formulas.get(NodeId(number as u32));
        nodes.push(gate(node, features))?;
    }
    let root = nodes.push(gate(source.formulas.get(root), features))?;
    Ok(Formula { nodes, root })
}

/// The formula that is always true. The one error is want of memory.
pub fn constant_true(alloc: Global) -> Result<Formula, NoMemory>
    ensures { IfOk result (λ formula. (source : PlainSource) → StandsFor source formula always) }
{
    let mut nodes = Arena::new(alloc);
    let root = nodes.push(Gate::Constant(true))?;
    Ok(Formula { nodes, root })
}

// The gate of a node.
fn gate(node: &FormulaNode, features: &IndexSet<u32>) -> Gate
    requires { length features.now.keys ≤ 4096 }
    ensures { result ≡ node_gate features.now.keys node.now }
{
    match node {
        FormulaNode::True => Gate::Constant(true),
        FormulaNode::False => Gate::Constant(false),
        FormulaNode::Feature(spot) => Gate::Feature(number_in(features, spot.name.0)),
        FormulaNode::Not => Gate::Not,
        FormulaNode::And => Gate::And,
        FormulaNode::Or => Gate::Or,
        FormulaNode::Implies => Gate::Implies,
        FormulaNode::Same => Gate::Same,
    }
}
