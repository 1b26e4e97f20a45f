//! Values of formulas.

ghost use Rattle.std.specs.Prelude.{◌≡◌, ◌<◌, ◌≤◌, length, IfOk};
ghost use Rattle.std.specs.Option.{ForSome};
ghost use Rattle.dj_formula.specs.declared.formula.Gate.{Gate};
ghost use Rattle.dj_formula.specs.Gates.{operands as operands_of, IsBelow};
ghost use Rattle.dj_formula.specs.Value.{tree_of, gate_value as value_of_gate, HasValue, HasFeaturesBelow};

use crate::formula::{Formula, Gate};
use arena_walk::{NodeId, Shape, Visit, walk};
use std::alloc::{AllocError as NoMemory, Global};
use std::convert::Infallible;

/// The value of a formula in a configuration, as `HasValue` says. `chosen` tells of each feature, by its
/// number from 0, whether it is chosen, and is long enough for the features of the formula's tree. The
/// one error is want of memory.
pub fn eval(alloc: Global, formula: &Formula, chosen: &[bool]) -> Result<bool, NoMemory>
    requires there { formula.now.root.0 < length formula.now.nodes }
    requires known { ForSome (tree_of formula.now) (HasFeaturesBelow (length chosen.now)) }
    ensures value { IfOk result (HasValue formula.now chosen.now) }
{
    walk(
        alloc,
        &formula.nodes,
        formula.root,
        &mut Evaluation { chosen },
    )
    .map_err(|_| NoMemory)
}

/// The value of a formula in a configuration, as `eval` gives it, but it takes no memory: the scratch
/// is at least as long as the arena. What is left in the scratch is open.
pub fn eval_in(formula: &Formula, chosen: &[bool], scratch: &mut [bool]) -> bool
    requires there { formula.now.root.0 < length formula.now.nodes }
    requires known { ForSome (tree_of formula.now) (HasFeaturesBelow (length chosen.now)) }
    requires room { length formula.now.nodes ≤ length scratch.old }
    ensures value { HasValue formula.now chosen.now result }
{
    let first = formula.nodes.first(formula.root);
    // The scratch begins with the values of the trees that no gate has taken yet.
    let mut finished = 0;
    for number in first.0 as usize..formula.root.0 as usize + 1 {
        let gate = formula.nodes.get(NodeId(number as u32));
        let start = finished - gate.arity();
        scratch[start] = gate_value(gate, chosen, &scratch[start..finished]);
        finished = start + 1;
    }
    scratch[0]
}

// Finds the value of a formula in a configuration.
#[derive(Drop)]
struct Evaluation<'a> {
    chosen: &'a [bool],
}

impl Visit<Gate> for Evaluation<'_> {
    ghost use Rattle.std.specs.Prelude.{◌≡◌, ⊤, length};
    ghost use Rattle.std.proofs.Common.{refl, sym, ap, ◌∙◌, subst};
    ghost use Rattle.arena_walk.specs.Tree.{root_of};
    ghost use Rattle.dj_formula.specs.Gates.{IsBelow};
    ghost use Rattle.dj_formula.specs.Value.{value_of};

    type Out = bool;

    type Fault = Infallible;

    ghost stands = { λ visitor tree out. out ≡ value_of visitor.chosen.now tree };

    ghost grew = { λ old new. new.chosen.now ≡ old.chosen.now };

    ghost admits = { λ visitor tree _. IsBelow (length visitor.chosen.now) (root_of tree) };

    ghost failed = { λ _ _. ⊥ };

    ghost grew_reflexive = { λ _. refl };

    ghost grew_transitive = { λ _ _ _ first second. second ∙ first };

    ghost still_stands = { λ _ _ tree _ grown stood. stood ∙ ap (λ chosen. value_of chosen tree) (sym grown) };

    ghost still_admits = { λ _ _ tree _ grown admitted. subst (λ chosen. IsBelow (length chosen) (root_of tree)) (sym grown) admitted };

    fn node(&mut self, gate: &Gate, _at: NodeId, children: &[bool]) -> Result<bool, Infallible> {
        Ok(gate_value(gate, self.chosen, children))
    }
}

// The value of a gate whose operands have these values.
fn gate_value(gate: &Gate, chosen: &[bool], operands: &[bool]) -> bool
    requires all { length operands.now ≡ operands_of gate.now }
    requires known { IsBelow (length chosen.now) gate.now }
    ensures { result ≡ value_of_gate chosen.now gate.now operands.now }
{
    match gate {
        Gate::Constant(value) => *value,
        Gate::Feature(feature) => chosen[*feature as usize],
        Gate::Not => !operands[0],
        Gate::And => operands[0] && operands[1],
        Gate::Or => operands[0] || operands[1],
        Gate::Implies => !operands[0] || operands[1],
        Gate::Same => operands[0] == operands[1],
    }
}
