//! The gates of a formula.

ghost use Rattle.std.specs.Prelude.{◌≡◌, ℕ, ◌<◌, ◌≤◌, length, fold, All, Some, IfOk, OnOk, OnErr};
ghost use Rattle.std.specs.List.{flat_map};
ghost use Rattle.std.specs.Option.{ForSome};
ghost use Rattle.arena_walk.specs.Tree.{Tree};
ghost use Rattle.arena_walk.specs.Forest.{first_number};
ghost use Rattle.dj_formula.specs.declared.formula.Gate.{Gate};
ghost use Rattle.dj_formula.specs.Gates.{operands as operands_of, IsBelow};
ghost use Rattle.dj_formula.specs.Value.{tree_of, HasFeaturesBelow};
ghost use Rattle.sat_clauses.specs.Literals.{opposite};
ghost use Rattle.gate_encoder.specs.Writing.{IsNumbered, literal, lit_in, steps, write, write_all, all_steps, IsCut};
ghost use Rattle.gate_encoder.specs.Formulas.{Names, node_entries, node_literal, tree_entries, tree_literal, IsNodeOf, AreNames};

use crate::Gates;
use arena_walk::{NodeId, Shape};
use dj_formula::{Formula, Gate};
use sat_clauses::Lit;
use std::alloc::AllocError as NoMemory;
use std::hash::Hash;

impl<K: Eq + Hash + Drop> Gates<K> {
    /// Writes the gates of a formula, those of its tree's nodes in post-order, and gives the literal of the root. `truth` stands
    /// for true, `features` has the literal of each feature by its number, and `node` gives the key of a node by its number in
    /// the arena. It is asked for the key of each `&`, `|`, `->` and `<->`; the other nodes are literals without a gate. A gate
    /// whose key is written already isn't written again. After `NoMemory` only the first steps of that were taken.
    pub fn formula<M: Fn(u32) -> K>(
        &mut self,
        formula: &Formula,
        truth: Lit,
        node: M,
        features: &[Lit],
    ) -> Result<Lit, NoMemory>
        requires there { formula.now.root.0 < length formula.now.nodes }
        requires known { ForSome (tree_of formula.now) (HasFeaturesBelow (length features.now)) }
        requires truth { IsNumbered self.old truth }
        requires features { All (IsNumbered self.old) features.now }
        requires callable { (number : ℕ) → IsNodeOf formula.now number → M.pre node number }
        ensures written { OnOk result ((names : Names K) (tree : Tree Gate) → tree_of formula.now ≡ Some tree
            → AreNames K.eq self.old formula.now truth features.now (M.post node) names
            → self.new ≡ write_all K.eq self.old (tree_entries names (first_number formula.now.root.0 tree) tree)) }
        ensures literal { IfOk result (λ lit. (names : Names K) (tree : Tree Gate) → tree_of formula.now ≡ Some tree
            → AreNames K.eq self.old formula.now truth features.now (M.post node) names
            → lit ≡ lit_in K.eq self.new (tree_literal names (first_number formula.now.root.0 tree) tree)) }
        ensures numbered { IfOk result (IsNumbered self.new) }
        ensures grown { length self.old.keys ≤ length self.new.keys }
        ensures err { OnErr result ((names : Names K) (tree : Tree Gate) → tree_of formula.now ≡ Some tree
            → AreNames K.eq self.old formula.now truth features.now (M.post node) names
            → IsCut K.eq self.old (all_steps K.eq self.old (tree_entries names (first_number formula.now.root.0 tree) tree)) self.new) }
    {
        let first = formula.nodes.first(formula.root);
        // The literals of the trees that no node has taken yet.
        let mut lits = Vec::new(self.allocator());
        for number in first.0 as usize..formula.root.0 as usize + 1 {
            let at = number as u32;
            let gate = formula.nodes.get(NodeId(at));
            let start = lits.len() - gate.arity();
            let lit = self.node(gate, at, truth, &node, features, &lits[start..])?;
            lits.truncate(start);
            lits.push(lit)?;
        }
        Ok(lits.pop().unwrap())
    }

    // Writes the gate of a node, where it has one, over the literals of its operands, and gives the node's literal.
    fn node<M: Fn(u32) -> K>(
        &mut self,
        gate: &Gate,
        number: u32,
        truth: Lit,
        node: &M,
        features: &[Lit],
        operands: &[Lit],
    ) -> Result<Lit, NoMemory>
        requires known { IsBelow (length features.now) gate.now }
        requires all { length operands.now ≡ operands_of gate.now }
        requires truth { IsNumbered self.old truth }
        requires features { All (IsNumbered self.old) features.now }
        requires operands { All (IsNumbered self.old) operands.now }
        requires callable { M.pre node.now number }
        ensures written { OnOk result ((name : K) → ((key : K) → M.post node.now number key → key ≡ name)
            → self.new ≡ fold (write K.eq) self.old (node_entries opposite name gate.now operands.now)) }
        ensures literal { IfOk result (λ lit. (name : K) → ((key : K) → M.post node.now number key → key ≡ name)
            → lit ≡ node_literal opposite truth features.now (literal K.eq self.old name) gate.now operands.now) }
        ensures numbered { IfOk result (IsNumbered self.new) }
        ensures grown { length self.old.keys ≤ length self.new.keys }
        ensures err { OnErr result ((name : K) → ((key : K) → M.post node.now number key → key ≡ name)
            → IsCut K.eq self.old (flat_map (steps K.eq self.old) (node_entries opposite name gate.now operands.now)) self.new) }
    {
        match gate {
            Gate::Constant(true) => Ok(truth),
            Gate::Constant(false) => Ok(truth.opposite()),
            Gate::Feature(feature) => Ok(features[*feature as usize]),
            Gate::Not => Ok(operands[0].opposite()),
            Gate::And => self.and(node(number), operands),
            Gate::Or => self.or(node(number), operands),
            Gate::Implies => self.or(node(number), &[operands[0].opposite(), operands[1]]),
            Gate::Same => self.equal(node(number), operands[0], operands[1]),
        }
    }
}
