//! Visitors, and the walk over a tree.

ghost use Rattle.std.specs.Prelude.{◌≡◌, ℕ, ◌<◌, ◌-◌, ◌≤◌, List, [], ◌∷◌, ◌++◌, length, take, drop, Option, Some, None, IfOk, IfErr, OnOk, OnErr};
ghost use Rattle.std.specs.List.{AllZip};
ghost use Rattle.arena_walk.specs.Tree.{Tree, over, size, numbers, EachNode};
ghost use Rattle.arena_walk.specs.Forest.{tree_at, first_number};
ghost use Rattle.std.specs.Io.KnownBytes.{Keeps, append_known};
ghost use Rattle.arena_walk.specs.Walk.{IfVisitor};

use crate::arena::{Arena, NodeId, Shape};
use std::alloc::Global;

/// What is done at each node of a tree, with what its children gave.
///
/// - `stands visitor tree out`: the out is right for the tree.
/// - `grew old new`: how the visitor may change. It is reflexive and transitive.
/// - `admits visitor tree at`: `node` may be called on the root of this tree, whose number is `at`.
/// - `failed visitor fault`: the fault has its cause.
/// - `visited visitor`: the numbers of the nodes that `node` was called on, where the visitor tells
///   them. What it still tells is what it told before with the new numbers behind it.
///
/// What stood still stands, and what was admitted still is, when the visitor grew.
pub trait Visit<N: Shape> {
    /// What a node gives to its parent.
    type Out: Drop;

    /// Why a walk ends early.
    type Fault: Drop;

    ghost stands: { Self → Tree N → Self.Out → Type 0 };

    ghost grew: { Self → Self → Type 0 };

    ghost admits: { Self → Tree N → ℕ → Type 0 };

    ghost failed: { Self → Self.Fault → Type 0 };

    ghost visited: { Self → Option (List ℕ) } = { λ _. None };

    /// Visits the node whose number is `at`, with the outs of its children in order. An out is right
    /// for the node over any trees for which the children's outs are right and that are admitted. A
    /// fault has its cause in the visitor as it then is. The number is told in both cases.
    fn node(
        &mut self,
        node: &N,
        at: NodeId,
        children: &[Self::Out],
    ) -> Result<Self::Out, Self::Fault>
        requires arity { length children.now ≡ N.arity_of node.now }
        requires admitted { (kids : List (Tree N)) × AllZip (stands self.old) kids children.now
            × admits self.old (over node.now kids) at.0 }
        ensures grew { grew self.old self.new }
        ensures ok { IfOk result (λ out. (kids : List (Tree N)) → AllZip (stands self.old) kids children.now
            → admits self.old (over node.now kids) at.0 → stands self.new (over node.now kids) out) }
        ensures err { IfErr result (λ fault. failed self.new fault) }
        ensures appended { Keeps (visited self.new) (append_known (visited self.old) (at.0 ∷ [])) };

    ghost grew_reflexive: { (visitor : Self) → grew visitor visitor };

    ghost grew_transitive: { (old between new : Self) → grew old between → grew between new → grew old new };

    ghost still_stands: { (old new : Self) (tree : Tree N) (out : Self.Out)
        → grew old new → stands old tree out → stands new tree out };

    ghost still_admits: { (old new : Self) (tree : Tree N) (at : ℕ)
        → grew old new → admits old tree at → admits new tree at };
}

/// Why a walk gives no out: the visitor's fault, or want of memory for the outs.
#[derive(Debug, PartialEq, Eq, Drop)]
pub enum WalkError<E> {
    Visitor(E),
    NoMemory,
}

/// Visits each node of the root's tree once, in post-order, and gives the root's out, which then
/// stands for the tree. The visitor has to admit each node of the tree, with its number.
///
/// It ends early with the visitor's first fault, or with `NoMemory` where there is no room for an out.
/// The visitor grew in each case, and the numbers visited are the first ones of the tree's `numbers`.
/// The time is that of the tree, however large the arena is.
pub fn walk<N: Shape, V: Visit<N>>(
    alloc: Global,
    arena: &Arena<N>,
    root: NodeId,
    visitor: &mut V,
) -> Result<V::Out, WalkError<V::Fault>>
    requires there { root.0 < length arena.now }
    requires admitted { (tree : Tree N) → tree_at N.arity_of arena.now root.0 ≡ Some tree
        → EachNode (V.admits visitor.old) (first_number root.0 tree) tree }
    ensures grew { V.grew visitor.old visitor.new }
    ensures ok { IfOk result (λ out. (tree : Tree N) → tree_at N.arity_of arena.now root.0 ≡ Some tree
        → V.stands visitor.new tree out) }
    ensures err { IfErr result (λ error. IfVisitor error (V.failed visitor.new)) }
    ensures visited_all { OnOk result ((tree : Tree N) → tree_at N.arity_of arena.now root.0 ≡ Some tree
        → Keeps (V.visited visitor.new) (append_known (V.visited visitor.old) (numbers (first_number root.0 tree) tree))) }
    ensures visited_some { OnErr result ((tree : Tree N) → tree_at N.arity_of arena.now root.0 ≡ Some tree
        → (count : ℕ) × (count ≤ size tree)
        × Keeps (V.visited visitor.new) (append_known (V.visited visitor.old) (take count (numbers (first_number root.0 tree) tree)))) }
{
    let mut outs = Vec::new(alloc);
    for number in arena.first(root).0 as usize..root.0 as usize + 1 {
        let at = NodeId(number as u32);
        visit_node(arena.get(at), at, &mut outs, visitor)?;
    }
    Ok(outs.pop().unwrap())
}

// Visits one node. The outs of its children are the last ones, and its own takes their place.
fn visit_node<N: Shape, V: Visit<N>>(
    node: &N,
    at: NodeId,
    outs: &mut Vec<V::Out>,
    visitor: &mut V,
) -> Result<(), WalkError<V::Fault>>
    requires enough { N.arity_of node.now ≤ length outs.old.items }
    requires admitted { (kids : List (Tree N))
        × AllZip (V.stands visitor.old) kids (drop (length outs.old.items - N.arity_of node.now) outs.old.items)
        × V.admits visitor.old (over node.now kids) at.0 }
    ensures grew { V.grew visitor.old visitor.new }
    ensures ok { OnOk result ((out : V.Out)
        × (outs.new.items ≡ take (length outs.old.items - N.arity_of node.now) outs.old.items ++ out ∷ [])
        × ((kids : List (Tree N))
        → AllZip (V.stands visitor.old) kids (drop (length outs.old.items - N.arity_of node.now) outs.old.items)
        → V.admits visitor.old (over node.now kids) at.0 → V.stands visitor.new (over node.now kids) out)) }
    ensures err { IfErr result (λ error. IfVisitor error (V.failed visitor.new)) }
    ensures appended { Keeps (V.visited visitor.new) (append_known (V.visited visitor.old) (at.0 ∷ [])) }
{
    let start = outs.len() - node.arity();
    match visitor.node(node, at, &outs[start..]) {
        Ok(out) => {
            outs.truncate(start);
            outs.push(out).map_err(|_| WalkError::NoMemory)
        }
        Err(fault) => Err(WalkError::Visitor(fault)),
    }
}
