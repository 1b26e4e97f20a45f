//! An arena of trees.

ghost use Rattle.std.specs.Prelude.{◌≡◌, ℕ, ◌+◌, ◌-◌, ◌<◌, ◌≤◌, List, [], ◌∷◌, ◌++◌, length, drop, slice_get, Some, IfOk, OnOk, OnErr};
ghost use Rattle.std.specs.Option.{ForSome};
ghost use Rattle.arena_walk.specs.Tree.{Tree, trees_of, over, size_each, EachNode};
ghost use Rattle.arena_walk.specs.Forest.{last_trees, grow, trees, tree_at, first_number, child_number, HasArity};

use std::alloc::{AllocError as NoMemory, Global};
use std::marker::Model;

/// The number of a node in its arena, from 0 on in the order of the pushes.
#[derive(Clone, Copy, Debug, PartialEq, Eq, PartialOrd, Ord, Hash)]
pub struct NodeId(pub u32);

/// A node that knows how many children it has.
pub trait Shape: Drop {
    ghost arity_of: { Self → ℕ };

    /// How many children the node has.
    fn arity(&self) -> usize
        ensures { result ≡ arity_of self.now };
}

#[derive(Drop)]
struct Slot<N> {
    node: N,
    // The number of the first node of this node's tree.
    first: u32,
}

/// Trees in post-order: a node stands right behind the trees of its children. Contracts see the list
/// of the nodes. `trees` gives the finished trees of such a list, the last one last, and `tree_at` the
/// tree whose root has a number.
#[derive(Drop)]
pub struct Arena<N: Shape> {
    slots: Vec<Slot<N>>,
}

impl<N: Shape> Model for Arena<N> {
    ghost use Rattle.std.specs.Prelude.{◌≤◌, List, length};

    ghost Value = { List N };

    ghost use Rattle.arena_walk.specs.Slots.{slot_nodes, slot_firsts, AreSound};

    ghost view = { λ a. slot_nodes a.slots.items };

    ghost invariant = { λ a. AreSound N.arity_of (slot_nodes a.slots.items) (slot_firsts a.slots.items)
        × (length a.slots.items ≤ 4294967295) };
}

impl<N: Shape> Arena<N> {
    /// An arena without nodes. It takes no memory.
    pub fn new(alloc: Global) -> Arena<N>
        ensures { result ≡ [] }
    {
        Arena {
            slots: Vec::new(alloc),
        }
    }

    /// Adds a node, whose children are the last trees, as many as its arity, and gives its number. The
    /// other trees stay, as `grow` says, and every tree keeps its number. After `NoMemory`, for which
    /// only want of memory is a cause, the arena is as before.
    pub fn push(&mut self, node: N) -> Result<NodeId, NoMemory>
        requires enough { N.arity_of node ≤ length (trees N.arity_of self.old) }
        requires room { length self.old < 4294967295 }
        ensures number { IfOk result (λ at. at.0 ≡ length self.old) }
        ensures nodes { OnOk result (self.new ≡ self.old ++ node ∷ []) }
        ensures trees { OnOk result (trees N.arity_of self.new ≡ grow N.arity_of (trees N.arity_of self.old) node) }
        ensures tree { IfOk result (λ at. tree_at N.arity_of self.new at.0
            ≡ Some (over node (last_trees N.arity_of (trees N.arity_of self.old) node))) }
        ensures kept { (at : ℕ) (tree : Tree N) → tree_at N.arity_of self.old at ≡ Some tree
            → tree_at N.arity_of self.new at ≡ Some tree }
        ensures err { OnErr result (self.new ≡ self.old) }
    {
        let at = self.slots.len() as u32;
        let first = self.first_of_last(node.arity());
        self.slots.push(Slot { node, first })?;
        Ok(NodeId(at))
    }

    /// The node of a number. The tree at that number has this node over as many children as its arity,
    /// and so it is with each node in that tree. It takes no memory.
    pub fn get(&self, at: NodeId) -> &N
        requires { at.0 < length self.now }
        ensures node { slice_get self.now at.0 ≡ Some result.now }
        ensures tree { (kids : List (Tree N)) × (length kids ≡ N.arity_of result.now)
            × (tree_at N.arity_of self.now at.0 ≡ Some (over result.now kids)) }
        ensures whole { (tree : Tree N) → tree_at N.arity_of self.now at.0 ≡ Some tree
            → EachNode (λ t _. HasArity N.arity_of t) (first_number at.0 tree) tree }
    {
        &self.slots[at.0 as usize].node
    }

    /// The number of the root of a node's k-th child, counted from 0, which is `child_number` of the
    /// node's children. The tree at that number is the child. It takes no memory.
    pub fn child(&self, at: NodeId, k: usize) -> NodeId
        requires there { at.0 < length self.now }
        requires below { ForSome (slice_get self.now at.0) (λ node. k < N.arity_of node) }
        ensures number { (node : N) (kids : List (Tree N)) → tree_at N.arity_of self.now at.0 ≡ Some (over node kids)
            → result.0 ≡ child_number at.0 kids k }
        ensures tree { (node : N) (kids : List (Tree N)) → tree_at N.arity_of self.now at.0 ≡ Some (over node kids)
            → tree_at N.arity_of self.now result.0 ≡ slice_get kids k }
        ensures before { result.0 < at.0 }
    {
        let arity = self.get(at).arity();
        let mut child = at.0 - 1;
        for _ in k + 1..arity {
            child = self.first(NodeId(child)).0 - 1;
        }
        NodeId(child)
    }

    // The number of the first node of the last trees, so many.
    fn first_of_last(&self, count: usize) -> u32
        requires enough { count ≤ length (trees N.arity_of self.now) }
        requires small { length self.now < 4294967296 }
        ensures { result + size_each (trees_of (drop (length (trees N.arity_of self.now) - count) (trees N.arity_of self.now)))
            ≡ length self.now }
    {
        let mut first = self.slots.len() as u32;
        for _ in 0..count {
            first = self.first(NodeId(first - 1)).0;
        }
        first
    }

    /// The number of the first node of a node's tree, which is its leftmost leaf. The nodes from there
    /// to the tree's root are the tree, in post-order. An arena has at most 4,294,967,295 nodes, so there
    /// is room for them in another one. It takes no memory.
    pub fn first(&self, at: NodeId) -> NodeId
        requires { at.0 < length self.now }
        ensures few { length self.now ≤ 4294967295 }
        ensures tree { (tree : Tree N) × (tree_at N.arity_of self.now at.0 ≡ Some tree)
            × (result.0 ≡ first_number at.0 tree) × (result.0 ≤ at.0) }
        ensures whole { (tree : Tree N) → tree_at N.arity_of self.now at.0 ≡ Some tree
            → EachNode (λ t _. HasArity N.arity_of t) (first_number at.0 tree) tree }
    {
        NodeId(self.slots[at.0 as usize].first)
    }
}
