//! A trie of which every version stays.
ghost use Rattle.std.specs.Prelude.{◌≡◌};

use crate::node::{Node, find, put};
use std::alloc::{AllocError as NoMemory, Global};
use std::marker::Model;

/// A version of the map, by a number that its trie knows.
#[derive(Clone, Copy, Debug, PartialEq, Eq)]
pub struct Root(usize);

/// Versions of a map from numbers to values. Each change of a version makes a new one, which shares most of its nodes
/// with the old one, and all old ones stay as they are. `says` gives what a version says of a key.
#[derive(Drop)]
pub struct Trie<V: Copy> {
    nodes: Vec<Node<V>>,
}

// How many bits a key has.
const BITS: u32 = 32;

impl<V: Copy> Model for Trie<V> {
    ghost use Rattle.std.specs.Prelude.{List};
    ghost use Rattle.persistent_trie.specs.declared.node.Node.{Node};
    ghost use Rattle.persistent_trie.specs.Nodes.{AreLinked};
    ghost use Rattle.persistent_trie.specs.Versions.{StartsEmpty};

    ghost Value = { List (Node V) };

    ghost view = { λ t. t.nodes.items };

    ghost invariant = { λ t. AreLinked t.nodes.items × StartsEmpty t.nodes.items };
}

impl<V: Copy> Trie<V> {
    ghost use Rattle.std.specs.Prelude.{◌≡◌, ◌==◌, ◌<◌, ◌^◌, ℕ, None, Some, IfOk, OnErr};
    ghost use Rattle.std.specs.Bool.{if◌then◌else◌};
    ghost use Rattle.persistent_trie.specs.Versions.{IsVersion, says, Keeps};

    /// A trie whose one version is the empty one.
    pub fn new(alloc: Global) -> Result<Trie<V>, NoMemory> {
        let mut nodes = Vec::new(alloc);
        nodes.push(Node::Empty)?;
        Ok(Trie { nodes })
    }

    /// The version without values.
    pub fn empty(&self) -> Root
        ensures version { IsVersion self.now result }
        ensures says { (key : ℕ) → says self.now result key ≡ None }
    {
        let _nodes = &self.nodes;
        Root(0)
    }

    /// The value of a key in a version. It takes no memory, and as many steps as a key has bits.
    pub fn get(&self, root: Root, key: u32) -> Option<V>
        requires { IsVersion self.now root }
        ensures { result ≡ says self.now root key }
    {
        find(self.nodes.as_slice(), BITS, root.0, key)
    }

    /// The version in which a key has this value, and all other keys are as in the version `root`. It takes as many new
    /// nodes as a key has bits, and one more. Without memory nothing changes.
    pub fn insert(&mut self, root: Root, key: u32, value: V) -> Result<Root, NoMemory>
        requires { IsVersion self.old root }
        ensures version { IfOk result (IsVersion self.new) }
        ensures says { IfOk result (λ new. (k : ℕ) → k < 2 ^ 32 → says self.new new k ≡ (if k == key then Some value else says self.old root k)) }
        ensures kept { Keeps self.old self.new }
        ensures err { OnErr result (self.new ≡ self.old) }
    {
        let new = self.nodes.len();
        self.nodes.reserve(BITS as usize + 1)?;
        put(&mut self.nodes, BITS, root.0, key, value);
        Ok(Root(new))
    }
}
