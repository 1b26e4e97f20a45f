//! The nodes of a trie, in one list that only grows.
ghost use Rattle.std.specs.Prelude.{◌≡◌, ◌+◌, ◌<◌, ◌++◌, length, vec_len, vec_capacity};
ghost use Rattle.persistent_trie.specs.Nodes.{node_at, side_of, forked, held_by, AreLinked, path_of, value_at};

/// A node: nothing, a value, or the numbers of the nodes for the keys whose next bit is 0 and is 1.
#[derive(Clone, Copy)]
pub(crate) enum Node<V> {
    Empty,
    Leaf(V),
    Fork(usize, usize),
}

// The number of the node for the keys with this bit. A node that is no fork stands for both.
fn side<V: Copy>(nodes: &[Node<V>], at: usize, is_one: bool) -> usize
    requires { at < length nodes.now }
    ensures { result ≡ side_of (node_at nodes.now at) at is_one }
{
    match nodes[at] {
        Node::Fork(zero, one) => { if is_one { one } else { zero } }
        Node::Empty => at,
        Node::Leaf(_) => at,
    }
}

// The value of a node.
fn held<V: Copy>(nodes: &[Node<V>], at: usize) -> Option<V>
    requires { at < length nodes.now }
    ensures { result ≡ held_by (node_at nodes.now at) }
{
    match nodes[at] {
        Node::Leaf(value) => Some(value),
        Node::Empty => None,
        Node::Fork(_, _) => None,
    }
}

/// The value of a key, so many levels down from a node.
pub(crate) fn find<V: Copy>(nodes: &[Node<V>], levels: u32, root: usize, key: u32) -> Option<V>
    requires within { root < length nodes.now }
    requires linked { AreLinked nodes.now }
    ensures { result ≡ value_at nodes.now levels root key }
{
    let mut at = root;
    let mut rest = key;
    'down: for _level in 0..levels {
        at = side(nodes, at, rest % 2 == 1);
        rest /= 2;
    }
    held(nodes, at)
}

// A fork with a new node on the side of this bit.
fn fork<V: Copy>(nodes: &[Node<V>], at: usize, is_one: bool, next: usize) -> Node<V>
    requires { at < length nodes.now }
    ensures { result ≡ forked (node_at nodes.now at) at is_one next }
{
    if is_one {
        Node::Fork(side(nodes, at, false), next)
    } else {
        Node::Fork(next, side(nodes, at, true))
    }
}

/// Puts new nodes behind the others, for those on the way from a node to a key, which gets this value. The first of them
/// stands for that node.
pub(crate) fn put<V: Copy>(nodes: &mut Vec<Node<V>>, levels: u32, root: usize, key: u32, value: V)
    requires within { root < length nodes.old.items }
    requires linked { AreLinked nodes.old.items }
    requires room { vec_len nodes.old + levels < vec_capacity nodes.old }
    ensures { nodes.new.items ≡ nodes.old.items ++ path_of nodes.old.items levels root key (length nodes.old.items) value }
{
    let mut at = root;
    let mut rest = key;
    'down: for _level in 0..levels {
        let is_one = rest % 2 == 1;
        let next = nodes.len() + 1;
        let node = fork(nodes.as_slice(), at, is_one, next);
        at = side(nodes.as_slice(), at, is_one);
        nodes.push_reserved(node);
        rest /= 2;
    }
    nodes.push_reserved(Node::Leaf(value));
}
