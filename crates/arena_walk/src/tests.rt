//! Visitors over forests, and callers of the walk.

ghost use Rattle.std.specs.Prelude.{◌≡◌, ℕ, ◌+◌, ◌<◌, ◌≤◌, ⊤, if◌then◌else◌, Some, None, IfOk, length, unwrap_or, slice_get};
ghost use Rattle.arena_walk.specs.Tree.{Tree, size, fold_tree, EachNode};
ghost use Rattle.arena_walk.specs.Forest.{trees, tree_at, first_number};

use super::*;
use std::alloc::{AllocError as NoMemory, Global};
use std::convert::Infallible;
use std::test::Fail;

// A node with a value, over so many children.
#[derive(Drop)]
struct Fan {
    arity: usize,
    value: u32,
}

impl Shape for Fan {
    ghost arity_of = { λ fan. fan.arity };

    fn arity(&self) -> usize {
        self.arity
    }
}

// Finds the value of the leftmost leaf.
#[derive(Drop)]
struct Leftmost;

impl Visit<Fan> for Leftmost {
    type Out = u32;

    type Fault = Infallible;

    ghost stands = { λ _ tree out. out ≡ fold_tree (λ fan outs. unwrap_or (slice_get outs 0) fan.value) tree };

    ghost grew = { λ _ _. ⊤ };

    ghost admits = { λ _ _ _. ⊤ };

    ghost failed = { λ _ _. ⊥ };

    ghost grew_reflexive = { λ _. tt };

    ghost grew_transitive = { λ _ _ _ _ _. tt };

    ghost still_stands = { λ _ _ _ _ _ stood. stood };

    ghost still_admits = { λ _ _ _ _ _ admitted. admitted };

    fn node(&mut self, node: &Fan, _at: NodeId, children: &[u32]) -> Result<u32, Infallible> {
        Ok(children.first().copied().unwrap_or(node.value))
    }
}

// Counts the nodes of a tree.
#[derive(Drop)]
struct Count;

impl Visit<Fan> for Count {
    type Out = usize;

    type Fault = Infallible;

    ghost stands = { λ _ tree out. out ≡ size tree };

    ghost grew = { λ _ _. ⊤ };

    ghost admits = { λ _ tree _. size tree ≤ 4294967295 };

    ghost failed = { λ _ _. ⊥ };

    ghost grew_reflexive = { λ _. tt };

    ghost grew_transitive = { λ _ _ _ _ _. tt };

    ghost still_stands = { λ _ _ _ _ _ stood. stood };

    ghost still_admits = { λ _ _ _ _ _ admitted. admitted };

    fn node(&mut self, _node: &Fan, _at: NodeId, children: &[usize]) -> Result<usize, Infallible> {
        let mut count = 1;
        for child in children {
            count += *child;
        }
        Ok(count)
    }
}

// The most nodes from a root down to a leaf.
#[derive(Drop)]
struct Depth;

impl Visit<Fan> for Depth {
    type Out = u32;

    type Fault = Infallible;

    ghost stands = { λ _ _ _. ⊤ };

    ghost grew = { λ _ _. ⊤ };

    ghost admits = { λ _ _ _. ⊤ };

    ghost failed = { λ _ _. ⊥ };

    ghost grew_reflexive = { λ _. tt };

    ghost grew_transitive = { λ _ _ _ _ _. tt };

    ghost still_stands = { λ _ _ _ _ _ _. tt };

    ghost still_admits = { λ _ _ _ _ _ _. tt };

    fn node(&mut self, _node: &Fan, _at: NodeId, children: &[u32]) -> Result<u32, Infallible> {
        let mut most = 0;
        for child in children {
            most = most.max(*child);
        }
        Ok(most.saturating_add(1))
    }
}

// Ends the walk at one node, and tells which nodes it came to while there was memory for it.
#[derive(Drop)]
struct StopAt {
    stop: NodeId,
    numbers: Vec<u32>,
    complete: bool,
}

impl Visit<Fan> for StopAt {
    type Out = ();

    type Fault = NodeId;

    ghost stands = { λ _ _ _. ⊤ };

    ghost grew = { λ old new. new.stop ≡ old.stop };

    ghost admits = { λ _ _ _. ⊤ };

    ghost failed = { λ visitor fault. fault ≡ visitor.stop };

    ghost visited = { λ visitor. if visitor.complete then Some visitor.numbers.items else None };

    ghost use Rattle.std.proofs.Common.{refl, ◌∙◌};

    ghost grew_reflexive = { λ _. refl };

    ghost grew_transitive = { λ _ _ _ first second. second ∙ first };

    ghost still_stands = { λ _ _ _ _ _ _. tt };

    ghost still_admits = { λ _ _ _ _ _ _. tt };

    fn node(&mut self, _node: &Fan, at: NodeId, _children: &[()]) -> Result<(), NodeId> {
        if self.numbers.push(at.0).is_err() {
            self.complete = false;
        }
        if at == self.stop { Err(at) } else { Ok(()) }
    }
}

// Walks two trees of any arena with any visitor.
fn walk_both<N: Shape, V: Visit<N>>(
    alloc: Global,
    arena: &Arena<N>,
    one: NodeId,
    other: NodeId,
    visitor: &mut V,
) -> Result<(V::Out, V::Out), WalkError<V::Fault>>
    requires one_there { one.0 < length arena.now }
    requires other_there { other.0 < length arena.now }
    requires one_admitted { (tree : Tree N) → tree_at N.arity_of arena.now one.0 ≡ Some tree
        → EachNode (V.admits visitor.old) (first_number one.0 tree) tree }
    requires other_admitted { (tree : Tree N) → tree_at N.arity_of arena.now other.0 ≡ Some tree
        → EachNode (V.admits visitor.old) (first_number other.0 tree) tree }
    ensures grew { V.grew visitor.old visitor.new }
    ensures one { IfOk result (λ outs. (tree : Tree N) → tree_at N.arity_of arena.now one.0 ≡ Some tree
        → V.stands visitor.new tree outs.0) }
    ensures other { IfOk result (λ outs. (tree : Tree N) → tree_at N.arity_of arena.now other.0 ≡ Some tree
        → V.stands visitor.new tree outs.1) }
{
    let first = walk(alloc, arena, one, visitor)?;
    let second = walk(alloc, arena, other, visitor)?;
    Ok((first, second))
}

// A forest whose nodes have these arities, in post-order, and their numbers as values. A node takes
// no more trees than there are.
fn forest(alloc: Global, arities: &[usize]) -> Result<Arena<Fan>, NoMemory>
    requires { length arities.now < 4294967295 }
    ensures { IfOk result (λ arena. length arena ≡ length arities.now) }
{
    let mut arena = Arena::new(alloc);
    let mut finished = 0;
    for (at, arity) in arities.iter().enumerate() {
        let arity = (*arity).min(finished);
        arena.push(Fan {
            arity,
            value: at as u32,
        })?;
        finished = finished - arity + 1;
    }
    Ok(arena)
}

fn last_of(arities: &[usize]) -> NodeId
    requires some { 0 < length arities.now }
    requires small { length arities.now < 4294967295 }
    ensures { result.0 < length arities.now }
{
    NodeId((arities.len() - 1) as u32)
}

fn count_of(alloc: Global, arena: &Arena<Fan>, root: NodeId) -> Result<usize, WalkError<Infallible>>
    requires there { root.0 < length arena.now }
    requires small { length arena.now ≤ 4294967295 }
{
    walk(alloc, arena, root, &mut Count)
}

#[tactic(auto, using(crate::proofs::Visitors::each_node))]
fn depth_of(alloc: Global, arena: &Arena<Fan>, root: NodeId) -> Result<u32, WalkError<Infallible>>
    requires { root.0 < length arena.now }
{
    walk(alloc, arena, root, &mut Depth)
}

#[tactic(auto, using(crate::proofs::Visitors::each_node))]
fn leftmost_of(
    alloc: Global,
    arena: &Arena<Fan>,
    one: NodeId,
    other: NodeId,
) -> Result<(u32, u32), WalkError<Infallible>>
    requires one { one.0 < length arena.now }
    requires other { other.0 < length arena.now }
{
    walk_both(alloc, arena, one, other, &mut Leftmost)
}

#[tactic(auto, using(crate::proofs::Visitors::each_node))]
fn stopped_at(
    alloc: Global,
    arena: &Arena<Fan>,
    root: NodeId,
    stop: NodeId,
) -> (Result<(), WalkError<NodeId>>, StopAt)
    requires { root.0 < length arena.now }
{
    let mut visitor = StopAt {
        stop,
        numbers: Vec::new(alloc),
        complete: true,
    };
    let result = walk(alloc, arena, root, &mut visitor);
    (result, visitor)
}

// The k-th child, if the node has so many.
fn child_of(arena: &Arena<Fan>, at: NodeId, k: usize) -> Option<NodeId>
    requires { at.0 < length arena.now }
{
    if k < arena.get(at).arity() {
        Some(arena.child(at, k))
    } else {
        None
    }
}

#[test]
fn children_have_numbers(rt: HostRuntime) -> Result<(), Fail> {
    // Three trees: 0 over nothing; 5 over 1 and 4, which is over 2 and 3; 7 over 6.
    let arities = [0, 0, 0, 0, 2, 2, 0, 1];
    let arena = forest(rt.alloc(), &arities)?;
    let children = [
        (0, 0, None),
        (1, 0, None),
        (2, 0, None),
        (3, 0, None),
        (4, 0, Some(2)),
        (4, 1, Some(3)),
        (4, 2, None),
        (5, 0, Some(1)),
        (5, 1, Some(4)),
        (5, 2, None),
        (6, 0, None),
        (7, 0, Some(6)),
        (7, 1, None),
    ];
    for (at, k, want) in children {
        assert!(rt; at < 8);
        assert_eq!(rt;
            child_of(&arena, NodeId(at), k),
            want.map(NodeId),
            "child {k} of {at}"
        );
        assert_eq!(rt; arena.get(NodeId(at)).value, at);
    }
    Ok(())
}

#[test]
fn walks_give_outs(rt: HostRuntime) -> Result<(), Fail> {
    let alloc = rt.alloc();

    let mut chain = vec![in alloc; 1; 200_000]?;
    assert_eq!(rt; chain.len(), 200_000);
    chain[0] = 0;
    let arena = forest(alloc, &chain)?;
    assert_eq!(rt; count_of(alloc, &arena, last_of(&chain)), Ok(200_000));

    let mut wide = vec![in alloc; 0; 1_001]?;
    assert_eq!(rt; wide.len(), 1_001);
    wide[1_000] = 1_000;
    let arena = forest(alloc, &wide)?;
    assert_eq!(rt; depth_of(alloc, &arena, last_of(&wide)), Ok(2));
    assert_eq!(rt; depth_of(alloc, &arena, NodeId(7)), Ok(1));

    let arena = forest(alloc, &[0, 0, 0, 0, 2, 2, 0, 1])?;
    assert_eq!(rt;
        leftmost_of(alloc, &arena, NodeId(5), NodeId(7)),
        Ok((1, 6))
    );
    Ok(())
}

#[test]
fn walks_visit_one_tree(rt: HostRuntime) -> Result<(), Fail> {
    let alloc = rt.alloc();
    let five: &[usize] = &[0, 0, 2, 0, 2];
    let three: &[usize] = &[0, 0, 0, 0, 2, 2, 0, 1];
    let walks: [(&[usize], u32, u32, bool, &[u32]); 5] = [
        (five, 4, 2, true, &[0, 1, 2]),
        (five, 4, 9, false, &[0, 1, 2, 3, 4]),
        (three, 5, 9, false, &[1, 2, 3, 4, 5]),
        (three, 4, 3, true, &[2, 3]),
        (three, 7, 5, false, &[6, 7]),
    ];
    for (arities, root, stop, stops, numbers) in walks {
        assert!(rt; arities.len() < 9);
        assert!(rt; (root as usize) < arities.len());
        let arena = forest(alloc, arities)?;
        let (result, visitor) = stopped_at(alloc, &arena, NodeId(root), NodeId(stop));
        let want = if stops {
            Err(WalkError::Visitor(NodeId(stop)))
        } else {
            Ok(())
        };
        assert_eq!(rt; result, want);
        assert!(rt; visitor.complete);
        assert_eq!(rt; visitor.numbers.as_slice(), numbers);
    }
    Ok(())
}
