//! Bodies whose `original(..)` are calls of the version before.
ghost use Rattle.std.specs.Prelude.{◌≡◌, ℕ, ◌+◌, ◌<◌, ◌≤◌, ◌++◌, ◌∷◌, [], List, All, length, IfOk, OnOk};
ghost use Rattle.arena_walk.specs.Tree.{size, over};
ghost use Rattle.arena_walk.specs.Forest.{trees};
ghost use Rattle.dj_names.specs.Texts.{Text, Extends};
ghost use Rattle.dj_tree.specs.Arities.{expr_arity};
ghost use Rattle.dj_tree.specs.Plain.{expr_form, plain_expr};
ghost use Rattle.dj_tree.specs.Trees.{Expr, this_at};
ghost use Rattle.dj_tree.specs.WellFormed.{IsExprNode};
ghost use Rattle.dj_calculus.specs.FlatTables.{calling};
ghost use Rattle.ifj_flatten.specs.Pieces.{called_form, called_arity, receivers, forest, Makes, MakesAll, total_work, IsOpened, IsDone};

use crate::made::Made;
use arena_walk::{Arena, NodeId, Shape};
use dj_names::Names;
use dj_reader::Stack;
use dj_tree::ExprNode;
use std::alloc::{AllocError as NoMemory, Global};

/// What is still to be put behind the nodes of a body: the whole tree of a node, a node whose parts are there, or `this`.
#[derive(Clone, Copy, Drop)]
pub enum Piece {
    Tree(NodeId),
    Root(NodeId),
    This(u32),
}

// Puts the receiver of a made call on the stack.
fn push_receiver(node: &ExprNode, pieces: &mut Stack<Piece>) -> Result<(), NoMemory>
    ensures same { OnOk result ((name : Text) (names : List Text) (exprs : List ExprNode) (made ts : List Expr)
        → MakesAll name names exprs pieces.old made (ts ++ receivers (expr_form names node.now)) → MakesAll name names exprs pieces.new made ts) }
    ensures work { OnOk result ((exprs : List ExprNode) → total_work exprs pieces.new < 2 + total_work exprs pieces.old) }
{
    if let ExprNode::Original(at, _) = node {
        return pieces.push(Piece::This(*at));
    }
    Ok(())
}

// Puts the pieces of a tree on the stack: its parts in their order, each behind the receiver of a made call, and then
// its root.
fn open_tree(exprs: &Arena<ExprNode>, at: NodeId, pieces: &mut Stack<Piece>) -> Result<(), NoMemory>
    requires there { at.0 < length exprs.now }
    ensures { OnOk result (IsOpened exprs.now at.0 pieces.old pieces.new) }
{
    let node = exprs.get(at);
    pieces.push(Piece::Root(at))?;
    let mut end = at.0;
    'parts: for behind in 0..node.arity() {
        let part = NodeId(end - 1);
        pieces.push(Piece::Tree(part))?;
        end = exprs.first(part).0;
    }
    push_receiver(node, pieces)
}

// Puts a node behind its parts.
fn put_root(made: &mut Made, from: &Names, node: ExprNode, called: &str) -> Result<(), NoMemory>
    requires node { IsExprNode from.now node }
    requires known { All (IsExprNode made.old.names) made.old.exprs }
    requires enough { called_arity node ≤ length (trees expr_arity made.old.exprs) }
    ensures known { OnOk result (All (IsExprNode made.new.names) made.new.exprs) }
    ensures grown { OnOk result (Extends made.old.names made.new.names) }
    ensures put { OnOk result ((front parts : List Expr) → forest made.old.names made.old.exprs ≡ front ++ parts → length parts ≡ called_arity node
        → forest made.new.names made.new.exprs ≡ front ++ over (called_form called.now (expr_form from.now node)) parts ∷ []) }
{
    let own = made.called_node(from, node, called)?;
    made.push(own)?;
    Ok(())
}

// Puts `this` behind the nodes.
fn put_this(made: &mut Made, at: u32) -> Result<(), NoMemory>
    requires known { All (IsExprNode made.old.names) made.old.exprs }
    ensures known { OnOk result (All (IsExprNode made.new.names) made.new.exprs) }
    ensures names { made.new.names ≡ made.old.names }
    ensures put { OnOk result (forest made.new.names made.new.exprs ≡ forest made.old.names made.old.exprs ++ this_at at ∷ []) }
{
    made.push(ExprNode::This(at))?;
    Ok(())
}

// Puts what a piece makes behind the nodes, or the pieces of a tree on the stack.
fn put_piece(
    made: &mut Made,
    from: &Names,
    exprs: &Arena<ExprNode>,
    called: &str,
    piece: Piece,
    pieces: &mut Stack<Piece>,
) -> Result<(), NoMemory>
    requires nodes { All (IsExprNode from.now) exprs.now }
    requires known { All (IsExprNode made.old.names) made.old.exprs }
    requires makes { (trees : List Expr) × Makes called.now from.now exprs.now piece (MakesAll called.now from.now exprs.now pieces.old trees) (forest made.old.names made.old.exprs) }
    ensures known { OnOk result (All (IsExprNode made.new.names) made.new.exprs) }
    ensures grown { OnOk result (Extends made.old.names made.new.names) }
    ensures done { OnOk result (IsDone called.now from.now exprs.now piece pieces.old pieces.new (forest made.old.names made.old.exprs) (forest made.new.names made.new.exprs)) }
{
    match piece {
        Piece::Tree(at) => open_tree(exprs, at, pieces),
        Piece::Root(at) => put_root(made, from, *exprs.get(at), called),
        Piece::This(at) => put_this(made, at),
    }
}

// Puts the body behind no nodes, where each `original(..)` is a call of the method of this name, and gives its root.
pub fn push_body(
    alloc: Global,
    made: &mut Made,
    from: &Names,
    exprs: &Arena<ExprNode>,
    root: NodeId,
    called: &str,
) -> Result<NodeId, NoMemory>
    requires nodes { All (IsExprNode from.now) exprs.now }
    requires there { root.0 < length exprs.now }
    requires empty { made.old.exprs ≡ [] }
    ensures tree { IfOk result (λ own. plain_expr made.new.names made.new.exprs own.0 ≡ calling called.now (plain_expr from.now exprs.now root.0)) }
    ensures there { IfOk result (λ own. own.0 < length made.new.exprs) }
    ensures known { OnOk result (All (IsExprNode made.new.names) made.new.exprs) }
    ensures grown { OnOk result (Extends made.old.names made.new.names) }
    ensures size { OnOk result (size (calling called.now (plain_expr from.now exprs.now root.0)) ≡ length made.new.exprs) }
{
    let mut pieces = Stack::new(alloc);
    pieces.push(Piece::Tree(root))?;
    'pieces: while let Some(piece) = pieces.pop() {
        put_piece(made, from, exprs, called, piece, &mut pieces)?;
    }
    Ok(NodeId(made.node_count - 1))
}
