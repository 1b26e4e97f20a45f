//! Expressions in an arena.
ghost use Rattle.std.specs.Prelude.{◌≡◌, ◌+◌, ◌-◌, ◌^◌, ◌<◌, ◌≤◌, ◌++◌, ◌∷◌, [], List, All, length, IfOk, OnOk, OnErr};
ghost use Rattle.std.specs.Str.{IsUtf8};
ghost use Rattle.arena_walk.specs.Tree.{size};
ghost use Rattle.arena_walk.specs.Forest.{trees};
ghost use Rattle.dj_names.specs.Texts.{Extends};
ghost use Rattle.dj_tree.specs.Arities.{expr_arity as node_arity};
ghost use Rattle.dj_tree.specs.Plain.{expr_form, plain_expr};
ghost use Rattle.dj_tree.specs.WellFormed.{IsExprNode};
ghost use Rattle.dj_tree.specs.declared.expression.ExprNode.{ExprNode};
ghost use Rattle.dj_expr_reader.specs.Marks.{expr_of};
ghost use Rattle.dj_expr_reader.specs.View.{plain_mark, plain_marks};
ghost use Rattle.dj_tree.specs.PostOrder.{KeepsNodes};
ghost use Rattle.dj_nodes.specs.PostOrder.{IsExprOrder};
ghost use Rattle.dj_nodes.specs.Texts.{ExprFormText, ExprTexts};

use crate::spot::add_spot;
use arena_walk::{Arena, NodeId};
use dj_expr_reader::ExprMark;
use dj_lexer::Token;
use dj_names::Names;
use dj_tree::ExprNode;
use std::alloc::AllocError as NoMemory;
use std::marker::Model;

/// The nodes of one expression in post-order. A clause sees the list of them.
#[derive(Drop)]
pub struct ExprNodes {
    marks: Vec<ExprMark>,
}

impl Model for ExprNodes {
    ghost use Rattle.std.specs.Prelude.{List};
    ghost use Rattle.dj_expr_reader.specs.declared.machine.ExprMark.{ExprMark};
    ghost use Rattle.dj_nodes.specs.PostOrder.{IsExprOrder};

    ghost Value = { List ExprMark };

    ghost view = { λ a. a.marks.items };

    ghost invariant = { λ a. IsExprOrder a.marks.items };
}

impl ExprNodes {
    /// Nodes that are those of one expression in post-order. It takes no memory.
    pub fn new(marks: Vec<ExprMark>) -> ExprNodes
        requires { IsExprOrder marks.items }
        ensures { result ≡ marks.items }
    {
        ExprNodes { marks }
    }

    /// The nodes, the root last.
    pub fn marks(&self) -> &[ExprMark]
        ensures marks { result.now ≡ self.now }
        ensures order { IsExprOrder self.now }
    {
        self.marks.as_slice()
    }
}

// The node of a mark. Its name goes into the table.
fn expr_node(names: &mut Names, bytes: &[u8], mark: ExprMark) -> Result<ExprNode, NoMemory>
    requires text { ExprFormText IsUtf8 (plain_mark bytes.now mark).0 }
    requires room { length names.old < 2 ^ 32 - 1 }
    ensures form { IfOk result (λ node. expr_form names.new node ≡ (plain_mark bytes.now mark).0) }
    ensures arity { IfOk result (λ node. node_arity node ≡ (plain_mark bytes.now mark).1) }
    ensures known { IfOk result (IsExprNode names.new) }
    ensures numbers { Extends names.old names.new }
    ensures few { length names.new ≤ length names.old + 1 }
{
    match mark {
        ExprMark::Variable(token) => Ok(ExprNode::Variable(add_spot(names, bytes, token)?)),
        ExprMark::This(token) => Ok(ExprNode::This(token.from)),
        ExprMark::Null(token) => Ok(ExprNode::Null(token.from)),
        ExprMark::Field(token) => Ok(ExprNode::Field(add_spot(names, bytes, token)?)),
        ExprMark::Call(token, arguments) => {
            Ok(ExprNode::Call(add_spot(names, bytes, token)?, arguments))
        }
        ExprMark::New(token) => Ok(ExprNode::New(add_spot(names, bytes, token)?)),
        ExprMark::Cast(token) => Ok(ExprNode::Cast(add_spot(names, bytes, token)?)),
        ExprMark::Assign(token) => Ok(ExprNode::Assign(add_spot(names, bytes, token)?)),
        ExprMark::Original(token, arguments) => Ok(ExprNode::Original(token.from, arguments)),
    }
}

// Adds the node of a mark, which finds the trees of its children last in the arena.
fn add_node(
    names: &mut Names,
    exprs: &mut Arena<ExprNode>,
    bytes: &[u8],
    mark: ExprMark,
) -> Result<NodeId, NoMemory>
    requires text { ExprFormText IsUtf8 (plain_mark bytes.now mark).0 }
    requires room { length names.old < 2 ^ 32 - 1 }
    requires space { length exprs.old < 2 ^ 32 - 1 }
    requires enough { (plain_mark bytes.now mark).1 ≤ length (trees node_arity exprs.old) }
    ensures number { IfOk result (λ at. at.0 ≡ length exprs.old) }
    ensures node { OnOk result ((node : ExprNode) × (exprs.new ≡ exprs.old ++ node ∷ [])
        × (expr_form names.new node ≡ (plain_mark bytes.now mark).0)
        × (node_arity node ≡ (plain_mark bytes.now mark).1)
        × IsExprNode names.new node) }
    ensures err { OnErr result (exprs.new ≡ exprs.old) }
    ensures numbers { Extends names.old names.new }
    ensures few { length names.new ≤ length names.old + 1 }
{
    let node = expr_node(names, bytes, mark)?;
    exprs.push(node)
}

/// Puts an expression into an arena and its names into a table, and gives its root. The text of each of its
/// names is UTF-8. Names and trees that were there keep their numbers; without memory, too, but then some of
/// the expression may have been added.
pub fn add_expr(
    names: &mut Names,
    exprs: &mut Arena<ExprNode>,
    bytes: &[u8],
    nodes: &ExprNodes,
) -> Result<NodeId, NoMemory>
    requires texts { ExprTexts IsUtf8 (expr_of (plain_marks bytes.now nodes.now)) }
    requires room { length names.old + size (expr_of (plain_marks bytes.now nodes.now)) < 2 ^ 32 - 1 }
    requires space { length exprs.old + size (expr_of (plain_marks bytes.now nodes.now)) < 2 ^ 32 - 1 }
    ensures tree { IfOk result (λ root. plain_expr names.new exprs.new root.0 ≡ expr_of (plain_marks bytes.now nodes.now)) }
    ensures there { IfOk result (λ root. root.0 < length exprs.new) }
    ensures known { OnOk result (All (IsExprNode names.old) exprs.old → All (IsExprNode names.new) exprs.new) }
    ensures names_grow { Extends names.old names.new }
    ensures nodes_grow { KeepsNodes exprs.old exprs.new }
    ensures few_names { OnOk result (length names.new ≤ length names.old + size (expr_of (plain_marks bytes.now nodes.now))) }
    ensures few_nodes { OnOk result (length exprs.new ≤ length exprs.old + size (expr_of (plain_marks bytes.now nodes.now))) }
{
    let mut root = NodeId(0);
    for mark in nodes.marks() {
        root = add_node(names, exprs, bytes, *mark)?;
    }
    Ok(root)
}
