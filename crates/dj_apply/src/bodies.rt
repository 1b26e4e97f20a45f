//! Bodies of methods of a source.
ghost use Rattle.std.specs.Prelude.{◌≡◌, ◌<◌, ◌≤◌, List, length};
ghost use Rattle.arena_walk.specs.Tree.{size};
ghost use Rattle.dj_names.specs.Texts.{Text};
ghost use Rattle.dj_tree.specs.Plain.{expr_form, plain_expr};
ghost use Rattle.dj_calculus.specs.Entries.{is_original as is_original_form, says_original as plain_says_original};

use arena_walk::NodeId;
use dj_tree::{ExprNode, Source};

// How many nodes a body has.
pub fn body_size(source: &Source, body: NodeId) -> u64
    requires { body.0 < length source.now.exprs }
    ensures size { result ≡ size (plain_expr source.now.names source.now.exprs body.0) }
    ensures few { result ≤ 4294967296 }
{
    let first = source.exprs.first(body);
    u64::from(body.0 - first.0) + 1
}

// Whether a body says `original`. It takes no memory.
pub fn says_original(source: &Source, body: NodeId) -> bool
    requires { body.0 < length source.now.exprs }
    ensures { result ≡ plain_says_original (plain_expr source.now.names source.now.exprs body.0) }
{
    let first = source.exprs.first(body);
    for number in first.0..body.0 + 1 {
        if is_original(source.exprs.get(NodeId(number))) {
            return true;
        }
    }
    false
}

// Whether the node is an `original`.
fn is_original(node: &ExprNode) -> bool
    ensures { (names : List Text) → result ≡ is_original_form (expr_form names node.now) }
{
    match node {
        ExprNode::Original(_, _) => true,
        ExprNode::Variable(_)
        | ExprNode::This(_)
        | ExprNode::Null(_)
        | ExprNode::Field(_)
        | ExprNode::Call(_, _)
        | ExprNode::New(_)
        | ExprNode::Cast(_)
        | ExprNode::Assign(_) => false,
    }
}
