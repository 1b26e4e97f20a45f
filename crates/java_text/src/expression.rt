//! Expressions as text.
ghost use Rattle.std.specs.Prelude.{◌≡◌, ◌<◌, ◌++◌, All, length, OnOk};
ghost use Rattle.dj_tree.specs.Plain.{plain_expr};
ghost use Rattle.dj_tree.specs.WellFormed.{IsExprNode};
ghost use Rattle.dj_calculus.specs.JavaText.{expression_text};
ghost use Rattle.java_text.specs.Pieces.{IsPiece, IsDone};

use crate::pieces::{Piece, push_node};
use arena_walk::{Arena, NodeId};
use dj_names::Names;
use dj_reader::Stack;
use dj_tree::ExprNode;
use std::alloc::{AllocError as NoMemory, Global};

/// Appends a name or a constant text, or puts the pieces of an expression on the stack.
fn write_piece(
    names: &Names,
    exprs: &Arena<ExprNode>,
    piece: Piece,
    pieces: &mut Stack<Piece>,
    text: &mut Vec<u8>,
) -> Result<(), NoMemory>
    requires nodes { All (IsExprNode names.now) exprs.now }
    requires known { IsPiece names.now exprs.now piece }
    ensures { OnOk result (IsDone names.now exprs.now piece pieces.old pieces.new text.old.items text.new.items) }
{
    match piece {
        Piece::Node(at) => push_node(exprs, at, pieces),
        Piece::Name(name) => text.extend_from_slice(names.text(name).as_bytes()),
        Piece::Mark(mark) => text.extend_from_slice(mark.as_bytes()),
    }
}

/// Appends the text of an expression.
pub fn push_expression(
    alloc: Global,
    names: &Names,
    exprs: &Arena<ExprNode>,
    root: NodeId,
    text: &mut Vec<u8>,
) -> Result<(), NoMemory>
    requires nodes { All (IsExprNode names.now) exprs.now }
    requires there { root.0 < length exprs.now }
    ensures { OnOk result (text.new.items ≡ text.old.items ++ expression_text (plain_expr names.now exprs.now root.0)) }
{
    let mut pieces = Stack::new(alloc);
    pieces.push(Piece::Node(root))?;
    'pieces: while let Some(piece) = pieces.pop() {
        write_piece(names, exprs, piece, &mut pieces, text)?;
    }
    Ok(())
}
