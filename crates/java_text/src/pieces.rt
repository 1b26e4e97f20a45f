//! Pieces of an expression's text that are still to be written.
ghost use Rattle.std.specs.Prelude.{◌≡◌, ℕ, ◌+◌, ◌-◌, ◌<◌, ◌≤◌, ◌++◌, ◌||◌, List, All, map, drop, codes, length, OnOk};
ghost use Rattle.dj_names.specs.Texts.{Text};
ghost use Rattle.dj_tree.specs.WellFormed.{IsKnown, IsExprNode};
ghost use Rattle.dj_tree.specs.Plain.{plain_spot, expr_form};
ghost use Rattle.dj_calculus.specs.JavaText.{is_cast, is_assignment, in_parentheses, receiver, operand, arguments_text};
ghost use Rattle.java_text.specs.Pieces.{Puts, PutsNode, IsNode, kids_at, written, written_at, work_at, each_work, comma, enclosed_if};
ghost use Rattle.dj_tree.specs.declared.expression.ExprNode.TheVariants as node;

use arena_walk::{Arena, NodeId};
use dj_names::Name;
use dj_reader::Stack;
use dj_tree::{ExprNode, Spot};
use std::alloc::AllocError as NoMemory;

/// An expression, a name, or a constant text.
#[derive(Clone, Copy, Drop)]
pub enum Piece {
    Node(NodeId),
    Name(Name),
    Mark(&'static str),
}

/// Puts an expression in parentheses on the stack.
fn push_enclosed(at: NodeId, pieces: &mut Stack<Piece>) -> Result<(), NoMemory>
    ensures { (names : List Text) (exprs : List ExprNode) → at.0 < length exprs
        → OnOk result (Puts names exprs (in_parentheses (written_at names exprs at.0).text) (work_at exprs at.0 + 2) pieces.old pieces.new) }
{
    pieces.push(Piece::Mark(")"))?;
    pieces.push(Piece::Node(at))?;
    pieces.push(Piece::Mark("("))?;
    Ok(())
}

/// Puts an expression on the stack, in parentheses where it is told so.
fn push_either(enclosed: bool, at: NodeId, pieces: &mut Stack<Piece>) -> Result<(), NoMemory>
    ensures { (names : List Text) (exprs : List ExprNode) → at.0 < length exprs
        → OnOk result (Puts names exprs (enclosed_if enclosed (written_at names exprs at.0).text) (work_at exprs at.0 + 2) pieces.old pieces.new) }
{
    if enclosed {
        return push_enclosed(at, pieces);
    }
    pieces.push(Piece::Node(at))?;
    Ok(())
}

/// Whether a receiver stands in parentheses.
fn is_enclosed_receiver(node: &ExprNode) -> bool
    ensures { (names : List Text) → result ≡ (is_cast (expr_form names node.now) || is_assignment (expr_form names node.now)) }
{
    matches!(node, ExprNode::Cast(_) | ExprNode::Assign(_))
}

/// Whether what a cast is of stands in parentheses.
fn is_enclosed_operand(node: &ExprNode) -> bool
    ensures { (names : List Text) → result ≡ is_assignment (expr_form names node.now) }
{
    matches!(node, ExprNode::Assign(_))
}

/// Puts a receiver on the stack.
fn push_receiver(
    exprs: &Arena<ExprNode>,
    at: NodeId,
    pieces: &mut Stack<Piece>,
) -> Result<(), NoMemory>
    requires { at.0 < length exprs.now }
    ensures { (names : List Text)
        → OnOk result (Puts names exprs.now (receiver (written_at names exprs.now at.0)) (work_at exprs.now at.0 + 2) pieces.old pieces.new) }
{
    let enclosed = is_enclosed_receiver(exprs.get(at));
    push_either(enclosed, at, pieces)
}

/// Puts what a cast is of on the stack.
fn push_operand(
    exprs: &Arena<ExprNode>,
    at: NodeId,
    pieces: &mut Stack<Piece>,
) -> Result<(), NoMemory>
    requires { at.0 < length exprs.now }
    ensures { (names : List Text)
        → OnOk result (Puts names exprs.now (operand (written_at names exprs.now at.0)) (work_at exprs.now at.0 + 2) pieces.old pieces.new) }
{
    let enclosed = is_enclosed_operand(exprs.get(at));
    push_either(enclosed, at, pieces)
}

/// Puts what stands between an argument and those behind it on the stack.
fn push_comma(behind: u32, pieces: &mut Stack<Piece>) -> Result<(), NoMemory>
    ensures { (names : List Text) (exprs : List ExprNode) → OnOk result (Puts names exprs (comma behind) 1 pieces.old pieces.new) }
{
    if behind > 0 {
        pieces.push(Piece::Mark(", "))?;
    }
    Ok(())
}

/// Puts a node's last parts, so many, as arguments on the stack.
fn push_arguments(
    exprs: &Arena<ExprNode>,
    at: NodeId,
    count: u32,
    pieces: &mut Stack<Piece>,
) -> Result<(), NoMemory>
    requires there { at.0 < length exprs.now }
    requires enough { count ≤ length (kids_at exprs.now at.0) }
    ensures { (names : List Text) → OnOk result (Puts names exprs.now
        (arguments_text (map (written names) (drop (length (kids_at exprs.now at.0) - count) (kids_at exprs.now at.0))))
        (each_work (drop (length (kids_at exprs.now at.0) - count) (kids_at exprs.now at.0)) + 2) pieces.old pieces.new) }
{
    pieces.push(Piece::Mark(")"))?;
    let mut end = at.0;
    'arguments: for behind in 0..count {
        let argument = NodeId(end - 1);
        push_comma(behind, pieces)?;
        pieces.push(Piece::Node(argument))?;
        end = exprs.first(argument).0;
    }
    pieces.push(Piece::Mark("("))?;
    Ok(())
}

/// Puts a member of a receiver on the stack.
fn push_member(
    exprs: &Arena<ExprNode>,
    at: NodeId,
    member: Spot,
    pieces: &mut Stack<Piece>,
) -> Result<(), NoMemory>
    requires { at.0 < length exprs.now }
    ensures { (names : List Text) → IsKnown names member → OnOk result (Puts names exprs.now
        (receiver (written_at names exprs.now at.0) ++ (codes "." ++ (plain_spot names member).text)) (work_at exprs.now at.0 + 4) pieces.old pieces.new) }
{
    pieces.push(Piece::Name(member.name))?;
    pieces.push(Piece::Mark("."))?;
    push_receiver(exprs, at, pieces)
}

/// Puts the pieces of a field on the stack.
fn push_field(
    exprs: &Arena<ExprNode>,
    at: NodeId,
    field: Spot,
    pieces: &mut Stack<Piece>,
) -> Result<(), NoMemory>
    requires there { at.0 < length exprs.now }
    requires node { IsNode exprs.now at.0 (node.Field field) }
    ensures { PutsNode result exprs.now at.0 pieces.old pieces.new }
{
    push_member(exprs, exprs.child(at, 0), field, pieces)
}

/// Puts the pieces of a call on the stack.
fn push_call(
    exprs: &Arena<ExprNode>,
    at: NodeId,
    method: Spot,
    arguments: u32,
    pieces: &mut Stack<Piece>,
) -> Result<(), NoMemory>
    requires there { at.0 < length exprs.now }
    requires node { IsNode exprs.now at.0 (node.Call method arguments) }
    ensures { PutsNode result exprs.now at.0 pieces.old pieces.new }
{
    push_arguments(exprs, at, arguments, pieces)?;
    push_member(exprs, exprs.child(at, 0), method, pieces)
}

/// Puts the pieces of a new object on the stack.
fn push_new(
    exprs: &Arena<ExprNode>,
    at: NodeId,
    class: Spot,
    pieces: &mut Stack<Piece>,
) -> Result<(), NoMemory>
    requires there { at.0 < length exprs.now }
    requires node { IsNode exprs.now at.0 (node.New class) }
    ensures { PutsNode result exprs.now at.0 pieces.old pieces.new }
{
    pieces.push(Piece::Mark("()"))?;
    pieces.push(Piece::Name(class.name))?;
    pieces.push(Piece::Mark("new "))?;
    Ok(())
}

/// Puts the pieces of a cast on the stack.
fn push_cast(
    exprs: &Arena<ExprNode>,
    at: NodeId,
    class: Spot,
    pieces: &mut Stack<Piece>,
) -> Result<(), NoMemory>
    requires there { at.0 < length exprs.now }
    requires node { IsNode exprs.now at.0 (node.Cast class) }
    ensures { PutsNode result exprs.now at.0 pieces.old pieces.new }
{
    push_operand(exprs, exprs.child(at, 0), pieces)?;
    pieces.push(Piece::Mark(") "))?;
    pieces.push(Piece::Name(class.name))?;
    pieces.push(Piece::Mark("("))?;
    Ok(())
}

/// Puts the pieces of an assignment on the stack.
fn push_assignment(
    exprs: &Arena<ExprNode>,
    at: NodeId,
    field: Spot,
    pieces: &mut Stack<Piece>,
) -> Result<(), NoMemory>
    requires there { at.0 < length exprs.now }
    requires node { IsNode exprs.now at.0 (node.Assign field) }
    ensures { PutsNode result exprs.now at.0 pieces.old pieces.new }
{
    pieces.push(Piece::Node(exprs.child(at, 1)))?;
    pieces.push(Piece::Mark(" = "))?;
    push_member(exprs, exprs.child(at, 0), field, pieces)
}

/// Puts the pieces of a call of the body before on the stack.
fn push_original(
    exprs: &Arena<ExprNode>,
    at: NodeId,
    place: u32,
    arguments: u32,
    pieces: &mut Stack<Piece>,
) -> Result<(), NoMemory>
    requires there { at.0 < length exprs.now }
    requires node { IsNode exprs.now at.0 (node.Original place arguments) }
    ensures { PutsNode result exprs.now at.0 pieces.old pieces.new }
{
    push_arguments(exprs, at, arguments, pieces)?;
    pieces.push(Piece::Mark("original"))?;
    Ok(())
}

/// Puts the pieces of a node on the stack.
pub fn push_node(
    exprs: &Arena<ExprNode>,
    at: NodeId,
    pieces: &mut Stack<Piece>,
) -> Result<(), NoMemory>
    requires { at.0 < length exprs.now }
    ensures { PutsNode result exprs.now at.0 pieces.old pieces.new }
{
    match *exprs.get(at) {
        ExprNode::Variable(x) => pieces.push(Piece::Name(x.name)),
        ExprNode::This(_) => pieces.push(Piece::Mark("this")),
        ExprNode::Null(_) => pieces.push(Piece::Mark("null")),
        ExprNode::Field(field) => push_field(exprs, at, field, pieces),
        ExprNode::Call(method, arguments) => push_call(exprs, at, method, arguments, pieces),
        ExprNode::New(class) => push_new(exprs, at, class, pieces),
        ExprNode::Cast(class) => push_cast(exprs, at, class, pieces),
        ExprNode::Assign(field) => push_assignment(exprs, at, field, pieces),
        ExprNode::Original(place, arguments) => push_original(exprs, at, place, arguments, pieces),
    }
}
