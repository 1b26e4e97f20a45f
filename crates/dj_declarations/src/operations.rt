//! Operations on members and on classes.
ghost use Rattle.std.specs.Prelude.{◌<◌, ◌≤◌, ◌^◌, length, map, codes, IfOk};
ghost use Rattle.std.specs.Option.{option_map};
ghost use Rattle.dj_lexer.specs.Symbols.{symbols_of};
ghost use Rattle.dj_lexer.specs.declared.token.Dialect.TheVariants.{Line};
ghost use Rattle.dj_tree.specs.Trees.{removes_field, removes_method, modifies_method, adds_class, removes_class};
ghost use Rattle.dj_tree.specs.LineGrammar.{adds_member};
ghost use Rattle.dj_reader.specs.Answering.{Answers};
ghost use Rattle.dj_reader.specs.Terminals.{is_the_sign, is_the_word};
ghost use Rattle.dj_reader.specs.Combining.{a_word, mapped, either, until, optionally};
ghost use Rattle.dj_declarations.specs.Readings.{behind, word_and_name as word_and_name_reading, braced, removed_reading, member_reading, method_reading, member_operation_reading, change_reading, class_reading, operation_reading};
ghost use Rattle.dj_expr_reader.specs.Laws.{expr_trees};
ghost use Rattle.dj_declarations.specs.Taking.{Takes};
ghost use Rattle.dj_declarations.specs.View.{spot_at, member_op_view, change_view, class_op_view};

use crate::classes::read_class;
use crate::members::{read_member, read_method};
use crate::raw::{RawChange, RawClassOp, RawMemberOp};
use crate::terminals::{Taking, name, next_is_sign, next_is_word, sign, word, word_and_name};
use dj_expr_reader::expressions_are_read;
use dj_lexer::{Dialect, Token};
use dj_reader::Reading;
use std::alloc::Global;

/// This word, a name and `;`.
pub fn read_removed<'a>(bytes: &[u8], tokens: &'a [Token], text: &[u8]) -> Taking<'a, Token>
    ensures answers { Takes bytes.now (spot_at bytes.now) result (removed_reading text.now (symbols_of bytes.now tokens.now)) }
    ensures fewer { IfOk result (λ x. length x.1.now ≤ length tokens.now) }
{
    let (_, rest) = word(bytes, tokens, text)?;
    let (name, rest) = name(bytes, rest)?;
    let (_, rest) = sign(bytes, rest, b";")?;
    Ok((name, rest))
}

/// `field` or `method`, a name and `;`.
fn read_removed_member<'a>(bytes: &[u8], tokens: &'a [Token]) -> Taking<'a, RawMemberOp>
    ensures answers { Takes bytes.now (member_op_view bytes.now) result
        (either (is_the_word (codes "field")) (mapped removes_field (removed_reading (codes "field"))) (mapped removes_method (removed_reading (codes "method")))
        (symbols_of bytes.now tokens.now)) }
    ensures fewer { IfOk result (λ x. length x.1.now ≤ length tokens.now) }
{
    if next_is_word(bytes, tokens, b"field") {
        let (name, rest) = read_removed(bytes, tokens, b"field")?;
        return Ok((RawMemberOp::RemovesField(name), rest));
    }
    let (name, rest) = read_removed(bytes, tokens, b"method")?;
    Ok((RawMemberOp::RemovesMethod(name), rest))
}

/// `adds` and a member.
fn read_added_member<'a>(
    alloc: Global,
    bytes: &[u8],
    tokens: &'a [Token],
) -> Reading<'a, RawMemberOp>
    requires { length tokens.now < 2 ^ 32 }
    ensures answers { Answers bytes.now (member_op_view bytes.now) result
        (mapped adds_member (behind (a_word (codes "adds")) (member_reading (expr_trees Line))) (symbols_of bytes.now tokens.now)) }
    ensures fewer { IfOk result (λ x. length x.1.now ≤ length tokens.now) }
{
    let (_, rest) = word(bytes, tokens, b"adds")?;
    let (member, rest) = read_member(alloc, bytes, Dialect::Line, rest)?;
    Ok((RawMemberOp::Adds(member), rest))
}

/// `modifies` and a method.
fn read_modified_method<'a>(
    alloc: Global,
    bytes: &[u8],
    tokens: &'a [Token],
) -> Reading<'a, RawMemberOp>
    requires { length tokens.now < 2 ^ 32 }
    ensures answers { Answers bytes.now (member_op_view bytes.now) result
        (mapped modifies_method (behind (a_word (codes "modifies")) (method_reading (expr_trees Line))) (symbols_of bytes.now tokens.now)) }
    ensures fewer { IfOk result (λ x. length x.1.now ≤ length tokens.now) }
{
    let (_, rest) = word(bytes, tokens, b"modifies")?;
    let (method, rest) = read_method(alloc, bytes, Dialect::Line, rest)?;
    Ok((RawMemberOp::Modifies(method), rest))
}

/// An operation on a member.
pub fn read_member_op<'a>(
    alloc: Global,
    bytes: &[u8],
    tokens: &'a [Token],
) -> Reading<'a, RawMemberOp>
    requires { length tokens.now < 2 ^ 32 }
    ensures answers { Answers bytes.now (member_op_view bytes.now) result (member_operation_reading (expr_trees Line) (symbols_of bytes.now tokens.now)) }
    ensures fewer { IfOk result (λ x. length x.1.now ≤ length tokens.now) }
{
    if next_is_word(bytes, tokens, b"adds") {
        return read_added_member(alloc, bytes, tokens);
    }
    if next_is_word(bytes, tokens, b"modifies") {
        return read_modified_method(alloc, bytes, tokens);
    }
    let (_, rest) = word(bytes, tokens, b"removes")?;
    Ok(read_removed_member(bytes, rest)?)
}

/// Operations on members, and the `}` behind them.
fn read_member_ops<'a>(
    alloc: Global,
    bytes: &[u8],
    tokens: &'a [Token],
) -> Reading<'a, Vec<RawMemberOp>>
    requires { length tokens.now < 2 ^ 32 }
    ensures answers { Answers bytes.now (λ ops. map (member_op_view bytes.now) ops.items) result
        (until (is_the_sign (codes "}")) (member_operation_reading (expr_trees Line)) (symbols_of bytes.now tokens.now)) }
    ensures fewer { IfOk result (λ x. length x.1.now ≤ length tokens.now) }
{
    expressions_are_read();
    let mut ops = Vec::new(alloc);
    let mut rest = tokens;
    'pieces: while !next_is_sign(bytes, rest, b"}") {
        let (op, after) = read_member_op(alloc, bytes, rest)?;
        ops.push(op)?;
        rest = after;
    }
    let (_, rest) = sign(bytes, rest, b"}")?;
    Ok((ops, rest))
}

/// Operations on members in braces.
fn read_member_block<'a>(
    alloc: Global,
    bytes: &[u8],
    tokens: &'a [Token],
) -> Reading<'a, Vec<RawMemberOp>>
    requires { length tokens.now < 2 ^ 32 }
    ensures answers { Answers bytes.now (λ ops. map (member_op_view bytes.now) ops.items) result
        (braced (member_operation_reading (expr_trees Line)) (symbols_of bytes.now tokens.now)) }
    ensures fewer { IfOk result (λ x. length x.1.now ≤ length tokens.now) }
{
    let (_, rest) = sign(bytes, tokens, b"{")?;
    read_member_ops(alloc, bytes, rest)
}

/// The superclass, where one is given, and the operations on members.
fn read_change_body<'a>(
    alloc: Global,
    bytes: &[u8],
    tokens: &'a [Token],
) -> Reading<'a, (Option<Token>, Vec<RawMemberOp>)>
    requires { length tokens.now < 2 ^ 32 }
    ensures answers { Answers bytes.now (λ p. (option_map (spot_at bytes.now) p.0, map (member_op_view bytes.now) p.1.items)) result
        (optionally (is_the_word (codes "extends")) (word_and_name_reading (codes "extends")) (braced (member_operation_reading (expr_trees Line)))
        (symbols_of bytes.now tokens.now)) }
    ensures fewer { IfOk result (λ x. length x.1.now ≤ length tokens.now) }
{
    if next_is_word(bytes, tokens, b"extends") {
        let (parent, rest) = word_and_name(bytes, tokens, b"extends")?;
        let (members, rest) = read_member_block(alloc, bytes, rest)?;
        return Ok(((Some(parent), members), rest));
    }
    let (members, rest) = read_member_block(alloc, bytes, tokens)?;
    Ok(((None, members), rest))
}

/// A change of a class.
pub fn read_change<'a>(alloc: Global, bytes: &[u8], tokens: &'a [Token]) -> Reading<'a, RawChange>
    requires { length tokens.now < 2 ^ 32 }
    ensures answers { Answers bytes.now (change_view bytes.now) result (change_reading (expr_trees Line) (symbols_of bytes.now tokens.now)) }
    ensures fewer { IfOk result (λ x. length x.1.now ≤ length tokens.now) }
{
    let (_, rest) = word(bytes, tokens, b"class")?;
    let (name, rest) = name(bytes, rest)?;
    let ((parent, members), rest) = read_change_body(alloc, bytes, rest)?;
    let change = RawChange {
        name,
        parent,
        members,
    };
    Ok((change, rest))
}

/// `adds` and a class.
fn read_added_class<'a>(alloc: Global, bytes: &[u8], tokens: &'a [Token]) -> Reading<'a, RawClassOp>
    requires { length tokens.now < 2 ^ 32 }
    ensures answers { Answers bytes.now (class_op_view bytes.now) result
        (mapped adds_class (behind (a_word (codes "adds")) (class_reading (expr_trees Line))) (symbols_of bytes.now tokens.now)) }
    ensures fewer { IfOk result (λ x. length x.1.now ≤ length tokens.now) }
{
    let (_, rest) = word(bytes, tokens, b"adds")?;
    let (class, rest) = read_class(alloc, bytes, Dialect::Line, rest)?;
    Ok((RawClassOp::Adds(class), rest))
}

/// `modifies` and a change of a class.
fn read_modified_class<'a>(
    alloc: Global,
    bytes: &[u8],
    tokens: &'a [Token],
) -> Reading<'a, RawClassOp>
    requires { length tokens.now < 2 ^ 32 }
    ensures answers { Answers bytes.now (class_op_view bytes.now) result
        (behind (a_word (codes "modifies")) (change_reading (expr_trees Line)) (symbols_of bytes.now tokens.now)) }
    ensures fewer { IfOk result (λ x. length x.1.now ≤ length tokens.now) }
{
    let (_, rest) = word(bytes, tokens, b"modifies")?;
    let (change, rest) = read_change(alloc, bytes, rest)?;
    Ok((RawClassOp::Modifies(change), rest))
}

/// An operation on a class.
pub fn read_class_op<'a>(
    alloc: Global,
    bytes: &[u8],
    tokens: &'a [Token],
) -> Reading<'a, RawClassOp>
    requires { length tokens.now < 2 ^ 32 }
    ensures answers { Answers bytes.now (class_op_view bytes.now) result (operation_reading (expr_trees Line) (symbols_of bytes.now tokens.now)) }
    ensures fewer { IfOk result (λ x. length x.1.now ≤ length tokens.now) }
{
    if next_is_word(bytes, tokens, b"adds") {
        return read_added_class(alloc, bytes, tokens);
    }
    if next_is_word(bytes, tokens, b"modifies") {
        return read_modified_class(alloc, bytes, tokens);
    }
    let (_, rest) = word(bytes, tokens, b"removes")?;
    let (name, rest) = read_removed(bytes, rest, b"class")?;
    Ok((RawClassOp::Removes(name), rest))
}
