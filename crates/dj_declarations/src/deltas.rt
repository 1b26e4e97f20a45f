//! Deltas.
ghost use Rattle.std.specs.Prelude.{◌<◌, ◌≤◌, ◌^◌, length, map, codes, IfOk};
ghost use Rattle.dj_lexer.specs.Symbols.{symbols_of};
ghost use Rattle.dj_lexer.specs.declared.token.Dialect.TheVariants.{Line};
ghost use Rattle.dj_reader.specs.Answering.{Answers};
ghost use Rattle.dj_reader.specs.Terminals.{is_the_sign};
ghost use Rattle.dj_reader.specs.Combining.{until, to_end};
ghost use Rattle.dj_declarations.specs.Readings.{braced, operation_reading, delta_reading};
ghost use Rattle.dj_expr_reader.specs.Laws.{expr_trees};
ghost use Rattle.dj_declarations.specs.View.{class_op_view, delta_view};

use crate::operations::read_class_op;
use crate::raw::{RawClassOp, RawDelta};
use crate::terminals::{name, next_is_sign, sign, word};
use dj_expr_reader::expressions_are_read;
use dj_lexer::Token;
use dj_reader::Reading;
use std::alloc::Global;

/// Operations on classes, and the `}` behind them.
fn read_class_ops<'a>(
    alloc: Global,
    bytes: &[u8],
    tokens: &'a [Token],
) -> Reading<'a, Vec<RawClassOp>>
    requires { length tokens.now < 2 ^ 32 }
    ensures answers { Answers bytes.now (λ ops. map (class_op_view bytes.now) ops.items) result
        (until (is_the_sign (codes "}")) (operation_reading (expr_trees Line)) (symbols_of bytes.now tokens.now)) }
    ensures fewer { IfOk result (λ x. length x.1.now ≤ length tokens.now) }
{
    expressions_are_read();
    let mut ops = Vec::new(alloc);
    let mut rest = tokens;
    'pieces: while !next_is_sign(bytes, rest, b"}") {
        let (op, after) = read_class_op(alloc, bytes, rest)?;
        ops.push(op)?;
        rest = after;
    }
    let (_, rest) = sign(bytes, rest, b"}")?;
    Ok((ops, rest))
}

/// Operations on classes in braces.
fn read_class_block<'a>(
    alloc: Global,
    bytes: &[u8],
    tokens: &'a [Token],
) -> Reading<'a, Vec<RawClassOp>>
    requires { length tokens.now < 2 ^ 32 }
    ensures answers { Answers bytes.now (λ ops. map (class_op_view bytes.now) ops.items) result
        (braced (operation_reading (expr_trees Line)) (symbols_of bytes.now tokens.now)) }
    ensures fewer { IfOk result (λ x. length x.1.now ≤ length tokens.now) }
{
    let (_, rest) = sign(bytes, tokens, b"{")?;
    read_class_ops(alloc, bytes, rest)
}

/// A delta.
pub fn read_delta<'a>(alloc: Global, bytes: &[u8], tokens: &'a [Token]) -> Reading<'a, RawDelta>
    requires { length tokens.now < 2 ^ 32 }
    ensures answers { Answers bytes.now (delta_view bytes.now) result (delta_reading (expr_trees Line) (symbols_of bytes.now tokens.now)) }
    ensures fewer { IfOk result (λ x. length x.1.now ≤ length tokens.now) }
{
    let (_, rest) = word(bytes, tokens, b"delta")?;
    let (name, rest) = name(bytes, rest)?;
    let (ops, rest) = read_class_block(alloc, bytes, rest)?;
    Ok((RawDelta { name, ops }, rest))
}

/// Deltas up to the end.
pub fn read_deltas<'a>(
    alloc: Global,
    bytes: &[u8],
    tokens: &'a [Token],
) -> Reading<'a, Vec<RawDelta>>
    requires { length tokens.now < 2 ^ 32 }
    ensures answers { Answers bytes.now (λ deltas. map (delta_view bytes.now) deltas.items) result
        (to_end (delta_reading (expr_trees Line)) (symbols_of bytes.now tokens.now)) }
    ensures fewer { IfOk result (λ x. length x.1.now ≤ length tokens.now) }
{
    expressions_are_read();
    let mut deltas = Vec::new(alloc);
    let mut rest = tokens;
    'pieces: while !rest.is_empty() {
        let (delta, after) = read_delta(alloc, bytes, rest)?;
        deltas.push(delta)?;
        rest = after;
    }
    Ok((deltas, rest))
}
