//! Members of classes.
ghost use Rattle.std.specs.Prelude.{◌<◌, ◌≤◌, ◌^◌, ◌∷◌, length, map, codes, IfOk};
ghost use Rattle.dj_lexer.specs.Symbols.{symbols_of};
ghost use Rattle.dj_reader.specs.Answering.{Answers};
ghost use Rattle.dj_reader.specs.Terminals.{is_the_sign};
ghost use Rattle.dj_reader.specs.Combining.{mapped, until, comma_and, listing};
ghost use Rattle.dj_declarations.specs.Readings.{typed_reading, parameters_reading, body_reading, rest_reading, method_reading, member_reading};
ghost use Rattle.dj_expr_reader.specs.Laws.{expr_trees};
ghost use Rattle.dj_declarations.specs.Taking.{Takes};
ghost use Rattle.dj_declarations.specs.View.{field_view, expr_view, rest_view, method_view, member_view};

use crate::raw::{RawField, RawMember, RawMethod};
use crate::terminals::{Taking, name, next_is_sign, sign, word};
use crate::trees::expression;
use dj_expr_reader::expressions_are_read;
use dj_lexer::{Dialect, Token};
use dj_nodes::ExprNodes;
use dj_reader::Reading;
use std::alloc::Global;

/// A type and a name.
pub fn read_typed<'a>(bytes: &[u8], tokens: &'a [Token]) -> Taking<'a, RawField>
    ensures answers { Takes bytes.now (field_view bytes.now) result (typed_reading (symbols_of bytes.now tokens.now)) }
    ensures fewer { IfOk result (λ x. length x.1.now ≤ length tokens.now) }
{
    let (kind, rest) = name(bytes, tokens)?;
    let (name, rest) = name(bytes, rest)?;
    Ok((RawField { kind, name }, rest))
}

/// A comma, and a type and a name.
fn read_next_typed<'a>(bytes: &[u8], tokens: &'a [Token]) -> Taking<'a, RawField>
    ensures answers { Takes bytes.now (field_view bytes.now) result (comma_and typed_reading (symbols_of bytes.now tokens.now)) }
    ensures fewer { IfOk result (λ x. length x.1.now ≤ length tokens.now) }
{
    let (_, rest) = sign(bytes, tokens, b",")?;
    read_typed(bytes, rest)
}

/// The parameters behind the first one, and the bracket behind them.
fn read_more_typed<'a>(
    alloc: Global,
    bytes: &[u8],
    first: RawField,
    tokens: &'a [Token],
) -> Reading<'a, Vec<RawField>>
    ensures answers { Answers bytes.now (λ fields. map (field_view bytes.now) fields.items) result
        (mapped (λ more. field_view bytes.now first ∷ more) (until (is_the_sign (codes ")")) (comma_and typed_reading)) (symbols_of bytes.now tokens.now)) }
    ensures fewer { IfOk result (λ x. length x.1.now ≤ length tokens.now) }
{
    let mut fields = Vec::new(alloc);
    fields.push(first)?;
    let mut rest = tokens;
    'pieces: while !next_is_sign(bytes, rest, b")") {
        let (field, after) = read_next_typed(bytes, rest)?;
        fields.push(field)?;
        rest = after;
    }
    let (_, rest) = sign(bytes, rest, b")")?;
    Ok((fields, rest))
}

/// Parameters, and the bracket behind them.
fn read_listed<'a>(alloc: Global, bytes: &[u8], tokens: &'a [Token]) -> Reading<'a, Vec<RawField>>
    ensures answers { Answers bytes.now (λ fields. map (field_view bytes.now) fields.items) result
        (listing (codes ")") typed_reading (symbols_of bytes.now tokens.now)) }
    ensures fewer { IfOk result (λ x. length x.1.now ≤ length tokens.now) }
{
    if next_is_sign(bytes, tokens, b")") {
        let (_, rest) = sign(bytes, tokens, b")")?;
        return Ok((Vec::new(alloc), rest));
    }
    let (first, rest) = read_typed(bytes, tokens)?;
    read_more_typed(alloc, bytes, first, rest)
}

/// Parameters, in brackets.
pub fn read_parameters<'a>(
    alloc: Global,
    bytes: &[u8],
    tokens: &'a [Token],
) -> Reading<'a, Vec<RawField>>
    ensures answers { Answers bytes.now (λ fields. map (field_view bytes.now) fields.items) result
        (parameters_reading (symbols_of bytes.now tokens.now)) }
    ensures fewer { IfOk result (λ x. length x.1.now ≤ length tokens.now) }
{
    let (_, rest) = sign(bytes, tokens, b"(")?;
    read_listed(alloc, bytes, rest)
}

/// `return` and an expression, in braces.
fn read_body<'a>(
    alloc: Global,
    bytes: &[u8],
    dialect: Dialect,
    tokens: &'a [Token],
) -> Reading<'a, ExprNodes>
    requires { length tokens.now < 2 ^ 32 }
    ensures answers { Answers bytes.now (expr_view bytes.now) result
        (body_reading (expr_trees dialect) (symbols_of bytes.now tokens.now)) }
    ensures fewer { IfOk result (λ x. length x.1.now ≤ length tokens.now) }
{
    let (_, rest) = sign(bytes, tokens, b"{")?;
    let (_, rest) = word(bytes, rest, b"return")?;
    let (body, rest) = expression(alloc, bytes, dialect, rest)?;
    let (_, rest) = sign(bytes, rest, b";")?;
    let (_, rest) = sign(bytes, rest, b"}")?;
    Ok((body, rest))
}

/// The parameters and the body of a method.
pub fn read_rest<'a>(
    alloc: Global,
    bytes: &[u8],
    dialect: Dialect,
    tokens: &'a [Token],
) -> Reading<'a, (Vec<RawField>, ExprNodes)>
    requires { length tokens.now < 2 ^ 32 }
    ensures answers { Answers bytes.now (rest_view bytes.now) result
        (rest_reading (expr_trees dialect) (symbols_of bytes.now tokens.now)) }
    ensures fewer { IfOk result (λ x. length x.1.now ≤ length tokens.now) }
{
    let (parameters, rest) = read_parameters(alloc, bytes, tokens)?;
    let (body, rest) = read_body(alloc, bytes, dialect, rest)?;
    Ok(((parameters, body), rest))
}

/// A method.
pub fn read_method<'a>(
    alloc: Global,
    bytes: &[u8],
    dialect: Dialect,
    tokens: &'a [Token],
) -> Reading<'a, RawMethod>
    requires { length tokens.now < 2 ^ 32 }
    ensures answers { Answers bytes.now (method_view bytes.now) result
        (method_reading (expr_trees dialect) (symbols_of bytes.now tokens.now)) }
    ensures fewer { IfOk result (λ x. length x.1.now ≤ length tokens.now) }
{
    let (declared, rest) = read_typed(bytes, tokens)?;
    let ((parameters, body), rest) = read_rest(alloc, bytes, dialect, rest)?;
    let method = RawMethod {
        declared,
        parameters,
        body,
    };
    Ok((method, rest))
}

/// A field or a method.
pub fn read_member<'a>(
    alloc: Global,
    bytes: &[u8],
    dialect: Dialect,
    tokens: &'a [Token],
) -> Reading<'a, RawMember>
    requires { length tokens.now < 2 ^ 32 }
    ensures answers { Answers bytes.now (member_view bytes.now) result
        (member_reading (expr_trees dialect) (symbols_of bytes.now tokens.now)) }
    ensures fewer { IfOk result (λ x. length x.1.now ≤ length tokens.now) }
{
    let (declared, rest) = read_typed(bytes, tokens)?;
    if next_is_sign(bytes, rest, b";") {
        let (_, rest) = sign(bytes, rest, b";")?;
        return Ok((RawMember::Field(declared), rest));
    }
    let ((parameters, body), rest) = read_rest(alloc, bytes, dialect, rest)?;
    let method = RawMethod {
        declared,
        parameters,
        body,
    };
    Ok((RawMember::Method(method), rest))
}

/// Members, and the brace behind them.
pub fn read_members<'a>(
    alloc: Global,
    bytes: &[u8],
    dialect: Dialect,
    tokens: &'a [Token],
) -> Reading<'a, Vec<RawMember>>
    requires { length tokens.now < 2 ^ 32 }
    ensures answers { Answers bytes.now (λ members. map (member_view bytes.now) members.items) result
        (until (is_the_sign (codes "}")) (member_reading (expr_trees dialect)) (symbols_of bytes.now tokens.now)) }
    ensures fewer { IfOk result (λ x. length x.1.now ≤ length tokens.now) }
{
    expressions_are_read();
    let mut members = Vec::new(alloc);
    let mut rest = tokens;
    'pieces: while !next_is_sign(bytes, rest, b"}") {
        let (member, after) = read_member(alloc, bytes, dialect, rest)?;
        members.push(member)?;
        rest = after;
    }
    let (_, rest) = sign(bytes, rest, b"}")?;
    Ok((members, rest))
}
