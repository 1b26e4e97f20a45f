//! Classes.
ghost use Rattle.std.specs.Prelude.{◌<◌, ◌≤◌, ◌^◌, length, map, codes, IfOk};
ghost use Rattle.std.specs.Option.{option_map};
ghost use Rattle.dj_lexer.specs.Symbols.{symbols_of};
ghost use Rattle.dj_reader.specs.Answering.{Answers};
ghost use Rattle.dj_reader.specs.Terminals.{is_the_word};
ghost use Rattle.dj_reader.specs.Combining.{optionally};
ghost use Rattle.dj_declarations.specs.Readings.{word_and_name as word_and_name_reading, braced, member_reading, class_reading, java_reading};
ghost use Rattle.dj_declarations.specs.View.{spot_at, member_view, class_view};
ghost use Rattle.dj_expr_reader.specs.Laws.{expr_trees};

use crate::members::read_members;
use crate::raw::{RawClass, RawMember};
use crate::terminals::{name, next_is_word, sign, word, word_and_name};
use dj_expr_reader::expressions_are_read;
use dj_lexer::{Dialect, Token};
use dj_reader::Reading;
use std::alloc::Global;

/// Members in braces.
fn read_braced<'a>(
    alloc: Global,
    bytes: &[u8],
    dialect: Dialect,
    tokens: &'a [Token],
) -> Reading<'a, Vec<RawMember>>
    requires { length tokens.now < 2 ^ 32 }
    ensures answers { Answers bytes.now (λ members. map (member_view bytes.now) members.items) result
        (braced (member_reading (expr_trees dialect)) (symbols_of bytes.now tokens.now)) }
    ensures fewer { IfOk result (λ x. length x.1.now ≤ length tokens.now) }
{
    let (_, rest) = sign(bytes, tokens, b"{")?;
    read_members(alloc, bytes, dialect, rest)
}

/// What stands behind the name of a class: its parent, if any, and its members.
fn read_head<'a>(
    alloc: Global,
    bytes: &[u8],
    dialect: Dialect,
    tokens: &'a [Token],
) -> Reading<'a, (Option<Token>, Vec<RawMember>)>
    requires { length tokens.now < 2 ^ 32 }
    ensures answers { Answers bytes.now (λ head. (option_map (spot_at bytes.now) head.0, map (member_view bytes.now) head.1.items)) result
        (optionally (is_the_word (codes "extends")) (word_and_name_reading (codes "extends")) (braced (member_reading (expr_trees dialect))) (symbols_of bytes.now tokens.now)) }
    ensures fewer { IfOk result (λ x. length x.1.now ≤ length tokens.now) }
{
    if next_is_word(bytes, tokens, b"extends") {
        let (parent, rest) = word_and_name(bytes, tokens, b"extends")?;
        let (members, rest) = read_braced(alloc, bytes, dialect, rest)?;
        return Ok(((Some(parent), members), rest));
    }
    let (members, rest) = read_braced(alloc, bytes, dialect, tokens)?;
    Ok(((None, members), rest))
}

/// A class.
pub fn read_class<'a>(
    alloc: Global,
    bytes: &[u8],
    dialect: Dialect,
    tokens: &'a [Token],
) -> Reading<'a, RawClass>
    requires { length tokens.now < 2 ^ 32 }
    ensures answers { Answers bytes.now (class_view bytes.now) result
        (class_reading (expr_trees dialect) (symbols_of bytes.now tokens.now)) }
    ensures fewer { IfOk result (λ x. length x.1.now ≤ length tokens.now) }
{
    let (_, rest) = word(bytes, tokens, b"class")?;
    let (name, rest) = name(bytes, rest)?;
    let ((parent, members), rest) = read_head(alloc, bytes, dialect, rest)?;
    let class = RawClass {
        name,
        parent,
        members,
    };
    Ok((class, rest))
}

/// Reads classes up to the end of the tokens of a text, with expressions of the dialect. The answer is the
/// classes, with no tokens left, or the tokens from the first on that can't stand where it stands: what
/// `java_reading` gives of the symbols.
pub fn read_classes<'a>(
    alloc: Global,
    bytes: &[u8],
    dialect: Dialect,
    tokens: &'a [Token],
) -> Reading<'a, Vec<RawClass>>
    requires { length tokens.now < 2 ^ 32 }
    ensures answers { Answers bytes.now (λ classes. map (class_view bytes.now) classes.items) result
        (java_reading (expr_trees dialect) (symbols_of bytes.now tokens.now)) }
{
    expressions_are_read();
    let mut classes = Vec::new(alloc);
    let mut rest = tokens;
    'pieces: while !rest.is_empty() {
        let (class, after) = read_class(alloc, bytes, dialect, rest)?;
        classes.push(class)?;
        rest = after;
    }
    Ok((classes, rest))
}
