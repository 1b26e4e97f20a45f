//! Parts of a product line.
ghost use Rattle.std.specs.Prelude.{◌≤◌, length, map, codes, IfOk};
ghost use Rattle.std.specs.Option.{option_map};
ghost use Rattle.dj_lexer.specs.Symbols.{symbols_of};
ghost use Rattle.dj_reader.specs.Answering.{Answers};
ghost use Rattle.dj_reader.specs.Terminals.{is_the_sign, is_the_word};
ghost use Rattle.dj_reader.specs.Combining.{a_sign, a_word, until, optionally};
ghost use Rattle.dj_formula_reader.specs.Laws.{formula_trees};
ghost use Rattle.dj_declarations.specs.Readings.{behind, word_and_name as word_and_name_reading, braced, item_reading, part_reading};
ghost use Rattle.dj_declarations.specs.View.{spot_at, formula_view, item_view, part_view};

use crate::raw::{RawItem, RawPart};
use crate::terminals::{name, next_is_sign, next_is_word, sign, word, word_and_name};
use crate::trees::formula;
use dj_formula_reader::formulas_are_read;
use dj_lexer::Token;
use dj_nodes::FormulaNodes;
use dj_reader::Reading;
use std::alloc::Global;

/// `when` and a formula.
fn read_when<'a>(alloc: Global, bytes: &[u8], tokens: &'a [Token]) -> Reading<'a, FormulaNodes>
    ensures answers { Answers bytes.now (formula_view bytes.now) result
        (behind (a_word (codes "when")) formula_trees (symbols_of bytes.now tokens.now)) }
    ensures fewer { IfOk result (λ x. length x.1.now ≤ length tokens.now) }
{
    let (_, rest) = word(bytes, tokens, b"when")?;
    formula(alloc, bytes, rest)
}

/// The condition of a delta, which may be left out, and `;`.
fn read_condition<'a>(
    alloc: Global,
    bytes: &[u8],
    tokens: &'a [Token],
) -> Reading<'a, (Option<FormulaNodes>, Token)>
    ensures answers { Answers bytes.now
        (λ x. (option_map (formula_view bytes.now) x.0, x.1.from)) result
        (optionally (is_the_word (codes "when")) (behind (a_word (codes "when")) formula_trees)
        (a_sign (codes ";")) (symbols_of bytes.now tokens.now)) }
    ensures fewer { IfOk result (λ x. length x.1.now ≤ length tokens.now) }
{
    if next_is_word(bytes, tokens, b"when") {
        let (when, rest) = read_when(alloc, bytes, tokens)?;
        let (end, rest) = sign(bytes, rest, b";")?;
        Ok(((Some(when), end), rest))
    } else {
        let (end, rest) = sign(bytes, tokens, b";")?;
        Ok(((None, end), rest))
    }
}

/// A delta of a part, with its condition.
fn read_item<'a>(alloc: Global, bytes: &[u8], tokens: &'a [Token]) -> Reading<'a, RawItem>
    ensures answers { Answers bytes.now (item_view bytes.now) result
        (item_reading formula_trees (symbols_of bytes.now tokens.now)) }
    ensures fewer { IfOk result (λ x. length x.1.now ≤ length tokens.now) }
{
    let (delta, rest) = name(bytes, tokens)?;
    let ((when, _), rest) = read_condition(alloc, bytes, rest)?;
    Ok((RawItem { delta, when }, rest))
}

/// The deltas of a part, up to `}`.
fn read_items<'a>(alloc: Global, bytes: &[u8], tokens: &'a [Token]) -> Reading<'a, Vec<RawItem>>
    ensures answers { Answers bytes.now (λ items. map (item_view bytes.now) items.items) result
        (until (is_the_sign (codes "}")) (item_reading formula_trees) (symbols_of bytes.now tokens.now)) }
    ensures fewer { IfOk result (λ x. length x.1.now ≤ length tokens.now) }
{
    formulas_are_read();
    let mut items = Vec::new(alloc);
    let mut rest = tokens;
    'pieces: while !next_is_sign(bytes, rest, b"}") {
        let (item, after) = read_item(alloc, bytes, rest)?;
        items.push(item)?;
        rest = after;
    }
    let (_, rest) = sign(bytes, rest, b"}")?;
    Ok((items, rest))
}

/// The deltas of a part, in braces.
fn read_braced_items<'a>(
    alloc: Global,
    bytes: &[u8],
    tokens: &'a [Token],
) -> Reading<'a, Vec<RawItem>>
    ensures answers { Answers bytes.now (λ items. map (item_view bytes.now) items.items) result
        (braced (item_reading formula_trees) (symbols_of bytes.now tokens.now)) }
    ensures fewer { IfOk result (λ x. length x.1.now ≤ length tokens.now) }
{
    let (_, rest) = sign(bytes, tokens, b"{")?;
    read_items(alloc, bytes, rest)
}

/// The part that a part comes after, which may be left out, and its deltas.
fn read_part_rest<'a>(
    alloc: Global,
    bytes: &[u8],
    tokens: &'a [Token],
) -> Reading<'a, (Option<Token>, Vec<RawItem>)>
    ensures answers { Answers bytes.now
        (λ x. (option_map (spot_at bytes.now) x.0, map (item_view bytes.now) x.1.items)) result
        (optionally (is_the_word (codes "after")) (word_and_name_reading (codes "after"))
        (braced (item_reading formula_trees)) (symbols_of bytes.now tokens.now)) }
    ensures fewer { IfOk result (λ x. length x.1.now ≤ length tokens.now) }
{
    if next_is_word(bytes, tokens, b"after") {
        let (after, rest) = word_and_name(bytes, tokens, b"after")?;
        let (items, rest) = read_braced_items(alloc, bytes, rest)?;
        Ok(((Some(after), items), rest))
    } else {
        let (items, rest) = read_braced_items(alloc, bytes, tokens)?;
        Ok(((None, items), rest))
    }
}

/// A part.
fn read_part<'a>(alloc: Global, bytes: &[u8], tokens: &'a [Token]) -> Reading<'a, RawPart>
    ensures answers { Answers bytes.now (part_view bytes.now) result
        (part_reading formula_trees (symbols_of bytes.now tokens.now)) }
    ensures fewer { IfOk result (λ x. length x.1.now ≤ length tokens.now) }
{
    let (_, rest) = word(bytes, tokens, b"part")?;
    let (name, rest) = name(bytes, rest)?;
    let ((after, items), rest) = read_part_rest(alloc, bytes, rest)?;
    Ok((RawPart { name, after, items }, rest))
}

/// The parts of a product line, up to `}`.
pub fn read_parts<'a>(alloc: Global, bytes: &[u8], tokens: &'a [Token]) -> Reading<'a, Vec<RawPart>>
    ensures answers { Answers bytes.now (λ parts. map (part_view bytes.now) parts.items) result
        (until (is_the_sign (codes "}")) (part_reading formula_trees) (symbols_of bytes.now tokens.now)) }
    ensures fewer { IfOk result (λ x. length x.1.now ≤ length tokens.now) }
{
    formulas_are_read();
    let mut parts = Vec::new(alloc);
    let mut rest = tokens;
    'pieces: while !next_is_sign(bytes, rest, b"}") {
        let (part, after) = read_part(alloc, bytes, rest)?;
        parts.push(part)?;
        rest = after;
    }
    let (_, rest) = sign(bytes, rest, b"}")?;
    Ok((parts, rest))
}
