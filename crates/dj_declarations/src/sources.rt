//! Whole product lines.
ghost use Rattle.std.specs.Prelude.{◌≤◌, ◌<◌, ◌^◌, ◌∷◌, length, map, codes, IfOk};
ghost use Rattle.dj_lexer.specs.Symbols.{symbols_of};
ghost use Rattle.dj_reader.specs.Answering.{Answers};
ghost use Rattle.dj_reader.specs.Terminals.{is_the_sign};
ghost use Rattle.dj_reader.specs.Combining.{a_name, mapped, until, comma_and, listing};
ghost use Rattle.dj_formula_reader.specs.Laws.{formula_trees};
ghost use Rattle.dj_declarations.specs.Readings.{title_reading, features_reading, valid_reading};
ghost use Rattle.dj_declarations.specs.Laws.{line_reading};
ghost use Rattle.dj_declarations.specs.Taking.{Takes};
ghost use Rattle.dj_declarations.specs.View.{spot_at, formula_view, source_view};

use crate::deltas::read_deltas;
use crate::parts::read_parts;
use crate::raw::RawSource;
use crate::terminals::{Taking, name, next_is_sign, sign, word};
use crate::trees::formula;
use dj_lexer::Token;
use dj_nodes::FormulaNodes;
use dj_reader::Reading;
use std::alloc::Global;

/// `line`, a name and `{`.
fn read_title<'a>(bytes: &[u8], tokens: &'a [Token]) -> Taking<'a, Token>
    ensures answers { Takes bytes.now (spot_at bytes.now) result
        (title_reading (symbols_of bytes.now tokens.now)) }
    ensures fewer { IfOk result (λ x. length x.1.now ≤ length tokens.now) }
{
    let (_, rest) = word(bytes, tokens, b"line")?;
    let (title, rest) = name(bytes, rest)?;
    let (_, rest) = sign(bytes, rest, b"{")?;
    Ok((title, rest))
}

/// A comma and a name.
fn read_next_name<'a>(bytes: &[u8], tokens: &'a [Token]) -> Taking<'a, Token>
    ensures answers { Takes bytes.now (spot_at bytes.now) result
        (comma_and a_name (symbols_of bytes.now tokens.now)) }
    ensures fewer { IfOk result (λ x. length x.1.now ≤ length tokens.now) }
{
    let (_, rest) = sign(bytes, tokens, b",")?;
    name(bytes, rest)
}

/// More names behind the first, each behind a comma, up to `;`.
fn read_more_names<'a>(
    alloc: Global,
    bytes: &[u8],
    first: Token,
    tokens: &'a [Token],
) -> Reading<'a, Vec<Token>>
    ensures answers { Answers bytes.now (λ names. map (spot_at bytes.now) names.items) result
        (mapped (λ names. spot_at bytes.now first ∷ names)
        (until (is_the_sign (codes ";")) (comma_and a_name)) (symbols_of bytes.now tokens.now)) }
    ensures fewer { IfOk result (λ x. length x.1.now ≤ length tokens.now) }
{
    let mut names = Vec::new(alloc);
    names.push(first)?;
    let mut rest = tokens;
    'pieces: while !next_is_sign(bytes, rest, b";") {
        let (name, after) = read_next_name(bytes, rest)?;
        names.push(name)?;
        rest = after;
    }
    let (_, rest) = sign(bytes, rest, b";")?;
    Ok((names, rest))
}

/// Names with commas between them, or none, up to `;`.
fn read_names<'a>(alloc: Global, bytes: &[u8], tokens: &'a [Token]) -> Reading<'a, Vec<Token>>
    ensures answers { Answers bytes.now (λ names. map (spot_at bytes.now) names.items) result
        (listing (codes ";") a_name (symbols_of bytes.now tokens.now)) }
    ensures fewer { IfOk result (λ x. length x.1.now ≤ length tokens.now) }
{
    if next_is_sign(bytes, tokens, b";") {
        let (_, rest) = sign(bytes, tokens, b";")?;
        Ok((Vec::new(alloc), rest))
    } else {
        let (first, rest) = name(bytes, tokens)?;
        read_more_names(alloc, bytes, first, rest)
    }
}

/// `features` and their names.
fn read_features<'a>(alloc: Global, bytes: &[u8], tokens: &'a [Token]) -> Reading<'a, Vec<Token>>
    ensures answers { Answers bytes.now (λ names. map (spot_at bytes.now) names.items) result
        (features_reading (symbols_of bytes.now tokens.now)) }
    ensures fewer { IfOk result (λ x. length x.1.now ≤ length tokens.now) }
{
    let (_, rest) = word(bytes, tokens, b"features")?;
    read_names(alloc, bytes, rest)
}

/// `valid`, a formula and `;`.
fn read_valid<'a>(alloc: Global, bytes: &[u8], tokens: &'a [Token]) -> Reading<'a, FormulaNodes>
    ensures answers { Answers bytes.now (formula_view bytes.now) result
        (valid_reading formula_trees (symbols_of bytes.now tokens.now)) }
    ensures fewer { IfOk result (λ x. length x.1.now ≤ length tokens.now) }
{
    let (_, rest) = word(bytes, tokens, b"valid")?;
    let (valid, rest) = formula(alloc, bytes, rest)?;
    let (_, rest) = sign(bytes, rest, b";")?;
    Ok((valid, rest))
}

/// Reads a product line: its title, features, formula and parts, and then its deltas up to the end of the
/// tokens. The answer is its declarations as tokens, which stand for what `line_reading` gives of the symbols
/// of the text, or the tokens from the first on that can't stand where it stands.
pub fn read_source<'a>(alloc: Global, bytes: &[u8], tokens: &'a [Token]) -> Reading<'a, RawSource>
    requires { length tokens.now < 2 ^ 32 }
    ensures answers { Answers bytes.now (source_view bytes.now) result
        (line_reading (symbols_of bytes.now tokens.now)) }
{
    let (title, rest) = read_title(bytes, tokens)?;
    let (features, rest) = read_features(alloc, bytes, rest)?;
    let (valid, rest) = read_valid(alloc, bytes, rest)?;
    let (parts, rest) = read_parts(alloc, bytes, rest)?;
    let (deltas, rest) = read_deltas(alloc, bytes, rest)?;
    Ok((
        RawSource {
            title,
            features,
            valid,
            parts,
            deltas,
        },
        rest,
    ))
}
