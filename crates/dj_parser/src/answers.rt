//! From tokens to syntax trees.
ghost use Rattle.std.specs.Prelude.{◌≡◌, ◌≢◌, ◌↔◌, ℕ, ◌≤◌, length, map, IfOk, IfErr, IsOk, Err};
ghost use Rattle.dj_lexer.specs.Tokens.{TokenList};
ghost use Rattle.dj_lexer.specs.Symbols.{symbols_of};
ghost use Rattle.dj_lexer.specs.declared.token.TheConstants.{MAX_LENGTH};
ghost use Rattle.dj_tree.specs.Plain.{plain_source, plain_java};
ghost use Rattle.dj_tree.specs.WellFormed.{IsWellFormed, IsWellFormedJava};
ghost use Rattle.dj_tree.specs.Spells.{Spells, SpellsJava, Laid, LaidJava};
ghost use Rattle.dj_declarations.specs.View.{source_view, class_view};
ghost use Rattle.dj_parser.specs.Refusals.{IsLine, IsJava, IsLineRefusedAt, IsJavaRefusedAt, HasCause, place_of};

use crate::error::ParseError;
use crate::sources::{resolve_java, resolve_source};
use dj_declarations::{RawClass, RawSource, read_classes, read_source, sources_are_read};
use dj_lexer::{Dialect, Token, Tokens, token_spans};
use dj_reader::ReadError;
use dj_tree::{JavaSource, Source, spelled_is_laid};
use std::alloc::Global;

/// The place of the first of the tokens, or the end.
fn place(rest: &[Token], end: u32) -> u32
    ensures { result ≡ place_of rest.now end }
{
    match rest {
        [] => end,
        [token, ..] => token.from,
    }
}

/// The declarations of a product line as tokens.
fn read_line(alloc: Global, bytes: &[u8], tokens: &Tokens) -> Result<RawSource, ParseError>
    requires lexed { TokenList Dialect.Line bytes.now tokens.now.list }
    requires end { tokens.now.end ≡ length bytes.now }
    requires short { length bytes.now ≤ MAX_LENGTH }
    ensures spelled { IfOk result (λ raw. Spells (symbols_of bytes.now tokens.now.list) (source_view bytes.now raw)) }
    ensures cause { IfErr result (HasCause (IsLineRefusedAt (symbols_of bytes.now tokens.now.list) (length bytes.now))) }
{
    token_spans();
    sources_are_read();
    match read_source(alloc, bytes, tokens.list.as_slice()) {
        Ok((raw, _)) => Ok(raw),
        Err(ReadError::Syntax(rest)) => Err(ParseError::Syntax(place(rest, tokens.end))),
        Err(ReadError::NoMemory) => Err(ParseError::NoMemory),
    }
}

/// The classes of a Java file as tokens.
fn read_java(alloc: Global, bytes: &[u8], tokens: &Tokens) -> Result<Vec<RawClass>, ParseError>
    requires lexed { TokenList Dialect.Java bytes.now tokens.now.list }
    requires end { tokens.now.end ≡ length bytes.now }
    requires short { length bytes.now ≤ MAX_LENGTH }
    ensures spelled { IfOk result (λ raws. SpellsJava (symbols_of bytes.now tokens.now.list) (map (class_view bytes.now) raws.items)) }
    ensures cause { IfErr result (HasCause (IsJavaRefusedAt (symbols_of bytes.now tokens.now.list) (length bytes.now))) }
{
    token_spans();
    sources_are_read();
    match read_classes(alloc, bytes, Dialect::Java, tokens.list.as_slice()) {
        Ok((raws, _)) => Ok(raws),
        Err(ReadError::Syntax(rest)) => Err(ParseError::Syntax(place(rest, tokens.end))),
        Err(ReadError::NoMemory) => Err(ParseError::NoMemory),
    }
}

/// The product line of the tokens, or why there is none.
fn make_line(alloc: Global, bytes: &[u8], tokens: &Tokens) -> Result<Source, ParseError>
    requires lexed { TokenList Dialect.Line bytes.now tokens.now.list }
    requires end { tokens.now.end ≡ length bytes.now }
    requires short { length bytes.now ≤ MAX_LENGTH }
    ensures spelled { IfOk result (λ source. Spells (symbols_of bytes.now tokens.now.list) (plain_source source)) }
    ensures well_formed { IfOk result IsWellFormed }
    ensures cause { IfErr result (HasCause (IsLineRefusedAt (symbols_of bytes.now tokens.now.list) (length bytes.now))) }
{
    token_spans();
    match read_line(alloc, bytes, tokens) {
        Ok(raw) => match resolve_source(alloc, bytes, &raw) {
            Ok(source) => Ok(source),
            Err(_) => Err(ParseError::NoMemory),
        },
        Err(error) => Err(error),
    }
}

/// The Java file of the tokens, or why there is none.
fn make_java(alloc: Global, bytes: &[u8], tokens: &Tokens) -> Result<JavaSource, ParseError>
    requires lexed { TokenList Dialect.Java bytes.now tokens.now.list }
    requires end { tokens.now.end ≡ length bytes.now }
    requires short { length bytes.now ≤ MAX_LENGTH }
    ensures spelled { IfOk result (λ source. SpellsJava (symbols_of bytes.now tokens.now.list) (plain_java source)) }
    ensures well_formed { IfOk result IsWellFormedJava }
    ensures cause { IfErr result (HasCause (IsJavaRefusedAt (symbols_of bytes.now tokens.now.list) (length bytes.now))) }
{
    token_spans();
    match read_java(alloc, bytes, tokens) {
        Ok(raws) => match resolve_java(alloc, bytes, raws.as_slice()) {
            Ok(source) => Ok(source),
            Err(_) => Err(ParseError::NoMemory),
        },
        Err(error) => Err(error),
    }
}

/// The product line that the tokens of a text spell, with its names, formulas and expressions. The tokens are those that
/// `lex` gives of the bytes. `Spells` is the grammar, and tokens spell at most one product line.
///
/// `Syntax` comes exactly where they spell none: at the byte offset of the first token after which nothing could make a
/// product line any more, or of the end of the text, where the tokens are the beginning of one (`IsRefusedAt`). The one
/// other error is want of memory.
pub fn parse(alloc: Global, bytes: &[u8], tokens: &Tokens) -> Result<Source, ParseError>
    requires lexed { TokenList Dialect.Line bytes.now tokens.now.list }
    requires end { tokens.now.end ≡ length bytes.now }
    requires short { length bytes.now ≤ MAX_LENGTH }
    ensures spelled { IfOk result (λ source. Spells (symbols_of bytes.now tokens.now.list) (plain_source source)) }
    ensures laid { IfOk result (λ source. Laid (plain_source source)) }
    ensures well_formed { IfOk result IsWellFormed }
    ensures given { result ≢ Err ParseError.NoMemory → (IsOk result ↔ IsLine (symbols_of bytes.now tokens.now.list)) }
    ensures syntax { (at : ℕ) → result ≢ Err ParseError.NoMemory
        → ((result ≡ Err (ParseError.Syntax at)) ↔ IsLineRefusedAt (symbols_of bytes.now tokens.now.list) (length bytes.now) at) }
{
    spelled_is_laid();
    make_line(alloc, bytes, tokens)
}

/// The classes that the tokens of a Java file spell, with their names and expressions. The tokens are those that `lex`
/// gives of the bytes. `SpellsJava` is the grammar, and tokens spell at most one list of classes.
///
/// `Syntax` comes exactly where they spell none, at the place that `parse` tells of a product line.
pub fn parse_java(alloc: Global, bytes: &[u8], tokens: &Tokens) -> Result<JavaSource, ParseError>
    requires lexed { TokenList Dialect.Java bytes.now tokens.now.list }
    requires end { tokens.now.end ≡ length bytes.now }
    requires short { length bytes.now ≤ MAX_LENGTH }
    ensures spelled { IfOk result (λ source. SpellsJava (symbols_of bytes.now tokens.now.list) (plain_java source)) }
    ensures laid { IfOk result (λ source. LaidJava (plain_java source)) }
    ensures well_formed { IfOk result IsWellFormedJava }
    ensures given { result ≢ Err ParseError.NoMemory → (IsOk result ↔ IsJava (symbols_of bytes.now tokens.now.list)) }
    ensures syntax { (at : ℕ) → result ≢ Err ParseError.NoMemory
        → ((result ≡ Err (ParseError.Syntax at)) ↔ IsJavaRefusedAt (symbols_of bytes.now tokens.now.list) (length bytes.now) at) }
{
    spelled_is_laid();
    make_java(alloc, bytes, tokens)
}
