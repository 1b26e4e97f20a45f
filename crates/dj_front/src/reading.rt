//! Product lines from bytes.
ghost use Rattle.std.specs.Prelude.{◌≡◌, ◌≢◌, ◌↔◌, ◌≤◌, length, Err, IsOk, MatchResult};
ghost use Rattle.dj_lexer.specs.declared.token.TheConstants.{MAX_LENGTH};
ghost use Rattle.dj_lexer.specs.Symbols.{symbols_of};
ghost use Rattle.dj_tree.specs.Trees.{Source as PlainSource};
ghost use Rattle.dj_tree.specs.Plain.{plain_source};
ghost use Rattle.dj_tree.specs.WellFormed.{IsWellFormed};
ghost use Rattle.dj_tree.specs.Spells.{Spells, Laid};
ghost use Rattle.dj_refusals.specs.declared.refusal.Refusal.{Refusal as FileRefusal};
ghost use Rattle.dj_line.specs.Lines.{plain_line};
ghost use Rattle.dj_front.specs.Files.{HasTokenList, IsLineFile, IsRefusedFor, IsFileError, lex_error};

use crate::laws::one_answer;
use dj_lexer::{Dialect, LexError, LexFault, Tokens, lex};
use dj_line::{Line, LineError, accept};
use dj_parser::{ParseError, parse};
use dj_refusals::Refusal;
use dj_tree::Source;
use std::alloc::Global;

/// Why bytes give no accepted line.
#[derive(Clone, Copy, Debug, PartialEq, Eq)]
pub enum FileError {
    /// They are refused.
    Refused(Refusal),
    NoMemory,
}

/// Reads the bytes of a file as a product line. `IsLineFile` says which line they are; where they are none, they are
/// refused for the reason that `IsRefusedFor` gives, which is the first in the order tokens, grammar, faults.
pub fn read_line(alloc: Global, bytes: &[u8]) -> Result<Line, FileError>
    requires { length bytes.now ≤ MAX_LENGTH }
    ensures line { MatchResult result (λ line. IsLineFile bytes.now (plain_line line)) (IsFileError bytes.now) }
    ensures given { result ≢ Err FileError.NoMemory → IsOk result ↔ ((source : PlainSource) × IsLineFile bytes.now source) }
    ensures refused { (refusal : FileRefusal) → result ≢ Err FileError.NoMemory
        → (result ≡ Err (FileError.Refused refusal)) ↔ IsRefusedFor bytes.now refusal }
{
    one_answer();
    line_of(alloc, bytes)
}

/// The line of a file, by way of its tokens and of its source.
fn line_of(alloc: Global, bytes: &[u8]) -> Result<Line, FileError>
    requires { length bytes.now ≤ MAX_LENGTH }
    ensures line { MatchResult result (λ line. IsLineFile bytes.now (plain_line line)) (IsFileError bytes.now) }
{
    let tokens = tokens_of(alloc, bytes)?;
    let source = source_of(alloc, bytes, &tokens)?;
    accepted_line(alloc, bytes, &tokens, source)
}

/// The tokens of a file.
fn tokens_of(alloc: Global, bytes: &[u8]) -> Result<Tokens, FileError>
    requires { length bytes.now ≤ MAX_LENGTH }
    ensures tokens { MatchResult result
        (λ tokens. HasTokenList bytes.now tokens.list × (tokens.end ≡ length bytes.now)) (IsFileError bytes.now) }
{
    match lex(alloc, bytes, Dialect::Line) {
        Ok(tokens) => Ok(tokens),
        Err(error) => Err(token_error(error)),
    }
}

/// A fault of the tokens as a refusal of the file.
fn token_error(error: LexError) -> FileError
    ensures { result ≡ lex_error error }
{
    match error {
        LexError::NotUtf8(at) => FileError::Refused(Refusal::Lex(LexFault::NotUtf8(at))),
        LexError::BadCharacter(at) => FileError::Refused(Refusal::Lex(LexFault::BadCharacter(at))),
        LexError::OpenComment(at) => FileError::Refused(Refusal::Lex(LexFault::OpenComment(at))),
        LexError::TooDeep(at) => FileError::Refused(Refusal::Lex(LexFault::TooDeep(at))),
        LexError::NoMemory => FileError::NoMemory,
    }
}

/// The source that the tokens spell.
fn source_of(alloc: Global, bytes: &[u8], tokens: &Tokens) -> Result<Source, FileError>
    requires tokens { HasTokenList bytes.now tokens.now.list }
    requires end { tokens.now.end ≡ length bytes.now }
    ensures source { MatchResult result
        (λ source. Spells (symbols_of bytes.now tokens.now.list) (plain_source source)
        × IsWellFormed source × Laid (plain_source source))
        (IsFileError bytes.now) }
{
    match parse(alloc, bytes, tokens) {
        Ok(source) => Ok(source),
        Err(ParseError::Syntax(at)) => Err(FileError::Refused(Refusal::Syntax(at))),
        Err(ParseError::NoMemory) => Err(FileError::NoMemory),
    }
}

/// The line of a source, where it has no fault.
fn accepted_line(
    alloc: Global,
    bytes: &[u8],
    tokens: &Tokens,
    source: Source,
) -> Result<Line, FileError>
    requires tokens { HasTokenList bytes.now tokens.now.list }
    requires spelled { Spells (symbols_of bytes.now tokens.now.list) (plain_source source) }
    requires well_formed { IsWellFormed source }
    requires laid { Laid (plain_source source) }
    ensures line { MatchResult result (λ line. IsLineFile bytes.now (plain_line line)) (IsFileError bytes.now) }
{
    match accept(alloc, source) {
        Ok(line) => Ok(line),
        Err(LineError::Refused(fault, at)) => Err(FileError::Refused(Refusal::Line(fault, at))),
        Err(LineError::NoMemory) => Err(FileError::NoMemory),
    }
}
