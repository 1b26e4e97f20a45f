//! Class tables from bytes.
ghost use Rattle.std.specs.Prelude.{◌≡◌, ◌≢◌, ◌↔◌, ◌≤◌, length, Err, IsOk, IfOk, IfErr, MatchResult};
ghost use Rattle.dj_lexer.specs.declared.token.TheConstants.{MAX_LENGTH};
ghost use Rattle.dj_lexer.specs.Symbols.{symbols_of};
ghost use Rattle.dj_tree.specs.Plain.{plain_java};
ghost use Rattle.dj_tree.specs.WellFormed.{IsWellFormedJava};
ghost use Rattle.dj_tree.specs.Spells.{SpellsJava, LaidJava};
ghost use Rattle.dj_calculus.specs.Tables.{Table as PlainTable};
ghost use Rattle.ifj_table.specs.Tables.{plain_table};
ghost use Rattle.java_reader.specs.declared.error.JavaError.{JavaError as ErrorOfFile};
ghost use Rattle.java_reader.specs.Files.{HasTokenList, IsJavaFile, IsRefusedFor, HasReason, lex_error};

use crate::error::JavaError;
use crate::faults::first_fault;
use crate::laws::one_answer;
use crate::tables::make_table;
use dj_calculus::laid_has_expressions;
use dj_lexer::{Dialect, LexError, LexFault, Tokens, lex};
use dj_parser::{ParseError, parse_java};
use dj_tree::JavaSource;
use ifj_table::Table;
use std::alloc::Global;

/// Reads the bytes of a Java file as a class table, with the places of its names in the bytes: `IsJavaFile` says which
/// table. Where the bytes are no Java file they are refused for the reason that `IsRefusedFor` gives, which is the first in
/// the order tokens, grammar, classes, members, parameters; `one_answer` says that bytes have one table or one reason.
///
/// `NoMemory` comes where memory runs out, and where the names or the nodes of the table would outgrow their numbers.
pub fn read(alloc: Global, bytes: &[u8]) -> Result<Table, JavaError>
    requires { length bytes.now ≤ MAX_LENGTH }
    ensures read { IfOk result (λ table. IsJavaFile bytes.now (plain_table table)) }
    ensures refused { IfErr result (λ error. error ≢ JavaError.NoMemory → IsRefusedFor bytes.now error) }

    // Each answer comes exactly where it is due, unless memory runs out.
    ensures given { result ≢ Err JavaError.NoMemory → IsOk result ↔ ((table : PlainTable) × IsJavaFile bytes.now table) }
    ensures reason { (error : ErrorOfFile) → result ≢ Err JavaError.NoMemory → (result ≡ Err error) ↔ IsRefusedFor bytes.now error }
{
    one_answer();
    file_table(alloc, bytes)
}

/// The table of a file, by way of its tokens and of its classes.
fn file_table(alloc: Global, bytes: &[u8]) -> Result<Table, JavaError>
    requires { length bytes.now ≤ MAX_LENGTH }
    ensures table { MatchResult result (λ table. IsJavaFile bytes.now (plain_table table)) (HasReason bytes.now) }
{
    let tokens = tokens_of(alloc, bytes)?;
    let source = source_of(alloc, bytes, &tokens)?;
    table_of(alloc, bytes, &tokens, &source)
}

/// The tokens of a file.
fn tokens_of(alloc: Global, bytes: &[u8]) -> Result<Tokens, JavaError>
    requires { length bytes.now ≤ MAX_LENGTH }
    ensures tokens { MatchResult result
        (λ tokens. HasTokenList bytes.now tokens.list × (tokens.end ≡ length bytes.now)) (HasReason bytes.now) }
{
    match lex(alloc, bytes, Dialect::Java) {
        Ok(tokens) => Ok(tokens),
        Err(error) => Err(token_error(error)),
    }
}

/// A fault of the tokens as an error of the file.
fn token_error(error: LexError) -> JavaError
    ensures { result ≡ lex_error error }
{
    match error {
        LexError::NotUtf8(at) => JavaError::Lex(LexFault::NotUtf8(at)),
        LexError::BadCharacter(at) => JavaError::Lex(LexFault::BadCharacter(at)),
        LexError::OpenComment(at) => JavaError::Lex(LexFault::OpenComment(at)),
        LexError::TooDeep(at) => JavaError::Lex(LexFault::TooDeep(at)),
        LexError::NoMemory => JavaError::NoMemory,
    }
}

/// The classes that the tokens spell.
fn source_of(alloc: Global, bytes: &[u8], tokens: &Tokens) -> Result<JavaSource, JavaError>
    requires short { length bytes.now ≤ MAX_LENGTH }
    requires tokens { HasTokenList bytes.now tokens.now.list }
    requires end { tokens.now.end ≡ length bytes.now }
    ensures source { MatchResult result
        (λ source. SpellsJava (symbols_of bytes.now tokens.now.list) (plain_java source)
        × IsWellFormedJava source × LaidJava (plain_java source))
        (HasReason bytes.now) }
{
    match parse_java(alloc, bytes, tokens) {
        Ok(source) => Ok(source),
        Err(ParseError::Syntax(at)) => Err(JavaError::Syntax(at)),
        Err(ParseError::NoMemory) => Err(JavaError::NoMemory),
    }
}

/// The table of the classes, where they have no fault.
fn table_of(
    alloc: Global,
    bytes: &[u8],
    tokens: &Tokens,
    source: &JavaSource,
) -> Result<Table, JavaError>
    requires tokens { HasTokenList bytes.now tokens.now.list }
    requires spelled { SpellsJava (symbols_of bytes.now tokens.now.list) (plain_java source.now) }
    requires well_formed { IsWellFormedJava source.now }
    requires laid { LaidJava (plain_java source.now) }
    ensures table { MatchResult result (λ table. IsJavaFile bytes.now (plain_table table)) (HasReason bytes.now) }
{
    laid_has_expressions();
    match first_fault(alloc, source) {
        Ok(Some((fault, at))) => Err(JavaError::Repeated(fault, at)),
        Ok(None) => match make_table(alloc, source) {
            Ok(table) => Ok(table),
            Err(_) => Err(JavaError::NoMemory),
        },
        Err(_) => Err(JavaError::NoMemory),
    }
}
