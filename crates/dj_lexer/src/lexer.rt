//! From bytes to tokens.
ghost use Rattle.std.specs.Prelude.{◌≡◌, ◌≢◌, ◌↔◌, ℕ, ◌<◌, ◌≤◌, List, length, map, All, IfOk, IfErr, IsOk, Err, ◌+◌};
ghost use Rattle.std.specs.List.Sorted.{IsStrictlyIncreasing};
ghost use Rattle.dj_lexer.specs.Tokens.{TokenList};
ghost use Rattle.dj_lexer.specs.Symbols.{symbols_of, depth_after, greatest_depth};
ghost use Rattle.dj_lexer.specs.Faults.{HasTokens, FirstFault, IsRefusedBy, error_of};
ghost use Rattle.dj_lexer.specs.declared.token.LexFault.{LexFault};
ghost use Rattle.dj_lexer.specs.declared.token.TheConstants.{MAX_LENGTH};

use crate::front::{Front, front_of};
use crate::token::{Dialect, LexError, MAX_DEPTH, Token, Tokens};
use std::alloc::Global;

/// How many brackets are open after a token of these bytes.
fn depth_after(depth: u32, token: &[u8]) -> u32
    requires { depth ≤ MAX_DEPTH }
    ensures value { result ≡ depth_after depth token.now }
    ensures small { result ≤ MAX_DEPTH + 1 }
{
    match token {
        [b'(' | b'{'] => depth + 1,
        [b')' | b'}'] => depth.saturating_sub(1),
        _ => depth,
    }
}

/// The tokens of a text, or its first fault.
fn tokens_of(alloc: Global, text: &str, dialect: Dialect) -> Result<Vec<Token>, LexError>
    requires { length text.now ≤ MAX_LENGTH }
    ensures tokens { IfOk result (λ v. TokenList dialect text.now v.items) }
    ensures shallow { IfOk result (λ v. greatest_depth (symbols_of text.now v.items) ≤ MAX_DEPTH) }
    ensures fault { IfErr result (IsRefusedBy dialect text.now) }
{
    let bytes = text.as_bytes();
    let mut list = Vec::new(alloc);
    let mut rest = text;
    let mut depth = 0;
    while let Some(found) = front_of(dialect, rest) {
        let from = text.len() - rest.len();
        match found {
            Front::Skipped(after) => rest = after,
            Front::Token(kind, after) => {
                let to = text.len() - after.len();
                depth = depth_after(depth, &bytes[from..to]);
                if depth > MAX_DEPTH {
                    return Err(LexError::TooDeep(from as u32));
                }
                let token = Token {
                    kind,
                    from: from as u32,
                    to: to as u32,
                };
                let Ok(()) = list.push(token) else {
                    return Err(LexError::NoMemory);
                };
                rest = after;
            }
            Front::BadCharacter => return Err(LexError::BadCharacter(from as u32)),
            Front::OpenComment => return Err(LexError::OpenComment(from as u32)),
        }
    }
    Ok(list)
}

/// The tokens of a text that is UTF-8, by the rules of the dialect: white space and comments separate words and symbols,
/// each the longest that can stand at its place. `TokenList` says which tokens these are, and a text has at most one
/// such list (`one_token_list`). Offsets count bytes from the start.
///
/// Besides want of memory, an error is the first fault from the left (`FirstFault`): bytes that aren't UTF-8, after the
/// longest front that is; a character that begins nothing; a `/*` without its `*/`; the bracket that makes `MAX_DEPTH`
/// and one more open at once.
pub fn lex(alloc: Global, bytes: &[u8], dialect: Dialect) -> Result<Tokens, LexError>
    requires { length bytes.now ≤ MAX_LENGTH }

    ensures tokens { IfOk result (λ t. TokenList dialect bytes.now t.list) }
    ensures shallow { IfOk result (λ t. greatest_depth (symbols_of bytes.now t.list) ≤ MAX_DEPTH) }
    ensures spans { IfOk result (λ t. All (λ s. (s.from < s.to) × (s.to ≤ length bytes.now)) t.list) }
    ensures rising { IfOk result (λ t. IsStrictlyIncreasing (map (λ s. s.from) t.list)) }
    ensures few { IfOk result (λ t. length t.list ≤ length bytes.now) }
    ensures end { IfOk result (λ t. t.end ≡ length bytes.now) }

    // Each answer comes exactly where it is due, unless memory runs out.
    ensures given { result ≢ Err LexError.NoMemory → (IsOk result ↔ HasTokens dialect bytes.now) }
    ensures refused { (fault : LexFault) → result ≢ Err LexError.NoMemory → ((result ≡ Err (error_of fault)) ↔ FirstFault dialect bytes.now fault) }
{
    match std::str::from_utf8(bytes) {
        Ok(text) => match tokens_of(alloc, text, dialect) {
            Ok(list) => Ok(Tokens {
                list,
                end: bytes.len() as u32,
            }),
            Err(error) => Err(error),
        },
        Err(error) => Err(LexError::NotUtf8(error.valid_up_to() as u32)),
    }
}
