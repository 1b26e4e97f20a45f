//! Tokens by their places.
ghost use Rattle.std.specs.Prelude.{◌≡◌, ℕ, Some, List, ◌++◌, encode_utf8_all, drop, MatchOption};
ghost use Rattle.std.specs.Str.{chars};
ghost use Rattle.dj_lexer.specs.Pieces.{HasPiece, IsFront};
ghost use Rattle.dj_lexer.specs.TokensAt.{IsTokenAt, BeginsWithToken, BeginsNoToken};
ghost use Rattle.dj_lexer.specs.declared.token.TokenKind.{TokenKind as Kind};

use crate::front::{Front, front_of};
use crate::token::Dialect;

/// What follows the token of a dialect at the front of a text, or `None` where none stands there.
fn after_token_of(dialect: Dialect, text: &str) -> Option<&str>
    ensures { MatchOption result (BeginsNoToken dialect (chars text.now)) (λ rest. (kind : Kind) × HasPiece dialect (Some kind) text.now rest.now) }
{
    match front_of(dialect, text) {
        None => None,
        Some(front) => behind_token(dialect, text, front),
    }
}

fn behind_token<'a>(dialect: Dialect, text: &str, front: Front<'a>) -> Option<&'a str>
    requires { IsFront dialect text.now front }
    ensures { MatchOption result (BeginsNoToken dialect (chars text.now)) (λ rest. (kind : Kind) × HasPiece dialect (Some kind) text.now rest.now) }
{
    match front {
        Front::Token(_, rest) => Some(rest),
        Front::Skipped(_) => None,
        Front::BadCharacter => None,
        Front::OpenComment => None,
    }
}

/// What follows the token at the front of a text, in the one dialect in which the text has tokens or in both.
fn after_token(text: &str) -> &str
    requires { BeginsWithToken text.now }
    ensures { (token : BeginsWithToken text.now) → text.now ≡ encode_utf8_all token.piece ++ result.now }
{
    if let Some(rest) = after_token_of(Dialect::Java, text) {
        return rest;
    }
    match after_token_of(Dialect::Line, text) {
        Some(rest) => rest,
        None => unreachable!(),
    }
}

/// The text of the token that begins at an offset of bytes that have tokens in one of the two dialects. It is read from
/// the offset on, so nothing is said of how many brackets are open, and no memory is taken.
pub fn token_at(bytes: &[u8], at: u32) -> &[u8]
    requires { (text : List ℕ) × IsTokenAt bytes.now at text }
    ensures { IsTokenAt bytes.now at result.now }
{
    let text = text_from(bytes, at);
    let rest = after_token(text);
    &text.as_bytes()[..text.len() - rest.len()]
}

/// The text from a token on.
fn text_from(bytes: &[u8], at: u32) -> &str
    requires { (text : List ℕ) × IsTokenAt bytes.now at text }
    ensures text { result.now ≡ drop at bytes.now }
    ensures begins { BeginsWithToken result.now }
{
    str::from_utf8(&bytes[at as usize..]).unwrap()
}
