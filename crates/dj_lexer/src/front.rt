//! What stands at the front of a text.
ghost use Rattle.std.specs.Prelude.{◌≡◌, ◌≢◌, ℕ, Bool, true, not, List, [], ◌∷◌, ◌++◌, map, length, MatchOption, IfSome};
ghost use Rattle.std.specs.Str.{IsUtf8, chars};
ghost use Rattle.dj_lexer.specs.Alphabet.{ends_line, is_white_space, is_dollar, starts_word, continues_word, symbols};
ghost use Rattle.dj_lexer.specs.Pieces.{SplitsAfterRun, HasPiece, IsFront, BeginsNoComment, BeginsNoSymbol};

use crate::token::{Dialect, TokenKind};

/// What stands at the front of a text, with the text after it.
#[derive(Clone, Copy)]
pub enum Front<'a> {
    /// White space or a comment.
    Skipped(&'a str),
    /// A token.
    Token(TokenKind, &'a str),
    /// A character that begins nothing.
    BadCharacter,
    /// A comment that isn't closed.
    OpenComment,
}

fn ends_line(c: char) -> bool
    ensures { result ≡ ends_line c }
{
    c == '\n' || c == '\r'
}

fn is_white_space(c: char) -> bool
    ensures { result ≡ is_white_space c }
{
    c == ' ' || c == '\t' || c == '\x0c' || ends_line(c)
}

fn is_dollar(dialect: Dialect, c: char) -> bool
    ensures { result ≡ is_dollar dialect c }
{
    match dialect {
        Dialect::Line => false,
        Dialect::Java => c == '$',
    }
}

fn starts_word(dialect: Dialect, c: char) -> bool
    ensures { result ≡ starts_word dialect c }
{
    unicode_ident::is_xid_start(c) || c == '_' || is_dollar(dialect, c)
}

fn continues_word(dialect: Dialect, c: char) -> bool
    ensures { result ≡ continues_word dialect c }
{
    unicode_ident::is_xid_continue(c) || is_dollar(dialect, c)
}

fn symbols(dialect: Dialect) -> &'static [&'static str]
    ensures { map (λ s. s.now) result.now ≡ symbols dialect }
{
    match dialect {
        Dialect::Line => &[
            "{", "}", "(", ")", ";", ",", ".", "=", "!", "&", "&&", "|", "||", "->", "<->",
        ],
        Dialect::Java => &["{", "}", "(", ")", ";", ",", ".", "="],
    }
}

/// What follows the longest front that is on one line.
fn after_line(text: &str) -> &str
    ensures { SplitsAfterRun (λ c. not (ends_line c)) text.now result.now }
{
    text.trim_start_matches(|c| !ends_line(c))
}

/// What follows the longest front that may go on a word.
fn after_word(dialect: Dialect, text: &str) -> &str
    ensures { SplitsAfterRun (continues_word dialect) text.now result.now }
{
    text.trim_start_matches(|c| continues_word(dialect, c))
}

/// The comment at the front, or `None` where no comment begins there.
fn comment(dialect: Dialect, text: &str) -> Option<Front<'_>>
    ensures { MatchOption result (BeginsNoComment (chars text.now)) (IsFront dialect text.now) }
{
    if let Some(line) = text.strip_prefix("//") {
        return Some(Front::Skipped(after_line(line)));
    }
    let body = text.strip_prefix("/*")?;
    match body.split_once("*/") {
        Some((_, rest)) => Some(Front::Skipped(rest)),
        None => Some(Front::OpenComment),
    }
}

/// The word that begins with `first` and goes on in `more`. A `_` alone is none.
fn word<'a>(dialect: Dialect, text: &str, first: char, more: &'a str) -> Front<'a>
    requires front { chars text.now ≡ first ∷ chars more.now }
    requires starts { starts_word dialect first ≡ true }
    ensures { IsFront dialect text.now result }
{
    let rest = after_word(dialect, more);
    if first == '_' && rest.len() == more.len() {
        Front::BadCharacter
    } else {
        Front::Token(TokenKind::Word, rest)
    }
}

/// What follows the longest symbol at the front, or `None` where no symbol begins there.
fn after_symbol(dialect: Dialect, text: &str) -> Option<&str>
    ensures { MatchOption result (BeginsNoSymbol dialect (chars text.now)) (λ rest. HasPiece dialect (Some TokenKind.Symbol) text.now rest.now) }
{
    let mut shortest = text;
    for symbol in symbols(dialect) {
        if let Some(rest) = text.strip_prefix(*symbol) {
            if rest.len() < shortest.len() {
                shortest = rest;
            }
        }
    }
    if shortest.len() < text.len() {
        Some(shortest)
    } else {
        None
    }
}

/// What stands at the front of the text, or `None` at its end.
pub fn front_of(dialect: Dialect, text: &str) -> Option<Front<'_>>
    ensures { MatchOption result (text.now ≡ []) (IsFront dialect text.now) }
{
    let mut chars = text.chars();
    let first = chars.next()?;
    if is_white_space(first) {
        return Some(Front::Skipped(chars.as_str()));
    }
    if starts_word(dialect, first) {
        return Some(word(dialect, text, first, chars.as_str()));
    }
    if let Some(found) = comment(dialect, text) {
        return Some(found);
    }
    match after_symbol(dialect, text) {
        Some(rest) => Some(Front::Token(TokenKind::Symbol, rest)),
        None => Some(Front::BadCharacter),
    }
}
