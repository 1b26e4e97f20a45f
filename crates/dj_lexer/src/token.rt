//! Tokens, and why a text has none.
ghost use Rattle.std.specs.Prelude.{◌≡◌};
ghost use Rattle.dj_lexer.specs.Symbols.{symbol_of};

use std::marker::Model;
use thiserror::Error;

/// The greatest length of the bytes that `lex` takes.
pub const MAX_LENGTH: usize = 4_194_304;

/// The greatest number of `(` and `{` that may be open at once.
pub const MAX_DEPTH: u32 = 256;

/// Which words and symbols a text may have.
#[derive(Clone, Copy, Debug, PartialEq, Eq, Hash)]
pub enum Dialect {
    /// A product line: a `$` stands in no word, and formulas have operators of their own.
    Line,
    /// Java: a `$` may stand anywhere in a word, and `=` is the one operator.
    Java,
}

/// What a token is.
#[derive(Clone, Copy, Debug, PartialEq, Eq, Hash)]
pub enum TokenKind {
    /// A name or a reserved word.
    Word,
    /// A bracket, a mark of punctuation or an operator.
    Symbol,
}

/// A token, by the byte offsets of its first byte and of the byte after its last.
#[derive(Clone, Copy, Debug, PartialEq, Eq, Hash)]
pub struct Token {
    pub kind: TokenKind,
    pub from: u32,
    pub to: u32,
}

impl Token {
    /// The bytes of the token, where `bytes` are those of its text. Of other bytes it gives those between the same
    /// offsets, as far as there are any.
    pub fn text(self, bytes: &[u8]) -> &[u8]
        ensures { result.now ≡ (symbol_of bytes.now self).text }
    {
        let end = bytes.len().min(self.to as usize);
        let from = end.min(self.from as usize);
        &bytes[from..end]
    }
}

/// The tokens of a text in order, and the length of the text in bytes.
#[derive(Debug, Drop)]
pub struct Tokens {
    pub list: Vec<Token>,
    pub end: u32,
}

impl Model for Tokens {
    ghost use Rattle.dj_lexer.specs.Lexed.{Lexed};

    ghost Value = { Lexed };

    ghost view = { λ t. record { list = t.list.items; end = t.end } };
}

/// The first fault of bytes that have no tokens, or too many open brackets, at its byte offset.
#[derive(Clone, Copy, Debug, PartialEq, Eq, Hash)]
pub enum LexFault {
    /// The bytes aren't UTF-8 from here on.
    NotUtf8(u32),
    /// This character begins no token, no comment and isn't white space.
    BadCharacter(u32),
    /// The comment that begins here isn't closed.
    OpenComment(u32),
    /// This bracket is one more than may be open at once.
    TooDeep(u32),
}

/// Why `lex` gives no tokens: a `LexFault`, or want of memory.
#[derive(Debug, Drop, Error)]
pub enum LexError {
    #[error("the text is not UTF-8")]
    NotUtf8(u32),
    #[error("a character that begins no token")]
    BadCharacter(u32),
    #[error("a comment that is not closed")]
    OpenComment(u32),
    #[error("too many open brackets")]
    TooDeep(u32),
    #[error("out of memory")]
    NoMemory,
}
