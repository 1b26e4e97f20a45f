//! Which terminal of the grammar a token is.
ghost use Rattle.std.specs.Prelude.{◌≡◌};
ghost use Rattle.std.specs.List.{list_any};
ghost use Rattle.std.specs.Str.{bytes_eq};
ghost use Rattle.dj_lexer.specs.Symbols.{symbol_of};
ghost use Rattle.dj_tree.specs.Words.{is_reserved as is_reserved_text};
ghost use Rattle.dj_reader.specs.Terminals.{is_the_word, is_the_sign, is_a_name};

use dj_lexer::{Token, TokenKind};

/// The words that are no names.
const RESERVED: [&str; 53] = [
    "abstract",
    "assert",
    "boolean",
    "break",
    "byte",
    "case",
    "catch",
    "char",
    "class",
    "const",
    "continue",
    "default",
    "do",
    "double",
    "else",
    "enum",
    "extends",
    "final",
    "finally",
    "float",
    "for",
    "goto",
    "if",
    "implements",
    "import",
    "instanceof",
    "int",
    "interface",
    "long",
    "native",
    "new",
    "package",
    "private",
    "protected",
    "public",
    "return",
    "short",
    "static",
    "strictfp",
    "super",
    "switch",
    "synchronized",
    "this",
    "throw",
    "throws",
    "transient",
    "try",
    "void",
    "volatile",
    "while",
    "true",
    "false",
    "null",
];

fn is_among(words: &[&str], text: &[u8]) -> bool
    ensures { result ≡ list_any (λ w. bytes_eq w.now text.now) words.now }
{
    words.iter().any(|word| word.as_bytes() == text)
}

#[tactic(auto, unfolding(dj_tree::specs::Words::is_reserved))]
fn is_reserved(text: &[u8]) -> bool
    ensures { result ≡ is_reserved_text text.now }
{
    is_among(&RESERVED, text)
}

/// Whether a token of a text is this word.
pub fn is_word(bytes: &[u8], token: Token, text: &[u8]) -> bool
    ensures { result ≡ is_the_word text.now (symbol_of bytes.now token) }
{
    token.kind == TokenKind::Word && token.text(bytes) == text
}

/// Whether a token of a text is this symbol.
pub fn is_sign(bytes: &[u8], token: Token, text: &[u8]) -> bool
    ensures { result ≡ is_the_sign text.now (symbol_of bytes.now token) }
{
    token.kind == TokenKind::Symbol && token.text(bytes) == text
}

/// Whether a token of a text is a name: a word that isn't reserved.
pub fn is_name(bytes: &[u8], token: Token) -> bool
    ensures { result ≡ is_a_name (symbol_of bytes.now token) }
{
    token.kind == TokenKind::Word && !is_reserved(token.text(bytes))
}
