//! Single tokens at the front.
ghost use Rattle.std.specs.Prelude.{◌≡◌, ◌≤◌, length, IfOk};
ghost use Rattle.dj_lexer.specs.Symbols.{symbols_of};
ghost use Rattle.dj_reader.specs.Combining.{a_sign, a_word, a_name as name_reading, passes};
ghost use Rattle.dj_reader.specs.Reading.{next};
ghost use Rattle.dj_reader.specs.Terminals.{is_the_sign, is_the_word};
ghost use Rattle.dj_reader.specs.declared.reading.ReadError.TheVariants.{Syntax};
ghost use Rattle.dj_declarations.specs.Readings.{word_and_name as word_and_name_reading};
ghost use Rattle.dj_declarations.specs.Taking.{Takes};
ghost use Rattle.dj_declarations.specs.View.{spot_at};

use dj_lexer::Token;
use dj_reader::{ReadError, is_name, is_sign, is_word};

/// The first of these tokens can't stand where it stands. Where there is none, something is missing at the
/// end. It is the one refusal of a reader that takes no memory.
#[derive(Clone, Copy, Debug)]
pub struct Unexpected<'a> {
    pub rest: &'a [Token],
}

impl<'a> From<Unexpected<'a>> for ReadError<'a> {
    ghost from_gives = { λ unexpected error. error ≡ Syntax unexpected.rest };

    fn from(unexpected: Unexpected<'a>) -> ReadError<'a> {
        ReadError::Syntax(unexpected.rest)
    }
}

/// What was read without memory, and the tokens behind it.
pub type Taking<'a, X> = Result<(X, &'a [Token]), Unexpected<'a>>;

/// This bracket or mark.
pub fn sign<'a>(bytes: &[u8], tokens: &'a [Token], text: &[u8]) -> Taking<'a, Token>
    ensures answers { Takes bytes.now (λ t. t.from) result (a_sign text.now (symbols_of bytes.now tokens.now)) }
    ensures fewer { IfOk result (λ x. length x.1.now ≤ length tokens.now) }
{
    match tokens {
        [token, rest @ ..] if is_sign(bytes, *token, text) => Ok((*token, rest)),
        _ => Err(Unexpected { rest: tokens }),
    }
}

/// This word.
pub fn word<'a>(bytes: &[u8], tokens: &'a [Token], text: &[u8]) -> Taking<'a, Token>
    ensures answers { Takes bytes.now (λ t. t.from) result (a_word text.now (symbols_of bytes.now tokens.now)) }
    ensures fewer { IfOk result (λ x. length x.1.now ≤ length tokens.now) }
{
    match tokens {
        [token, rest @ ..] if is_word(bytes, *token, text) => Ok((*token, rest)),
        _ => Err(Unexpected { rest: tokens }),
    }
}

/// A name.
pub fn name<'a>(bytes: &[u8], tokens: &'a [Token]) -> Taking<'a, Token>
    ensures answers { Takes bytes.now (spot_at bytes.now) result (name_reading (symbols_of bytes.now tokens.now)) }
    ensures fewer { IfOk result (λ x. length x.1.now ≤ length tokens.now) }
{
    match tokens {
        [token, rest @ ..] if is_name(bytes, *token) => Ok((*token, rest)),
        _ => Err(Unexpected { rest: tokens }),
    }
}

/// This word and a name.
pub fn word_and_name<'a>(bytes: &[u8], tokens: &'a [Token], text: &[u8]) -> Taking<'a, Token>
    ensures answers { Takes bytes.now (spot_at bytes.now) result (word_and_name_reading text.now (symbols_of bytes.now tokens.now)) }
    ensures fewer { IfOk result (λ x. length x.1.now ≤ length tokens.now) }
{
    let (_, rest) = word(bytes, tokens, text)?;
    name(bytes, rest)
}

/// Whether the next token is this bracket or mark.
pub fn next_is_sign(bytes: &[u8], tokens: &[Token], text: &[u8]) -> bool
    ensures { result ≡ passes (is_the_sign text.now) (next (symbols_of bytes.now tokens.now)) }
{
    match tokens {
        [token, ..] => is_sign(bytes, *token, text),
        [] => false,
    }
}

/// Whether the next token is this word.
pub fn next_is_word(bytes: &[u8], tokens: &[Token], text: &[u8]) -> bool
    ensures { result ≡ passes (is_the_word text.now) (next (symbols_of bytes.now tokens.now)) }
{
    match tokens {
        [token, ..] => is_word(bytes, *token, text),
        [] => false,
    }
}
