//! What a reader answers.
ghost use Rattle.std.specs.Prelude.{◌≡◌};
ghost use Rattle.dj_reader.specs.declared.reading.ReadError.TheVariants as errors;

use dj_lexer::Token;
use std::alloc::{AllocError, AllocFailed};

/// Why a reader gives nothing.
#[derive(Debug, Drop)]
pub enum ReadError<'a> {
    /// The first of these tokens can't stand where it stands. Where there is none, something is missing
    /// at the end.
    Syntax(&'a [Token]),
    NoMemory,
}

impl<'a> From<AllocError> for ReadError<'a> {
    ghost from_gives = { λ _ error. error ≡ errors.NoMemory };

    fn from(_: AllocError) -> ReadError<'a> {
        ReadError::NoMemory
    }
}

impl<'a, T: Drop> From<AllocFailed<T>> for ReadError<'a> {
    ghost from_gives = { λ _ error. error ≡ errors.NoMemory };

    fn from(_: AllocFailed<T>) -> ReadError<'a> {
        ReadError::NoMemory
    }
}

/// What was read, and the tokens behind it.
pub type Reading<'a, X> = Result<(X, &'a [Token]), ReadError<'a>>;
