//! The answer of `check` for the bytes of a file.
ghost use Rattle.std.specs.Prelude.{◌≤◌, ℕ, List, length, IfOk};
ghost use Rattle.dj_lexer.specs.declared.token.TheConstants.{MAX_LENGTH};
ghost use Rattle.dj_calculus.specs.Good.{IsVoid};
ghost use Rattle.dj_line.specs.Lines.{plain_line};
ghost use Rattle.dj_front.specs.Files.{IsLineFile};
ghost use Rattle.dj_check.specs.Small.{IsSmall};
ghost use Rattle.dj_run.specs.Answers.{Checks, OfLine};
ghost use Rattle.dj_run.specs.Outcomes.{answer_of, IsReading};

use crate::outcome::Outcome;
use crate::reading::Reading;
use crate::texts::{instance_text, refused_line, too_long_text};
use dj_check::{MOST_FEATURES, Small, check_small, is_void};
use dj_front::{FileError, read_line};
use dj_line::Line;
use std::alloc::{AllocError as NoMemory, Global};

/// The answer for what was read of a file.
pub fn check(alloc: Global, reading: &Reading) -> Result<Outcome, NoMemory>
    requires { (bytes : List ℕ) × IsReading bytes reading.now }
    ensures { IfOk result (λ outcome. (bytes : List ℕ) → IsReading bytes reading.now → OfLine Checks bytes (answer_of outcome)) }
{
    match reading {
        Reading::Bytes(bytes) => bytes_checked(alloc, bytes),
        Reading::TooLong => Ok(Outcome::FileRefused(too_long_text(alloc)?)),
    }
}

/// The answer for the bytes of a file.
fn bytes_checked(alloc: Global, bytes: &[u8]) -> Result<Outcome, NoMemory>
    requires { length bytes.now ≤ MAX_LENGTH }
    ensures { IfOk result (λ outcome. OfLine Checks bytes.now (answer_of outcome)) }
{
    let line = match read_line(alloc, bytes) {
        Ok(line) => line,
        Err(FileError::Refused(refusal)) => return refused_line(alloc, bytes, &refusal),
        Err(FileError::NoMemory) => return Err(NoMemory),
    };
    line_checked(alloc, bytes, &line)
}

/// The answer for a line.
fn line_checked(alloc: Global, bytes: &[u8], line: &Line) -> Result<Outcome, NoMemory>
    requires { IsLineFile bytes.now (plain_line line.now) }
    ensures { IfOk result (λ outcome. Checks bytes.now (plain_line line.now) (answer_of outcome)) }
{
    if line.feature_count() > MOST_FEATURES {
        Ok(Outcome::NotBuilt)
    } else if is_void(alloc, line)? {
        Ok(Outcome::YesVoid)
    } else {
        small_checked(alloc, bytes, line)
    }
}

/// The answer for a line of few features, some configuration of which is valid.
fn small_checked(alloc: Global, bytes: &[u8], line: &Line) -> Result<Outcome, NoMemory>
    requires says { IsLineFile bytes.now (plain_line line.now) }
    requires small { IsSmall (plain_line line.now) }
    requires not_void { ¬ (IsVoid (plain_line line.now)) }
    ensures { IfOk result (λ outcome. Checks bytes.now (plain_line line.now) (answer_of outcome)) }
{
    let answer = check_small(alloc, line)?;
    match answer {
        Small::Yes => Ok(Outcome::Yes),
        Small::No(config, instance) => {
            let text = instance_text(alloc, bytes, line, &config, &instance)?;
            Ok(Outcome::No(text))
        }
    }
}
