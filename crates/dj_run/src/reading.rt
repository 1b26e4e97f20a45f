//! Files that commands read.
ghost use Rattle.std.specs.Prelude.{◌≡◌, ◌≢◌, List, ℕ, IfOk, IsErrOf};
ghost use Rattle.dj_io.specs.Count.{Follows, Rises};
ghost use Rattle.dj_run.specs.Answers.{MayHold};
ghost use Rattle.dj_run.specs.Outcomes.{IsReading};

use crate::outcome::Stop;
use dj_io::{Files, ReadError, read_whole};
use dj_lexer::MAX_LENGTH;
use std::alloc::Global;

/// What was read of a file.
#[derive(Drop)]
pub enum Reading {
    /// All its bytes.
    Bytes(Vec<u8>),
    /// There are more than it may have.
    TooLong,
}

/// Reads a file to its end, or finds that it is too long.
pub fn read_file<F: Files>(alloc: Global, files: &mut F, file: &str) -> Result<Reading, Stop>
    ensures read { IfOk result (λ reading. (bytes : List ℕ) × MayHold (F.left files.old) file.now bytes × IsReading bytes reading) }
    ensures others { (other : List ℕ) → other ≢ file.now → F.left files.new other ≡ F.left files.old other }
    ensures failed { IsErrOf result Stop.ReadFailed →
        Rises (F.faults files.old file.now) (F.faults files.new file.now) }
    ensures no_fault { ¬ IsErrOf result Stop.ReadFailed → (each : List ℕ) →
        F.faults files.new each ≡ F.faults files.old each }
    ensures counts { (each : List ℕ) → Follows (F.faults files.old each) (F.faults files.new each) }
{
    match read_whole(alloc, files, file, MAX_LENGTH) {
        Ok(bytes) => Ok(Reading::Bytes(bytes)),
        Err(ReadError::TooLong) => Ok(Reading::TooLong),
        Err(ReadError::Failed) => Err(Stop::ReadFailed),
        Err(ReadError::NoMemory) => Err(Stop::NoMemory),
    }
}
