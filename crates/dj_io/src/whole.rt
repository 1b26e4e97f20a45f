// A file read to its end.
ghost use Rattle.std.specs.Prelude.{◌≡◌, ◌≢◌, ◌+◌, ◌<◌, ◌≤◌, List, [], ℕ, length, drop, option_map, vec_len, IfOk, OnOk, IsErrOf};
ghost use Rattle.std.specs.Option.{ForSome};
ghost use Rattle.dj_io.specs.declared.whole.ReadError.TheVariants.{Failed, NoMemory};
ghost use Rattle.dj_io.specs.Count.{Follows, Rises};

use crate::{Failed, Files};
use std::alloc::{AllocError, Global};

const CHUNK: usize = 4096;

/// Why a file wasn't read to its end.
#[derive(Clone, Copy, Debug, PartialEq, Eq)]
pub enum ReadError {
    /// A read failed, and the count of faults of the path rose.
    Failed,
    /// More bytes were left than the limit.
    TooLong,
    /// There was no memory for the bytes.
    NoMemory,
}

impl From<Failed> for ReadError {
    ghost from_gives = { λ _ e. e ≡ Failed };

    fn from(_: Failed) -> Self {
        ReadError::Failed
    }
}

impl From<AllocError> for ReadError {
    ghost from_gives = { λ _ e. e ≡ NoMemory };

    fn from(_: AllocError) -> Self {
        ReadError::NoMemory
    }
}

/// Reads all the bytes that are left of a path, of which there may be at most `limit`. After `Ok` nothing is left
/// of it. `TooLong` comes where more than `limit` bytes were left and no read failed, after `limit + 1` of them
/// were taken. Bytes that were taken before a refusal are gone.
pub fn read_whole<F: Files>(
    alloc: Global,
    files: &mut F,
    path: &str,
    limit: usize,
) -> Result<Vec<u8>, ReadError>
    requires { limit < usize.MAX }

    ensures whole { IfOk result (λ bytes. ForSome (F.left files.old path.now) (λ left. bytes.items ≡ left)) }
    ensures within_limit { IfOk result (λ bytes. vec_len bytes ≤ limit) }
    ensures emptied { OnOk result (F.left files.new path.now
        ≡ option_map (λ _. []) (F.left files.old path.now)) }

    ensures too_long { IsErrOf result ReadError.TooLong →
        ForSome (F.left files.old path.now) (λ left. limit < length left) }
    ensures one_past_limit { IsErrOf result ReadError.TooLong → F.left files.new path.now
        ≡ option_map (drop (limit + 1)) (F.left files.old path.now) }

    // Whatever the answer, the bytes that were taken are gone, and what is left of the other paths stays.
    ensures taken { (taken : ℕ) × (taken ≤ limit + 1) × (F.left files.new path.now
        ≡ option_map (drop taken) (F.left files.old path.now)) }
    ensures others { (other : List ℕ) → other ≢ path.now → F.left files.new other ≡ F.left files.old other }

    ensures failed { IsErrOf result ReadError.Failed →
        Rises (F.faults files.old path.now) (F.faults files.new path.now) }
    ensures no_fault { ¬ IsErrOf result ReadError.Failed → (each : List ℕ) →
        F.faults files.new each ≡ F.faults files.old each }
    ensures counts { (each : List ℕ) → Follows (F.faults files.old each) (F.faults files.new each) }
{
    let mut bytes = Vec::new(alloc);
    let mut buffer = [0; CHUNK];
    'chunks: loop {
        let wanted = CHUNK.min(limit + 1 - bytes.len());
        let count = files.read(path, &mut buffer[..wanted])?;
        if count == 0 {
            return Ok(bytes);
        }
        bytes.extend_from_slice(&buffer[..count])?;
        if bytes.len() > limit {
            return Err(ReadError::TooLong);
        }
    }
}
