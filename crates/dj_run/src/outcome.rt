//! What the program has to say at its end.
ghost use Rattle.std.specs.Prelude.{◌≡◌};
ghost use Rattle.dj_run.specs.Outcomes.{answer_of};
ghost use Rattle.dj_run.specs.declared.outcome.Stop.TheVariants.{NoMemory};

use crate::status::Status;
use std::alloc::AllocError;

const USAGE: &str =
    "usage: deltaj check FILE | generate FILE CONFIG [ORDER] | verify FILE CERT | explain FILE | typecheck FILE | sample N | try N\n";

const NOT_BUILT: &str = "not built\n";

const YES: &str = "yes\n";

const YES_VOID: &str = "yes void\n";

/// An answer of the program: a status, and a text for its output.
#[derive(Drop)]
pub enum Outcome {
    Usage,
    NotBuilt,
    /// Why the file is refused.
    FileRefused(Vec<u8>),
    /// Why a word of the command line is refused.
    WordRefused(Vec<u8>),
    /// The text that was asked for.
    Made(Vec<u8>),
    /// What was asked for holds.
    Yes,
    /// The line is right, since no configuration is valid.
    YesVoid,
    /// Why it doesn't.
    No(Vec<u8>),
}

impl Outcome {
    pub fn status(&self) -> Status
        ensures { result.0 ≡ (answer_of self.now).status }
    {
        match self {
            Outcome::Usage => Status::USAGE,
            Outcome::NotBuilt => Status::NOT_BUILT,
            Outcome::FileRefused(_) => Status::FILE_REFUSED,
            Outcome::WordRefused(_) => Status::WORD_REFUSED,
            Outcome::Made(_) | Outcome::Yes | Outcome::YesVoid => Status::DONE,
            Outcome::No(_) => Status::REFUTED,
        }
    }

    pub fn text(&self) -> &[u8]
        ensures { result.now ≡ (answer_of self.now).text }
    {
        match self {
            Outcome::Usage => USAGE.as_bytes(),
            Outcome::NotBuilt => NOT_BUILT.as_bytes(),
            Outcome::Yes => YES.as_bytes(),
            Outcome::YesVoid => YES_VOID.as_bytes(),
            Outcome::FileRefused(text)
            | Outcome::WordRefused(text)
            | Outcome::Made(text)
            | Outcome::No(text) => text.as_slice(),
        }
    }
}

/// Why there is no answer.
#[derive(Clone, Copy, Debug, PartialEq, Eq)]
pub enum Stop {
    ReadFailed,
    NoMemory,
}

impl From<AllocError> for Stop {
    ghost from_gives = { λ _ e. e ≡ NoMemory };

    fn from(_: AllocError) -> Stop {
        Stop::NoMemory
    }
}
