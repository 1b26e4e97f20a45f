//! Why a derivation is refused.
ghost use Rattle.std.specs.Prelude.{◌≡◌};
ghost use Rattle.derivation_checker.specs.declared.fault.CheckError.TheVariants.{NoMemory as want_of_memory};

use std::alloc::{AllocError, AllocFailed};
use thiserror::Error;

/// The first fault of a derivation, read from the left. Steps and the links of a step count from 0.
#[derive(Clone, Copy, Debug, PartialEq, Eq, Hash)]
pub enum StepFault {
    /// In this step this clause number isn't the number of a given clause or of one that an earlier step made.
    UnknownClause(u64, u64),
    /// In this step, at this link, the clause made so far lacks the pivot or the link's clause lacks its opposite.
    NoPivot(u64, u64),
    /// All steps are right, and the last clause isn't empty.
    NotEmpty,
    /// There is no step.
    NoSteps,
}

/// Why `check_derivation` doesn't accept a derivation: its first fault, or want of memory.
#[derive(Debug, Drop, Error)]
pub enum CheckError {
    #[error("the derivation is wrong")]
    Fault(StepFault),
    #[error("out of memory")]
    NoMemory,
}

impl From<AllocError> for CheckError {
    ghost from_gives = { λ _ e. e ≡ want_of_memory };

    fn from(_error: AllocError) -> CheckError {
        CheckError::NoMemory
    }
}
