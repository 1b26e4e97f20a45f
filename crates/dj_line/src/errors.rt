//! Configurations, orders, and the errors of lines and words.
ghost use Rattle.std.specs.Prelude.{◌≡◌};
ghost use Rattle.dj_line.specs.declared.errors.LineError.TheVariants.{NoMemory as no_memory_for_line};
ghost use Rattle.dj_line.specs.declared.errors.ConfigError.TheVariants.{NoMemory as no_memory_for_config};
ghost use Rattle.dj_line.specs.declared.errors.OrderError.TheVariants.{NoMemory as no_memory_for_order};

use dj_faults::LineFault;
use std::alloc::AllocError;
use thiserror::Error;

/// Why there is no line of a source.
#[derive(Debug, Drop, Error)]
pub enum LineError {
    /// The first fault that stands in the source, and the byte offset of its place.
    #[error("the product line is refused")]
    Refused(LineFault, u32),
    #[error("out of memory")]
    NoMemory,
}

impl From<AllocError> for LineError {
    ghost from_gives = { λ _ e. e ≡ no_memory_for_line };

    fn from(_error: AllocError) -> LineError {
        LineError::NoMemory
    }
}

/// Which features are chosen: a truth value for each, in the order in which the line lists them.
#[derive(Drop)]
pub struct Config {
    pub chosen: Vec<bool>,
}

/// Deltas in the order in which they are applied, by their numbers from 0.
#[derive(Drop)]
pub struct Order {
    pub deltas: Vec<u32>,
}

/// Why a configuration word stands for no valid configuration. Pieces have numbers from 0.
#[derive(Clone, Copy, Debug, PartialEq, Eq, Error)]
pub enum ConfigError {
    /// The piece of this number is no feature.
    #[error("a piece of the configuration is no feature")]
    UnknownFeature(usize),
    /// The piece of this number stood before.
    #[error("a feature stands twice in the configuration")]
    RepeatedFeature(usize),
    /// The formula of valid configurations is false.
    #[error("the configuration is not valid")]
    NotValid,
    #[error("out of memory")]
    NoMemory,
}

impl From<AllocError> for ConfigError {
    ghost from_gives = { λ _ e. e ≡ no_memory_for_config };

    fn from(_error: AllocError) -> ConfigError {
        ConfigError::NoMemory
    }
}

/// Why an order word stands for no allowed order. Pieces have numbers from 0.
#[derive(Clone, Copy, Debug, PartialEq, Eq, Error)]
pub enum OrderError {
    /// The piece of this number is no delta.
    #[error("a piece of the order is no delta")]
    UnknownDelta(usize),
    /// The deltas are not the active ones, part by part along the chain, each once.
    #[error("the order is not allowed")]
    NotAllowed,
    #[error("out of memory")]
    NoMemory,
}

impl From<AllocError> for OrderError {
    ghost from_gives = { λ _ e. e ≡ no_memory_for_order };

    fn from(_error: AllocError) -> OrderError {
        OrderError::NoMemory
    }
}
