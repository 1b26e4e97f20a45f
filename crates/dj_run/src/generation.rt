//! The answer of `generate` for the bytes of a file.
ghost use Rattle.std.specs.Prelude.{◌≡◌, ◌≢◌, ◌≤◌, ℕ, List, Option, Some, length, IfOk, OnOk};
ghost use Rattle.dj_lexer.specs.declared.token.TheConstants.{MAX_LENGTH};
ghost use Rattle.dj_calculus.specs.Configurations.{ConfigurationFault};
ghost use Rattle.dj_calculus.specs.Products.{OrderFault};
ghost use Rattle.dj_line.specs.Lines.{plain_line};
ghost use Rattle.dj_line.specs.Words.{config_error};
ghost use Rattle.dj_line.specs.OrderWords.{order_error};
ghost use Rattle.dj_report.specs.WordTexts.{configuration_text, order_text as order_fault_text, IsConfigurationRefusal, IsOrderRefusal};
ghost use Rattle.dj_front.specs.Files.{IsLineFile};
ghost use Rattle.dj_run.specs.Answers.{Generates, LineAnswer, OrderAnswer, VariantAnswer, refused_word as word_answer};
ghost use Rattle.dj_run.specs.Outcomes.{answer_of, word_of, IsReading};

use crate::outcome::Outcome;
use crate::reading::Reading;
use crate::texts::{instance_text, refused_line, too_long_text};
use dj_front::{FileError, read_line};
use dj_generate::{VariantError, generate as variant_text};
use dj_line::{Config, ConfigError, Line, OrderError};
use dj_report::{config_text, order_text};
use std::alloc::{AllocError as NoMemory, Global};

/// The answer for what was read of a file, a configuration word, and an order word where one is given.
pub fn generate(
    alloc: Global,
    reading: &Reading,
    config: &str,
    order: Option<&str>,
) -> Result<Outcome, NoMemory>
    requires { (bytes : List ℕ) × IsReading bytes reading.now }
    ensures { IfOk result (λ outcome. (bytes : List ℕ) → IsReading bytes reading.now → Generates config.now (word_of order.entry) bytes (answer_of outcome)) }
{
    match reading {
        Reading::Bytes(bytes) => bytes_outcome(alloc, bytes, config, order),
        Reading::TooLong => Ok(Outcome::FileRefused(too_long_text(alloc)?)),
    }
}

/// The answer for the bytes of a file.
fn bytes_outcome(
    alloc: Global,
    bytes: &[u8],
    config: &str,
    order: Option<&str>,
) -> Result<Outcome, NoMemory>
    requires { length bytes.now ≤ MAX_LENGTH }
    ensures { IfOk result (λ outcome. Generates config.now (word_of order.entry) bytes.now (answer_of outcome)) }
{
    let line = match read_line(alloc, bytes) {
        Ok(line) => line,
        Err(FileError::Refused(refusal)) => return refused_line(alloc, bytes, &refusal),
        Err(FileError::NoMemory) => return Err(NoMemory),
    };
    line_outcome(alloc, bytes, &line, config, order)
}

/// The answer for a line.
fn line_outcome(
    alloc: Global,
    bytes: &[u8],
    line: &Line,
    config: &str,
    order: Option<&str>,
) -> Result<Outcome, NoMemory>
    requires { IsLineFile bytes.now (plain_line line.now) }
    ensures { IfOk result (λ outcome. LineAnswer config.now (word_of order.entry) bytes.now (plain_line line.now) (answer_of outcome)) }
{
    let chosen = match line.config_of(alloc, config) {
        Ok(chosen) => chosen,
        Err(error) => return refused_configuration(alloc, config, &error),
    };
    order_outcome(alloc, bytes, line, &chosen, order)
}

/// The answer for a configuration word that is refused.
fn refused_configuration(
    alloc: Global,
    word: &str,
    error: &ConfigError,
) -> Result<Outcome, NoMemory>
    requires { error.now ≢ ConfigError.NoMemory → IsConfigurationRefusal word.now error.now }
    ensures text { IfOk result (λ outcome. (fault : ConfigurationFault) → error.now ≡ config_error fault →
        answer_of outcome ≡ word_answer (configuration_text word.now fault)) }
    ensures memory { OnOk result (error.now ≢ ConfigError.NoMemory) }
{
    match error {
        ConfigError::NoMemory => Err(NoMemory),
        _ => Ok(Outcome::WordRefused(config_text(alloc, word, error)?)),
    }
}

/// The answer for a configuration of a line.
fn order_outcome(
    alloc: Global,
    bytes: &[u8],
    line: &Line,
    chosen: &Config,
    order: Option<&str>,
) -> Result<Outcome, NoMemory>
    requires says { IsLineFile bytes.now (plain_line line.now) }
    requires chosen { length chosen.now.chosen.items ≡ length (plain_line line.now).features }
    ensures { IfOk result (λ outcome. OrderAnswer bytes.now (plain_line line.now) chosen.now.chosen.items (word_of order.entry) (answer_of outcome)) }
{
    match order {
        None => variant_outcome(alloc, bytes, line, chosen),
        Some(word) => word_outcome(alloc, bytes, line, chosen, word),
    }
}

/// The answer for an order word.
fn word_outcome(
    alloc: Global,
    bytes: &[u8],
    line: &Line,
    chosen: &Config,
    word: &str,
) -> Result<Outcome, NoMemory>
    requires says { IsLineFile bytes.now (plain_line line.now) }
    requires chosen { length chosen.now.chosen.items ≡ length (plain_line line.now).features }
    ensures { IfOk result (λ outcome. OrderAnswer bytes.now (plain_line line.now) chosen.now.chosen.items (Some word.now) (answer_of outcome)) }
{
    let _order = match line.order_of(alloc, chosen, word) {
        Ok(order) => order,
        Err(error) => return refused_order(alloc, word, &error),
    };
    variant_outcome(alloc, bytes, line, chosen)
}

/// The answer for an order word that is refused.
fn refused_order(alloc: Global, word: &str, error: &OrderError) -> Result<Outcome, NoMemory>
    requires { error.now ≢ OrderError.NoMemory → IsOrderRefusal word.now error.now }
    ensures text { IfOk result (λ outcome. (fault : OrderFault) → error.now ≡ order_error fault →
        answer_of outcome ≡ word_answer (order_fault_text word.now fault)) }
    ensures memory { OnOk result (error.now ≢ OrderError.NoMemory) }
{
    match error {
        OrderError::NoMemory => Err(NoMemory),
        _ => Ok(Outcome::WordRefused(order_text(alloc, word, error)?)),
    }
}

/// The answer for the variant of a configuration.
fn variant_outcome(
    alloc: Global,
    bytes: &[u8],
    line: &Line,
    chosen: &Config,
) -> Result<Outcome, NoMemory>
    requires says { IsLineFile bytes.now (plain_line line.now) }
    requires chosen { length chosen.now.chosen.items ≡ length (plain_line line.now).features }
    ensures { IfOk result (λ outcome. VariantAnswer bytes.now (plain_line line.now) chosen.now.chosen.items (answer_of outcome)) }
{
    match variant_text(alloc, line, chosen) {
        Ok(text) => Ok(Outcome::Made(text)),
        Err(VariantError::Broken(instance)) => {
            let text = instance_text(alloc, bytes, line, chosen, &instance)?;
            Ok(Outcome::No(text))
        }
        Err(VariantError::NoMemory) => Err(NoMemory),
    }
}
