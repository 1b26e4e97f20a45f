//! Lines of few features, judged by each of their configurations.
ghost use Rattle.std.specs.Prelude.{◌≡◌, ◌↔◌, true, length, IfOk, MatchOption};
ghost use Rattle.dj_calculus.specs.Good.{GoodAt, IsGood, IsVoid};
ghost use Rattle.dj_calculus.specs.Instances.{IsLeast};
ghost use Rattle.dj_calculus.specs.LineRules.{Counts};
ghost use Rattle.dj_line.specs.Lines.{plain_line};
ghost use Rattle.dj_check.specs.Small.{IsSmall, IsGoodWhereValid, Fails, Decides, IfNo};

use crate::choices::{choice, choice_count, is_valid};
use dj_line::{Config, Line};
use dj_tree::Instance;
use dj_variant::{VariantError, variant};
use std::alloc::{AllocError as NoMemory, Global};

/// The most features of a line whose configurations are tried one by one.
pub const MOST_FEATURES: usize = 12;

/// Whether a line is good.
#[derive(Drop)]
pub enum Small {
    /// Each valid configuration is good.
    Yes,
    /// This configuration is valid and not good, and this is the least instance that counts in it.
    No(Config, Instance),
}

/// Whether a line is good: whether in each valid configuration the active deltas of each part are disjoint, and there is
/// a product, which is well typed. Where it isn't, a valid configuration that fails is told, and the least instance of a
/// rule that counts in it. Which one, of several that fail, is open. `NoMemory` is for want of memory alone. Each
/// configuration is tried, so this takes lines of at most `MOST_FEATURES` features.
pub fn check_small(alloc: Global, line: &Line) -> Result<Small, NoMemory>
    requires small { IsSmall (plain_line line.now) }
    ensures yes { IfOk result (λ answer. Decides answer (IsGood (plain_line line.now))) }
    ensures no { IfOk result (λ answer. IfNo answer (λ config instance. Fails (plain_line line.now) config.chosen.items instance)) }
    ensures features { IfOk result (λ answer. IfNo answer (λ config _. length config.chosen.items ≡ length (plain_line line.now).features)) }
{
    for number in 0..choice_count(line) {
        let config = choice(alloc, line, number)?;
        match failure(alloc, line, &config)? {
            Some(instance) => return Ok(Small::No(config, instance)),
            None => {}
        }
    }
    Ok(Small::Yes)
}

// The least instance that counts in a configuration, where it is valid and not good.
fn failure(alloc: Global, line: &Line, config: &Config) -> Result<Option<Instance>, NoMemory>
    requires features { length config.now.chosen.items ≡ length (plain_line line.now).features }
    ensures { IfOk result (λ found. MatchOption found (IsGoodWhereValid (plain_line line.now) config.now.chosen.items) (Fails (plain_line line.now) config.now.chosen.items)) }
{
    if is_valid(alloc, line, config)? {
        counted(alloc, line, config)
    } else {
        Ok(None)
    }
}

// The least instance that counts in a configuration, where it isn't good.
fn counted(alloc: Global, line: &Line, config: &Config) -> Result<Option<Instance>, NoMemory>
    requires features { length config.now.chosen.items ≡ length (plain_line line.now).features }
    ensures { IfOk result (λ found. MatchOption found (GoodAt (plain_line line.now) config.now.chosen.items) (λ i.
        ¬ (GoodAt (plain_line line.now) config.now.chosen.items) × IsLeast (Counts (plain_line line.now) config.now.chosen.items) i)) }
{
    match variant(alloc, line, config) {
        Ok(_) => Ok(None),
        Err(VariantError::Broken(instance)) => Ok(Some(instance)),
        Err(VariantError::NoMemory) => Err(NoMemory),
    }
}

/// Whether no configuration of a line is valid. Such a line is good. It takes lines of at most `MOST_FEATURES` features.
/// `NoMemory` is for want of memory alone.
pub fn is_void(alloc: Global, line: &Line) -> Result<bool, NoMemory>
    requires small { IsSmall (plain_line line.now) }
    ensures void { IfOk result (λ void. (void ≡ true) ↔ IsVoid (plain_line line.now)) }
{
    for number in 0..choice_count(line) {
        let config = choice(alloc, line, number)?;
        if is_valid(alloc, line, &config)? {
            return Ok(false);
        }
    }
    Ok(true)
}
