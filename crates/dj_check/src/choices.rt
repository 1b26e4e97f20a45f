//! The configurations of a line, by numbers.
ghost use Rattle.std.specs.Prelude.{◌≡◌, ◌↔◌, ◌^◌, true, length, IfOk};
ghost use Rattle.dj_calculus.specs.Configurations.{IsValid};
ghost use Rattle.dj_line.specs.Lines.{plain_line};
ghost use Rattle.dj_check.specs.Choices.{choice_of};
ghost use Rattle.dj_check.specs.Small.{IsSmall};

use dj_formula::eval;
use dj_line::{Config, Line};
use std::alloc::{AllocError as NoMemory, Global};

// How many configurations the features of a line have.
pub(crate) fn choice_count(line: &Line) -> u32
    requires small { IsSmall (plain_line line.now) }
    ensures { result ≡ 2 ^ length (plain_line line.now).features }
{
    1 << line.feature_count()
}

// The configuration of a number.
pub(crate) fn choice(alloc: Global, line: &Line, number: u32) -> Result<Config, NoMemory>
    ensures { IfOk result (λ config. config.chosen.items ≡ choice_of (length (plain_line line.now).features) number) }
{
    let mut chosen = Vec::new(alloc);
    let mut rest = number;
    for _ in 0..line.feature_count() {
        chosen.push(rest % 2 == 1)?;
        rest /= 2;
    }
    Ok(Config { chosen })
}

/// Whether a configuration, which has a truth value for each feature, is valid. `NoMemory` is for want of memory alone.
pub fn is_valid(alloc: Global, line: &Line, config: &Config) -> Result<bool, NoMemory>
    requires features { length config.now.chosen.items ≡ length (plain_line line.now).features }
    ensures { IfOk result (λ valid. (valid ≡ true) ↔ IsValid (plain_line line.now) config.now.chosen.items) }
{
    eval(alloc, line.formula(None), &config.chosen)
}
