//! Configurations that break a rule.
ghost use Rattle.std.specs.Prelude.{◌≡◌, ◌≤◌, length, map, IfOk, string_bytes};
ghost use Rattle.dj_tree.specs.WellFormed.{IsWellFormed};
ghost use Rattle.dj_tree.specs.Plain.{plain_source};
ghost use Rattle.dj_line.specs.Lines.{plain_line};
ghost use Rattle.dj_refusals.specs.Sayable.{CanBeSaid};
ghost use Rattle.dj_report.specs.Answers.{IsNoText, chosen_names as chosen_names_of, configuration_word as configuration_word_of};

use crate::join::joined;
use crate::rules::rule_text;
use dj_line::{Config, Line};
use dj_tree::{Instance, Source};
use std::alloc::{AllocError as NoMemory, Global};

/// The text that says that an instance of a rule counts in a configuration of a line: `no`, the word of the
/// configuration, and the line of the instance, with places in the bytes of the line's file. It needs a truth value for
/// each feature, and what `rule_text` needs. `IsNoText` says which text it is.
pub fn no_text(
    alloc: Global,
    bytes: &[u8],
    line: &Line,
    config: &Config,
    instance: &Instance,
) -> Result<Vec<u8>, NoMemory>
    requires small { length bytes.now ≤ 4194305 }
    requires said { CanBeSaid bytes.now instance.now }
    requires each { length config.now.chosen.items ≡ length (plain_line line.now).features }
    ensures { IfOk result (λ text. IsNoText bytes.now (plain_line line.now) config.now.chosen.items instance.now text.items) }
{
    let why = rule_text(alloc, bytes, instance)?;
    let word = configuration_word(alloc, line.source(), config)?;
    joined(
        alloc,
        &[
            b"no",
            b"\n",
            b"configuration ",
            word.as_bytes(),
            b"\n",
            why.as_slice(),
        ],
    )
}

/// The word of a configuration: its chosen features in declared order with commas, or `-`.
fn configuration_word(alloc: Global, source: &Source, config: &Config) -> Result<String, NoMemory>
    requires well_formed { IsWellFormed source.now }
    requires each { length config.now.chosen.items ≡ length (plain_source source.now).features }
    ensures { IfOk result (λ word. string_bytes word ≡ configuration_word_of (plain_source source.now) config.now.chosen.items) }
{
    let names = chosen_names(alloc, source, &config.chosen)?;
    if names.is_empty() {
        return String::from_str(alloc, "-");
    }
    names.join(alloc, ",")
}

/// The names of the chosen features.
fn chosen_names<'a>(
    alloc: Global,
    source: &'a Source,
    chosen: &[bool],
) -> Result<Vec<&'a str>, NoMemory>
    requires well_formed { IsWellFormed source.now }
    requires each { length chosen.now ≡ length (plain_source source.now).features }
    ensures { IfOk result (λ names. map (λ name. name.now) names.items ≡ chosen_names_of (plain_source source.now).features chosen.now) }
{
    let mut names = Vec::new(alloc);
    for (feature, &is_chosen) in source.features.as_slice().iter().zip(chosen) {
        if is_chosen {
            names.push(source.names.text(feature.name))?;
        }
    }
    Ok(names)
}
