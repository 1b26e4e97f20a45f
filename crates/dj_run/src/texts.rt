//! Texts of refusals, and of what doesn't hold.
ghost use Rattle.std.specs.Prelude.{◌≡◌, ◌≤◌, ◌++◌, List, ℕ, length, codes, IfOk};
ghost use Rattle.dj_lexer.specs.declared.token.TheConstants.{MAX_LENGTH};
ghost use Rattle.dj_calculus.specs.Instances.{IsLeast};
ghost use Rattle.dj_calculus.specs.LineRules.{Counts};
ghost use Rattle.dj_line.specs.Lines.{plain_line};
ghost use Rattle.dj_front.specs.Files.{IsLineFile, IsRefusedFor};
ghost use Rattle.dj_report.specs.Answers.{IsNoText};
ghost use Rattle.dj_run.specs.Answers.{refused_file};
ghost use Rattle.dj_run.specs.Outcomes.{answer_of};
ghost use Rattle.dj_calculus.specs.JavaText.{line as text_line};
ghost use Rattle.dj_report.specs.Refusals.{IsRefusalText};
ghost use Rattle.dj_refusals.specs.declared.refusal.Refusal.TheVariants.{TooLong};

use crate::outcome::Outcome;
use dj_front::refusals_are_said;
use dj_instance_laws::line_instances_are_said;
use dj_line::{Config, Line};
use dj_refusals::Refusal;
use dj_report::{no_text, refusal_text};
use dj_tree::Instance;
use std::alloc::{AllocError as NoMemory, Global};

/// What is said of a file with more bytes than it may have, whichever they are.
pub fn too_long_text(alloc: Global) -> Result<Vec<u8>, NoMemory>
    ensures { IfOk result (λ text. (bytes : List ℕ) → IsRefusalText bytes TooLong text.items) }
{
    refusal_text(alloc, &[], &Refusal::TooLong)
}

/// The line `no`, and why.
pub fn no_line(alloc: Global, why: &[u8]) -> Result<Vec<u8>, NoMemory>
    ensures { IfOk result (λ text. text.items ≡ text_line (codes "no") ++ why.now) }
{
    let mut text = Vec::new(alloc);
    text.extend_from_slice(b"no\n")?;
    text.extend_from_slice(why)?;
    Ok(text)
}

/// The answer for a product line that is refused.
pub fn refused_line(alloc: Global, bytes: &[u8], refusal: &Refusal) -> Result<Outcome, NoMemory>
    requires short { length bytes.now ≤ MAX_LENGTH }
    requires refused { IsRefusedFor bytes.now refusal.now }
    ensures { IfOk result (λ outcome. (text : List ℕ) × (answer_of outcome ≡ refused_file text) × IsRefusalText bytes.now refusal.now text) }
{
    refusals_are_said();
    let text = refusal_text(alloc, bytes, refusal)?;
    Ok(Outcome::FileRefused(text))
}

/// That an instance counts in a configuration.
pub fn instance_text(
    alloc: Global,
    bytes: &[u8],
    line: &Line,
    chosen: &Config,
    instance: &Instance,
) -> Result<Vec<u8>, NoMemory>
    requires says { IsLineFile bytes.now (plain_line line.now) }
    requires chosen { length chosen.now.chosen.items ≡ length (plain_line line.now).features }
    requires least { IsLeast (Counts (plain_line line.now) chosen.now.chosen.items) instance.now }
    ensures { IfOk result (λ text. IsNoText bytes.now (plain_line line.now) chosen.now.chosen.items instance.now text.items) }
{
    line_instances_are_said();
    no_text(alloc, bytes, line, chosen, instance)
}
