//! The program, over any files and any sink.
ghost use Rattle.std.specs.Prelude.{◌≡◌, ◌≢◌, ◌≤◌, [], List, ℕ, Option, Some, map, take, length};
ghost use Rattle.std.specs.String.{string_bytes};
ghost use Rattle.dj_io.specs.Count.{Follows, Rises};
ghost use Rattle.std.specs.Io.KnownBytes.{Keeps, append_known};
ghost use Rattle.dj_tree.specs.Trees.{Source};
ghost use Rattle.dj_calculus.specs.Configurations.{Configuration, ConfigurationWord};
ghost use Rattle.dj_calculus.specs.Good.{IsGood};
ghost use Rattle.dj_front.specs.Files.{IsLineFile};
ghost use Rattle.dj_check.specs.Small.{IsSmall};
ghost use Rattle.dj_run.specs.Commands.{check, generation, command_of, ReadsFile};
ghost use Rattle.dj_run.specs.Headline.{IsVerdict, IsAllowedWord, IsVariant};
ghost use Rattle.dj_run.specs.Answers.{Answer, Defines};
ghost use Rattle.dj_run.specs.Outcomes.{IsDone, answer_of};

use crate::answer::answer;
use crate::laws::one_each;
use crate::outcome::{Outcome, Stop};
use crate::status::Status;
use dj_io::{Files, Sink};
use std::alloc::Global;

/// Runs the command that the words say, and puts its whole output in one piece. `words` are the words after the
/// program's name, `files` what it reads and `out` where its output goes.
///
/// The words, and the bytes that are left of the file that they name, define a status and a text (`Defines`). Over
/// any files some such answer is given, of bytes that the file may hold: `answers_of_words` says how many there are.
/// The status is another only where reading the file failed (66), where there was no memory (71), and where the output
/// failed (74).
pub fn run<F: Files, O: Sink>(alloc: Global, words: &[String], files: &mut F, out: &mut O) -> Status
    ensures answered { IsDone result.0 → (answer : Answer) × Defines (map string_bytes words.now) (F.left files.old) answer
        × (result.0 ≡ answer.status)
        × Keeps (O.written out.new) (append_known (O.written out.old) answer.text)
        × (answer.text ≡ [] → out.new ≡ out.old) }

    // The headline, for lines of at most 12 features: over the bytes of FILE, the bytes appended and the status.
    ensures headline { IsDone result.0 → (file bytes : List ℕ) (source : Source) → (command_of (map string_bytes words.now) ≡ Some (check file))
        → (F.left files.old file ≡ Some bytes) → IsLineFile bytes source → IsSmall source
        → (answer : Answer) × (result.0 ≡ answer.status)
        × Keeps (O.written out.new) (append_known (O.written out.old) answer.text)
        × IsVerdict bytes source answer }
    ensures variants { IsDone result.0 → (file bytes config : List ℕ) (order : Option (List ℕ)) (source : Source) (c : Configuration)
        → (command_of (map string_bytes words.now) ≡ Some (generation file config order))
        → (F.left files.old file ≡ Some bytes) → IsLineFile bytes source → IsGood source → ConfigurationWord source config c → IsAllowedWord source c order
        → (answer : Answer) × (result.0 ≡ answer.status)
        × Keeps (O.written out.new) (append_known (O.written out.old) answer.text)
        × IsVariant source c answer }

    // A read that failed raised the count of its file, and nothing is written.
    ensures read_failed { result.0 ≡ 66 → (file : List ℕ)
        × ReadsFile (command_of (map string_bytes words.now)) file
        × Rises (F.faults files.old file) (F.faults files.new file) }
    ensures read_failed_text { result.0 ≡ 66 → out.new ≡ out.old }
    ensures no_memory_text { result.0 ≡ 71 → out.new ≡ out.old }

    // A put that failed raised the sink's count, and a front of such a text is written.
    ensures write_failed { result.0 ≡ 74 → Rises (O.faults out.old) (O.faults out.new) }
    ensures write_failed_text { result.0 ≡ 74 → (answer : Answer) × Defines (map string_bytes words.now) (F.left files.old) answer
        × (kept : ℕ) × (kept ≤ length answer.text)
        × Keeps (O.written out.new) (append_known (O.written out.old) (take kept answer.text)) }

    // Other answers leave the counts, and what is left of other files stays.
    ensures no_read_fault { result.0 ≢ 66 → (each : List ℕ) → F.faults files.new each ≡ F.faults files.old each }
    ensures no_write_fault { result.0 ≢ 74 → O.faults out.new ≡ O.faults out.old }
    ensures read_counts { (each : List ℕ) → Follows (F.faults files.old each) (F.faults files.new each) }
    ensures write_counts { Follows (O.faults out.old) (O.faults out.new) }
    ensures others { (other : List ℕ) → ¬ ReadsFile (command_of (map string_bytes words.now)) other →
        F.left files.new other ≡ F.left files.old other }
{
    one_each();
    match answer(alloc, words, files) {
        Ok(outcome) => put_outcome(out, &outcome),
        Err(Stop::ReadFailed) => Status::READ_FAILED,
        Err(Stop::NoMemory) => Status::NO_MEMORY,
    }
}

/// Puts the text of an outcome, where it has one, and gives its status.
fn put_outcome<O: Sink>(out: &mut O, outcome: &Outcome) -> Status
    ensures status { result.0 ≢ 74 → result.0 ≡ (answer_of outcome.now).status }
    ensures text { result.0 ≢ 74 → Keeps (O.written out.new) (append_known (O.written out.old) (answer_of outcome.now).text) }
    ensures no_text { (answer_of outcome.now).text ≡ [] → out.new ≡ out.old }
    ensures part { (kept : ℕ) × (kept ≤ length (answer_of outcome.now).text)
        × Keeps (O.written out.new) (append_known (O.written out.old) (take kept (answer_of outcome.now).text)) }
    ensures failed { result.0 ≡ 74 → Rises (O.faults out.old) (O.faults out.new) }
    ensures no_fault { result.0 ≢ 74 → O.faults out.new ≡ O.faults out.old }
    ensures counts { Follows (O.faults out.old) (O.faults out.new) }
{
    let text = outcome.text();
    if text.is_empty() {
        return outcome.status();
    }
    if out.put(text).is_err() {
        return Status::WRITE_FAILED;
    }
    outcome.status()
}
