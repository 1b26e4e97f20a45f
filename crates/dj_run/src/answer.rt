//! An answer that words define.
ghost use Rattle.std.specs.Prelude.{◌≡◌, List, ℕ, map, IfOk, IsErrOf};
ghost use Rattle.std.specs.String.{string_bytes};
ghost use Rattle.dj_io.specs.Count.{Follows, Rises};
ghost use Rattle.dj_run.specs.Commands.{command_of as command_in_table, ReadsFile};
ghost use Rattle.dj_run.specs.Answers.{Answers};
ghost use Rattle.dj_run.specs.Outcomes.{answer_of, answered, IsReading};

use crate::checking::check;
use crate::commands::{Command, Question, command_of};
use crate::generation::generate;
use crate::outcome::{Outcome, Stop};
use crate::reading::{Reading, read_file};
use crate::typechecking::typecheck;
use dj_io::Files;
use std::alloc::{AllocError as NoMemory, Global};

/// An answer that the words define, where no read fails and there is memory.
pub fn answer<F: Files>(alloc: Global, words: &[String], files: &mut F) -> Result<Outcome, Stop>
    ensures defined { IfOk result (λ outcome. Answers (F.left files.old) (command_in_table (map string_bytes words.now)) (answer_of outcome)) }

    // Only the file that the words name is read.
    ensures others { (other : List ℕ) → ¬ ReadsFile (command_in_table (map string_bytes words.now)) other →
        F.left files.new other ≡ F.left files.old other }
    ensures failed { IsErrOf result Stop.ReadFailed → (file : List ℕ)
        × ReadsFile (command_in_table (map string_bytes words.now)) file
        × Rises (F.faults files.old file) (F.faults files.new file) }
    ensures no_fault { ¬ IsErrOf result Stop.ReadFailed → (each : List ℕ) →
        F.faults files.new each ≡ F.faults files.old each }
    ensures counts { (each : List ℕ) → Follows (F.faults files.old each) (F.faults files.new each) }
{
    match command_of(words) {
        None => Ok(Outcome::Usage),
        Some(Command::Unbuilt) => Ok(Outcome::NotBuilt),
        Some(Command::Ask { file, question }) => {
            let reading = read_file(alloc, files, file)?;
            Ok(reply(alloc, &reading, question)?)
        }
    }
}

/// What is answered to a question about what was read of a file.
fn reply(alloc: Global, reading: &Reading, question: Question<'_>) -> Result<Outcome, NoMemory>
    requires { (bytes : List ℕ) × IsReading bytes reading.now }
    ensures { IfOk result (λ outcome. (bytes : List ℕ) → IsReading bytes reading.now → answered question.entry bytes (answer_of outcome)) }
{
    match question {
        Question::IsGood => check(alloc, reading),
        Question::Generated { config, order } => generate(alloc, reading, config, order),
        Question::IsTyped => typecheck(alloc, reading),
    }
}
