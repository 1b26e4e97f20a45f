//! The answer of `typecheck` for the bytes of a file.
ghost use Rattle.std.specs.Prelude.{◌≤◌, ◌++◌, ℕ, List, length, codes, IfOk};
ghost use Rattle.dj_lexer.specs.declared.token.TheConstants.{MAX_LENGTH};
ghost use Rattle.dj_calculus.specs.Instances.{IsLeast};
ghost use Rattle.dj_calculus.specs.TableRules.{CountsIn};
ghost use Rattle.dj_calculus.specs.JavaText.{line as text_line};
ghost use Rattle.dj_report.specs.Rules.{IsRuleText};
ghost use Rattle.ifj_table.specs.Tables.{plain_table};
ghost use Rattle.java_reader.specs.Files.{IsJavaFile};
ghost use Rattle.dj_run.specs.JavaFiles.{IsRefusedAsJava};
ghost use Rattle.dj_run.specs.Answers.{Typechecks};
ghost use Rattle.dj_run.specs.Outcomes.{answer_of, IsReading};

use crate::outcome::Outcome;
use crate::reading::Reading;
use crate::texts::{no_line, too_long_text};
use dj_instance_laws::{java_faults_are_said, java_instances_are_said};
use dj_lexer::token_spans;
use dj_refusals::Refusal;
use dj_report::{refusal_text, rule_text};
use dj_tree::Instance;
use ifj_table::Table;
use ifj_typing::{TypeError, type_table};
use java_reader::{JavaError, read};
use std::alloc::{AllocError as NoMemory, Global};

/// The answer for what was read of a file.
pub fn typecheck(alloc: Global, reading: &Reading) -> Result<Outcome, NoMemory>
    requires { (bytes : List ℕ) × IsReading bytes reading.now }
    ensures { IfOk result (λ outcome. (bytes : List ℕ) → IsReading bytes reading.now → Typechecks bytes (answer_of outcome)) }
{
    match reading {
        Reading::Bytes(bytes) => java_outcome(alloc, bytes),
        Reading::TooLong => Ok(Outcome::FileRefused(too_long_text(alloc)?)),
    }
}

/// The answer for the bytes of a Java file.
fn java_outcome(alloc: Global, bytes: &[u8]) -> Result<Outcome, NoMemory>
    requires { length bytes.now ≤ MAX_LENGTH }
    ensures { IfOk result (λ outcome. Typechecks bytes.now (answer_of outcome)) }
{
    match read(alloc, bytes) {
        Ok(table) => table_outcome(alloc, bytes, &table),
        Err(JavaError::Lex(fault)) => refused_java(alloc, bytes, &Refusal::Lex(fault)),
        Err(JavaError::Syntax(at)) => refused_java(alloc, bytes, &Refusal::Syntax(at)),
        Err(JavaError::Repeated(fault, at)) => {
            refused_java(alloc, bytes, &Refusal::Java(fault, at))
        }
        Err(JavaError::NoMemory) => Err(NoMemory),
    }
}

/// The answer for a Java file that is refused.
fn refused_java(alloc: Global, bytes: &[u8], refusal: &Refusal) -> Result<Outcome, NoMemory>
    requires short { length bytes.now ≤ MAX_LENGTH }
    requires refused { IsRefusedAsJava bytes.now refusal.now }
    ensures { IfOk result (λ outcome. Typechecks bytes.now (answer_of outcome)) }
{
    token_spans();
    java_faults_are_said();
    Ok(Outcome::FileRefused(refusal_text(alloc, bytes, refusal)?))
}

/// The answer for the table of a Java file.
fn table_outcome(alloc: Global, bytes: &[u8], table: &Table) -> Result<Outcome, NoMemory>
    requires short { length bytes.now ≤ MAX_LENGTH }
    requires file { IsJavaFile bytes.now (plain_table table.now) }
    ensures { IfOk result (λ outcome. Typechecks bytes.now (answer_of outcome)) }
{
    match type_table(alloc, table) {
        Ok(()) => Ok(Outcome::Yes),
        Err(TypeError::Broken(instance)) => untyped_outcome(alloc, bytes, table, &instance),
        Err(TypeError::NoMemory) => Err(NoMemory),
    }
}

/// The answer for a table in which an instance counts.
fn untyped_outcome(
    alloc: Global,
    bytes: &[u8],
    table: &Table,
    instance: &Instance,
) -> Result<Outcome, NoMemory>
    requires short { length bytes.now ≤ MAX_LENGTH }
    requires file { IsJavaFile bytes.now (plain_table table.now) }
    requires least { IsLeast (CountsIn (plain_table table.now)) instance.now }
    ensures { IfOk result (λ outcome. Typechecks bytes.now (answer_of outcome)) }
{
    java_instances_are_said();
    let why = rule_text(alloc, bytes, instance)?;
    Ok(Outcome::No(no_line(alloc, &why)?))
}
