//! The check of a derivation, step by step.
ghost use Rattle.std.specs.Prelude.{◌≡◌, ◌++◌, length, map, All, OnOk, IfOk, IfErr, IsErrAnd};
ghost use Rattle.std.specs.List.{IsDistinct};
ghost use Rattle.sat_clauses.specs.Literals.{same_literal};
ghost use Rattle.sat_clauses.specs.ClauseLists.{literal_lists};
ghost use Rattle.sat_clauses.specs.Derivations.{Makes, Follow, Derives, resolution_of, steps_of};
ghost use Rattle.derivation_checker.specs.Faults.{IfFault, StepHasFault, StepsHaveFault, FirstFault};
ghost use Rattle.derivation_checker.specs.declared.fault.StepFault.{StepFault};
ghost use Rattle.derivation_checker.specs.declared.fault.CheckError.TheVariants.{NoMemory as want_of_memory};

use crate::fault::{CheckError, StepFault};
use crate::known::known_clause;
use crate::resolution::resolve;
use sat_clauses::{Clauses, Derivation, Lit, Resolvent, Step};
use std::alloc::Global;

/// Accepts a derivation of the empty clause from the clauses. Each other derivation is refused with its first fault.
pub fn check_derivation(
    alloc: Global,
    clauses: &Clauses,
    derivation: &Derivation,
) -> Result<(), CheckError>
    ensures accepted { OnOk result (Derives clauses.now (steps_of derivation.now)) }
    ensures derives { Derives clauses.now (steps_of derivation.now) → IfErr result (λ e. e ≡ want_of_memory) }
    ensures fault { IfErr result (λ e. IfFault e (FirstFault clauses.now (steps_of derivation.now))) }
    ensures faulty { (first : StepFault) → FirstFault clauses.now (steps_of derivation.now) first → IsErrAnd result (λ e. IfFault e (λ f. f ≡ first)) }
{
    let made = make_clauses(alloc, clauses, derivation.steps.as_slice())?;
    match made.last() {
        None => Err(CheckError::Fault(StepFault::NoSteps)),
        Some(last) if last.is_empty() => Ok(()),
        Some(_) => Err(CheckError::Fault(StepFault::NotEmpty)),
    }
}

/// The clauses that steps make, one each.
fn make_clauses(
    alloc: Global,
    clauses: &Clauses,
    steps: &[Step],
) -> Result<Vec<Vec<Lit>>, CheckError>
    ensures made { IfOk result (λ made. Follow clauses.now (map resolution_of steps.now) (clauses.now ++ literal_lists made.items)) }
    ensures count { IfOk result (λ made. length made.items ≡ length steps.now) }
    ensures fault { IfErr result (λ e. IfFault e (StepsHaveFault clauses.now (map resolution_of steps.now))) }
{
    let mut making = Resolvent::new(alloc);
    let mut made = Vec::new(alloc);
    for step in steps {
        let clause = make_clause(alloc, clauses, made.as_slice(), step, &mut making)?;
        let Ok(()) = made.push(clause) else {
            return Err(CheckError::NoMemory);
        };
    }
    Ok(made)
}

/// The clause that a step makes of the given clauses and those that the steps before it made. It is put together in
/// `making`, whatever that was before.
fn make_clause(
    alloc: Global,
    clauses: &Clauses,
    made: &[Vec<Lit>],
    step: &Step,
    making: &mut Resolvent,
) -> Result<Vec<Lit>, CheckError>
    requires { All (IsDistinct same_literal) (literal_lists made.now) }
    ensures made { IfOk result (λ clause. Makes (clauses.now ++ literal_lists made.now) (resolution_of step.now) clause.items) }
    ensures distinct { IfOk result (λ clause. IsDistinct same_literal clause.items) }
    ensures fault { IfErr result (λ e. IfFault e (StepHasFault (clauses.now ++ literal_lists made.now) (length made.now) (resolution_of step.now))) }
{
    let number = made.len() as u64;
    let Some(start) = known_clause(clauses, made, step.first) else {
        return Err(CheckError::Fault(StepFault::UnknownClause(number, step.first)));
    };
    making.start(start)?;
    for (place, link) in step.chain.iter().enumerate() {
        let Some(other) = known_clause(clauses, made, link.clause) else {
            return Err(CheckError::Fault(StepFault::UnknownClause(number, link.clause)));
        };
        if !resolve(making, link.pivot, other)? {
            return Err(CheckError::Fault(StepFault::NoPivot(number, place as u64)));
        }
    }
    Ok(making.literals(alloc)?)
}
