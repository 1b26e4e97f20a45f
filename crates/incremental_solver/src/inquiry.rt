//! One question: whether an assignment holds the clauses of a search and makes assumptions true.
ghost use Rattle.std.specs.Prelude.{◌≡◌, ◌≢◌, ◌≤◌, ◌<◌, length, slice_get, All, IfOk, IfSome, Some, true};
ghost use Rattle.sat_solver.specs.Entries.{IsConflict, AllSettled, truth_in};
ghost use Rattle.sat_solver.specs.Trails.{IsTrail};
ghost use Rattle.sat_solver.specs.Searches.{IsSearch, weight_of};
ghost use Rattle.incremental_solver.specs.Answers.{IsAnswerWith};
ghost use Rattle.incremental_solver.specs.Inquiries.{AreTrue, AssumesFirst, Grows, TurnIs};

use crate::solver::AnswerWith;
use sat_clauses::Lit;
use sat_solver::{Search, Trail};
use std::alloc::{AllocError as NoMemory, Global};

/// What a turn comes to: it goes on, where the first assumptions, as many as told, are true; all variables have values
/// and no clause is false; or no assignment holds the clauses and makes the assumptions true.
#[derive(Clone, Copy)]
pub(crate) enum Turn {
    GoesOn(usize),
    Holds,
    Refuted,
}

/// Finds an assignment that holds the clauses of a search and makes the assumptions true, or that there is none. The
/// search begins without open levels. Its clauses stay, and those follow from them that it learns.
pub(crate) fn inquire(
    alloc: Global,
    search: &mut Search,
    assumptions: &[Lit],
) -> Result<AnswerWith, NoMemory>
    requires search { IsSearch search.old }
    requires level { search.old.trail.level ≡ 0 }
    requires within { All (λ lit. (1 ≤ lit.var) × (lit.var ≤ search.old.trail.vars)) assumptions.now }
    ensures grows { Grows search.old search.new }
    ensures answer { IfOk result (IsAnswerWith search.old.store.clauses assumptions.now) }
{
    let mut settled = 0;
    'turns: loop {
        match advance(alloc, search, assumptions, settled)? {
            Turn::GoesOn(now) => settled = now,
            Turn::Holds => return Ok(AnswerWith::Sat(search.assignment(alloc)?)),
            Turn::Refuted => return Ok(AnswerWith::Unsat),
        }
    }
}

/// Propagates, and then decides or learns. At each turn that goes on, the list of literal counts per level rises in
/// lexicographic order.
fn advance(
    alloc: Global,
    search: &mut Search,
    assumptions: &[Lit],
    settled: usize,
) -> Result<Turn, NoMemory>
    requires search { IsSearch search.old }
    requires within { All (λ lit. (1 ≤ lit.var) × (lit.var ≤ search.old.trail.vars)) assumptions.now }
    requires assumes { AssumesFirst assumptions.now search.old.trail.entries }
    requires settled { AreTrue settled search.old.trail.entries assumptions.now }
    ensures grows { Grows search.old search.new }
    ensures turn { IfOk result (TurnIs search.old search.new assumptions.now) }
{
    let Some(conflict) = search.propagate() else {
        return Ok(decide(search, assumptions, settled));
    };
    learn(alloc, search, assumptions, conflict)
}

/// Decides an assumption that has no value yet, or any literal once all assumptions are true.
fn decide(search: &mut Search, assumptions: &[Lit], settled: usize) -> Turn
    requires search { IsSearch search.old }
    requires worked { search.old.trail.worked ≡ length search.old.trail.entries }
    requires clauses { AllSettled search.old.trail.entries search.old.store.clauses }
    requires within { All (λ lit. (1 ≤ lit.var) × (lit.var ≤ search.old.trail.vars)) assumptions.now }
    requires assumes { AssumesFirst assumptions.now search.old.trail.entries }
    requires settled { AreTrue settled search.old.trail.entries assumptions.now }
    ensures grows { Grows search.old search.new }
    ensures turn { TurnIs search.old search.new assumptions.now result }
{
    let settled = first_not_true(&search.trail, assumptions, settled);
    if settled == assumptions.len() {
        return if search.decide() {
            Turn::GoesOn(settled)
        } else {
            Turn::Holds
        };
    }
    let lit = assumptions[settled];
    if search.trail.truth(lit).is_some() {
        return Turn::Refuted;
    }
    search.decide_literal(lit);
    Turn::GoesOn(settled)
}

/// The first place from a place on of an assumption that isn't true, or the number of assumptions.
fn first_not_true(trail: &Trail, assumptions: &[Lit], from: usize) -> usize
    requires within { All (λ lit. (1 ≤ lit.var) × (lit.var ≤ trail.now.vars)) assumptions.now }
    requires before { AreTrue from trail.now.entries assumptions.now }
    ensures low { result ≤ length assumptions.now }
    ensures before { AreTrue result trail.now.entries assumptions.now }
    ensures here { IfSome (slice_get assumptions.now result) (λ lit. truth_in trail.now.entries lit ≢ Some true) }
{
    'places: for at in from..assumptions.len() {
        if trail.truth(assumptions[at]) != Some(true) {
            return at;
        }
    }
    assumptions.len()
}

/// Learns from the false clause at a place, and forgets the step by which it was derived.
fn learn(
    alloc: Global,
    search: &mut Search,
    assumptions: &[Lit],
    conflict: u64,
) -> Result<Turn, NoMemory>
    requires search { IsSearch search.old }
    requires conflict { IsConflict search.old.trail.entries search.old.store.clauses conflict }
    requires assumes { AssumesFirst assumptions.now search.old.trail.entries }
    ensures grows { Grows search.old search.new }
    ensures turn { IfOk result (TurnIs search.old search.new assumptions.now) }
{
    let learnt = search.learn(alloc, conflict);
    search.forget_steps();
    match learnt {
        Ok(true) => Ok(Turn::GoesOn(0)),
        Ok(false) => Ok(Turn::Refuted),
        Err(error) => Err(error),
    }
}
