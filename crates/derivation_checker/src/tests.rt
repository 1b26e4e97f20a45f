use crate::{CheckError, StepFault, check_derivation};
use sat_clauses::{Clauses, Derivation, Link, Lit, Step};
use std::alloc::{AllocError, Global};
use std::process::Abort;
use std::test::Fail;

/// The literal that a signed number names: -2 is the opposite of variable 2.
fn literal(number: i64) -> Lit {
    Lit {
        var: number.unsigned_abs(),
        positive: number > 0,
    }
}

/// Pushes a clause of valid literals.
fn add(rt: &impl Abort, clauses: &mut Clauses, lits: &[Lit]) -> Result<(), AllocError> {
    assert!(rt;
        lits.iter()
            .all(|lit| lit.var >= 1 && lit.var <= 0x7FFF_FFFF_FFFF_FFFF)
    );
    clauses.push(lits)?;
    Ok(())
}

/// The clauses that rows of signed numbers name.
fn clauses_of(rt: &impl Abort, alloc: Global, rows: &[&[i64]]) -> Result<Clauses, AllocError> {
    let mut clauses = Clauses::new(alloc);
    for row in rows {
        let mut lits = Vec::new(alloc);
        for number in *row {
            lits.push(literal(*number))?;
        }
        add(rt, &mut clauses, &lits)?;
    }
    Ok(clauses)
}

/// A step from its first number and its links, each a pivot and a number.
fn step_of(alloc: Global, first: u64, links: &[(i64, u64)]) -> Result<Step, AllocError> {
    let mut chain = Vec::new(alloc);
    for (pivot, clause) in links {
        chain.push(Link {
            pivot: literal(*pivot),
            clause: *clause,
        })?;
    }
    Ok(Step { first, chain })
}

/// The fault of a derivation, if it has one.
fn fault_of(
    alloc: Global,
    clauses: &Clauses,
    steps: &[(u64, &[(i64, u64)])],
) -> Result<Option<StepFault>, CheckError> {
    let mut derivation = Derivation {
        steps: Vec::new(alloc),
    };
    for (first, links) in steps {
        let step = step_of(alloc, *first, *links)?;
        let Ok(()) = derivation.steps.push(step) else {
            return Err(CheckError::NoMemory);
        };
    }
    match check_derivation(alloc, clauses, &derivation) {
        Ok(()) => Ok(None),
        Err(CheckError::Fault(fault)) => Ok(Some(fault)),
        Err(CheckError::NoMemory) => Err(CheckError::NoMemory),
    }
}

#[test]
fn derivations_are_accepted_or_have_a_first_fault(rt: HostRuntime) -> Result<(), Fail> {
    let alloc = rt.alloc();
    let rows: [&[i64]; 15] = [
        &[1],
        &[2],
        &[-3],
        &[-4, 1],
        &[-4, 3],
        &[4, -1, -3],
        &[-4],
        &[5, -1],
        &[-5, 1],
        &[-6, 5],
        &[-6, -1],
        &[-7, 1],
        &[-7, 6],
        &[7, -1, -6],
        &[7],
    ];
    let clauses = clauses_of(&rt, alloc, &rows)?;
    let cases: [(&[(u64, &[(i64, u64)])], Option<StepFault>); 12] = [
        (&[], Some(StepFault::NoSteps)),
        (&[(14, &[(7, 12), (6, 10), (-1, 0)])], None),
        (&[(14, &[(7, 12), (6, 10)])], Some(StepFault::NotEmpty)),
        (&[(14, &[(6, 10)])], Some(StepFault::NoPivot(0, 0))),
        (&[(15, &[])], Some(StepFault::UnknownClause(0, 15))),
        (&[(14, &[(7, 12), (6, 10)]), (15, &[(-1, 0)])], None),
        (
            &[(14, &[]), (16, &[])],
            Some(StepFault::UnknownClause(1, 16)),
        ),
        (&[(14, &[(7, 15)])], Some(StepFault::UnknownClause(0, 15))),
        (&[(14, &[(-7, 12)])], Some(StepFault::NoPivot(0, 0))),
        (&[(14, &[(7, 14)])], Some(StepFault::NoPivot(0, 0))),
        (
            &[(14, &[(7, 12), (3, 99)])],
            Some(StepFault::UnknownClause(0, 99)),
        ),
        (
            &[(14, &[]), (14, &[(7, 12), (7, 12)])],
            Some(StepFault::NoPivot(1, 1)),
        ),
    ];
    for (steps, fault) in cases {
        assert_eq!(rt; fault_of(alloc, &clauses, steps)?, fault);
    }
    Ok(())
}

#[test]
fn clauses_are_sets(rt: HostRuntime) -> Result<(), Fail> {
    let alloc = rt.alloc();
    let pair = clauses_of(&rt, alloc, &[&[1], &[-1]])?;
    assert_eq!(rt; fault_of(alloc, &pair, &[(0, &[(1, 1)])])?, None);
    let repeated = clauses_of(&rt, alloc, &[&[1, 1], &[-1, -1]])?;
    assert_eq!(rt; fault_of(alloc, &repeated, &[(0, &[(1, 1)])])?, None);
    let tautology = clauses_of(&rt, alloc, &[&[1, -1], &[1], &[-1]])?;
    assert_eq!(rt;
        fault_of(alloc, &tautology, &[(0, &[(1, 2), (-1, 1)])])?,
        None
    );
    Ok(())
}

/// A literal of a variable from 1 on.
fn variable(var: u64) -> Lit {
    Lit {
        var,
        positive: true,
    }
}

/// A clause of many literals, of which each is refuted by two clauses: a step for each of them, and a last one that
/// takes them out from the front.
#[test]
fn long_questions_are_checked(rt: HostRuntime) -> Result<(), Fail> {
    let alloc = rt.alloc();
    let count = 100_000u64;
    let last = variable(count + 1);
    let mut question = Vec::new(alloc);
    for var in 1..=count {
        question.push(variable(var))?;
    }
    let mut clauses = Clauses::new(alloc);
    add(&rt, &mut clauses, &question)?;
    let mut steps = Vec::new(alloc);
    let mut chain = Vec::new(alloc);
    for var in 1..=count {
        let pivot = variable(var);
        add(&rt, &mut clauses, &[pivot.opposite(), last])?;
        add(&rt, &mut clauses, &[last.opposite(), pivot.opposite()])?;
        let mut links = Vec::new(alloc);
        links.push(Link {
            pivot: last,
            clause: 2 * var,
        })?;
        steps.push(Step {
            first: 2 * var - 1,
            chain: links,
        })?;
        chain.push(Link {
            pivot,
            clause: 2 * count + var,
        })?;
    }
    steps.push(Step { first: 0, chain })?;
    check_derivation(alloc, &clauses, &Derivation { steps })?;
    Ok(())
}
