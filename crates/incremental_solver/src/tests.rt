use crate::{AnswerWith, Solver};
use sat_clauses::{Assignment, Clauses, Lit};
use sat_solver::{Answer, solve};
use std::alloc::{AllocError, Global};
use std::process::Abort;
use std::test::Fail;

/// The literals that signed numbers name: -2 is the opposite of variable 2.
fn literals(alloc: Global, numbers: &[i64]) -> Result<Vec<Lit>, AllocError> {
    let mut lits = Vec::new(alloc);
    for number in numbers {
        lits.push(Lit {
            var: number.unsigned_abs(),
            positive: *number > 0,
        })?;
    }
    Ok(lits)
}

/// Adds a clause of valid literals.
fn add(rt: &impl Abort, solver: &mut Solver, lits: &[Lit]) -> Result<u64, AllocError> {
    assert!(rt;
        lits.iter()
            .all(|lit| lit.var >= 1 && lit.var <= 0x7FFF_FFFF_FFFF_FFFF)
    );
    solver.add_clause(lits)
}

/// The values under valid assumptions, or `None` where there are none.
fn ask(
    rt: &impl Abort,
    solver: &mut Solver,
    assumptions: &[Lit],
) -> Result<Option<Vec<bool>>, AllocError> {
    assert!(rt;
        assumptions
            .iter()
            .all(|lit| lit.var >= 1 && lit.var <= 0x7FFF_FFFF_FFFF_FFFF)
    );
    match solver.solve_with(assumptions)? {
        AnswerWith::Sat(Assignment { values }) => Ok(Some(values)),
        AnswerWith::Unsat => Ok(None),
    }
}

/// Adds rows of signed numbers.
fn add_rows(
    rt: &impl Abort,
    alloc: Global,
    solver: &mut Solver,
    rows: &[&[i64]],
) -> Result<(), AllocError> {
    for row in rows {
        let lits = literals(alloc, row)?;
        add(rt, solver, &lits)?;
    }
    Ok(())
}

/// The value of a variable that a solver finds under assumptions, or `None` where it refutes them.
fn value_under(
    rt: &impl Abort,
    alloc: Global,
    solver: &mut Solver,
    assumptions: &[i64],
    at: usize,
) -> Result<Option<bool>, AllocError> {
    let lits = literals(alloc, assumptions)?;
    let found = ask(rt, solver, &lits)?;
    match found {
        Some(values) => Ok(values.get(at).copied()),
        None => Ok(None),
    }
}

/// Asks questions of one solver, one after the other, and compares what it finds.
fn ask_all(rt: &impl Abort, alloc: Global) -> Result<(), AllocError> {
    let mut solver = Solver::new(alloc)?;
    let cases: [(&[&[i64]], &[i64], usize, Option<bool>); 13] = [
        (&[&[1, 2, 1]], &[-1], 1, Some(true)),
        (&[], &[-1, -2], 0, None),
        (&[], &[], 1, Some(true)),
        (&[], &[1, -1], 0, None),
        (&[], &[-1, -1], 0, Some(false)),
        (&[], &[9], 8, Some(true)),
        (&[], &[-9, -2], 8, Some(false)),
        (&[], &[-9, -2], 0, Some(true)),
        (&[], &[-2, 7, -1], 0, None),
        (&[&[-1]], &[], 1, Some(true)),
        (&[], &[1], 1, None),
        (&[&[-2]], &[], 0, None),
        (&[], &[9], 0, None),
    ];
    for (rows, assumptions, at, value) in cases {
        add_rows(rt, alloc, &mut solver, rows)?;
        let found = value_under(rt, alloc, &mut solver, assumptions, at)?;
        assert_eq!(rt; found, value);
    }
    Ok(())
}

#[test]
fn assumptions_are_asked_one_after_the_other(rt: HostRuntime) -> Result<(), Fail> {
    ask_all(&rt, rt.alloc())?;
    Ok(())
}

/// Numbers that look random.
#[derive(Drop)]
struct Numbers {
    state: u64,
}

impl Numbers {
    /// A literal of one of 1,000 variables.
    fn literal(&mut self) -> Lit {
        self.state = self
            .state
            .wrapping_mul(6_364_136_223_846_793_005)
            .wrapping_add(1_442_695_040_888_963_407);
        let number = self.state >> 33;
        Lit {
            var: number / 2 % 1_000 + 1,
            positive: number % 2 == 0,
        }
    }

    /// Some literals.
    fn literals(&mut self, alloc: Global, count: usize) -> Result<Vec<Lit>, AllocError> {
        let mut lits = Vec::new(alloc);
        for _ in 0..count {
            lits.push(self.literal())?;
        }
        Ok(lits)
    }
}

/// Puts a clause of valid literals last.
fn push(rt: &impl Abort, clauses: &mut Clauses, lits: &[Lit]) -> Result<(), AllocError> {
    assert!(rt;
        lits.iter()
            .all(|lit| lit.var >= 1 && lit.var <= 0x7FFF_FFFF_FFFF_FFFF)
    );
    clauses.push(lits)?;
    Ok(())
}

/// Whether `solve` finds an assignment that holds rows and makes assumptions true.
fn holds(
    rt: &impl Abort,
    alloc: Global,
    rows: &[Vec<Lit>],
    assumptions: &[Lit],
) -> Result<bool, AllocError> {
    let mut clauses = Clauses::new(alloc);
    for row in rows {
        push(rt, &mut clauses, row)?;
    }
    for lit in assumptions {
        push(rt, &mut clauses, &[*lit])?;
    }
    match solve(alloc, &clauses)? {
        Answer::Sat(_) => Ok(true),
        Answer::Unsat(_) => Ok(false),
    }
}

/// A solver with 2,000 clauses of two or three literals, and these.
fn filled(
    rt: &impl Abort,
    alloc: Global,
    numbers: &mut Numbers,
) -> Result<(Solver, Vec<Vec<Lit>>), AllocError> {
    let mut solver = Solver::new(alloc)?;
    let mut rows = Vec::new(alloc);
    for at in 0..2_000 {
        let row = numbers.literals(alloc, if at % 5 < 2 { 2 } else { 3 })?;
        add(rt, &mut solver, &row)?;
        rows.push(row)?;
    }
    Ok((solver, rows))
}

/// Whether a solver's answers under assumptions and that of `solve` are the same, and whether they are refuted.
fn compared(
    rt: &impl Abort,
    alloc: Global,
    solver: &mut Solver,
    rows: &[Vec<Lit>],
    assumptions: &[Lit],
) -> Result<bool, AllocError> {
    let found = ask(rt, solver, assumptions)?.is_some();
    let expected = holds(rt, alloc, rows, assumptions)?;
    assert_eq!(rt; found, expected);
    Ok(!found)
}

/// How many of 200 questions are refuted.
fn refuted_questions(rt: &impl Abort, alloc: Global) -> Result<u8, AllocError> {
    let mut numbers = Numbers { state: 1 };
    let (mut solver, rows) = filled(rt, alloc, &mut numbers)?;
    let mut refuted = 0u8;
    for call in 0..200 {
        let assumptions = numbers.literals(alloc, call % 25)?;
        if compared(rt, alloc, &mut solver, &rows, &assumptions)? {
            refuted = refuted.saturating_add(1);
        }
    }
    Ok(refuted)
}

#[test]
fn two_hundred_questions_are_answered_as_solve_does(rt: HostRuntime) -> Result<(), Fail> {
    let refuted = refuted_questions(&rt, rt.alloc())?;
    assert!(rt; refuted > 0);
    assert!(rt; refuted < 200);
    Ok(())
}
