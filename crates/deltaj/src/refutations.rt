//! What the solver derives passes the checker.
use derivation_checker::check_derivation;
use sat_clauses::{Clauses, Lit};
use sat_solver::{Answer, solve};
use std::alloc::{AllocError, Global};
use std::process::Abort;
use std::test::Fail;

/// The clauses that rows of signed numbers name: -2 is the opposite of variable 2.
fn clauses_of(rt: &impl Abort, alloc: Global, rows: &[&[i64]]) -> Result<Clauses, AllocError> {
    let mut clauses = Clauses::new(alloc);
    for row in rows {
        let mut lits = Vec::new(alloc);
        for number in *row {
            lits.push(Lit {
                var: number.unsigned_abs(),
                positive: *number > 0,
            })?;
        }
        add(rt, &mut clauses, &lits)?;
    }
    Ok(clauses)
}

/// Pushes a clause of valid literals.
fn add(rt: &impl Abort, clauses: &mut Clauses, lits: &[Lit]) -> Result<(), AllocError> {
    assert!(rt;
        lits.iter()
            .all(|lit| lit.var >= 1 && lit.var <= 0x7FFF_FFFF_FFFF_FFFF)
    );
    clauses.push(lits)?;
    Ok(())
}

#[test]
fn derivations_of_the_solver_are_right(rt: HostRuntime) -> Result<(), Fail> {
    let alloc = rt.alloc();
    let rows: [&[&[i64]]; 3] = [
        &[&[1, 2], &[-1], &[-2]],
        &[&[1, 2], &[1, -2], &[-1, 2], &[-1, -2]],
        &[&[1], &[], &[2]],
    ];
    for row in rows {
        let clauses = clauses_of(&rt, alloc, row)?;
        match solve(alloc, &clauses)? {
            Answer::Unsat(derivation) => {
                let checked = check_derivation(alloc, &clauses, &derivation);
                assert!(rt; checked.is_ok());
            }
            Answer::Sat(_) => return Err(Fail::new("an assignment")),
        }
    }
    Ok(())
}
