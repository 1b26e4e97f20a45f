ghost use Rattle.std.specs.Prelude.{◌≡◌, IfOk};
ghost use Rattle.sat_links.specs.Queues.{IsQueue};
ghost use Rattle.sat_solver.specs.Pairing.{Paired};

use crate::{Answer, Store, Trail, solve};
use sat_clauses::{Assignment, Clauses, Lit};
use sat_links::DecisionQueue;
use std::alloc::{AllocError, Global};
use std::process::Abort;
use std::test::Fail;

/// The literal that a signed number names: -2 is the opposite of variable 2.
fn literal(number: i64) -> Lit {
    Lit {
        var: number.unsigned_abs(),
        positive: number > 0,
    }
}

/// The clauses that rows of signed numbers name.
fn clauses_of(rt: &impl Abort, alloc: Global, rows: &[&[i64]]) -> Result<Clauses, AllocError> {
    let mut clauses = Clauses::new(alloc);
    for row in rows {
        let mut lits = Vec::new(alloc);
        for number in *row {
            lits.push(literal(*number))?;
        }
        add(rt, &mut clauses, &lits)?;
    }
    Ok(clauses)
}

/// Pushes a clause of valid literals.
fn add(rt: &impl Abort, clauses: &mut Clauses, lits: &[Lit]) -> Result<(), AllocError> {
    assert!(rt;
        lits.iter()
            .all(|lit| lit.var >= 1 && lit.var <= 0x7FFF_FFFF_FFFF_FFFF)
    );
    clauses.push(lits)?;
    Ok(())
}

/// The values that `solve` finds, or `None` where it derives the empty clause.
fn values_of(alloc: Global, clauses: &Clauses) -> Result<Option<Vec<bool>>, AllocError> {
    match solve(alloc, clauses)? {
        Answer::Sat(Assignment { values }) => Ok(Some(values)),
        Answer::Unsat(_) => Ok(None),
    }
}

/// The queue 3, 2, 1.
fn queue_of_three(alloc: Global) -> Result<DecisionQueue, AllocError>
    ensures { IfOk result (IsQueue 3) }
{
    let mut queue = DecisionQueue::new(alloc, 3)?;
    queue.move_to_end(2);
    queue.move_to_end(1);
    Ok(queue)
}

#[test]
fn clauses_with_one_assignment_or_none(rt: HostRuntime) -> Result<(), Fail> {
    let alloc = rt.alloc();
    let cases: [(&[&[i64]], Option<&[bool]>); 8] = [
        (&[&[1, 2], &[-1]], Some(&[false, true])),
        (&[&[1, 2], &[-1], &[-2]], None),
        (&[], Some(&[])),
        (&[&[1, 2], &[1, -2], &[-1, 2], &[-1, -2]], None),
        (&[&[1], &[], &[2]], None),
        (&[&[2, 1], &[-2], &[2, 1]], Some(&[true, false])),
        (&[&[1, -1], &[2], &[-2, -1]], Some(&[false, true])),
        (&[&[3], &[-3, 2], &[-2, 1, -3]], Some(&[true, true, true])),
    ];
    for (rows, values) in cases {
        let clauses = clauses_of(&rt, alloc, rows)?;
        let found = values_of(alloc, &clauses)?;
        assert_eq!(rt; found.as_ref().map(|found| found.as_slice()), values);
    }
    Ok(())
}

#[test]
fn four_pigeons_and_a_thousand_implications(rt: HostRuntime) -> Result<(), Fail> {
    let alloc = rt.alloc();
    let rows: [&[i64]; 22] = [
        &[1, 2, 3],
        &[4, 5, 6],
        &[7, 8, 9],
        &[10, 11, 12],
        &[-4, -1],
        &[-7, -1],
        &[-7, -4],
        &[-10, -1],
        &[-10, -4],
        &[-10, -7],
        &[-5, -2],
        &[-8, -2],
        &[-8, -5],
        &[-11, -2],
        &[-11, -5],
        &[-11, -8],
        &[-6, -3],
        &[-9, -3],
        &[-9, -6],
        &[-12, -3],
        &[-12, -6],
        &[-12, -9],
    ];
    let pigeons = clauses_of(&rt, alloc, &rows)?;
    assert_eq!(rt; values_of(alloc, &pigeons)?, None);
    let mut chain = Clauses::new(alloc);
    add(&rt, &mut chain, &[literal(1)])?;
    for var in 1..1_000u64 {
        let next = Lit {
            var: var + 1,
            positive: true,
        };
        let lit = Lit {
            var,
            positive: false,
        };
        add(&rt, &mut chain, &[lit, next])?;
    }
    let values = values_of(alloc, &chain)?.ok_or("the chain holds")?;
    assert_eq!(rt; values.len(), 1_000);
    assert!(rt; values.iter().all(|value| *value));
    add(&rt, &mut chain, &[literal(-1_000)])?;
    assert_eq!(rt; values_of(alloc, &chain)?, None);
    Ok(())
}

/// Propagates where no clause becomes false, and then decides.
fn settle_and_decide(
    rt: &impl Abort,
    trail: &mut Trail,
    store: &mut Store,
    queue: &DecisionQueue,
) -> Option<Lit>
    requires paired { Paired trail.old store.old }
    requires queue { IsQueue trail.old.vars queue.now }
    ensures paired { Paired trail.new store.new }
    ensures vars { trail.new.vars ≡ trail.old.vars }
{
    let conflict = trail.propagate(store);
    assert!(rt; conflict.is_none());
    trail.decide(queue)
}

#[test]
fn a_trail_propagates_decides_and_jumps_back(rt: HostRuntime) -> Result<(), Fail> {
    let alloc = rt.alloc();
    let clauses = clauses_of(&rt, alloc, &[&[1, 2, 3]])?;
    let mut store = Store::new(alloc, &clauses)?;
    let queue = queue_of_three(alloc)?;
    let vars = store.vars();
    assert_eq!(rt; vars, 3);
    let mut trail = Trail::new(alloc, vars)?;
    for expected in [Some(literal(-1)), Some(literal(-2)), None] {
        let decided = settle_and_decide(&rt, &mut trail, &mut store, &queue);
        assert_eq!(rt; decided, expected);
    }
    assert_eq!(rt; trail.level(), 2);
    assert_eq!(rt;
        trail.values(),
        [Some(false), Some(false), Some(true)].as_slice()
    );
    trail.jump_back(0);
    assert_eq!(rt; trail.level(), 0);
    assert_eq!(rt; trail.values(), [None, None, None].as_slice());
    assert_eq!(rt; trail.propagate(&mut store), None);
    Ok(())
}

/// The place of the clause that a propagation finds false, at first or behind a decision.
fn falsified(
    rt: &impl Abort,
    alloc: Global,
    rows: &[&[i64]],
    behind: bool,
) -> Result<Option<u64>, AllocError> {
    let clauses = clauses_of(rt, alloc, rows)?;
    let mut store = Store::new(alloc, &clauses)?;
    let vars = store.vars();
    let mut trail = Trail::new(alloc, vars)?;
    if behind {
        trail.decide(&DecisionQueue::new(alloc, vars)?);
    }
    Ok(trail.propagate(&mut store))
}

#[test]
fn false_and_unit_clauses_are_found_at_first_and_behind_a_decision(
    rt: HostRuntime,
) -> Result<(), Fail> {
    let alloc = rt.alloc();
    let cases: [(&[&[i64]], Option<u64>, Option<u64>); 6] = [
        (&[&[1]], None, Some(0)),
        (&[&[]], Some(0), Some(0)),
        (&[&[1, -1]], None, None),
        (&[&[1, 2], &[1, 2]], None, None),
        (&[&[1], &[-1]], Some(1), Some(0)),
        (&[&[3], &[], &[3]], Some(1), Some(0)),
    ];
    for (rows, first, behind) in cases {
        assert_eq!(rt; falsified(&rt, alloc, rows, false)?, first);
        assert_eq!(rt; falsified(&rt, alloc, rows, true)?, behind);
    }
    Ok(())
}
