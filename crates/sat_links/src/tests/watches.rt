ghost use Rattle.std.specs.Prelude.{◌≡◌, length, slice_get, IfOk};
ghost use Rattle.sat_links.specs.Watches.{IsListed, watches_of};

use crate::{Watch, WatchLists};
use sat_clauses::Lit;
use std::alloc::{AllocError, Global};
use std::process::Abort;
use std::test::Fail;

const ONE: Lit = Lit {
    var: 1,
    positive: true,
};

const NOT_ONE: Lit = Lit {
    var: 1,
    positive: false,
};

const TWO: Lit = Lit {
    var: 2,
    positive: true,
};

const NOT_TWO: Lit = Lit {
    var: 2,
    positive: false,
};

/// Looks that lists of two variables have the literal.
fn expect_listed(rt: &impl Abort, lists: &WatchLists, lit: Lit)
    requires { length lists.now ≡ 4 }
    ensures { IsListed lists.now lit }
{
    assert!(rt; 1 <= lit.var);
    assert!(rt; lit.var <= 2);
}

/// Adds a clause to lists of two variables.
fn add(rt: &impl Abort, lists: &mut WatchLists, first: Lit, second: Lit) -> Result<u64, AllocError>
    requires { length lists.old ≡ 4 }
    ensures { length lists.new ≡ 4 }
{
    expect_listed(rt, lists, first);
    expect_listed(rt, lists, second);
    assert!(rt; first != second);
    lists.add_clause(first, second)
}

/// The watch at a place of a literal's list, from 0, which is found by a walk.
fn watch_at(lists: &WatchLists, lit: Lit, place: usize) -> Option<Watch>
    requires { IsListed lists.now lit }
    ensures { result ≡ slice_get (watches_of lists.now lit) place }
{
    let mut watch = lists.first(lit);
    for _ in 0..place {
        let Some(before) = watch else {
            break;
        };
        watch = lists.next(before);
    }
    watch
}

/// Moves the watch at a place of the list of one literal to the list of another, in lists of two variables.
fn move_watch(rt: &impl Abort, lists: &mut WatchLists, lit: Lit, place: usize, to: Lit)
    requires { length lists.old ≡ 4 }
    ensures { length lists.new ≡ 4 }
{
    expect_listed(rt, lists, lit);
    expect_listed(rt, lists, to);
    assert!(rt; lit != to);
    let watch = watch_at(lists, lit, place).expect(rt, "a watch at the place");
    if place == 0 {
        lists.rewatch(lit, None, watch, to);
    } else {
        let before = watch_at(lists, lit, place - 1).expect(rt, "a watch before it");
        lists.rewatch(lit, Some(before), watch, to);
    }
}

/// The clauses and slots of a literal's watches, in order. The list has at most eight.
fn walk(
    rt: &impl Abort,
    alloc: Global,
    lists: &WatchLists,
    lit: Lit,
) -> Result<Vec<(u64, u8)>, AllocError>
    requires { length lists.now ≡ 4 }
{
    expect_listed(rt, lists, lit);
    let mut watches = Vec::new(alloc);
    for place in 0..8 {
        if let Some(watch) = watch_at(lists, lit, place) {
            watches.push((watch.clause, watch.slot))?;
        }
    }
    Ok(watches)
}

/// Lists of two variables after five clauses that watch both.
fn five_clauses(rt: &impl Abort, alloc: Global) -> Result<WatchLists, AllocError>
    ensures { IfOk result (λ lists. length lists ≡ 4) }
{
    let mut lists = WatchLists::new(alloc, 2)?;
    for clause in 0..5 {
        assert_eq!(rt; add(rt, &mut lists, ONE, TWO)?, clause);
    }
    Ok(lists)
}

#[test]
fn watches_stand_at_the_front_of_their_lists(rt: HostRuntime) -> Result<(), Fail> {
    let alloc = rt.alloc();
    let mut lists = WatchLists::new(alloc, 2)?;
    assert_eq!(rt; add(&rt, &mut lists, ONE, NOT_TWO)?, 0);
    assert_eq!(rt;
        walk(&rt, alloc, &lists, ONE)?.as_slice(),
        [(0, 0)].as_slice()
    );
    assert_eq!(rt;
        walk(&rt, alloc, &lists, NOT_TWO)?.as_slice(),
        [(0, 1)].as_slice()
    );
    move_watch(&rt, &mut lists, ONE, 0, TWO);
    assert!(rt; walk(&rt, alloc, &lists, ONE)?.is_empty());
    assert_eq!(rt;
        walk(&rt, alloc, &lists, TWO)?.as_slice(),
        [(0, 0)].as_slice()
    );
    assert_eq!(rt;
        walk(&rt, alloc, &lists, NOT_TWO)?.as_slice(),
        [(0, 1)].as_slice()
    );

    // a clause that watches a literal and its opposite
    assert_eq!(rt; add(&rt, &mut lists, TWO, NOT_TWO)?, 1);
    assert_eq!(rt;
        walk(&rt, alloc, &lists, TWO)?.as_slice(),
        [(1, 0), (0, 0)].as_slice()
    );
    assert_eq!(rt;
        walk(&rt, alloc, &lists, NOT_TWO)?.as_slice(),
        [(1, 1), (0, 1)].as_slice()
    );
    assert!(rt; walk(&rt, alloc, &lists, NOT_ONE)?.is_empty());
    Ok(())
}

#[test]
fn a_watch_leaves_the_others_in_order(rt: HostRuntime) -> Result<(), Fail> {
    let alloc = rt.alloc();
    let cases: [(usize, (u64, u8), &[(u64, u8)]); 3] = [
        (0, (4, 0), &[(3, 0), (2, 0), (1, 0), (0, 0)]),
        (2, (2, 0), &[(4, 0), (3, 0), (1, 0), (0, 0)]),
        (4, (0, 0), &[(4, 0), (3, 0), (2, 0), (1, 0)]),
    ];
    for (place, moved, left) in &cases {
        let mut lists = five_clauses(&rt, alloc)?;
        assert_eq!(rt;
            walk(&rt, alloc, &lists, ONE)?.as_slice(),
            [(4, 0), (3, 0), (2, 0), (1, 0), (0, 0)].as_slice()
        );
        move_watch(&rt, &mut lists, ONE, *place, TWO);
        assert_eq!(rt; walk(&rt, alloc, &lists, ONE)?.as_slice(), *left);
        assert_eq!(rt;
            walk(&rt, alloc, &lists, TWO)?.as_slice(),
            [*moved, (4, 1), (3, 1), (2, 1), (1, 1), (0, 1)].as_slice()
        );
    }
    Ok(())
}
