use crate::{Clauses, Lit, Resolvent};
use std::test::Fail;

const ONE: Lit = Lit {
    var: 1,
    positive: true,
};

const NOT_ONE: Lit = Lit {
    var: 1,
    positive: false,
};

const TWO: Lit = Lit {
    var: 2,
    positive: true,
};

#[test]
fn clauses_keep_each_literal_once(rt: HostRuntime) -> Result<(), Fail> {
    assert_eq!(rt; ONE.opposite(), NOT_ONE);
    assert_eq!(rt; NOT_ONE.opposite(), ONE);
    let mut clauses = Clauses::new(rt.alloc());
    assert_eq!(rt; clauses.count(), 0);
    assert_eq!(rt; clauses.push(&[TWO, ONE, TWO])?, 0);
    assert_eq!(rt; clauses.push(&[ONE, NOT_ONE, ONE])?, 1);
    assert_eq!(rt; clauses.push(&[])?, 2);
    assert_eq!(rt; clauses.count(), 3);
    assert_eq!(rt; clauses.clause(0), [TWO, ONE].as_slice());
    assert_eq!(rt; clauses.clause(1), [ONE, NOT_ONE].as_slice());
    assert!(rt; clauses.clause(2).is_empty());
    Ok(())
}

#[test]
fn resolvents_keep_their_order(rt: HostRuntime) -> Result<(), Fail> {
    let alloc = rt.alloc();
    let cases: [(&[Lit], Lit, &[Lit], &[Lit]); 7] = [
        (&[ONE], ONE, &[NOT_ONE], &[]),
        (&[ONE, TWO], ONE, &[NOT_ONE], &[TWO]),
        (&[TWO, ONE, TWO], ONE, &[NOT_ONE, TWO], &[TWO]),
        (&[ONE, TWO], ONE, &[TWO, NOT_ONE, ONE], &[TWO, ONE]),
        (&[ONE, NOT_ONE], ONE, &[NOT_ONE], &[NOT_ONE]),
        (&[TWO], ONE, &[NOT_ONE, ONE], &[TWO, ONE]),
        (&[], TWO, &[], &[]),
    ];
    let mut clause = Resolvent::new(alloc);
    for (lits, pivot, other, resolved) in &cases {
        clause.start(*lits)?;
        clause.resolve(*pivot, *other)?;
        assert_eq!(rt; clause.literals(alloc)?.as_slice(), *resolved);
        assert_eq!(rt; clause.contains(ONE), resolved.contains(&ONE));
    }
    clause.clear();
    assert!(rt; clause.literals(alloc)?.is_empty());
    Ok(())
}
