//! Gates, clause by clause, and formulas from lists of gates.

ghost use Rattle.std.specs.Prelude.{◌≡◌, ◌<◌, ◌≤◌, true, length, IfOk, IfSome};
ghost use Rattle.std.specs.Option.{ForSome};
ghost use Rattle.dj_formula.specs.Gates.{IsBelow};
ghost use Rattle.dj_formula.specs.Value.{tree_of, HasFeaturesBelow};

use crate::Gates;
use arena_walk::{Arena, NodeId, Shape};
use dj_formula::Gate::{And, Constant, Feature, Implies, Not, Or, Same};
use dj_formula::{Formula, Gate};
use sat_clauses::{Clauses, Lit};
use std::alloc::{AllocError as NoMemory, Global};
use std::process::Abort;
use std::test::Fail;

// What the tests give a number.
#[derive(Clone, Copy, Debug, PartialEq, Eq, Hash)]
enum Key {
    Plain(u32),
    Node(u32, u32),
}

// How a gate is written.
#[derive(Clone, Copy, Debug, PartialEq, Eq)]
enum Kind {
    All,
    Any,
    Equal,
}

// The literal that a signed number names: -2 is the opposite of variable 2.
fn literal(number: i64) -> Lit {
    Lit {
        var: number.unsigned_abs(),
        positive: number > 0,
    }
}

fn literals(alloc: Global, numbers: &[i64]) -> Result<Vec<Lit>, NoMemory> {
    numbers.iter().map(|number| literal(*number)).collect(alloc)
}

// Whether these are the clauses.
fn has_clauses(alloc: Global, clauses: &Clauses, wanted: &[&[i64]]) -> Result<bool, NoMemory> {
    if clauses.count() != wanted.len() as u64 {
        return Ok(false);
    }
    for (place, lits) in wanted.iter().enumerate() {
        let lits = literals(alloc, *lits)?;
        if clauses.clause(place as u64) != lits.as_slice() {
            return Ok(false);
        }
    }
    Ok(true)
}

// Whether an assignment holds the clauses.
fn holds(clauses: &Clauses, values: &[bool]) -> bool {
    for place in 0..clauses.count() {
        let clause = clauses.clause(place);
        let held = clause.iter().any(|lit| is_true(values, *lit));
        if !held {
            return false;
        }
    }
    true
}

fn is_true(values: &[bool], lit: Lit) -> bool {
    match lit.var.checked_sub(1) {
        Some(place) if place < values.len() as u64 => values[place as usize] == lit.positive,
        _ => !lit.positive,
    }
}

// Keys with the numbers 1 to 4, and no clauses.
fn four_keys(rt: &impl Abort, alloc: Global) -> Result<Gates<Key>, NoMemory>
    ensures { IfOk result (λ gates. 4 ≤ length gates.keys) }
{
    let mut gates = Gates::new(alloc);
    gates.number(Key::Plain(0))?;
    gates.number(Key::Plain(1))?;
    gates.number(Key::Plain(2))?;
    let last = gates.number(Key::Plain(3))?;
    assert!(rt; last.var == 4);
    Ok(gates)
}

// Writes a gate over literals of the four keys.
fn put(
    rt: &impl Abort,
    gates: &mut Gates<Key>,
    kind: Kind,
    key: Key,
    parts: &[Lit],
) -> Result<Lit, NoMemory>
    requires { 4 ≤ length gates.old.keys }
    ensures { 4 ≤ length gates.new.keys }
{
    assert!(rt; parts.iter().all(|lit| lit.var >= 1 && lit.var <= 4));
    match kind {
        Kind::All => gates.and(key, parts),
        Kind::Any => gates.or(key, parts),
        Kind::Equal => {
            assert!(rt; parts.len() == 2);
            gates.equal(key, parts[0], parts[1])
        }
    }
}

// A key, a gate, its parts, the literal that comes of it, and the clauses.
type Row = (Key, Kind, &'static [i64], i64, &'static [&'static [i64]]);

#[test]
fn gates_write_their_clauses(rt: HostRuntime) -> Result<(), Fail> {
    let new = Key::Plain(9);
    let rows: [Row; 10] = [
        (
            new,
            Kind::All,
            &[2, -3],
            5,
            &[&[-5, 2], &[-5, -3], &[5, -2, 3]],
        ),
        (
            new,
            Kind::Any,
            &[2, -3],
            5,
            &[&[5, -2], &[5, 3], &[-5, 2, -3]],
        ),
        (
            new,
            Kind::Equal,
            &[2, -3],
            5,
            &[&[-5, -2, -3], &[-5, 2, 3], &[5, 2, -3], &[5, -2, 3]],
        ),
        (new, Kind::All, &[], 5, &[&[5]]),
        (new, Kind::Any, &[], 5, &[&[-5]]),
        (
            new,
            Kind::Equal,
            &[2, 2],
            5,
            &[&[-5, -2, 2], &[-5, 2, -2], &[5, 2], &[5, -2]],
        ),
        (
            new,
            Kind::Equal,
            &[2, -2],
            5,
            &[&[-5, -2], &[-5, 2], &[5, 2, -2], &[5, -2, 2]],
        ),
        (new, Kind::All, &[2, 2], 5, &[&[-5, 2], &[-5, 2], &[5, -2]]),
        // A key that has a number keeps it.
        (Key::Plain(3), Kind::All, &[1], 4, &[&[-4, 1], &[4, -1]]),
        // A part may be the key itself.
        (Key::Plain(3), Kind::Any, &[4], 4, &[&[4, -4], &[-4, 4]]),
    ];
    for (key, kind, parts, wanted, clauses) in rows {
        let mut gates = four_keys(&rt, rt.alloc())?;
        let lits = literals(rt.alloc(), parts)?;
        let lit = put(&rt, &mut gates, kind, key, &lits)?;
        assert_eq!(rt; lit, literal(wanted), "{kind:?} of {parts:?}");
        assert_eq!(rt; gates.lit(&key), Some(lit), "{kind:?} of {parts:?}");
        // A second gate of the key isn't written.
        let again = put(&rt, &mut gates, Kind::Any, key, &[])?;
        assert_eq!(rt; again, lit, "{kind:?} of {parts:?}");
        let written = gates.into_clauses();
        assert!(rt;
            has_clauses(rt.alloc(), &written, clauses)?,
            "{kind:?} of {parts:?}"
        );
    }
    Ok(())
}

#[test]
fn gates_have_the_values_of_their_parts(rt: HostRuntime) -> Result<(), Fail> {
    // The value of a gate over variables 1 and not 2, where these have the values of the pairs.
    let pairs = [(false, false), (false, true), (true, false), (true, true)];
    let rows: [(Kind, [bool; 4]); 3] = [
        (Kind::All, [false, false, true, false]),
        (Kind::Any, [true, false, true, true]),
        (Kind::Equal, [false, true, true, false]),
    ];
    for (kind, wanted) in rows {
        let mut gates = four_keys(&rt, rt.alloc())?;
        put(
            &rt,
            &mut gates,
            kind,
            Key::Plain(9),
            &[literal(1), literal(-2)],
        )?;
        let clauses = gates.into_clauses();
        for ((first, second), value) in pairs.iter().zip(wanted) {
            for gate in [false, true] {
                let values = [*first, *second, false, false, gate];
                assert_eq!(rt;
                    holds(&clauses, &values),
                    gate == value,
                    "{kind:?} at {values:?}"
                );
            }
        }
    }
    Ok(())
}

// Whether a gate that is a feature has a number below the count.
fn is_below(gate: &Gate, count: usize) -> bool
    ensures { result ≡ true → IsBelow count gate.now }
{
    match gate {
        Feature(feature) => (*feature as usize) < count,
        _ => true,
    }
}

// The formula of these gates in post-order, or `None` where a gate lacks an operand or a feature is not below the count.
fn formula(alloc: Global, gates: &[Gate], count: usize) -> Result<Option<Formula>, NoMemory>
    requires some { 0 < length gates.now }
    requires few { length gates.now < 4294967295 }
    ensures root { IfOk result (λ made. IfSome made (λ formula. formula.root.0 < length formula.nodes)) }
    ensures known { IfOk result (λ made. IfSome made (λ formula. ForSome (tree_of formula) (HasFeaturesBelow count))) }
{
    let mut nodes = Arena::new(alloc);
    let mut finished = 0;
    let mut root = NodeId(0);
    for gate in gates {
        let arity = gate.arity();
        if finished < arity || !is_below(gate, count) {
            return Ok(None);
        }
        root = nodes.push(*gate)?;
        finished = finished - arity + 1;
    }
    Ok(Some(Formula { nodes, root }))
}

// Writes a formula over three features, where the first of the four keys stands for true. The nodes have keys of the table.
fn put_formula(
    rt: &impl Abort,
    alloc: Global,
    gates: &mut Gates<Key>,
    table: u32,
    nodes: &[Gate],
) -> Result<Option<Lit>, NoMemory>
    requires { 4 ≤ length gates.old.keys }
    ensures { 4 ≤ length gates.new.keys }
{
    assert!(rt; 0 < nodes.len() && nodes.len() < 1_000_000);
    let features = literals(alloc, &[2, 3, 4])?;
    let features = features.as_slice();
    assert!(rt; features.iter().all(|lit| lit.var >= 1 && lit.var <= 4));
    let truth = literal(1);
    assert!(rt; truth.var >= 1);
    assert!(rt; truth.var <= 4);
    let Some(formula) = formula(alloc, nodes, features.len())? else {
        return Ok(None);
    };
    let root = gates.formula(&formula, truth, |number| Key::Node(table, number), features)?;
    Ok(Some(root))
}

// A formula's nodes, the literal that comes of it, and the clauses.
type FormulaRow = (&'static [Gate], i64, &'static [&'static [i64]]);

#[test]
fn formulas_write_the_gates_of_their_nodes(rt: HostRuntime) -> Result<(), Fail> {
    let rows: [FormulaRow; 5] = [
        (&[Constant(true)], 1, &[]),
        (&[Constant(false)], -1, &[]),
        (&[Feature(1)], 3, &[]),
        (&[Feature(1), Not], -3, &[]),
        (
            // !A & B | C -> A <-> B
            &[
                Feature(0),
                Not,
                Feature(1),
                And,
                Feature(2),
                Or,
                Feature(0),
                Implies,
                Feature(1),
                Same,
            ],
            8,
            &[
                &[-5, -2],
                &[-5, 3],
                &[5, 2, -3],
                &[6, -5],
                &[6, -4],
                &[-6, 5, 4],
                &[7, 6],
                &[7, -2],
                &[-7, -6, 2],
                &[-8, -7, 3],
                &[-8, 7, -3],
                &[8, 7, 3],
                &[8, -7, -3],
            ],
        ),
    ];
    for (nodes, wanted, clauses) in rows {
        let mut gates = four_keys(&rt, rt.alloc())?;
        let root = put_formula(&rt, rt.alloc(), &mut gates, 0, nodes)?;
        assert_eq!(rt; root, Some(literal(wanted)), "{nodes:?}");
        // The same formula with the same keys is there already.
        let again = put_formula(&rt, rt.alloc(), &mut gates, 0, nodes)?;
        assert_eq!(rt; again, root, "{nodes:?}");
        assert!(rt; gates.lit(&Key::Node(0, 10)).is_none());
        let written = gates.into_clauses();
        assert!(rt; has_clauses(rt.alloc(), &written, clauses)?, "{nodes:?}");
    }
    Ok(())
}

#[test]
fn two_formulas_have_keys_of_their_own(rt: HostRuntime) -> Result<(), Fail> {
    let mut gates = four_keys(&rt, rt.alloc())?;
    let first = put_formula(
        &rt,
        rt.alloc(),
        &mut gates,
        0,
        &[Feature(0), Feature(1), Or],
    )?;
    let second = put_formula(
        &rt,
        rt.alloc(),
        &mut gates,
        1,
        &[Feature(2), Feature(1), And],
    )?;
    assert_eq!(rt; first, Some(literal(5)));
    assert_eq!(rt; second, Some(literal(6)));
    let wanted: [&[i64]; 6] = [
        &[5, -2],
        &[5, -3],
        &[-5, 2, 3],
        &[-6, 4],
        &[-6, 3],
        &[6, -4, -3],
    ];
    let clauses = gates.into_clauses();
    assert!(rt; has_clauses(rt.alloc(), &clauses, &wanted)?);
    Ok(())
}

#[test]
fn deep_formulas_are_written(rt: HostRuntime) -> Result<(), Fail> {
    let mut nodes = vec![in rt.alloc(); Not; 200_001]?;
    assert_eq!(rt; nodes.len(), 200_001);
    nodes[0] = Feature(0);
    let mut gates = four_keys(&rt, rt.alloc())?;
    let root = put_formula(&rt, rt.alloc(), &mut gates, 0, &nodes)?;
    assert_eq!(rt; root, Some(literal(2)));
    assert_eq!(rt; gates.into_clauses().count(), 0);
    Ok(())
}

#[test]
fn many_clauses_are_written(rt: HostRuntime) -> Result<(), Fail> {
    let mut gates = four_keys(&rt, rt.alloc())?;
    for number in 0..12_500 {
        let parts = [literal(1), literal(-2)];
        put(&rt, &mut gates, Kind::Equal, Key::Node(0, number), &parts)?;
    }
    assert_eq!(rt; gates.into_clauses().count(), 50_000);
    Ok(())
}
