//! Formulas from lists of gates, and their values by both calls.

ghost use Rattle.std.specs.Prelude.{◌≡◌, ◌<◌, Some, true, length, IfOk, IfSome};
ghost use Rattle.std.specs.Option.{ForSome};
ghost use Rattle.dj_formula.specs.Gates.{IsBelow};
ghost use Rattle.dj_formula.specs.Value.{tree_of, HasFeaturesBelow};

use super::*;
use Gate::{And, Constant, Feature, Implies, Not, Or, Same};
use arena_walk::{Arena, NodeId, Shape};
use std::alloc::{AllocError as NoMemory, Global};
use std::test::Fail;

// Whether a gate that is a feature has a number below the count.
fn is_below(gate: &Gate, count: usize) -> bool
    ensures { result ≡ true → IsBelow count gate.now }
{
    match gate {
        Feature(feature) => (*feature as usize) < count,
        _ => true,
    }
}

// The formula of these gates in post-order, or `None` where a gate lacks an operand or a feature is
// not below the count.
fn formula(alloc: Global, gates: &[Gate], count: usize) -> Result<Option<Formula>, NoMemory>
    requires some { 0 < length gates.now }
    requires few { length gates.now < 4294967295 }
    ensures nodes { IfOk result (λ made. IfSome made (λ formula. length formula.nodes ≡ length gates.now)) }
    ensures root { IfOk result (λ made. IfSome made (λ formula. formula.root.0 < length gates.now)) }
    ensures known { IfOk result (λ made. IfSome made (λ formula. ForSome (tree_of formula) (HasFeaturesBelow count))) }
{
    let mut nodes = Arena::new(alloc);
    let mut finished = 0;
    let mut root = NodeId(0);
    for gate in gates {
        let arity = gate.arity();
        if finished < arity || !is_below(gate, count) {
            return Ok(None);
        }
        root = nodes.push(*gate)?;
        finished = finished - arity + 1;
    }
    Ok(Some(Formula { nodes, root }))
}

// The values that both calls give for the formula of these gates.
fn values(alloc: Global, gates: &[Gate], chosen: &[bool]) -> Result<Option<(bool, bool)>, NoMemory>
    requires some { 0 < length gates.now }
    requires few { length gates.now < 4294967295 }
{
    let Some(formula) = formula(alloc, gates, chosen.len())? else {
        return Ok(None);
    };
    let value = eval(alloc, &formula, chosen)?;
    let mut scratch = vec![in alloc; true; gates.len()]?;
    let value_in = eval_in(&formula, chosen, &mut scratch);
    Ok(Some((value, value_in)))
}

#[test]
fn gates_have_values(rt: HostRuntime) -> Result<(), Fail> {
    let pairs: [&[bool]; 4] = [
        &[false, false],
        &[false, true],
        &[true, false],
        &[true, true],
    ];
    // The values at the four pairs.
    let rows: [(&[Gate], [bool; 4]); 7] = [
        (&[Constant(true)], [true, true, true, true]),
        (&[Feature(1)], [false, true, false, true]),
        (&[Feature(0), Not], [true, true, false, false]),
        (&[Feature(0), Feature(1), And], [false, false, false, true]),
        (&[Feature(0), Feature(1), Or], [false, true, true, true]),
        (
            &[Feature(0), Feature(1), Implies],
            [true, true, false, true],
        ),
        (&[Feature(0), Feature(1), Same], [true, false, false, true]),
    ];
    for (gates, wanted) in rows {
        assert!(rt; 0 < gates.len() && gates.len() < 4);
        for (chosen, value) in pairs.iter().zip(wanted) {
            let want = Some((value, value));
            assert_eq!(rt;
                values(rt.alloc(), gates, chosen)?,
                want,
                "{gates:?} in {chosen:?}"
            );
        }
    }
    Ok(())
}

#[test]
fn a_formula_has_a_value(rt: HostRuntime) -> Result<(), Fail> {
    // !A & B | C -> A <-> B
    let gates = [
        Feature(0),
        Not,
        Feature(1),
        And,
        Feature(2),
        Or,
        Feature(0),
        Implies,
        Feature(1),
        Same,
    ];
    let found = values(rt.alloc(), &gates, &[true, true, false])?;
    assert_eq!(rt; found, Some((true, true)));
    Ok(())
}

#[test]
fn deep_formulas_have_values(rt: HostRuntime) -> Result<(), Fail> {
    let mut gates = vec![in rt.alloc(); Not; 200_001]?;
    assert_eq!(rt; gates.len(), 200_001);
    gates[0] = Feature(0);
    let found = values(rt.alloc(), &gates, &[true])?;
    assert_eq!(rt; found, Some((true, true)));
    Ok(())
}
