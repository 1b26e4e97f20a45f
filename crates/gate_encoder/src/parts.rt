//! The clauses of one gate, put behind others.

ghost use Rattle.std.specs.Prelude.{◌≡◌, ◌∷◌, [], ◌++◌, map, All, IfOk, OnOk, OnErr};
ghost use Rattle.sat_clauses.specs.Literals.{IsLiteral, opposite as opposite_of};
ghost use Rattle.gate_encoder.specs.Writing.{equal_clauses};
ghost use Rattle.gate_encoder.specs.Appending.{with_clauses, IsBegun, clauses_of, literals_in};

use sat_clauses::{Clauses, Lit};
use std::alloc::{AllocError as NoMemory, Global};

// What a gate is made of.
#[derive(Clone, Copy)]
pub(crate) enum Parts<'a> {
    All(&'a [Lit]),
    Any(&'a [Lit]),
    Equal(Lit, Lit),
}

// Puts the clauses of a gate with this literal last. Without memory only the first of them.
pub(crate) fn push_gate(
    alloc: Global,
    clauses: &mut Clauses,
    gate: Lit,
    parts: Parts,
) -> Result<(), NoMemory>
    requires gate { IsLiteral gate }
    requires parts { All IsLiteral (literals_in parts) }
    ensures ok { OnOk result (clauses.new ≡ with_clauses clauses.old (clauses_of gate parts.entry)) }
    ensures err { OnErr result (IsBegun clauses.old (clauses_of gate parts.entry) clauses.new) }
{
    match parts {
        Parts::All(parts) => {
            let opposites = opposites(alloc, parts)?;
            push_junction(alloc, clauses, gate, parts, &opposites)
        }
        Parts::Any(parts) => {
            let opposites = opposites(alloc, parts)?;
            push_junction(alloc, clauses, gate.opposite(), &opposites, parts)
        }
        Parts::Equal(left, right) => push_equal(clauses, gate, left, right),
    }
}

// The opposites of literals.
fn opposites(alloc: Global, lits: &[Lit]) -> Result<Vec<Lit>, NoMemory>
    ensures { IfOk result (λ v. v.items ≡ map opposite_of lits.now) }
{
    lits.iter().map(|lit| lit.opposite()).collect(alloc)
}

// Puts a clause for each of some literals, of the first one's opposite and it, and then one of the first and all of others.
fn push_junction(
    alloc: Global,
    clauses: &mut Clauses,
    first: Lit,
    each: &[Lit],
    rest: &[Lit],
) -> Result<(), NoMemory>
    requires first { IsLiteral first }
    requires each { All IsLiteral each.now }
    requires rest { All IsLiteral rest.now }
    ensures ok { OnOk result (clauses.new ≡ with_clauses clauses.old (map (λ l. opposite_of first ∷ l ∷ []) each.now ++ (first ∷ rest.now) ∷ [])) }
    ensures err { OnErr result (IsBegun clauses.old (map (λ l. opposite_of first ∷ l ∷ []) each.now ++ (first ∷ rest.now) ∷ []) clauses.new) }
{
    push_pairs(clauses, first.opposite(), each)?;
    let mut whole = Vec::new(alloc);
    whole.push(first)?;
    whole.extend_from_slice(rest)?;
    clauses.push(&whole)?;
    Ok(())
}

// Puts a clause for each of some literals, of the first and it.
fn push_pairs(clauses: &mut Clauses, first: Lit, each: &[Lit]) -> Result<(), NoMemory>
    requires first { IsLiteral first }
    requires each { All IsLiteral each.now }
    ensures ok { OnOk result (clauses.new ≡ with_clauses clauses.old (map (λ l. first ∷ l ∷ []) each.now)) }
    ensures err { OnErr result (IsBegun clauses.old (map (λ l. first ∷ l ∷ []) each.now) clauses.new) }
{
    for lit in each {
        clauses.push(&[first, *lit])?;
    }
    Ok(())
}

// Puts the four clauses by which a gate has the value of an equality.
fn push_equal(clauses: &mut Clauses, gate: Lit, left: Lit, right: Lit) -> Result<(), NoMemory>
    requires gate { IsLiteral gate }
    requires left { IsLiteral left }
    requires right { IsLiteral right }
    ensures ok { OnOk result (clauses.new ≡ with_clauses clauses.old (equal_clauses gate left right)) }
    ensures err { OnErr result (IsBegun clauses.old (equal_clauses gate left right) clauses.new) }
{
    clauses.push(&[gate.opposite(), left.opposite(), right])?;
    clauses.push(&[gate.opposite(), left, right.opposite()])?;
    clauses.push(&[gate, left, right])?;
    clauses.push(&[gate, left.opposite(), right.opposite()])?;
    Ok(())
}
