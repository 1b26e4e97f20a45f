//! A list of clauses.
ghost use Rattle.std.specs.Prelude.{◌≡◌, ◌++◌, ◌∷◌, [], ◌^◌, ◌<◌, length, slice_get, All, OnOk, OnErr, IfOk};
ghost use Rattle.sat_clauses.specs.Literals.{IsLiteral};
ghost use Rattle.sat_clauses.specs.ClauseLists.{distinct_literals, IsClause};

use crate::literal::Lit;
use indexmap::IndexSet;
use std::alloc::{AllocError as NoMemory, Global};
use std::marker::Model;

/// Clauses by their places, counted from 0. A clause sees the list of their literal lists.
#[derive(Drop)]
pub struct Clauses {
    clauses: Vec<Vec<Lit>>,
}

impl Model for Clauses {
    ghost use Rattle.std.specs.Prelude.{List};
    ghost use Rattle.sat_clauses.specs.declared.literal.Lit.{Lit};

    ghost Value = { List (List Lit) };

    ghost use Rattle.std.specs.Prelude.{All};
    ghost use Rattle.sat_clauses.specs.ClauseLists.{IsClause, literal_lists};

    ghost view = { λ c. literal_lists c.clauses.items };

    ghost invariant = { λ c. All IsClause (literal_lists c.clauses.items) };
}

impl Clauses {
    /// No clauses.
    pub fn new(alloc: Global) -> Clauses
        ensures { result ≡ [] }
    {
        Clauses {
            clauses: Vec::new(alloc),
        }
    }

    /// Puts a clause last and gives its place. It has each of the literals once, in the order in which they stand first.
    /// Without memory the clauses stay as they are.
    pub fn push(&mut self, lits: &[Lit]) -> Result<u64, NoMemory>
        requires { All IsLiteral lits.now }
        ensures ok { OnOk result (self.new ≡ self.old ++ distinct_literals lits.now ∷ []) }
        ensures place { IfOk result (λ place. place ≡ length self.old) }
        ensures err { OnErr result (self.new ≡ self.old) }
    {
        let place = self.count();
        let clause = distinct(*self.clauses.allocator(), lits)?;
        self.clauses.push(clause)?;
        Ok(place)
    }

    /// How many clauses there are.
    pub fn count(&self) -> u64
        ensures count { result ≡ length self.now }
        ensures small { result < 2 ^ 63 }
    {
        self.clauses.len() as u64
    }

    /// The literals of the clause at a place, of which no two are the same.
    pub fn clause(&self, place: u64) -> &[Lit]
        requires { place < length self.now }
        ensures found { slice_get self.now place ≡ Some result.now }
        ensures clause { IsClause result.now }
    {
        self.clauses[place as usize].as_slice()
    }
}

/// Each of the literals once, in the order in which they stand first.
fn distinct(alloc: Global, lits: &[Lit]) -> Result<Vec<Lit>, NoMemory>
    requires { All IsLiteral lits.now }
    ensures kept { IfOk result (λ kept. kept.items ≡ distinct_literals lits.now) }
    ensures clause { IfOk result (λ kept. IsClause kept.items) }
{
    let mut kept = IndexSet::new(alloc);
    for lit in lits {
        kept.insert(*lit)?;
    }
    Vec::from_slice(alloc, kept.as_slice())
}
