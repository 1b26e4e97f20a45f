//! The question of a search: its last given clause, from which decisions are taken first.
ghost use Rattle.std.specs.Prelude.{◌≡◌, ◌≤◌, ◌<◌, length, All, IfSome};
ghost use Rattle.sat_solver.specs.Entries.{IsFreeIn};

use crate::store::Store;
use crate::trail::Trail;
use sat_clauses::Lit;

/// The place of a clause, and a place in it up to which its literals are taken to be false. This place saves looks at the
/// whole clause, and nothing rests on it.
#[derive(Clone, Copy, Drop)]
pub(crate) struct Question {
    pub(crate) clause: u64,
    pub(crate) at: usize,
}

impl Question {
    /// A free literal of the clause, where no literal was found true.
    pub(crate) fn open(&mut self, trail: &Trail, store: &Store) -> Option<Lit>
        requires { trail.now.vars ≡ store.now.vars }
        ensures within { IfSome result (λ lit. (1 ≤ lit.var) × (lit.var ≤ trail.now.vars)) }
        ensures free { IfSome result (IsFreeIn trail.now.entries) }
    {
        if self.clause >= store.count() {
            return None;
        }
        let clause = store.clause(self.clause);
        let at = match next_open(trail, clause, self.at) {
            Some(at) => at,
            None => next_open(trail, clause, 0)?,
        };
        self.at = at;
        let lit = clause[at];
        match trail.truth(lit) {
            Some(_) => None,
            None => Some(lit),
        }
    }
}

/// The first place in a clause, from a place on, with a literal that isn't false.
fn next_open(trail: &Trail, clause: &[Lit], from: usize) -> Option<usize>
    requires { All (λ lit. (1 ≤ lit.var) × (lit.var ≤ trail.now.vars)) clause.now }
    ensures { IfSome result (λ at. at < length clause.now) }
{
    'places: for at in from..clause.len() {
        if trail.truth(clause[at]) != Some(false) {
            return Some(at);
        }
    }
    None
}
