//! The analysis of a conflict.
ghost use Rattle.std.specs.Prelude.{IfOk};
ghost use Rattle.sat_clauses.specs.ClauseLists.{IsClause};
ghost use Rattle.sat_solver.specs.Entries.{IsConflict, AllReasoned};
ghost use Rattle.sat_solver.specs.Trails.{IsTrail};
ghost use Rattle.sat_solver.specs.Lessons.{Teaches};

use crate::lesson::{Assertion, Lesson, Making};
use crate::store::Store;
use crate::trail::Trail;
use sat_clauses::Link;
use std::alloc::{AllocError as NoMemory, Global};

/// Goes back along the trail from the false clause at a place and resolves with the reasons of the literals that it
/// meets, until all literals but the latest are of lower levels, or none is left. The clause is put together in
/// `making`, whatever that was before.
pub(crate) fn analyze(
    alloc: Global,
    trail: &Trail,
    store: &Store,
    conflict: u64,
    making: &mut Making,
) -> Result<Lesson, NoMemory>
    requires trail { IsTrail trail.now }
    requires reasons { AllReasoned store.now.clauses trail.now.entries }
    requires conflict { IsConflict trail.now.entries store.now.clauses conflict }
    ensures teaches { IfOk result (Teaches store.now.clauses trail.now conflict) }
    ensures clause { IfOk result (λ lesson. IsClause lesson.clause.items) }
{
    making.start(trail, store.clause(conflict))?;
    let mut chain = Vec::new(alloc);
    let entries = trail.entries();
    'back: for place in (0..entries.len()).rev() {
        let entry = entries[place];
        let pivot = entry.lit.opposite();
        if making.clause.contains(pivot) {
            if let Some(measured) = making.measure(alloc, trail, entry)? {
                return Ok(Lesson {
                    clause: measured.clause,
                    chain,
                    asserted: Some(Assertion {
                        lit: pivot,
                        level: measured.level,
                        second: measured.second,
                    }),
                });
            }
            if let Some(reason) = entry.reason {
                making.resolve(trail, pivot, store.clause(reason))?;
                chain.push(Link {
                    pivot,
                    clause: reason,
                })?;
            }
        }
    }
    Ok(Lesson {
        clause: making.clause.literals(alloc)?,
        chain,
        asserted: None,
    })
}
