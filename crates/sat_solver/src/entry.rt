//! What stands on a trail.
use sat_clauses::Lit;

/// A literal that became true on a level. Its reason is the place of the clause that forced it; a decision has none.
#[derive(Clone, Copy, Debug, PartialEq, Eq)]
pub struct Entry {
    pub lit: Lit,
    pub level: u64,
    pub reason: Option<u64>,
}
