//! Lessons: a clause made of a false one by resolution with the reasons of its literals.
ghost use Rattle.std.specs.Prelude.{◌≡◌, ℕ, ◌<◌, IfOk, OnOk, IfSome, IfNone, IsSome};
ghost use Rattle.sat_clauses.specs.ClauseLists.{IsClause, resolvent, without};
ghost use Rattle.sat_solver.specs.Entries.{IsFalseClause, up_to};
ghost use Rattle.sat_solver.specs.Lessons.{IsSecond};
ghost use Rattle.sat_solver.specs.Trails.{IsTrail};

use crate::entry::Entry;
use crate::trail::Trail;
use sat_clauses::{Link, Lit, Resolvent};
use std::alloc::{AllocError as NoMemory, Global};

/// What a conflict teaches: a clause, the links that lead to it from the false one, and the literal that it asserts. A
/// clause that asserts none is empty.
#[derive(Drop)]
pub(crate) struct Lesson {
    pub(crate) clause: Vec<Lit>,
    pub(crate) chain: Vec<Link>,
    pub(crate) asserted: Option<Assertion>,
}

/// A literal of a clause whose others are false up to a level, which is below the literal's, and one of the others that
/// is of that level, if there are others.
#[derive(Clone, Copy)]
pub(crate) struct Assertion {
    pub(crate) lit: Lit,
    pub(crate) level: u64,
    pub(crate) second: Option<Lit>,
}

/// The literals of a clause, and of those other than one the highest level with a literal of it, if there are any.
#[derive(Drop)]
pub(crate) struct Measured {
    pub(crate) clause: Vec<Lit>,
    pub(crate) level: u64,
    pub(crate) second: Option<Lit>,
}

/// A level, and a literal of it, if there is one.
#[derive(Clone, Copy)]
struct Highest {
    level: u64,
    second: Option<Lit>,
}

/// A clause in the making. `latest` is how many of its literals are taken to be of the present level: it saves looks at
/// the whole clause, and nothing rests on it.
#[derive(Drop)]
pub(crate) struct Making {
    pub(crate) clause: Resolvent,
    latest: u64,
}

impl Making {
    ghost use Rattle.sat_solver.specs.Lessons.{Stops};

    /// Without literals.
    pub(crate) fn new(alloc: Global) -> Making {
        Making {
            clause: Resolvent::new(alloc),
            latest: 0,
        }
    }

    /// Begins with a clause.
    pub(crate) fn start(&mut self, trail: &Trail, clause: &[Lit]) -> Result<(), NoMemory>
        requires { IsClause clause.now }
        ensures { OnOk result (self.new.clause ≡ clause.now) }
    {
        self.clause.clear();
        self.latest = self.count_new(trail, clause);
        self.clause.start(clause)
    }

    /// Resolves the clause with another.
    pub(crate) fn resolve(
        &mut self,
        trail: &Trail,
        pivot: Lit,
        other: &[Lit],
    ) -> Result<(), NoMemory>
        ensures { OnOk result (self.new.clause ≡ resolvent pivot self.old.clause other.now) }
    {
        // the pivot is counted, and its opposite is among the new ones
        let both = self.latest.saturating_add(self.count_new(trail, other));
        self.latest = both.saturating_sub(2);
        self.clause.resolve(pivot, other)
    }

    /// About how many literals of the present level are new in another clause.
    fn count_new(&self, trail: &Trail, other: &[Lit]) -> u64 {
        let mut count = 0u64;
        for lit in other {
            if trail.seems_latest(lit.var) && !self.clause.contains(*lit) {
                count = count.saturating_add(1);
            }
        }
        count
    }

    /// The literals of the clause, where those other than the opposite of an entry's are all of lower levels or the
    /// entry is a decision. `None` says to resolve with the entry's reason.
    pub(crate) fn measure(
        &self,
        alloc: Global,
        trail: &Trail,
        entry: Entry,
    ) -> Result<Option<Measured>, NoMemory>
        requires trail { IsTrail trail.now }
        requires falsified { IsFalseClause trail.now.entries self.now.clause }
        ensures stops { IfOk result (λ found. IfSome found (Stops trail.now self.now.clause entry)) }
        ensures resolves { IfOk result (λ found. IfNone found (IsSome entry.reason)) }
    {
        if self.latest > 1 && entry.reason.is_some() {
            return Ok(None);
        }
        let clause = self.clause.literals(alloc)?;
        let highest = highest_other(trail, clause.as_slice(), entry.lit.opposite());
        if highest.level >= entry.level && entry.reason.is_some() {
            return Ok(None);
        }
        Ok(Some(Measured {
            clause,
            level: highest.level,
            second: highest.second,
        }))
    }
}

/// The highest level among the literals of a clause other than one, and a literal of it.
fn highest_other(trail: &Trail, clause: &[Lit], lit: Lit) -> Highest
    requires trail { IsTrail trail.now }
    requires falsified { IsFalseClause trail.now.entries clause.now }
    ensures others { IsFalseClause (up_to result.level trail.now.entries) (without clause.now lit) }
    ensures least { (lower : ℕ) → lower < result.level → ¬ IsFalseClause (up_to lower trail.now.entries) (without clause.now lit) }
    ensures second { IsSecond trail.now.entries (without clause.now lit) result.level result.second }
{
    let mut highest = Highest {
        level: 0,
        second: None,
    };
    for other in clause {
        if *other != lit {
            let level = trail.level_of(other.var);
            if level >= highest.level {
                highest = Highest {
                    level,
                    second: Some(*other),
                };
            }
        }
    }
    highest
}
