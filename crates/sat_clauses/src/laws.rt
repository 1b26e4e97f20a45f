//! Laws of resolution.
ghost use Rattle.sat_clauses.specs.Laws.{ResolutionIsSound, ResolventsAreSets, DistinctLiteralsAreSets};

/// Where a derivation derives the empty clause from clauses, no assignment holds the clauses.
pub fn resolution_is_sound()
    ensures { ResolutionIsSound }
{}

/// A resolvent has the literals of its two clauses other than the pivot and its opposite, and no others.
pub fn resolvents_are_sets()
    ensures { ResolventsAreSets }
{}

/// Leaving out the repeated literals of a list leaves the same literals in it.
pub fn distinct_literals_are_sets()
    ensures { DistinctLiteralsAreSets }
{}
