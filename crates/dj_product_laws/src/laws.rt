//! The laws.
ghost use Rattle.dj_product_laws.specs.Laws.{FaultsAreRules, FaultlessIsApplied, SameFaults, SameApply, SameAttempt};
ghost use Rattle.dj_product_laws.specs.Laws.{MetAreBroken, PartMakes, OnePartBreaks, NothingBehind, LeastBrokenCounts, LeastMetCounts};
ghost use Rattle.dj_product_laws.specs.Laws.{LeastConflictCounts, LeastConflictPrevents, DisjointExactlyIf, NoneOfFirstLayer};
ghost use Rattle.dj_product_laws.specs.Laws.{PassedMakes, PassedIsProduct, PassedIsClean, StoppedCounts, ProductOrLeast, NotBoth};
ghost use Rattle.dj_product_laws.specs.OverlapLaws.{ThingsThatConflict, DeltasByThings, LeastByThings, DisjointByThings, ThingByThing, DeltaByDelta, PartByPart};

/// The faults of an operation on a table are the rules from 2 to 8 that it breaks there. An operation of an accepted
/// source without a fault is applied.
pub fn faults_are_rules()
    ensures rules { FaultsAreRules }
    ensures applied { FaultlessIsApplied }
{}

/// An operation has the same faults whatever the order of its members, and where an accepted source has it, makes the
/// same table.
pub fn members_in_any_order()
    ensures faults { SameFaults }
    ensures apply { SameApply }
    ensures attempt { SameAttempt }
{}

/// In a part of an accepted source whose active deltas are disjoint, what is met on the running table, in any order of
/// their operations, are the rules that they break on the table before the part. Where none is met, the running table
/// is at last what the parts up to and with this one make.
pub fn part_in_any_order()
    ensures met { MetAreBroken }
    ensures makes { PartMakes }
{}

/// In an accepted source parts with a broken operation are one part, and no front of the chain beyond it makes a table.
/// Where no overlap stands, the least rule that it breaks, with its least place, is the least instance that counts;
/// and so is the least that is met in a part whose active deltas are disjoint.
pub fn one_broken_part()
    ensures one_part { OnePartBreaks }
    ensures nothing_behind { NothingBehind }
    ensures least { LeastBrokenCounts }
    ensures met { LeastMetCounts }
{}

/// The least conflict of a configuration is the least instance that counts. Without conflicts, and only then, the
/// active deltas of each part are disjoint, and no overlap stands.
pub fn least_conflict()
    ensures counts { LeastConflictCounts }
    ensures prevents { LeastConflictPrevents }
    ensures disjoint { DisjointExactlyIf }
    ensures none_of_first_layer { NoneOfFirstLayer }
{}

/// Without conflicts one pass along the parts of an accepted source gives the product, where no instance of layers 1
/// and 2 counts, or stops at a part at which the least that is met is the least instance that counts.
pub fn one_pass()
    ensures makes { PassedMakes }
    ensures product { PassedIsProduct }
    ensures clean { PassedIsClean }
    ensures stops { StoppedCounts }
{}

/// Which things conflict; and that the conflicts of a configuration are found part by part, in a part delta by delta
/// from the last one to the first, each against the things of all later ones together, and in a delta thing by thing.
pub fn conflicts_by_things()
    ensures things { ThingsThatConflict }
    ensures deltas { DeltasByThings }
    ensures least { LeastByThings }
    ensures disjoint { DisjointByThings }
    ensures thing_by_thing { ThingByThing }
    ensures delta_by_delta { DeltaByDelta }
    ensures part_by_part { PartByPart }
{}

/// A configuration of an accepted source has a product under every allowed order, its active deltas disjoint part by
/// part, or there is a least instance of layers 1 and 2 that counts, and not both.
pub fn product_or_least()
    ensures one { ProductOrLeast }
    ensures not_both { NotBoth }
{}
