//! Laws of faults, operations, products, types and instances.
ghost use Rattle.dj_calculus.specs.Laws.{OneFirstFault, VoidIsGood, ChainIsReached, OneField, OneMethod, OneType, DefaultIsAllowed, OneProduct, LineCountsByLayers, TableCountsByLayers, OneLeast, OneLeastInTable, WellTypedBreaksNothing, GoodBreaksNothing, ProductExactlyIf, WellTypedExactlyIf, LaidHasExpressions, LaidHaveExpressions, GoodExactlyIf, GoodExactlyIfUnbroken};
ghost use Rattle.dj_calculus.specs.OperationLaws.{AddsClass, RemovesClass, ModifiesClass, Extends, ChangesFields, ChangesMethods, ModifiesMethod};

/// A source has at most one first fault, and none where it is accepted.
pub fn one_first_fault()
    ensures { OneFirstFault }
{}

/// A void line is good.
pub fn void_is_good()
    ensures { VoidIsGood }
{}

/// The parts on the chain are those that are reached, where no part is repeated.
pub fn chain_is_reached()
    ensures { ChainIsReached }
{}

/// What each operation does to a table, and where it is undefined.
pub fn operations()
    ensures adds_class { AddsClass }
    ensures removes_class { RemovesClass }
    ensures modifies_class { ModifiesClass }
    ensures extends { Extends }
    ensures changes_fields { ChangesFields }
    ensures changes_methods { ChangesMethods }
    ensures modifies_method { ModifiesMethod }
{}

/// A configuration has at most one product, since there is always an allowed order.
pub fn one_product()
    ensures default_is_allowed { DefaultIsAllowed }
    ensures one_product { OneProduct }
{}

/// A class has at most one field and one method of a name.
pub fn one_member()
    ensures one_field { OneField }
    ensures one_method { OneMethod }
{}

/// An expression has at most one type.
pub fn one_type()
    ensures { OneType }
{}

/// An instance counts exactly if it stands and no instance of a lower layer counts.
pub fn counts_by_layers()
    ensures in_a_line { LineCountsByLayers }
    ensures in_a_table { TableCountsByLayers }
{}

/// At most one instance is the least that counts.
pub fn one_least()
    ensures in_a_line { OneLeast }
    ensures in_a_table { OneLeastInTable }
{}

/// No rule is broken in a well typed table in which `Object` is no class.
pub fn well_typed_breaks_nothing()
    ensures { WellTypedBreaksNothing }
{}

/// No rule is broken in a good configuration of an accepted line.
pub fn good_breaks_nothing()
    ensures { GoodBreaksNothing }
{}

/// In a configuration of an accepted line the active deltas of each part are disjoint and there is a product, the same for every
/// allowed order, exactly if no instance of rules 1 to 8 counts.
pub fn product_exactly_if()
    ensures { ProductExactlyIf }
{}

/// A table is well typed exactly if no instance counts in it.
pub fn well_typed_exactly_if()
    ensures { WellTypedExactlyIf }
{}

/// The bodies of a source that tokens spell are expressions, and so are those of classes that tokens of Java spell.
pub fn laid_has_expressions()
    ensures of_a_source { LaidHasExpressions }
    ensures of_classes { LaidHaveExpressions }
{}

/// A configuration of an accepted line whose bodies are expressions is good exactly if no instance counts in it, that is if it
/// breaks no rule.
pub fn good_exactly_if()
    ensures no_instance { GoodExactlyIf }
    ensures no_rule { GoodExactlyIfUnbroken }
{}
