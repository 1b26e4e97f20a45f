//! Laws of tables, orders, rules and sources.
ghost use Rattle.dj_calculus_laws.specs.TableLaws.{EmptyIsTable, ProductIsTable, ProductHasDistinct, ProductBeginsPlainly, ProductHasNoDollar, ProductIsFlattenable, JavaIsTable, JavaHasDistinct, FlatIsTable, FlatHasDistinct};
ghost use Rattle.dj_calculus_laws.specs.FlatLaws.{FlatIsWellTyped, FlatAgain};
ghost use Rattle.dj_calculus_laws.specs.OrderLaws.{OrdersAgree, OneOrderMakes, TableAfterMakes, TableAfterNext, StaysUndefined};
ghost use Rattle.dj_calculus_laws.specs.RuleLaws.{OperationRules, TableRulesRange, NodeRules, UndefinedExactlyIf};
ghost use Rattle.dj_calculus_laws.specs.SameTableLaws.{SameText, TypedTogether, TablesTogether, DistinctTogether, SameHeadings};
ghost use Rattle.dj_calculus_laws.specs.OnceLaws.{ClassesOnce, AddedMembersOnce, StepsTouchDifferent};

/// The empty table is a class table, as `IsTable` says; so are the product of an accepted source whose bodies are expressions, the table
/// of a Java file without a fault, and the flat table of a class table.
pub fn tables_are_tables()
    ensures empty { EmptyIsTable }
    ensures product { ProductIsTable }
    ensures java { JavaIsTable }
    ensures flat { FlatIsTable }
{}

/// Products of accepted sources and tables of Java files without a fault have no parameter twice, nor have flat tables of tables that
/// have none.
pub fn distinct_parameters()
    ensures product { ProductHasDistinct }
    ensures java { JavaHasDistinct }
    ensures flat { FlatHasDistinct }
{}

/// In a product of an accepted source the oldest body of each method says no `original`. Where tokens spell the source, no name has
/// `$`, and the flat table is defined.
pub fn flattenable_products()
    ensures oldest_bodies { ProductBeginsPlainly }
    ensures no_dollar { ProductHasNoDollar }
    ensures flattenable { ProductIsFlattenable }
{}

/// Where the active deltas of each part are disjoint, allowed orders agree, so one of them tells what the parts make.
pub fn disjoint_orders()
    ensures orders_agree { OrdersAgree }
    ensures one_order_makes { OneOrderMakes }
    ensures table_after { TableAfterMakes }
{}

/// After one part more stands what its active deltas make of the table before it. What is undefined stays so.
pub fn parts_in_order()
    ensures next { TableAfterNext }
    ensures undefined { StaysUndefined }
{}

/// Operations break rules 2 to 8, tables 9 to 23, and nodes 14 to 23 but 21.
pub fn ranges_of_rules()
    ensures operations { OperationRules }
    ensures tables { TableRulesRange }
    ensures nodes { NodeRules }
{}

/// An operation of an accepted source is undefined exactly where it breaks a rule.
pub fn undefined_exactly_if()
    ensures { UndefinedExactlyIf }
{}

/// In an accepted source the operations of a delta are on different classes, an added class has each member once, and the steps of a
/// change touch different pieces.
pub fn different_steps()
    ensures classes { ClassesOnce }
    ensures members { AddedMembersOnce }
    ensures steps { StepsTouchDifferent }
{}

/// Tables that are the same but for places have the same canonical text, and are well typed, are class tables, and have no parameter
/// twice together: no place matters for any of it.
pub fn places_never_matter()
    ensures text { SameText }
    ensures typing { TypedTogether }
    ensures tables { TablesTogether }
    ensures parameters { DistinctTogether }
    ensures signatures { SameHeadings }
{}

/// The flat table of a well typed table is well typed, where it is defined. A table that is flat is its own flat table.
pub fn flat_tables()
    ensures well_typed { FlatIsWellTyped }
    ensures again { FlatAgain }
{}
