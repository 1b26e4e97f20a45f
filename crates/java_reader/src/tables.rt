//! The class table of declared classes.
ghost use Rattle.std.specs.Prelude.{◌≡◌, ℕ, None, All, map, IfOk, OnOk};
ghost use Rattle.std.specs.Option.{IsSomeAnd};
ghost use Rattle.std.specs.FinMap as finite;
ghost use Rattle.dj_tree.specs.Plain.{plain_spot, plain_field, plain_method, plain_class, plain_java};
ghost use Rattle.dj_tree.specs.WellFormed.{IsField, IsMethod, IsExprNode, IsWellFormedJava};
ghost use Rattle.dj_calculus.specs.Entries.{class_entry};
ghost use Rattle.dj_calculus.specs.Expressions.{IsExpression, HaveExpressions};
ghost use Rattle.dj_calculus.specs.JavaFiles.{JavaFaultStands, table_of};
ghost use Rattle.dj_calculus.specs.JavaFiles as java;
ghost use Rattle.dj_calculus.specs.Tables.{empty_table};
ghost use Rattle.ifj_table.specs.Changes.{changed_at};
ghost use Rattle.ifj_table.specs.Tables.{plain_table};
ghost use Rattle.java_reader.specs.Making.{declared, StandOnce, with_fields, with_methods, IsReady};

use crate::growing::GrowingTable;
use crate::named::{Named, by_name};
use dj_names::Names;
use dj_tree::{ClassDecl, FieldDecl, JavaSource, Method};
use ifj_table::Table;
use std::alloc::{AllocError as NoMemory, Global};

// The table of classes that have no fault. Where its names or nodes would outgrow their numbers there is no memory.
pub fn make_table(alloc: Global, source: &JavaSource) -> Result<Table, NoMemory>
    requires formed { IsWellFormedJava source.now }
    requires expressions { HaveExpressions (plain_java source.now) }
    requires sound { (fault : java.JavaFault) (at : ℕ) → ¬ (JavaFaultStands (plain_java source.now) fault at) }
    ensures { IfOk result (λ table. plain_table table ≡ table_of (plain_java source.now)) }
{
    let classes = by_name(alloc, &source.names, source.classes.as_slice())?;
    let mut table = GrowingTable::new(alloc);
    add_classes(alloc, &mut table, source, classes.as_slice())?;
    Ok(table.into_table())
}

// Adds classes to an empty table.
fn add_classes(
    alloc: Global,
    table: &mut GrowingTable,
    source: &JavaSource,
    classes: &[Named<ClassDecl>],
) -> Result<(), NoMemory>
    requires empty { plain_table table.old.table ≡ empty_table }
    requires nodes_known { All (IsExprNode source.now.names) source.now.exprs }
    requires ready { All (IsReady source.now.names source.now.exprs) (declared classes.now) }
    requires once { StandOnce (map (λ c. c.name) (map (plain_class source.now.names source.now.exprs) (declared classes.now))) }
    ensures { OnOk result (plain_table table.new.table ≡ table_of (map (plain_class source.now.names source.now.exprs) (declared classes.now))) }
{
    for class in classes {
        add_class(alloc, table, source, class.declaration)?;
    }
    Ok(())
}

// Adds a class that isn't there, with its members.
fn add_class(
    alloc: Global,
    table: &mut GrowingTable,
    source: &JavaSource,
    class: &ClassDecl,
) -> Result<(), NoMemory>
    requires nodes_known { All (IsExprNode source.now.names) source.now.exprs }
    requires ready { IsReady source.now.names source.now.exprs class.now }
    requires absent { finite.get (plain_table table.old.table) (plain_spot source.now.names class.now.spot).text ≡ None }
    ensures { OnOk result (plain_table table.new.table ≡ finite.insert (plain_table table.old.table) (plain_spot source.now.names class.now.spot).text
        (class_entry (plain_class source.now.names source.now.exprs class.now))) }
{
    let fields = by_name(alloc, &source.names, class.fields.as_slice())?;
    let methods = by_name(alloc, &source.names, class.methods.as_slice())?;
    let name = source.names.text(class.spot.name);
    table.add_class(&source.names, class)?;
    add_fields(table, &source.names, name, fields.as_slice())?;
    add_methods(table, source, name, methods.as_slice())
}

// Adds fields to a class that has none.
fn add_fields(
    table: &mut GrowingTable,
    names: &Names,
    class: &str,
    fields: &[Named<FieldDecl>],
) -> Result<(), NoMemory>
    requires bare { IsSomeAnd (finite.get (plain_table table.old.table) class.now) (λ entry. entry.fields ≡ finite.empty) }
    requires known { All (IsField names.now) (declared fields.now) }
    requires once { StandOnce (map (λ f. f.name) (map (plain_field names.now) (declared fields.now))) }
    ensures { OnOk result (plain_table table.new.table ≡ changed_at (plain_table table.old.table) class.now
        (with_fields (map (plain_field names.now) (declared fields.now)))) }
{
    for field in fields {
        table.add_field(class, names, field.declaration)?;
    }
    Ok(())
}

// Adds methods to a class that has none.
fn add_methods(
    table: &mut GrowingTable,
    source: &JavaSource,
    class: &str,
    methods: &[Named<Method>],
) -> Result<(), NoMemory>
    requires bare { IsSomeAnd (finite.get (plain_table table.old.table) class.now) (λ entry. entry.methods ≡ finite.empty) }
    requires nodes_known { All (IsExprNode source.now.names) source.now.exprs }
    requires known { All (IsMethod source.now.names source.now.exprs) (declared methods.now) }
    requires expressions { All (λ m. IsExpression (plain_method source.now.names source.now.exprs m).body) (declared methods.now) }
    requires once { StandOnce (map (λ m. m.name) (map (plain_method source.now.names source.now.exprs) (declared methods.now))) }
    ensures { OnOk result (plain_table table.new.table ≡ changed_at (plain_table table.old.table) class.now
        (with_methods (map (plain_method source.now.names source.now.exprs) (declared methods.now)))) }
{
    for method in methods {
        table.add_method(class, source, method.declaration)?;
    }
    Ok(())
}
