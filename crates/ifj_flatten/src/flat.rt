//! Flat tables.
ghost use Rattle.std.specs.Prelude.{◌≡◌, ◌++◌, List, All, map, None, Some, IfOk, OnOk};
ghost use Rattle.std.specs.FinMap as finite;
ghost use Rattle.std.specs.List.{flat_map};
ghost use Rattle.dj_names.specs.Texts.{Text};
ghost use Rattle.dj_tree.specs.WellFormed.{IsExprNode};
ghost use Rattle.dj_calculus.specs.Tables as calculus;
ghost use Rattle.dj_calculus.specs.FlatTables.{versions, flat_class, flat, IsFlattenable};
ghost use Rattle.ifj_table.specs.Sorted.{AreRising, pairs_of};
ghost use Rattle.ifj_table.specs.Entries.{text_at, fields_of, plain_method, plain_class};
ghost use Rattle.ifj_table.specs.Held.{IsFieldEntry, IsMethodEntry, IsClassEntry};
ghost use Rattle.ifj_table.specs.Changes.{changed_at};
ghost use Rattle.ifj_table.specs.Tables.{plain_table};
ghost use Rattle.ifj_flatten.specs.Changes.{with_fields, AreApart, names_of, HasMade, MayFollow};

use crate::growing::FlatTable;
use crate::versions::make_version;
use arena_walk::Arena;
use dj_names::Names;
use dj_tree::ExprNode;
use ifj_table::{ClassEntry, FieldEntry, MethodEntry, Table};
use std::alloc::{AllocError as NoMemory, Global};

// Adds the fields of a class that has none yet.
fn push_fields(
    flat: &mut FlatTable,
    from: &Names,
    class: &str,
    fields: &[FieldEntry],
) -> Result<(), NoMemory>
    requires fields { All (IsFieldEntry from.now) fields.now }
    requires rising { AreRising (map (λ f. text_at from.now f.spot) fields.now) }
    requires there { (entry : calculus.ClassEntry) × (finite.get (plain_table flat.old.table) class.now ≡ Some entry) × (entry.fields ≡ finite.empty) }
    ensures { OnOk result (plain_table flat.new.table ≡ changed_at (plain_table flat.old.table) class.now (with_fields (fields_of from.now fields.now))) }
{
    for field in fields {
        flat.add_field(from, class, *field)?;
    }
    Ok(())
}

// Adds the versions of a method.
fn push_versions(
    alloc: Global,
    flat: &mut FlatTable,
    from: &Names,
    exprs: &Arena<ExprNode>,
    class: &str,
    method: &MethodEntry,
) -> Result<(), NoMemory>
    requires nodes { All (IsExprNode from.now) exprs.now }
    requires method { IsMethodEntry from.now exprs.now method.now }
    requires may { MayFollow (versions class.now (text_at from.now method.now.spot, plain_method from.now exprs.now method.now)) class.now (plain_table flat.old.table) }
    ensures { (before : calculus.Table) (done : List (Text × calculus.MethodEntry)) → HasMade before class.now done (plain_table flat.old.table)
        → OnOk result (HasMade before class.now (done ++ versions class.now (text_at from.now method.now.spot, plain_method from.now exprs.now method.now)) (plain_table flat.new.table)) }
{
    'versions: for number in 0..method.bodies.len() {
        let own = make_version(alloc, from, exprs, class, method, number)?;
        flat.add_method(class, &own)?;
    }
    Ok(())
}

// Adds the versions of methods.
fn push_methods(
    alloc: Global,
    flat: &mut FlatTable,
    from: &Names,
    exprs: &Arena<ExprNode>,
    class: &str,
    methods: &[MethodEntry],
) -> Result<(), NoMemory>
    requires nodes { All (IsExprNode from.now) exprs.now }
    requires methods { All (IsMethodEntry from.now exprs.now) methods.now }
    requires may { MayFollow (flat_map (versions class.now) (pairs_of (λ m. text_at from.now m.spot) (plain_method from.now exprs.now) methods.now)) class.now (plain_table flat.old.table) }
    ensures { (before : calculus.Table) (done : List (Text × calculus.MethodEntry)) → HasMade before class.now done (plain_table flat.old.table)
        → OnOk result (HasMade before class.now (done ++ flat_map (versions class.now) (pairs_of (λ m. text_at from.now m.spot) (plain_method from.now exprs.now) methods.now)) (plain_table flat.new.table)) }
{
    for method in methods {
        push_versions(alloc, flat, from, exprs, class, method)?;
    }
    Ok(())
}

// Adds a class with its fields and the versions of its methods.
fn push_class(
    alloc: Global,
    flat: &mut FlatTable,
    from: &Names,
    exprs: &Arena<ExprNode>,
    class: &ClassEntry,
) -> Result<(), NoMemory>
    requires nodes { All (IsExprNode from.now) exprs.now }
    requires class { IsClassEntry from.now exprs.now class.now }
    requires absent { finite.get (plain_table flat.old.table) (text_at from.now class.now.spot) ≡ None }
    requires apart { AreApart (names_of (flat_map (versions (text_at from.now class.now.spot)) (pairs_of (λ m. text_at from.now m.spot) (plain_method from.now exprs.now) class.now.methods.items))) }
    ensures { OnOk result (plain_table flat.new.table ≡ finite.insert (plain_table flat.old.table) (text_at from.now class.now.spot)
        (flat_class (text_at from.now class.now.spot, plain_class from.now exprs.now class.now)).1) }
{
    let name = from.text(class.spot.name);
    flat.add_class(from, class)?;
    push_fields(flat, from, name, class.fields.as_slice())?;
    push_methods(alloc, flat, from, exprs, name, class.methods.as_slice())
}

/// The flat table of a table: each version of a method is a method of its own. The newest keeps the method's name, and
/// version k of method m of class C is `m$C$k`. In it each `original(..)` is a call of the version before, through
/// `this`. `flat` says it name by name, with the places: a made method has those of the method it comes from, and a made
/// call and its `this` have that of the `original`. The flat table is defined where no name has `$` and no oldest body
/// says `original`, or where each method has one body that doesn't. Where the flat table would have more than
/// 4,294,967,295 names, or 4,294,967,294 nodes, the answer is `NoMemory` too, and each name is counted as often as it is
/// said.
pub fn flatten(alloc: Global, table: &Table) -> Result<Table, NoMemory>
    requires flattenable { IsFlattenable (plain_table table.now) }
    ensures { IfOk result (λ flat_table. plain_table flat_table ≡ flat (plain_table table.now)) }
{
    let from = table.names();
    let exprs = table.exprs();
    let classes = table.classes();
    let mut flat = FlatTable::new(alloc);
    for class in classes {
        push_class(alloc, &mut flat, from, exprs, class)?;
    }
    Ok(flat.into_table())
}
