//! Tables whose classes have fields alone.
ghost use Rattle.std.specs.Prelude.{◌≡◌, ◌+◌, ◌*◌, ◌^◌, ◌<◌, ◌≤◌, length};
ghost use Rattle.ifj_table.specs.Tables.{table_names, table_nodes};

use super::*;
use ifj_table::Table;
use std::alloc::{AllocError as NoMemory, Global};
use std::process::Abort;
use std::test::Fail;

// Adds a class, where there is none of its name. Its superclass is named five bytes behind it.
pub fn add_class(table: &mut Table, class: &str, parent: &str, at: u32) -> Result<(), NoMemory>
    requires room { length (table_names table.old) + 2 < 2 ^ 32 }
    requires small { at < 1000000 }
    ensures few { length (table_names table.new) ≤ length (table_names table.old) + 2 }
    ensures nodes { table_nodes table.new ≡ table_nodes table.old }
{
    if class == "Object" {
        return Ok(());
    }
    match table.class_named(class) {
        Some(_) => Ok(()),
        None => table.add_class(class, parent, at, at + 5),
    }
}

// Adds a field, where the class is there and has none of this name. It is named five bytes behind its type.
pub fn add_field(
    table: &mut Table,
    class: &str,
    kind: &str,
    field: &str,
    at: u32,
) -> Result<(), NoMemory>
    requires room { length (table_names table.old) + 2 < 2 ^ 32 }
    requires small { at < 1000000 }
    ensures few { length (table_names table.new) ≤ length (table_names table.old) + 2 }
    ensures nodes { table_nodes table.new ≡ table_nodes table.old }
{
    if table.class_named(class).is_none() {
        return Ok(());
    }
    match table.own_field(class, field) {
        Some(_) => Ok(()),
        None => table.add_field(class, field, kind, at + 5, at),
    }
}

// Adds classes with their superclasses, the first at 0, the next at 10 and so on.
fn add_classes(table: &mut Table, classes: &[(&str, &str)]) -> Result<(), NoMemory>
    requires short { length classes.now ≤ 10 }
    requires room { length (table_names table.old) + 20 < 2 ^ 32 }
    ensures few { length (table_names table.new) ≤ length (table_names table.old) + 20 }
{
    for (number, (class, parent)) in classes.iter().enumerate() {
        add_class(table, class, parent, number as u32 * 10)?;
    }
    Ok(())
}

// Adds fields, each with its class and its type, from 100 on.
fn add_fields(table: &mut Table, fields: &[(&str, &str, &str)]) -> Result<(), NoMemory>
    requires short { length fields.now ≤ 10 }
    requires room { length (table_names table.old) + 20 < 2 ^ 32 }
{
    for (number, (class, kind, field)) in fields.iter().enumerate() {
        add_field(table, class, kind, field, 100 + number as u32 * 10)?;
    }
    Ok(())
}

// The rule and the place of the instance that an answer names.
pub fn answer(typed: Result<(), TypeError>) -> Result<Option<(u8, u32)>, NoMemory> {
    match typed {
        Ok(()) => Ok(None),
        Err(TypeError::Broken(instance)) => Ok(Some((instance.rule, instance.at))),
        Err(TypeError::NoMemory) => Err(NoMemory),
    }
}

// The rule and the place of the least instance of the table of these classes and fields.
fn broken(
    alloc: Global,
    classes: &[(&str, &str)],
    fields: &[(&str, &str, &str)],
) -> Result<Option<(u8, u32)>, NoMemory>
    requires classes { length classes.now ≤ 10 }
    requires fields { length fields.now ≤ 10 }
{
    let mut table = Table::new(alloc);
    add_classes(&mut table, classes)?;
    add_fields(&mut table, fields)?;
    answer(type_table(alloc, &table))
}

type Row = (
    &'static [(&'static str, &'static str)],
    &'static [(&'static str, &'static str, &'static str)],
    Option<(u8, u32)>,
);

// Each table breaks this rule at this place, or none.
fn each_breaks(rt: &impl Abort, alloc: Global, rows: &[Row]) -> Result<(), NoMemory> {
    for (classes, fields, want) in rows {
        assert!(rt; classes.len() <= 10);
        assert!(rt; fields.len() <= 10);
        let found = broken(alloc, classes, fields)?;
        assert!(rt; found == *want, "{classes:?} {fields:?}");
    }
    Ok(())
}

#[test]
fn declarations_are_judged(rt: HostRuntime) -> Result<(), Fail> {
    let rows: [Row; 6] = [
        (&[], &[], None),
        (
            &[("A", "Object"), ("B", "A")],
            &[("A", "B", "b"), ("B", "Object", "o")],
            None,
        ),
        // an unknown superclass, an unknown type, a hidden field
        (&[("A", "Lost")], &[], Some((9, 5))),
        (&[("A", "Object")], &[("A", "Lost", "f")], Some((11, 100))),
        (
            &[("A", "Object"), ("B", "A"), ("C", "B")],
            &[("A", "A", "f"), ("B", "B", "g"), ("C", "C", "f")],
            Some((12, 125)),
        ),
        (
            &[("A", "Object"), ("B", "A")],
            &[("A", "A", "f"), ("B", "A", "f"), ("B", "Lost", "g")],
            Some((11, 120)),
        ),
    ];
    each_breaks(&rt, rt.alloc(), &rows)?;
    Ok(())
}

#[test]
fn circles_are_found(rt: HostRuntime) -> Result<(), Fail> {
    let rows: [Row; 5] = [
        (&[("A", "A")], &[], Some((10, 5))),
        (&[("Z", "Y"), ("Y", "Z")], &[], Some((10, 5))),
        // a class below a circle
        (&[("C", "Z"), ("Z", "Y"), ("Y", "Z")], &[], Some((10, 5))),
        (&[("A", "A")], &[("A", "Lost", "f")], Some((10, 5))),
        (
            &[("A", "B"), ("B", "A")],
            &[("A", "A", "f"), ("B", "B", "f")],
            Some((10, 5)),
        ),
    ];
    each_breaks(&rt, rt.alloc(), &rows)?;
    Ok(())
}

#[test]
fn the_least_declaration_is_named(rt: HostRuntime) -> Result<(), Fail> {
    let rows: [Row; 3] = [
        // the least place of a rule, wherever its class stands among the others
        (&[("B", "Lost"), ("A", "Lost")], &[], Some((9, 5))),
        (
            &[("A", "Object"), ("B", "Object")],
            &[("B", "Lost", "f"), ("A", "Lost", "f")],
            Some((11, 100)),
        ),
        // the lesser rule
        (&[("A", "A"), ("B", "Lost")], &[], Some((9, 15))),
    ];
    each_breaks(&rt, rt.alloc(), &rows)?;
    Ok(())
}
