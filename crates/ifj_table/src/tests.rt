//! Classes in the order of their names, members along chains, and which class is below which.
ghost use Rattle.std.specs.Prelude.{◌+◌, ◌*◌, ◌^◌, ◌<◌, ◌≤◌, length};
ghost use Rattle.ifj_table.specs.Tables.{table_names};

use super::*;
use dj_names::Name;
use std::alloc::{AllocError as NoMemory, Global};
use std::test::Fail;

// Adds a class, where there is none of its name.
fn add(table: &mut Table, class: &str, parent: &str, at: u32) -> Result<(), NoMemory>
    requires { length (table_names table.old) + 2 < 2 ^ 32 }
    ensures { length (table_names table.new) ≤ length (table_names table.old) + 2 }
{
    if class == "Object" {
        return Ok(());
    }
    match table.class_named(class) {
        Some(_) => Ok(()),
        None => table.add_class(class, parent, at, at),
    }
}

// The names of the classes, each with its place, in order.
fn listed(alloc: Global, table: &Table) -> Result<String, NoMemory> {
    let mut text = String::new(alloc);
    for class in table.classes() {
        let name = table.names().text(class.spot.name);
        let at = class.spot.at;
        text.push_str(format!(in alloc; "{name} {at};")?.as_str())?;
    }
    Ok(text)
}

// A class as it stands: its place, its superclass with its place, and its fields with theirs.
fn class_text(alloc: Global, table: &Table, class: &str) -> Result<String, NoMemory> {
    let entry = match table.class_named(class) {
        Some(entry) => entry,
        None => return format!(in alloc; "none"),
    };
    let parent = table.names().text(entry.parent.name);
    let mut text = format!(in alloc; "{} {parent} {}:", entry.spot.at, entry.parent.at)?;
    for field in entry.fields.as_slice() {
        let name = table.names().text(field.spot.name);
        let kind = table.names().text(field.kind.name);
        text.push_str(format!(in alloc; " {kind} {name} {}", field.spot.at)?.as_str())?;
    }
    Ok(text)
}

#[test]
fn classes_stand_by_their_names(rt: HostRuntime) -> Result<(), Fail> {
    let orders = [
        ["a", "Z", "Ü"],
        ["a", "Ü", "Z"],
        ["Z", "a", "Ü"],
        ["Z", "Ü", "a"],
        ["Ü", "a", "Z"],
        ["Ü", "Z", "a"],
    ];
    for [first, second, third] in orders {
        let mut table = Table::new(rt.alloc());
        add(&mut table, first, "Object", 1)?;
        add(&mut table, second, "Object", 1)?;
        add(&mut table, third, "Object", 1)?;
        assert_eq!(rt; listed(rt.alloc(), &table)?.as_str(), "Z 1;a 1;Ü 1;");
    }
    Ok(())
}

// Adds a field, where the class is there and has none of its name.
fn add_field(table: &mut Table, class: &str, field: &str, at: u32) -> Result<(), NoMemory>
    requires { length (table_names table.old) + 2 < 2 ^ 32 }
    ensures { length (table_names table.new) ≤ length (table_names table.old) + 2 }
{
    if table.class_named(class).is_none() {
        return Ok(());
    }
    match table.own_field(class, field) {
        Some(_) => Ok(()),
        None => table.add_field(class, field, "Object", at, at),
    }
}

// The owner of the field of this name that a class has or inherits, where the table has both names and there is one.
fn owner_of(table: &Table, class: &str, field: &str) -> Option<Name> {
    let class = table.names().find(class)?;
    let field = table.names().find(field)?;
    let found = table.find_field(class, field)?;
    Some(found.owner)
}

// Whether one class is below the other, where the table has both names.
fn is_below(table: &Table, lower: &str, upper: &str) -> Option<bool> {
    let lower = table.names().find(lower)?;
    let upper = table.names().find(upper)?;
    Some(table.is_subclass(lower, upper))
}

#[test]
fn members_are_found_along_the_chain(rt: HostRuntime) -> Result<(), Fail> {
    let mut table = Table::new(rt.alloc());
    add(&mut table, "A", "Object", 1)?;
    add(&mut table, "B", "A", 2)?;
    add(&mut table, "C", "B", 3)?;
    add(&mut table, "X", "Y", 4)?;
    add(&mut table, "Y", "X", 5)?;
    add(&mut table, "L", "Lost", 6)?;
    add_field(&mut table, "A", "a", 7)?;
    add_field(&mut table, "B", "b", 8)?;
    add_field(&mut table, "C", "c", 9)?;
    add_field(&mut table, "X", "x", 10)?;
    let rows = [
        ("C", "c", "C"),
        ("C", "b", "B"),
        ("C", "a", "A"),
        ("A", "b", ""),
        ("Y", "x", "X"),
        ("Y", "a", ""),
        ("L", "a", ""),
        ("Lost", "a", ""),
        ("C", "z", ""),
    ];
    for (class, field, owner) in rows {
        assert_eq!(rt; owner_of(&table, class, field), table.names().find(owner));
    }
    let rows = [
        ("C", "C", Some(true)),
        ("C", "A", Some(true)),
        ("C", "Object", Some(true)),
        ("A", "C", Some(false)),
        ("X", "Y", Some(true)),
        ("X", "X", Some(true)),
        ("X", "A", Some(false)),
        ("L", "Lost", Some(true)),
        ("L", "A", Some(false)),
        ("Lost", "Object", Some(true)),
        ("L", "Unknown", None),
    ];
    for (lower, upper, below) in rows {
        assert_eq!(rt; is_below(&table, lower, upper), below);
    }
    Ok(())
}

// Takes a class out, where it is there.
fn remove(table: &mut Table, class: &str)
    ensures { length (table_names table.new) ≤ length (table_names table.old) }
{
    if table.class_named(class).is_some() {
        table.remove_class(class);
    }
}

// Takes a field out of a class, where the class has it.
fn remove_field(table: &mut Table, class: &str, field: &str)
    ensures { length (table_names table.new) ≤ length (table_names table.old) }
{
    if table.class_named(class).is_none() {
        return;
    }
    if table.own_field(class, field).is_some() {
        table.remove_field(class, field);
    }
}

// Gives a class another superclass, where the class is there.
fn set_parent(table: &mut Table, class: &str, parent: &str, at: u32) -> Result<(), NoMemory>
    requires { length (table_names table.old) + 1 < 2 ^ 32 }
    ensures { length (table_names table.new) ≤ length (table_names table.old) + 1 }
{
    match table.class_named(class) {
        Some(_) => table.set_parent(class, parent, at),
        None => Ok(()),
    }
}

#[test]
fn declarations_in_force_are_kept(rt: HostRuntime) -> Result<(), Fail> {
    let alloc = rt.alloc();
    let mut table = Table::new(alloc);
    add(&mut table, "C", "A", 1)?;
    add_field(&mut table, "C", "g", 2)?;
    add_field(&mut table, "C", "ß", 3)?;
    add_field(&mut table, "C", "f", 4)?;
    assert_eq!(rt;
        class_text(alloc, &table, "C")?.as_str(),
        "1 A 1: Object f 4 Object g 2 Object ß 3"
    );
    set_parent(&mut table, "C", "B", 5)?;
    remove_field(&mut table, "C", "g");
    assert_eq!(rt;
        class_text(alloc, &table, "C")?.as_str(),
        "1 B 5: Object f 4 Object ß 3"
    );
    add_field(&mut table, "C", "g", 6)?;
    assert_eq!(rt;
        class_text(alloc, &table, "C")?.as_str(),
        "1 B 5: Object f 4 Object g 6 Object ß 3"
    );
    remove(&mut table, "C");
    assert_eq!(rt; class_text(alloc, &table, "C")?.as_str(), "none");
    add(&mut table, "C", "A", 7)?;
    assert_eq!(rt; class_text(alloc, &table, "C")?.as_str(), "7 A 7:");
    Ok(())
}

// A table with the most names that it may have.
#[derive(Drop)]
struct Filled {
    table: Table,
    most: u64,
    ghost few: { length (table_names table) ≤ most },
}

impl Filled {
    fn add_class(&mut self, class: &str) -> Result<(), NoMemory> {
        if self.most > 4_000_000_000
            || class == "Object"
            || self.table.class_named(class).is_some()
        {
            return Ok(());
        }
        self.most += 2;
        self.table.add_class(class, "Object", 0, 0)
    }

    fn add_field(&mut self, class: &str, field: &str) -> Result<(), NoMemory> {
        if self.most > 4_000_000_000 || self.table.class_named(class).is_none() {
            return Ok(());
        }
        if self.table.own_field(class, field).is_some() {
            return Ok(());
        }
        self.most += 2;
        self.table.add_field(class, field, "Object", 0, 0)
    }
}

#[test]
fn many_classes_and_fields_are_entered(rt: HostRuntime) -> Result<(), Fail> {
    let alloc = rt.alloc();
    let mut shuffled = Filled {
        table: Table::new(alloc),
        most: 0,
    };
    let mut number: u32 = 1;
    for _turn in 0..20_000 {
        number = number.wrapping_mul(1_664_525).wrapping_add(1_013_904_223);
        shuffled.add_class(format!(in alloc; "C{number}")?.as_str())?;
    }
    assert_eq!(rt; shuffled.table.classes().len(), 20_000);
    let mut rising = Filled {
        table: Table::new(alloc),
        most: 0,
    };
    for turn in 100_000..150_000 {
        rising.add_class(format!(in alloc; "C{turn}")?.as_str())?;
    }
    assert_eq!(rt; rising.table.classes().len(), 50_000);
    for turn in 100_000..300_000 {
        rising.add_field("C100000", format!(in alloc; "f{turn}")?.as_str())?;
    }
    let entry = rising.table.class_named("C100000");
    assert_eq!(rt;
        entry.map(|class| class.fields.as_slice().len()),
        Some(200_000)
    );
    Ok(())
}
