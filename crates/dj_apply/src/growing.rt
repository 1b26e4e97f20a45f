//! A table that operations are applied to.
ghost use Rattle.std.specs.Prelude.{◌≡◌, ◌<◌, ◌≤◌, ◌^◌, ◌-◌, length, IfSome};
ghost use Rattle.std.specs.Option.{option_map};
ghost use Rattle.dj_tree.specs.Plain.{plain_spot};
ghost use Rattle.dj_tree.specs.WellFormed.{IsKnown};
ghost use Rattle.dj_calculus.specs.Entries.{superclass_of};
ghost use Rattle.ifj_table.specs.Tables.{table_names, table_nodes};

use dj_names::Names;
use dj_tree::{ClassDecl, Spot};
use ifj_table::Table;
use std::alloc::{AllocError as NoMemory, Global};

/// There are fewer names than this in a table.
const NAMES: u64 = 4_294_967_296;
/// There are fewer nodes than this in a table.
const NODES: u64 = 4_294_967_295;

/// A table with a count of the names and the nodes that were put into it, so that a table which would run out of
/// numbers for them is refused as one that runs out of memory.
#[derive(Drop)]
pub struct GrowingTable {
    pub table: Table,
    pub names: u64,
    pub nodes: u64,
    ghost few_names: { names < 2 ^ 32 },
    ghost few_nodes: { nodes < 2 ^ 32 - 1 },
    ghost names_counted: { length (table_names table) ≤ names },
    ghost nodes_counted: { length (table_nodes table) ≤ nodes },
}

/// The name of a superclass, with its place.
#[derive(Clone, Copy)]
struct Superclass<'a> {
    text: &'a str,
    at: u32,
}

impl GrowingTable {
    ghost use Rattle.std.specs.Prelude.{◌≡◌, ◌≢◌, ◌+◌, ◌<◌, ◌^◌, ◌-◌, ◌∷◌, [], None, length, IsSome, IfSome, OnOk};
    ghost use Rattle.std.specs.Option.{option_map};
    ghost use Rattle.std.specs.FinMap as map;
    ghost use Rattle.dj_tree.specs.Plain.{plain_spot};
    ghost use Rattle.dj_tree.specs.WellFormed.{IsKnown};
    ghost use Rattle.dj_calculus.specs.Entries.{superclass_of};
    ghost use Rattle.dj_calculus.specs.Subclasses.{object};
    ghost use Rattle.dj_calculus.specs.Tables.{empty_table};
    ghost use Rattle.dj_calculus.specs.Things.{extends, first_steps};
    ghost use Rattle.ifj_table.specs.Changes.{bare_class};
    ghost use Rattle.ifj_table.specs.Tables.{plain_table, table_names, table_nodes};
    ghost use Rattle.dj_apply.specs.Taking.{Takes};

    // A table without classes.
    pub fn new(alloc: Global) -> GrowingTable
        ensures { plain_table result.table ≡ empty_table }
    {
        GrowingTable {
            table: Table::new(alloc),
            names: 0,
            nodes: 0,
        }
    }

    // The table itself.
    pub fn into_table(self) -> Table
        ensures { result ≡ self.table }
    {
        self.table
    }

    // Counts names that will be put into the table.
    pub fn count_names(&mut self, names: u64) -> Result<(), NoMemory>
        ensures table { self.new.table ≡ self.old.table }
        ensures counted { OnOk result (length (table_names self.old.table) + names ≤ self.new.names) }
    {
        if names >= NAMES - self.names {
            return Err(NoMemory);
        }
        self.names += names;
        Ok(())
    }

    // Counts nodes that will be put into the table.
    pub fn count_nodes(&mut self, nodes: u64) -> Result<(), NoMemory>
        ensures table { self.new.table ≡ self.old.table }
        ensures names { self.new.names ≡ self.old.names }
        ensures counted { OnOk result (length (table_nodes self.old.table) + nodes ≤ self.new.nodes) }
    {
        if nodes >= NODES - self.nodes {
            return Err(NoMemory);
        }
        self.nodes += nodes;
        Ok(())
    }

    // Adds a class without its members.
    pub fn add_class(&mut self, names: &Names, class: &ClassDecl) -> Result<(), NoMemory>
        requires spot { IsKnown names.now class.now.spot }
        requires parent { IfSome class.now.parent (IsKnown names.now) }
        requires absent { map.get (plain_table self.old.table) (plain_spot names.now class.now.spot).text ≡ None }
        requires declarable { (plain_spot names.now class.now.spot).text ≢ object }
        ensures { OnOk result (plain_table self.new.table ≡ map.insert (plain_table self.old.table) (plain_spot names.now class.now.spot).text
            (bare_class class.now.spot.at (superclass_of (plain_spot names.now class.now.spot) (option_map (plain_spot names.now) class.now.parent)))) }
    {
        self.count_names(2)?;
        let parent = parent_of(names, class);
        self.table.add_class(
            names.text(class.spot.name),
            parent.text,
            class.spot.at,
            parent.at,
        )
    }

    // Gives a class another superclass, where there is one.
    pub fn take_parent(
        &mut self,
        names: &Names,
        class: &str,
        parent: Option<Spot>,
    ) -> Result<(), NoMemory>
        requires known { IfSome parent (IsKnown names.now) }
        requires there { IsSome (map.get (plain_table self.old.table) class.now) }
        ensures { OnOk result (Takes (plain_table self.old.table) (plain_table self.new.table) class.now (first_steps (option_map (plain_spot names.now) parent))) }
    {
        match parent {
            Some(parent) => self.set_parent(names, class, parent),
            None => Ok(()),
        }
    }

    // Gives a class another superclass.
    fn set_parent(&mut self, names: &Names, class: &str, parent: Spot) -> Result<(), NoMemory>
        requires known { IsKnown names.now parent }
        requires there { IsSome (map.get (plain_table self.old.table) class.now) }
        ensures { OnOk result (Takes (plain_table self.old.table) (plain_table self.new.table) class.now (extends (plain_spot names.now parent) ∷ [])) }
    {
        self.count_names(1)?;
        self.table
            .set_parent(class, names.text(parent.name), parent.at)
    }
}

// The superclass of a declared class: `Object`, at the place of the class name, where none is given.
fn parent_of<'a>(names: &'a Names, class: &ClassDecl) -> Superclass<'a>
    requires parent { IfSome class.now.parent (IsKnown names.now) }
    ensures { superclass_of (plain_spot names.now class.now.spot) (option_map (plain_spot names.now) class.now.parent) ≡ record { text = result.text.now; at = result.at } }
{
    match class.parent {
        Some(parent) => Superclass {
            text: names.text(parent.name),
            at: parent.at,
        },
        None => Superclass {
            text: "Object",
            at: class.spot.at,
        },
    }
}
