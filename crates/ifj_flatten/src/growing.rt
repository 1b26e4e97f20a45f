//! A flat table while it is made.
ghost use Rattle.std.specs.Prelude.{◌≡◌, ◌<◌, ◌≤◌, ◌^◌, ◌-◌, length};
ghost use Rattle.ifj_table.specs.Tables.{table_names, table_nodes};

use crate::versions::MadeMethod;
use dj_names::Names;
use ifj_table::{ClassEntry, FieldEntry, Table};
use std::alloc::{AllocError as NoMemory, Global};

/// There are fewer names than this in a table.
const NAMES: u64 = 4_294_967_296;
/// There are fewer nodes than this in a table.
const NODES: u64 = 4_294_967_295;

/// A table with a count of the names and the nodes that were put into it, so that a table which would run out of
/// numbers for them is refused as one that runs out of memory.
#[derive(Drop)]
pub struct FlatTable {
    pub table: Table,
    pub names: u64,
    pub nodes: u64,
    ghost few_names: { names < 2 ^ 32 },
    ghost few_nodes: { nodes < 2 ^ 32 - 1 },
    ghost names_counted: { length (table_names table) ≤ names },
    ghost nodes_counted: { length (table_nodes table) ≤ nodes },
}

impl FlatTable {
    ghost use Rattle.std.specs.Prelude.{◌≡◌, ◌≢◌, ◌+◌, ◌*◌, ◌<◌, ◌≤◌, ◌^◌, ◌-◌, None, All, length, IsSome, OnOk};
    ghost use Rattle.std.specs.FinMap as map;
    ghost use Rattle.arena_walk.specs.Tree.{size};
    ghost use Rattle.dj_tree.specs.Plain.{plain_spot, plain_method};
    ghost use Rattle.dj_tree.specs.WellFormed.{IsKnown, IsExprNode, IsMethod};
    ghost use Rattle.dj_calculus.specs.Entries.{method_entry};
    ghost use Rattle.dj_calculus.specs.Expressions.{IsExpression};
    ghost use Rattle.dj_calculus.specs.Subclasses.{object};
    ghost use Rattle.dj_calculus.specs.Tables.{empty_table};
    ghost use Rattle.ifj_table.specs.Changes.{changed_at, bare_class, with_field, with_method, names_said};
    ghost use Rattle.ifj_table.specs.Entries.{text_at, plain_field};
    ghost use Rattle.ifj_table.specs.Held.{IsFieldEntry};
    ghost use Rattle.ifj_table.specs.Lookups.{own_field, own_method};
    ghost use Rattle.ifj_table.specs.Tables.{plain_table, table_names, table_nodes};

    // A table without classes.
    pub fn new(alloc: Global) -> FlatTable
        ensures { plain_table result.table ≡ empty_table }
    {
        FlatTable {
            table: Table::new(alloc),
            names: 0,
            nodes: 0,
        }
    }

    // The table itself.
    pub fn into_table(self) -> Table
        ensures { result ≡ self.table }
    {
        self.table
    }

    // Counts names that will be put into the table.
    fn count_names(&mut self, names: u64) -> Result<(), NoMemory>
        ensures table { self.new.table ≡ self.old.table }
        ensures counted { OnOk result (length (table_names self.old.table) + names ≤ self.new.names) }
    {
        if names >= NAMES - self.names {
            return Err(NoMemory);
        }
        self.names += names;
        Ok(())
    }

    // Counts nodes that will be put into the table.
    fn count_nodes(&mut self, nodes: u64) -> Result<(), NoMemory>
        ensures table { self.new.table ≡ self.old.table }
        ensures names { self.new.names ≡ self.old.names }
        ensures counted { OnOk result (length (table_nodes self.old.table) + nodes ≤ self.new.nodes) }
    {
        if nodes >= NODES - self.nodes {
            return Err(NoMemory);
        }
        self.nodes += nodes;
        Ok(())
    }

    // Adds a class without its members.
    pub fn add_class(&mut self, from: &Names, class: &ClassEntry) -> Result<(), NoMemory>
        requires spot { IsKnown from.now class.now.spot }
        requires parent { IsKnown from.now class.now.parent }
        requires absent { map.get (plain_table self.old.table) (text_at from.now class.now.spot) ≡ None }
        requires declarable { text_at from.now class.now.spot ≢ object }
        ensures { OnOk result (plain_table self.new.table ≡ map.insert (plain_table self.old.table) (text_at from.now class.now.spot)
            (bare_class class.now.spot.at (plain_spot from.now class.now.parent))) }
    {
        self.count_names(2)?;
        self.table.add_class(
            from.text(class.spot.name),
            from.text(class.parent.name),
            class.spot.at,
            class.parent.at,
        )
    }

    // Adds a field to a class.
    pub fn add_field(
        &mut self,
        from: &Names,
        class: &str,
        field: FieldEntry,
    ) -> Result<(), NoMemory>
        requires field { IsFieldEntry from.now field }
        requires there { IsSome (map.get (plain_table self.old.table) class.now) }
        requires absent { own_field (plain_table self.old.table) class.now (text_at from.now field.spot) ≡ None }
        ensures { OnOk result (plain_table self.new.table ≡ changed_at (plain_table self.old.table) class.now
            (with_field (text_at from.now field.spot) (plain_field from.now field))) }
    {
        self.count_names(2)?;
        self.table.add_field(
            class,
            from.text(field.spot.name),
            from.text(field.kind.name),
            field.spot.at,
            field.kind.at,
        )
    }

    // Counts the names and the nodes of a method that will be put into the table.
    fn count_method(&mut self, own: &MadeMethod) -> Result<(), NoMemory>
        requires size { size (plain_method own.now.made.names own.now.made.exprs own.now.method).body ≡ length own.now.made.exprs }
        ensures table { self.new.table ≡ self.old.table }
        ensures names { OnOk result (length (table_names self.old.table) + names_said (plain_method own.now.made.names own.now.made.exprs own.now.method) ≤ self.new.names) }
        ensures nodes { OnOk result (length (table_nodes self.old.table) + size (plain_method own.now.made.names own.now.made.exprs own.now.method).body ≤ self.new.nodes) }
    {
        let nodes = u64::from(own.made.node_count);
        let parameters = own.method.parameters.as_slice().len() as u64;
        self.count_names(2 + 2 * parameters + nodes)?;
        self.count_nodes(nodes)
    }

    // Adds a made method to a class.
    pub fn add_method(&mut self, class: &str, own: &MadeMethod) -> Result<(), NoMemory>
        requires known { IsMethod own.now.made.names own.now.made.exprs own.now.method }
        requires nodes { All (IsExprNode own.now.made.names) own.now.made.exprs }
        requires expression { IsExpression (plain_method own.now.made.names own.now.made.exprs own.now.method).body }
        requires size { size (plain_method own.now.made.names own.now.made.exprs own.now.method).body ≡ length own.now.made.exprs }
        requires there { IsSome (map.get (plain_table self.old.table) class.now) }
        requires absent { own_method (plain_table self.old.table) class.now (plain_method own.now.made.names own.now.made.exprs own.now.method).name.text ≡ None }
        ensures { OnOk result (plain_table self.new.table ≡ changed_at (plain_table self.old.table) class.now
            (with_method (plain_method own.now.made.names own.now.made.exprs own.now.method).name.text
            (method_entry (plain_method own.now.made.names own.now.made.exprs own.now.method)))) }
    {
        self.count_method(own)?;
        self.table
            .add_method(class, &own.made.names, &own.method, &own.made.exprs)
    }
}
