//! A table that declared classes are put into.
ghost use Rattle.std.specs.Prelude.{◌≡◌, ◌<◌, ◌≤◌, ◌^◌, ◌-◌, length, IfSome};
ghost use Rattle.std.specs.Option.{option_map};
ghost use Rattle.arena_walk.specs.Tree.{size};
ghost use Rattle.dj_tree.specs.Plain.{plain_spot, plain_expr};
ghost use Rattle.dj_tree.specs.WellFormed.{IsKnown};
ghost use Rattle.dj_calculus.specs.Entries.{superclass_of};
ghost use Rattle.ifj_table.specs.Tables.{table_names, table_nodes};

use arena_walk::NodeId;
use dj_names::Names;
use dj_tree::{ClassDecl, FieldDecl, JavaSource, Method};
use ifj_table::Table;
use std::alloc::{AllocError as NoMemory, Global};

/// There are fewer names than this in a table.
const NAMES: u64 = 4_294_967_296;
/// There are fewer nodes than this in a table.
const NODES: u64 = 4_294_967_295;

/// A table with a count of the names and the nodes that were put into it, so that a table which would run out of
/// numbers for them is refused as one that runs out of memory.
#[derive(Drop)]
pub struct GrowingTable {
    pub table: Table,
    names: u64,
    nodes: u64,
    ghost few_names: { names < 2 ^ 32 },
    ghost few_nodes: { nodes < 2 ^ 32 - 1 },
    ghost names_counted: { length (table_names table) ≤ names },
    ghost nodes_counted: { length (table_nodes table) ≤ nodes },
}

/// The name of a superclass, with its place.
#[derive(Clone, Copy)]
struct Superclass<'a> {
    text: &'a str,
    at: u32,
}

impl GrowingTable {
    ghost use Rattle.std.specs.Prelude.{◌≡◌, ◌≢◌, ◌+◌, ◌≤◌, None, All, length, IsSome, IfSome, OnOk};
    ghost use Rattle.std.specs.Option.{option_map};
    ghost use Rattle.std.specs.FinMap as map;
    ghost use Rattle.arena_walk.specs.Tree.{size};
    ghost use Rattle.dj_tree.specs.Plain.{plain_spot, plain_field, plain_method};
    ghost use Rattle.dj_tree.specs.WellFormed.{IsKnown, IsField, IsMethod, IsExprNode};
    ghost use Rattle.dj_calculus.specs.Entries.{superclass_of, field_entry, method_entry};
    ghost use Rattle.dj_calculus.specs.Expressions.{IsExpression};
    ghost use Rattle.dj_calculus.specs.Subclasses.{object};
    ghost use Rattle.dj_calculus.specs.Tables.{empty_table};
    ghost use Rattle.ifj_table.specs.Changes.{changed_at, bare_class, with_field, with_method, names_said};
    ghost use Rattle.ifj_table.specs.Lookups.{own_field, own_method};
    ghost use Rattle.ifj_table.specs.Tables.{plain_table, table_names, table_nodes};

    // A table without classes.
    pub fn new(alloc: Global) -> GrowingTable
        ensures { plain_table result.table ≡ empty_table }
    {
        GrowingTable {
            table: Table::new(alloc),
            names: 0,
            nodes: 0,
        }
    }

    // The table itself.
    pub fn into_table(self) -> Table
        ensures { result ≡ self.table }
    {
        self.table
    }

    // Counts names that will be put into the table.
    fn count_names(&mut self, names: u64) -> Result<(), NoMemory>
        ensures table { self.new.table ≡ self.old.table }
        ensures counted { OnOk result (length (table_names self.old.table) + names ≤ self.new.names) }
    {
        if names >= NAMES - self.names {
            return Err(NoMemory);
        }
        self.names += names;
        Ok(())
    }

    // Counts nodes that will be put into the table.
    fn count_nodes(&mut self, nodes: u64) -> Result<(), NoMemory>
        ensures table { self.new.table ≡ self.old.table }
        ensures names { self.new.names ≡ self.old.names }
        ensures counted { OnOk result (length (table_nodes self.old.table) + nodes ≤ self.new.nodes) }
    {
        if nodes >= NODES - self.nodes {
            return Err(NoMemory);
        }
        self.nodes += nodes;
        Ok(())
    }

    // Counts the names and the nodes of a method that will be put into the table.
    fn count_method(&mut self, source: &JavaSource, method: &Method) -> Result<(), NoMemory>
        requires known { IsMethod source.now.names source.now.exprs method.now }
        ensures table { self.new.table ≡ self.old.table }
        ensures names { OnOk result (length (table_names self.old.table) + names_said (plain_method source.now.names source.now.exprs method.now) ≤ self.new.names) }
        ensures nodes { OnOk result (length (table_nodes self.old.table) + size (plain_method source.now.names source.now.exprs method.now).body ≤ self.new.nodes) }
    {
        let nodes = body_size(source, method.body);
        let parameters = method.parameters.as_slice().len() as u64;
        self.count_names(2 + 2 * parameters + nodes)?;
        self.count_nodes(nodes)
    }

    // Adds a class without its members.
    pub fn add_class(&mut self, names: &Names, class: &ClassDecl) -> Result<(), NoMemory>
        requires spot { IsKnown names.now class.now.spot }
        requires parent { IfSome class.now.parent (IsKnown names.now) }
        requires absent { map.get (plain_table self.old.table) (plain_spot names.now class.now.spot).text ≡ None }
        requires declarable { (plain_spot names.now class.now.spot).text ≢ object }
        ensures { OnOk result (plain_table self.new.table ≡ map.insert (plain_table self.old.table) (plain_spot names.now class.now.spot).text
            (bare_class class.now.spot.at (superclass_of (plain_spot names.now class.now.spot) (option_map (plain_spot names.now) class.now.parent)))) }
    {
        self.count_names(2)?;
        let parent = parent_of(names, class);
        self.table.add_class(
            names.text(class.spot.name),
            parent.text,
            class.spot.at,
            parent.at,
        )
    }

    // Adds a field to a class that has none of its name.
    pub fn add_field(
        &mut self,
        class: &str,
        names: &Names,
        field: &FieldDecl,
    ) -> Result<(), NoMemory>
        requires known { IsField names.now field.now }
        requires there { IsSome (map.get (plain_table self.old.table) class.now) }
        requires absent { own_field (plain_table self.old.table) class.now (plain_field names.now field.now).name.text ≡ None }
        ensures { OnOk result (plain_table self.new.table ≡ changed_at (plain_table self.old.table) class.now
            (with_field (plain_field names.now field.now).name.text (field_entry (plain_field names.now field.now)))) }
    {
        self.count_names(2)?;
        let name = names.text(field.spot.name);
        let kind = names.text(field.kind.name);
        self.table
            .add_field(class, name, kind, field.spot.at, field.kind.at)
    }

    // Adds a method to a class that has none of its name.
    pub fn add_method(
        &mut self,
        class: &str,
        source: &JavaSource,
        method: &Method,
    ) -> Result<(), NoMemory>
        requires known { IsMethod source.now.names source.now.exprs method.now }
        requires nodes_known { All (IsExprNode source.now.names) source.now.exprs }
        requires expression { IsExpression (plain_method source.now.names source.now.exprs method.now).body }
        requires there { IsSome (map.get (plain_table self.old.table) class.now) }
        requires absent { own_method (plain_table self.old.table) class.now (plain_method source.now.names source.now.exprs method.now).name.text ≡ None }
        ensures { OnOk result (plain_table self.new.table ≡ changed_at (plain_table self.old.table) class.now
            (with_method (plain_method source.now.names source.now.exprs method.now).name.text (method_entry (plain_method source.now.names source.now.exprs method.now)))) }
    {
        self.count_method(source, method)?;
        self.table
            .add_method(class, &source.names, method, &source.exprs)
    }
}

// How many nodes a body has.
fn body_size(source: &JavaSource, body: NodeId) -> u64
    requires { body.0 < length source.now.exprs }
    ensures size { result ≡ size (plain_expr source.now.names source.now.exprs body.0) }
    ensures few { result ≤ 4294967296 }
{
    let first = source.exprs.first(body);
    u64::from(body.0 - first.0) + 1
}

// The superclass of a declared class: `Object`, at the place of the class name, where none is given.
fn parent_of<'a>(names: &'a Names, class: &ClassDecl) -> Superclass<'a>
    requires parent { IfSome class.now.parent (IsKnown names.now) }
    ensures { superclass_of (plain_spot names.now class.now.spot) (option_map (plain_spot names.now) class.now.parent) ≡ record { text = result.text.now; at = result.at } }
{
    match class.parent {
        Some(parent) => Superclass {
            text: names.text(parent.name),
            at: parent.at,
        },
        None => Superclass {
            text: "Object",
            at: class.spot.at,
        },
    }
}
