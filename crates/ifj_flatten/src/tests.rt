//! Bodies whose `original` is a call, names of versions, and tables without methods.
ghost use Rattle.std.specs.Prelude.{◌≡◌, ◌+◌, ◌^◌, ◌<◌, ◌≤◌, true, List, All, length, IfOk, IfSome};
ghost use Rattle.dj_names.specs.Texts.{Text};
ghost use Rattle.dj_tree.specs.WellFormed.{IsExprNode};
ghost use Rattle.dj_calculus.specs.FlatTables.{IsFlattenable};
ghost use Rattle.ifj_table.specs.Tables.{plain_table, table_names};

use crate::body::push_body;
use crate::flatten;
use crate::made::Made;
use crate::versions::kept_name;
use arena_walk::{Arena, NodeId, Shape};
use dj_names::{Name, Names};
use dj_tree::ExprNode::{Assign, Call, Cast, Field, New, Null, Original, This, Variable};
use dj_tree::{ExprNode, Spot};
use ifj_table::Table;
use std::alloc::{AllocError as NoMemory, Global};
use std::test::Fail;

// Whether the node says no name behind the last.
fn is_known(node: &ExprNode, last: Name) -> bool
    ensures { (names : List Text) → last.0 < length names → result ≡ true → IsExprNode names node.now }
{
    match node {
        Variable(x) | Field(x) | Call(x, _) | New(x) | Cast(x) | Assign(x) => { x.name.0 <= last.0 }
        This(_) | Null(_) | Original(_, _) => true,
    }
}

#[derive(Drop)]
struct Code {
    exprs: Arena<ExprNode>,
    root: NodeId,
}

// The expression of these nodes in post-order, or `None` where one lacks a part or says a name behind the last.
fn built(
    alloc: Global,
    names: &Names,
    last: Name,
    nodes: &[ExprNode],
) -> Result<Option<Code>, NoMemory>
    requires last { last.0 < length names.now }
    requires some { 0 < length nodes.now }
    requires few { length nodes.now < 4294967295 }
    ensures root { IfOk result (λ code. IfSome code (λ c. c.root.0 < length c.exprs)) }
    ensures known { IfOk result (λ code. IfSome code (λ c. All (IsExprNode names.now) c.exprs)) }
{
    let mut exprs = Arena::new(alloc);
    let mut finished = 0;
    let mut root = NodeId(0);
    for node in nodes {
        let arity = node.arity();
        if finished < arity || !is_known(node, last) {
            return Ok(None);
        }
        root = exprs.push(*node)?;
        finished = finished - arity + 1;
    }
    Ok(Some(Code { exprs, root }))
}

fn letters(alloc: Global) -> Result<Names, NoMemory> {
    let mut names = Names::new(alloc);
    names.add("A")?;
    names.add("f")?;
    names.add("m")?;
    names.add("x")?;
    names.add("y")?;
    Ok(names)
}

// Whether these are the nodes of a made body.
fn has_nodes(made: &Made, nodes: &[ExprNode]) -> bool {
    if made.node_count as usize != nodes.len() {
        return false;
    }
    for number in 0..made.node_count {
        if *made.exprs.get(NodeId(number)) != nodes[number as usize] {
            return false;
        }
    }
    true
}

// Whether the body of the first nodes has the others where it calls `m$A$0`. The made names are numbered anew.
fn makes(alloc: Global, nodes: &[ExprNode], others: &[ExprNode]) -> Result<bool, NoMemory>
    requires some { 0 < length nodes.now }
    requires few { length nodes.now < 4294967295 }
{
    let names = letters(alloc)?;
    let Some(last) = names.find("y") else {
        return Ok(false);
    };
    let Some(code) = built(alloc, &names, last, nodes)? else {
        return Ok(false);
    };
    let mut made = Made::new(alloc);
    push_body(alloc, &mut made, &names, &code.exprs, code.root, "m$A$0")?;
    Ok(has_nodes(&made, others))
}

fn spot(number: u32, at: u32) -> Spot {
    Spot {
        name: Name(number),
        at,
    }
}

#[test]
fn originals_are_calls(rt: HostRuntime) -> Result<(), Fail> {
    let nodes = [
        Variable(spot(3, 1)),
        Original(2, 1),
        Variable(spot(4, 3)),
        Call(spot(2, 4), 0),
        Original(5, 2),
    ];
    let others = [
        This(5),
        This(2),
        Variable(spot(0, 1)),
        Call(spot(1, 2), 1),
        Variable(spot(2, 3)),
        Call(spot(3, 4), 0),
        Call(spot(1, 5), 2),
    ];
    assert!(rt; makes(rt.alloc(), &nodes, &others)?);
    let nodes = [
        Original(1, 0),
        Null(2),
        Assign(spot(1, 3)),
        New(spot(0, 4)),
        Cast(spot(0, 5)),
        Call(spot(2, 6), 1),
    ];
    let others = [
        This(1),
        Call(spot(0, 1), 0),
        Null(2),
        Assign(spot(1, 3)),
        New(spot(2, 4)),
        Cast(spot(2, 5)),
        Call(spot(3, 6), 1),
    ];
    assert!(rt; makes(rt.alloc(), &nodes, &others)?);
    Ok(())
}

// The name of a version, and nothing where there aren't so many.
fn name_of(
    alloc: Global,
    class: &str,
    method: &str,
    number: usize,
    count: usize,
) -> Result<String, NoMemory> {
    if number < count {
        return kept_name(alloc, class, method, number, count);
    }
    Ok(String::new(alloc))
}

#[test]
fn the_newest_version_keeps_the_name(rt: HostRuntime) -> Result<(), Fail> {
    let rows = [
        ("C", 0, 1, "m"),
        ("C", 0, 2, "m$C$0"),
        ("D", 0, 2, "m$D$0"),
        ("C", 1, 2, "m"),
        ("C", 10, 12, "m$C$10"),
    ];
    for (class, number, count, name) in rows {
        assert_eq!(rt;
            name_of(rt.alloc(), class, "m", number, count)?.as_str(),
            name
        );
    }
    Ok(())
}

// Whether no class has a method, and so a flat table is defined.
fn has_no_methods(table: &Table) -> bool
    ensures { result ≡ true → IsFlattenable (plain_table table.now) }
{
    let classes = table.classes();
    for class in classes {
        if !class.methods.is_empty() {
            return false;
        }
    }
    true
}

// The classes of a table, each with its superclass and its fields.
fn listed(alloc: Global, table: &Table) -> Result<String, NoMemory> {
    let mut text = String::new(alloc);
    for class in table.classes() {
        let name = table.names().text(class.spot.name);
        let parent = table.names().text(class.parent.name);
        text.push_str(format!(in alloc;
            "{name} {} {parent} {}:",
            class.spot.at, class.parent.at
        )?.as_str())?;
        for field in class.fields.as_slice() {
            let name = table.names().text(field.spot.name);
            let kind = table.names().text(field.kind.name);
            text.push_str(format!(in alloc;
                " {kind} {} {name} {};",
                field.kind.at, field.spot.at
            )?.as_str())?;
        }
    }
    Ok(text)
}

// The classes of the flat table, where none has a method.
fn flat_classes(alloc: Global, table: &Table) -> Result<String, NoMemory> {
    if has_no_methods(table) {
        return listed(alloc, &flatten(alloc, table)?);
    }
    Ok(String::new(alloc))
}

// Adds a class, where there is none of its name.
fn add(table: &mut Table, class: &str, parent: &str) -> Result<(), NoMemory>
    requires { length (table_names table.old) + 2 < 2 ^ 32 }
    ensures { length (table_names table.new) ≤ length (table_names table.old) + 2 }
{
    if class == "Object" {
        return Ok(());
    }
    match table.class_named(class) {
        Some(_) => Ok(()),
        None => table.add_class(class, parent, 1, 2),
    }
}

// Adds a field, where the class is there and has none of its name.
fn add_field(table: &mut Table, class: &str, field: &str, kind: &str) -> Result<(), NoMemory>
    requires { length (table_names table.old) + 2 < 2 ^ 32 }
    ensures { length (table_names table.new) ≤ length (table_names table.old) + 2 }
{
    if table.class_named(class).is_none() {
        return Ok(());
    }
    match table.own_field(class, field) {
        Some(_) => Ok(()),
        None => table.add_field(class, field, kind, 3, 4),
    }
}

#[test]
fn classes_and_fields_stay(rt: HostRuntime) -> Result<(), Fail> {
    let mut table = Table::new(rt.alloc());
    assert_eq!(rt; flat_classes(rt.alloc(), &table)?.as_str(), "");
    add(&mut table, "b", "Object")?;
    add(&mut table, "C", "b")?;
    add_field(&mut table, "C", "g", "C")?;
    add_field(&mut table, "C", "Z", "Object")?;
    let text = "C 1 b 2: Object 4 Z 3; C 4 g 3;b 1 Object 2:";
    assert_eq!(rt; flat_classes(rt.alloc(), &table)?.as_str(), text);
    Ok(())
}
