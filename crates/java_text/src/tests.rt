//! Parentheses of expressions, and classes and members by the bytes of their names.
ghost use Rattle.std.specs.Prelude.{◌≡◌, ◌+◌, ◌^◌, ◌<◌, ◌≤◌, true, List, All, length, IfOk, IfSome};
ghost use Rattle.dj_names.specs.Texts.{Text};
ghost use Rattle.dj_tree.specs.WellFormed.{IsExprNode};
ghost use Rattle.ifj_table.specs.Tables.{table_names};

use crate::expression::push_expression;
use crate::write;
use arena_walk::{Arena, NodeId, Shape};
use dj_names::{Name, Names};
use dj_tree::ExprNode::{Assign, Call, Cast, Field, New, Null, Original, This, Variable};
use dj_tree::{ExprNode, Spot};
use ifj_table::Table;
use std::alloc::{AllocError as NoMemory, Global};
use std::test::Fail;

// Whether the node says no name behind the last.
fn is_known(node: &ExprNode, last: Name) -> bool
    ensures { (names : List Text) → last.0 < length names → result ≡ true → IsExprNode names node.now }
{
    match node {
        Variable(x) | Field(x) | Call(x, _) | New(x) | Cast(x) | Assign(x) => { x.name.0 <= last.0 }
        This(_) | Null(_) | Original(_, _) => true,
    }
}

#[derive(Drop)]
struct Made {
    exprs: Arena<ExprNode>,
    root: NodeId,
}

// The expression of these nodes in post-order, or `None` where one lacks a part or says a name behind the last.
fn built(
    alloc: Global,
    names: &Names,
    last: Name,
    nodes: &[ExprNode],
) -> Result<Option<Made>, NoMemory>
    requires last { last.0 < length names.now }
    requires some { 0 < length nodes.now }
    requires few { length nodes.now < 4294967295 }
    ensures root { IfOk result (λ made. IfSome made (λ m. m.root.0 < length m.exprs)) }
    ensures known { IfOk result (λ made. IfSome made (λ m. All (IsExprNode names.now) m.exprs)) }
{
    let mut exprs = Arena::new(alloc);
    let mut finished = 0;
    let mut root = NodeId(0);
    for node in nodes {
        let arity = node.arity();
        if finished < arity || !is_known(node, last) {
            return Ok(None);
        }
        root = exprs.push(*node)?;
        finished = finished - arity + 1;
    }
    Ok(Some(Made { exprs, root }))
}

fn letters(alloc: Global) -> Result<Names, NoMemory> {
    let mut names = Names::new(alloc);
    names.add("A")?;
    names.add("f")?;
    names.add("g")?;
    names.add("m")?;
    names.add("x")?;
    names.add("y")?;
    names.add("z")?;
    Ok(names)
}

// The text of the expression of these nodes.
fn text_of(alloc: Global, nodes: &[ExprNode]) -> Result<Vec<u8>, NoMemory>
    requires some { 0 < length nodes.now }
    requires few { length nodes.now < 4294967295 }
{
    let mut text = Vec::new(alloc);
    let names = letters(alloc)?;
    let Some(last) = names.find("z") else {
        return Ok(text);
    };
    if let Some(Made { exprs, root }) = built(alloc, &names, last, nodes)? {
        push_expression(alloc, &names, &exprs, root, &mut text)?;
    }
    Ok(text)
}

fn spot(number: u32) -> Spot {
    Spot {
        name: Name(number),
        at: 0,
    }
}

#[test]
fn parentheses_stand_where_they_are_needed(rt: HostRuntime) -> Result<(), Fail> {
    let class = spot(0);
    let f = spot(1);
    let g = spot(2);
    let m = spot(3);
    let x = Variable(spot(4));
    let y = Variable(spot(5));
    let z = Variable(spot(6));
    let nodes = [
        x,
        y,
        Assign(f),
        Cast(class),
        x,
        Field(f),
        Cast(class),
        x,
        y,
        Null(0),
        Assign(f),
        Assign(f),
        Call(m, 2),
    ];
    let text = "((A) (x.f = y)).m((A) x.f, x.f = y.f = null)";
    assert_eq!(rt; text_of(rt.alloc(), &nodes)?.as_slice(), text.as_bytes());
    let nodes = [x, y, Assign(f), z, Assign(g)];
    assert_eq!(rt;
        text_of(rt.alloc(), &nodes)?.as_slice(),
        "(x.f = y).g = z".as_bytes()
    );
    let nodes = [x, Cast(class), Cast(class), Field(f)];
    assert_eq!(rt;
        text_of(rt.alloc(), &nodes)?.as_slice(),
        "((A) (A) x).f".as_bytes()
    );
    let nodes = [New(class), Call(m, 0), This(0), Original(0, 2)];
    assert_eq!(rt;
        text_of(rt.alloc(), &nodes)?.as_slice(),
        "original(new A().m(), this)".as_bytes()
    );
    Ok(())
}

// Adds a class, where there is none of its name.
fn add(table: &mut Table, class: &str, parent: &str) -> Result<(), NoMemory>
    requires { length (table_names table.old) + 2 < 2 ^ 32 }
    ensures { length (table_names table.new) ≤ length (table_names table.old) + 2 }
{
    if class == "Object" {
        return Ok(());
    }
    match table.class_named(class) {
        Some(_) => Ok(()),
        None => table.add_class(class, parent, 0, 0),
    }
}

// Adds a field, where the class is there and has none of its name.
fn add_field(table: &mut Table, class: &str, field: &str, kind: &str) -> Result<(), NoMemory>
    requires { length (table_names table.old) + 2 < 2 ^ 32 }
    ensures { length (table_names table.new) ≤ length (table_names table.old) + 2 }
{
    if table.class_named(class).is_none() {
        return Ok(());
    }
    match table.own_field(class, field) {
        Some(_) => Ok(()),
        None => table.add_field(class, field, kind, 0, 0),
    }
}

#[test]
fn classes_and_fields_stand_by_their_names(rt: HostRuntime) -> Result<(), Fail> {
    let mut table = Table::new(rt.alloc());
    assert_eq!(rt; write(rt.alloc(), &table)?.as_slice(), "".as_bytes());
    add(&mut table, "b", "Object")?;
    add(&mut table, "C", "b")?;
    add_field(&mut table, "C", "g", "C")?;
    add_field(&mut table, "C", "Z", "Object")?;
    let text = "class C extends b {\n  Object Z;\n  C g;\n}\nclass b extends Object {\n}\n";
    assert_eq!(rt; write(rt.alloc(), &table)?.as_slice(), text.as_bytes());
    Ok(())
}
