//! Tables whose classes have methods.
ghost use Rattle.std.specs.Prelude.{◌≡◌, ◌+◌, ◌^◌, ◌-◌, ◌<◌, ◌≤◌, All, None, length, IsSome, IfOk, IfSome};
ghost use Rattle.std.specs.FinMap as map;
ghost use Rattle.dj_names.specs.Texts.{Extends};
ghost use Rattle.dj_tree.specs.Plain.{plain_spot};
ghost use Rattle.dj_tree.specs.WellFormed.{IsKnown, IsField, IsExprNode};
ghost use Rattle.ifj_table.specs.Tables.{plain_table, table_names, table_nodes};
ghost use Rattle.ifj_table.specs.Lookups.{own_method};
ghost use Rattle.ifj_typing.specs.Codes.{IsCode};

use super::tests::{add_class, add_field, answer};
use super::*;
use Step::{Assign, Call, Cast, Field, New, Null, Original, This, Variable};
use arena_walk::{Arena, NodeId, Shape};
use dj_names::Names;
use dj_tree::{ExprNode, FieldDecl, Listed, Method, Spot};
use ifj_table::Table;
use std::alloc::{AllocError as NoMemory, Global};
use std::process::Abort;
use std::test::Fail;

// A node of an expression, by the text that it says.
#[derive(Clone, Copy, Debug)]
enum Step {
    Variable(&'static str),
    This,
    Null,
    Field(&'static str),
    Call(&'static str, u32),
    New(&'static str),
    Cast(&'static str),
    Assign(&'static str),
    Original(u32),
}

// An expression with the names that it says.
#[derive(Drop)]
struct Code {
    names: Names,
    exprs: Arena<ExprNode>,
    root: NodeId,
}

// A name at a place.
fn spot_of(names: &mut Names, text: &str, at: u32) -> Result<Spot, NoMemory>
    requires { length names.old + 1 < 2 ^ 32 }
    ensures known { IfOk result (IsKnown names.new) }
    ensures says { IfOk result (λ spot. (plain_spot names.new spot).text ≡ text.now) }
    ensures numbers { Extends names.old names.new }
    ensures few { length names.new ≤ length names.old + 1 }
{
    let name = names.add(text)?;
    Ok(Spot { name, at })
}

fn node_of(names: &mut Names, step: Step, at: u32) -> Result<ExprNode, NoMemory>
    requires { length names.old + 1 < 2 ^ 32 }
    ensures known { IfOk result (IsExprNode names.new) }
    ensures numbers { Extends names.old names.new }
    ensures few { length names.new ≤ length names.old + 1 }
{
    match step {
        Step::Variable(x) => Ok(ExprNode::Variable(spot_of(names, x, at)?)),
        Step::This => Ok(ExprNode::This(at)),
        Step::Null => Ok(ExprNode::Null(at)),
        Step::Field(field) => Ok(ExprNode::Field(spot_of(names, field, at)?)),
        Step::Call(method, arguments) => Ok(ExprNode::Call(spot_of(names, method, at)?, arguments)),
        Step::New(class) => Ok(ExprNode::New(spot_of(names, class, at)?)),
        Step::Cast(class) => Ok(ExprNode::Cast(spot_of(names, class, at)?)),
        Step::Assign(field) => Ok(ExprNode::Assign(spot_of(names, field, at)?)),
        Step::Original(arguments) => Ok(ExprNode::Original(at, arguments)),
    }
}

// The expression of these nodes in post-order, the first at a place and each behind at the next. None where they are no
// nodes, or where a node finds too few parts.
fn code_of(alloc: Global, steps: &[Step], at: u32) -> Result<Option<Code>, NoMemory>
    requires few { length steps.now ≤ 20 }
    requires small { at < 1000000 }
    ensures { IfOk result (λ made. IfSome made (λ code. IsCode code.names code.exprs code.root.0)) }
{
    if steps.is_empty() {
        return Ok(None);
    }
    let mut names = Names::new(alloc);
    let mut exprs = Arena::new(alloc);
    let mut finished = 0;
    let mut root = NodeId(0);
    for (number, step) in steps.iter().enumerate() {
        let node = node_of(&mut names, *step, at + number as u32)?;
        let arity = node.arity();
        if finished < arity {
            return Ok(None);
        }
        root = exprs.push(node)?;
        finished = finished - arity + 1;
    }
    Ok(Some(Code { names, exprs, root }))
}

// No parameter or one, with its type. The type stands at a place, and the name behind it.
fn parameters_of(
    alloc: Global,
    names: &mut Names,
    parameter: Option<(&'static str, &'static str)>,
    at: u32,
) -> Result<Listed<FieldDecl>, NoMemory>
    requires room { length names.old + 2 < 2 ^ 32 }
    requires small { at < 1000000 }
    ensures known { IfOk result (λ list. All (IsField names.new) list) }
    ensures short { IfOk result (λ list. length list ≤ 1) }
    ensures numbers { Extends names.old names.new }
    ensures few { length names.new ≤ length names.old + 2 }
{
    let mut list = Vec::new(alloc);
    if let Some((kind, name)) = parameter {
        let kind = spot_of(names, kind, at)?;
        let spot = spot_of(names, name, at + 1)?;
        list.push(FieldDecl { kind, spot })?;
    }
    Ok(Listed::from_vec(list))
}

// A method of a class, with no parameter or one, and its body.
#[derive(Clone, Copy, Debug)]
struct Row {
    class: &'static str,
    result: &'static str,
    name: &'static str,
    parameter: Option<(&'static str, &'static str)>,
    steps: &'static [Step],
}

// Declares a method that its class doesn't have. Its result type stands at a place, and behind it its name, its
// parameter's type and name, and from ten on its nodes.
fn declare(alloc: Global, table: &mut Table, row: Row, at: u32) -> Result<(), NoMemory>
    requires there { IsSome (map.get (plain_table table.old) row.class.now) }
    requires absent { own_method (plain_table table.old) row.class.now row.name.now ≡ None }
    requires steps { length row.steps.now ≤ 20 }
    requires small { at < 100000 }
    requires room { length (table_names table.old) + 50 < 2 ^ 32 }
    requires space { length (table_nodes table.old) + 20 < 2 ^ 32 - 1 }
    ensures few_names { length (table_names table.new) ≤ length (table_names table.old) + 50 }
    ensures few_nodes { length (table_nodes table.new) ≤ length (table_nodes table.old) + 20 }
{
    match code_of(alloc, row.steps, at + 10)? {
        Some(code) => add_method(alloc, table, row, code, at),
        None => Ok(()),
    }
}

fn add_method(
    alloc: Global,
    table: &mut Table,
    row: Row,
    code: Code,
    at: u32,
) -> Result<(), NoMemory>
    requires there { IsSome (map.get (plain_table table.old) row.class.now) }
    requires absent { own_method (plain_table table.old) row.class.now row.name.now ≡ None }
    requires code { IsCode code.names code.exprs code.root.0 }
    requires small { at < 100000 }
    requires room { length (table_names table.old) + 50 < 2 ^ 32 }
    requires space { length (table_nodes table.old) + 20 < 2 ^ 32 - 1 }
    ensures few_names { length (table_names table.new) ≤ length (table_names table.old) + 50 }
    ensures few_nodes { length (table_nodes table.new) ≤ length (table_nodes table.old) + 20 }
{
    let Code {
        mut names,
        exprs,
        root,
    } = code;
    let result = spot_of(&mut names, row.result, at)?;
    let spot = spot_of(&mut names, row.name, at + 1)?;
    let parameters = parameters_of(alloc, &mut names, row.parameter, at + 2)?;
    let _first = exprs.first(root);
    let method = Method {
        result,
        spot,
        parameters,
        body: root,
    };
    table.add_method(row.class, &names, &method, &exprs)
}

// Declares a method where its class is there and doesn't have it, and its body is short.
fn add_row(alloc: Global, table: &mut Table, row: Row, at: u32) -> Result<(), NoMemory>
    requires small { at < 100000 }
    requires room { length (table_names table.old) + 50 < 2 ^ 32 }
    requires space { length (table_nodes table.old) + 20 < 2 ^ 32 - 1 }
    ensures few_names { length (table_names table.new) ≤ length (table_names table.old) + 50 }
    ensures few_nodes { length (table_nodes table.new) ≤ length (table_nodes table.old) + 20 }
{
    if row.steps.len() > 20 || table.class_named(row.class).is_none() {
        return Ok(());
    }
    match table.own_method(row.class, row.name) {
        Some(_) => Ok(()),
        None => declare(alloc, table, row, at),
    }
}

// The rule and the place of the least instance of a table with these methods, the first at 200 and the second at 250. Its
// classes are A, B below A, and E; A has a field f of the type B.
fn broken(alloc: Global, first: Row, second: Option<Row>) -> Result<Option<(u8, u32)>, NoMemory> {
    let mut table = Table::new(alloc);
    add_class(&mut table, "A", "Object", 0)?;
    add_class(&mut table, "B", "A", 10)?;
    add_class(&mut table, "E", "Object", 20)?;
    add_field(&mut table, "A", "B", "f", 100)?;
    add_row(alloc, &mut table, first, 200)?;
    if let Some(second) = second {
        add_row(alloc, &mut table, second, 250)?;
    }
    answer(type_table(alloc, &table))
}

// A method of A, with its result type and its body, and the rule that it breaks at a place, or none.
type OfA = (&'static str, &'static [Step], Option<(u8, u32)>);

// Each such method m without parameters breaks this rule at this place, or none.
fn each_breaks(rt: &impl Abort, alloc: Global, rows: &[OfA]) -> Result<(), NoMemory> {
    for (result, steps, want) in rows {
        let row = Row {
            class: "A",
            result,
            name: "m",
            parameter: None,
            steps,
        };
        let found = broken(alloc, row, None)?;
        assert!(rt; found == *want, "{row:?}");
    }
    Ok(())
}

#[test]
fn bodies_are_well_typed(rt: HostRuntime) -> Result<(), Fail> {
    let rows: [OfA; 6] = [
        ("A", &[This], None),
        ("Object", &[This], None),
        ("B", &[This, Field("f")], None),
        ("B", &[This, New("B"), Assign("f")], None),
        // casts of null, up and down
        ("E", &[Null, Cast("E")], None),
        ("B", &[This, Cast("Object"), Cast("A"), Cast("B")], None),
    ];
    each_breaks(&rt, rt.alloc(), &rows)?;
    Ok(())
}

#[test]
fn names_of_bodies_are_found(rt: HostRuntime) -> Result<(), Fail> {
    let rows: [OfA; 7] = [
        ("Lost", &[This], Some((11, 200))),
        ("A", &[Variable("x")], Some((14, 210))),
        ("A", &[New("Lost")], Some((15, 210))),
        ("A", &[This, Cast("Lost")], Some((15, 211))),
        ("A", &[This, Field("g")], Some((16, 211))),
        ("A", &[New("Object"), Field("f")], Some((16, 211))),
        ("A", &[This, Call("k", 0)], Some((17, 211))),
    ];
    each_breaks(&rt, rt.alloc(), &rows)?;
    Ok(())
}

#[test]
fn types_of_bodies_are_judged(rt: HostRuntime) -> Result<(), Fail> {
    let rows: [OfA; 7] = [
        ("A", &[This, This, Call("m", 1)], Some((18, 212))),
        ("A", &[This, Original(1)], Some((18, 211))),
        ("B", &[This, New("E"), Assign("f")], Some((20, 212))),
        ("B", &[This], Some((21, 210))),
        // a cast across
        ("A", &[New("E"), Cast("A")], Some((22, 211))),
        ("A", &[Null, Field("f")], Some((23, 211))),
        ("A", &[Null, This, Call("m", 1)], Some((23, 212))),
    ];
    each_breaks(&rt, rt.alloc(), &rows)?;
    Ok(())
}

#[test]
fn the_least_within_a_body_is_named(rt: HostRuntime) -> Result<(), Fail> {
    let rows: [OfA; 7] = [
        // a part without a type hides what is around it
        ("A", &[This, Variable("x"), Call("k", 1)], Some((14, 211))),
        ("A", &[Null, Variable("x"), Call("m", 1)], Some((14, 211))),
        ("A", &[Variable("x"), Cast("Lost")], Some((14, 210))),
        // the least rule, and its least place
        (
            "A",
            &[Null, Field("f"), Variable("x"), Assign("f")],
            Some((14, 212)),
        ),
        (
            "A",
            &[Variable("y"), Variable("x"), Assign("f")],
            Some((14, 210)),
        ),
        (
            "A",
            &[New("Lost"), This, Field("g"), Assign("f")],
            Some((15, 210)),
        ),
        // a lower layer hides the bodies
        ("Lost", &[Null, Field("f")], Some((11, 200))),
    ];
    each_breaks(&rt, rt.alloc(), &rows)?;
    Ok(())
}

// With each such body, A's method m, which takes an A that is named as a field and gives an A, breaks this rule at this
// place, or none.
fn each_redeclared_breaks(
    rt: &impl Abort,
    alloc: Global,
    rows: &[(&'static [Step], Option<(u8, u32)>)],
) -> Result<(), NoMemory> {
    for (steps, want) in rows {
        let row = Row {
            class: "A",
            result: "A",
            name: "m",
            parameter: Some(("A", "f")),
            steps,
        };
        let found = broken(alloc, row, None)?;
        assert!(rt; found == *want, "{row:?}");
    }
    Ok(())
}

#[test]
fn calls_of_original_are_judged(rt: HostRuntime) -> Result<(), Fail> {
    let rows: [(&[Step], Option<(u8, u32)>); 5] = [
        (&[Variable("f"), Original(1)], None),
        (&[Original(0)], Some((18, 210))),
        (&[New("E"), Original(1)], Some((19, 210))),
        (&[New("E"), Variable("f"), Original(2)], Some((18, 212))),
        // the field of the name isn't the parameter
        (&[This, Field("f"), Original(1)], None),
    ];
    each_redeclared_breaks(&rt, rt.alloc(), &rows)?;
    Ok(())
}

// A method without parameters: its class, result type, name and body.
type Second = (
    &'static str,
    &'static str,
    &'static str,
    &'static [Step],
    Option<(u8, u32)>,
);

// Beside A's method m, which takes an A that is named as a field and gives it, each such method breaks this rule at this
// place, or none.
fn each_second_breaks(rt: &impl Abort, alloc: Global, rows: &[Second]) -> Result<(), NoMemory> {
    let first = Row {
        class: "A",
        result: "A",
        name: "m",
        parameter: Some(("A", "f")),
        steps: &[Variable("f")],
    };
    for (class, result, name, steps, want) in rows {
        let row = Row {
            class,
            result,
            name,
            parameter: None,
            steps,
        };
        let found = broken(alloc, first, Some(row))?;
        assert!(rt; found == *want, "{row:?}");
    }
    Ok(())
}

#[test]
fn methods_are_judged(rt: HostRuntime) -> Result<(), Fail> {
    let rows: [Second; 6] = [
        ("B", "A", "n", &[This, Null, Call("m", 1)], None),
        (
            "B",
            "A",
            "n",
            &[This, New("E"), Call("m", 1)],
            Some((19, 261)),
        ),
        ("B", "A", "n", &[This, Call("m", 0)], Some((18, 261))),
        ("B", "A", "m", &[This], Some((13, 251))),
        ("E", "B", "m", &[Null], None),
        ("B", "E", "m", &[This], Some((13, 251))),
    ];
    each_second_breaks(&rt, rt.alloc(), &rows)?;
    Ok(())
}

// The table of A, B below A and D below B, in which these classes have a method m that gives null, with these result
// types. The first stands at 200 and each other 50 behind the one before.
fn overriding(alloc: Global, methods: &[(&'static str, &'static str)]) -> Result<Table, NoMemory>
    requires { length methods.now ≤ 3 }
{
    let mut table = Table::new(alloc);
    add_class(&mut table, "A", "Object", 0)?;
    add_class(&mut table, "B", "A", 10)?;
    add_class(&mut table, "D", "B", 20)?;
    for (number, (class, result)) in methods.iter().enumerate() {
        let row = Row {
            class,
            result,
            name: "m",
            parameter: None,
            steps: &[Null],
        };
        add_row(alloc, &mut table, row, 200 + number as u32 * 50)?;
    }
    Ok(table)
}

type Overrides = (&'static [(&'static str, &'static str)], Option<(u8, u32)>);

// With each such methods the table breaks this rule at this place, or none.
fn each_overriding_breaks(
    rt: &impl Abort,
    alloc: Global,
    rows: &[Overrides],
) -> Result<(), NoMemory> {
    for (methods, want) in rows {
        assert!(rt; methods.len() <= 3);
        let table = overriding(alloc, methods)?;
        let found = answer(type_table(alloc, &table))?;
        assert!(rt; found == *want, "{methods:?}");
    }
    Ok(())
}

#[test]
fn overrides_are_compared_with_all_above(rt: HostRuntime) -> Result<(), Fail> {
    let rows: [Overrides; 5] = [
        (&[("A", "A"), ("B", "A"), ("D", "A")], None),
        (&[("B", "A"), ("D", "A")], None),
        (&[("A", "A"), ("D", "B")], Some((13, 251))),
        // the nearest above has the same signature, and one above that another
        (&[("D", "B"), ("B", "B"), ("A", "A")], Some((13, 201))),
        (&[("B", "B"), ("D", "B"), ("A", "A")], Some((13, 201))),
    ];
    each_overriding_breaks(&rt, rt.alloc(), &rows)?;
    Ok(())
}
