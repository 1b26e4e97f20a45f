//! Versions of methods, each as a method of its own.
ghost use Rattle.std.specs.Prelude.{◌≡◌, ◌+◌, ◌==◌, ◌<◌, [], All, map, length, string_bytes, if◌then◌else◌, IfOk, OnOk};
ghost use Rattle.arena_walk.specs.Tree.{size};
ghost use Rattle.dj_names.specs.Texts.{Extends};
ghost use Rattle.dj_tree.specs.Plain.{plain_spot, plain_method};
ghost use Rattle.dj_tree.specs.WellFormed.{IsKnown, IsExprNode, IsField, IsMethod};
ghost use Rattle.dj_calculus.specs.Expressions.{IsExpression};
ghost use Rattle.dj_calculus.specs.FlatTables.{version_name as name_of_version};
ghost use Rattle.ifj_table.specs.Entries.{text_at, plain_method as plain_kept};
ghost use Rattle.ifj_table.specs.Held.{IsMethodEntry};
ghost use Rattle.ifj_flatten.specs.Changes.{IsVersion, IsMadeFrom};

use crate::body::push_body;
use crate::made::Made;
use arena_walk::Arena;
use dj_names::Names;
use dj_tree::{ExprNode, FieldDecl, Listed, Method, Spot};
use ifj_table::MethodEntry;
use std::alloc::{AllocError as NoMemory, Global};

/// A method over names and nodes of its own.
#[derive(Drop)]
pub struct MadeMethod {
    pub made: Made,
    pub method: Method,
}

/// What stands before the body of a made method.
#[derive(Drop)]
struct Heading {
    made: Made,
    result: Spot,
    spot: Spot,
    parameters: Vec<FieldDecl>,
}

// m$C$k, the name of the version of this number of method m of class C.
fn version_name(alloc: Global, class: &str, method: &str, number: usize) -> Result<String, NoMemory>
    ensures { IfOk result (λ name. string_bytes name ≡ name_of_version class.now method.now number) }
{
    format!(in alloc; "{method}${class}${number}")
}

// The name of the version of this number, of so many. The newest keeps the method's name.
pub fn kept_name(
    alloc: Global,
    class: &str,
    method: &str,
    number: usize,
    count: usize,
) -> Result<String, NoMemory>
    requires { number < count }
    ensures { IfOk result (λ name. string_bytes name ≡ (if number + 1 == count then method.now else name_of_version class.now method.now number)) }
{
    if number + 1 == count {
        String::from_str(alloc, method)
    } else {
        version_name(alloc, class, method, number)
    }
}

// The same parameters, given their types and their names.
fn own_parameters(
    alloc: Global,
    made: &mut Made,
    from: &Names,
    kinds: &[Spot],
    spots: &[Spot],
) -> Result<Vec<FieldDecl>, NoMemory>
    requires kinds { All (IsKnown from.now) kinds.now }
    requires spots { All (IsKnown from.now) spots.now }
    requires same { length spots.now ≡ length kinds.now }
    ensures kinds { IfOk result (λ own. map (λ p. plain_spot made.new.names p.kind) own.items ≡ map (plain_spot from.now) kinds.now) }
    ensures spots { IfOk result (λ own. map (λ p. plain_spot made.new.names p.spot) own.items ≡ map (plain_spot from.now) spots.now) }
    ensures known { IfOk result (λ own. All (IsField made.new.names) own.items) }
    ensures exprs { made.new.exprs ≡ made.old.exprs }
    ensures grown { OnOk result (Extends made.old.names made.new.names) }
{
    let mut own = Vec::new(alloc);
    'parameters: for at in 0..kinds.len() {
        let kind = made.spot(from, kinds[at])?;
        let spot = made.spot(from, spots[at])?;
        own.push(FieldDecl { kind, spot })?;
    }
    Ok(own)
}

// The heading of a method under another name, with these names for its parameters.
fn make_heading(
    alloc: Global,
    from: &Names,
    method: &MethodEntry,
    spots: &[Spot],
    name: &str,
) -> Result<Heading, NoMemory>
    requires result { IsKnown from.now method.now.result }
    requires kinds { All (IsKnown from.now) method.now.parameters }
    requires spots { All (IsKnown from.now) spots.now }
    requires same { length spots.now ≡ length method.now.parameters }
    ensures result { IfOk result (λ own. plain_spot own.made.names own.result ≡ plain_spot from.now method.now.result) }
    ensures spot { IfOk result (λ own. plain_spot own.made.names own.spot ≡ record { text = name.now; at = method.now.spot.at }) }
    ensures kinds { IfOk result (λ own. map (λ p. plain_spot own.made.names p.kind) own.parameters.items ≡ map (plain_spot from.now) method.now.parameters) }
    ensures spots { IfOk result (λ own. map (λ p. plain_spot own.made.names p.spot) own.parameters.items ≡ map (plain_spot from.now) spots.now) }
    ensures known_result { IfOk result (λ own. IsKnown own.made.names own.result) }
    ensures known_spot { IfOk result (λ own. IsKnown own.made.names own.spot) }
    ensures known { IfOk result (λ own. All (IsField own.made.names) own.parameters.items) }
    ensures exprs { IfOk result (λ own. own.made.exprs ≡ []) }
{
    let mut made = Made::new(alloc);
    let parameters = own_parameters(alloc, &mut made, from, method.parameters.as_slice(), spots)?;
    let result = made.spot(from, method.result)?;
    let spot = made.place(name, method.spot.at)?;
    Ok(Heading {
        made,
        result,
        spot,
        parameters,
    })
}

// The body of this number under its heading, where each `original(..)` is a call of the method of this name.
fn make_method(
    alloc: Global,
    from: &Names,
    exprs: &Arena<ExprNode>,
    method: &MethodEntry,
    number: usize,
    name: &str,
    called: &str,
) -> Result<MadeMethod, NoMemory>
    requires nodes { All (IsExprNode from.now) exprs.now }
    requires method { IsMethodEntry from.now exprs.now method.now }
    requires there { number < length method.now.bodies.items }
    ensures known { IfOk result (λ own. IsMethod own.made.names own.made.exprs own.method) }
    ensures nodes { IfOk result (λ own. All (IsExprNode own.made.names) own.made.exprs) }
    ensures expression { IfOk result (λ own. IsExpression (plain_method own.made.names own.made.exprs own.method).body) }
    ensures made { IfOk result (λ own. IsMadeFrom from.now exprs.now method.now number name.now called.now (plain_method own.made.names own.made.exprs own.method)) }
    ensures size { IfOk result (λ own. size (plain_method own.made.names own.made.exprs own.method).body ≡ length own.made.exprs) }
{
    let body = &method.bodies[number];
    let heading = make_heading(alloc, from, method, body.parameters.as_slice(), name)?;
    let Heading {
        mut made,
        result,
        spot,
        parameters,
    } = heading;
    let root = push_body(alloc, &mut made, from, exprs, body.root, called)?;
    let method = Method {
        result,
        spot,
        parameters: Listed::from_vec(parameters),
        body: root,
    };
    Ok(MadeMethod { made, method })
}

// The version of this number as a method.
pub fn make_version(
    alloc: Global,
    from: &Names,
    exprs: &Arena<ExprNode>,
    class: &str,
    method: &MethodEntry,
    number: usize,
) -> Result<MadeMethod, NoMemory>
    requires nodes { All (IsExprNode from.now) exprs.now }
    requires method { IsMethodEntry from.now exprs.now method.now }
    requires there { number < length method.now.bodies.items }
    ensures known { IfOk result (λ own. IsMethod own.made.names own.made.exprs own.method) }
    ensures nodes { IfOk result (λ own. All (IsExprNode own.made.names) own.made.exprs) }
    ensures expression { IfOk result (λ own. IsExpression (plain_method own.made.names own.made.exprs own.method).body) }
    ensures version { IfOk result (λ own. IsVersion class.now (text_at from.now method.now.spot) (plain_kept from.now exprs.now method.now) number (plain_method own.made.names own.made.exprs own.method)) }
    ensures size { IfOk result (λ own. size (plain_method own.made.names own.made.exprs own.method).body ≡ length own.made.exprs) }
{
    let text = from.text(method.spot.name);
    let name = kept_name(alloc, class, text, number, method.bodies.len())?;
    let called = version_name(alloc, class, text, number.saturating_sub(1))?;
    make_method(
        alloc,
        from,
        exprs,
        method,
        number,
        name.as_str(),
        called.as_str(),
    )
}
