//! Members of classes as text.
ghost use Rattle.std.specs.Prelude.{◌≡◌, ◌<◌, ◌++◌, All, codes, map, length, OnOk};
ghost use Rattle.std.specs.List.{flat_map, zip};
ghost use Rattle.dj_tree.specs.Plain.{plain_spot, plain_expr};
ghost use Rattle.dj_tree.specs.WellFormed.{IsKnown, IsExprNode};
ghost use Rattle.dj_calculus.specs.JavaText.{field_text, parameter_text, listed, line, expression_text, head_text, body_text, method_text};
ghost use Rattle.ifj_table.specs.Entries.{text_at, plain_field, plain_signature, plain_body, plain_method};
ghost use Rattle.ifj_table.specs.Held.{IsFieldEntry, IsBody, IsMethodEntry};
ghost use Rattle.ifj_table.specs.Sorted.{pairs_of};
ghost use Rattle.java_text.specs.Pieces.{comma};

use crate::expression::push_expression;
use arena_walk::{Arena, NodeId};
use dj_names::Names;
use dj_tree::{ExprNode, Spot};
use ifj_table::{Body, FieldEntry, MethodEntry};
use std::alloc::AllocError as NoMemory;

/// Appends a name.
pub fn push_spot(names: &Names, spot: Spot, text: &mut Vec<u8>) -> Result<(), NoMemory>
    requires { IsKnown names.now spot }
    ensures { OnOk result (text.new.items ≡ text.old.items ++ text_at names.now spot) }
{
    text.extend_from_slice(names.text(spot.name).as_bytes())
}

/// Appends the line of a field.
fn push_field(names: &Names, field: &FieldEntry, text: &mut Vec<u8>) -> Result<(), NoMemory>
    requires { IsFieldEntry names.now field.now }
    ensures { OnOk result (text.new.items ≡ text.old.items ++ field_text (text_at names.now field.now.spot, plain_field names.now field.now)) }
{
    text.extend_from_slice(b"  ")?;
    push_spot(names, field.kind, text)?;
    text.extend_from_slice(b" ")?;
    push_spot(names, field.spot, text)?;
    text.extend_from_slice(b";\n")
}

/// Appends the lines of fields.
pub fn push_fields(names: &Names, fields: &[FieldEntry], text: &mut Vec<u8>) -> Result<(), NoMemory>
    requires { All (IsFieldEntry names.now) fields.now }
    ensures { OnOk result (text.new.items ≡ text.old.items
        ++ flat_map field_text (pairs_of (λ f. text_at names.now f.spot) (plain_field names.now) fields.now)) }
{
    for field in fields {
        push_field(names, field, text)?;
    }
    Ok(())
}

/// Appends what stands behind so many parameters.
fn push_comma(before: usize, text: &mut Vec<u8>) -> Result<(), NoMemory>
    ensures { OnOk result (text.new.items ≡ text.old.items ++ comma before) }
{
    if before > 0 {
        text.extend_from_slice(b", ")?;
    }
    Ok(())
}

/// Appends a parameter with its type.
fn push_parameter(names: &Names, kind: Spot, own: Spot, text: &mut Vec<u8>) -> Result<(), NoMemory>
    requires kind { IsKnown names.now kind }
    requires own { IsKnown names.now own }
    ensures { OnOk result (text.new.items ≡ text.old.items ++ parameter_text (plain_spot names.now kind, plain_spot names.now own)) }
{
    push_spot(names, kind, text)?;
    text.extend_from_slice(b" ")?;
    push_spot(names, own, text)
}

/// Appends parameters, given their types and their names.
fn push_parameters(
    names: &Names,
    kinds: &[Spot],
    own: &[Spot],
    text: &mut Vec<u8>,
) -> Result<(), NoMemory>
    requires kinds { All (IsKnown names.now) kinds.now }
    requires own { All (IsKnown names.now) own.now }
    requires same { length own.now ≡ length kinds.now }
    ensures { OnOk result (text.new.items ≡ text.old.items
        ++ listed (map parameter_text (zip (map (plain_spot names.now) kinds.now) (map (plain_spot names.now) own.now)))) }
{
    'parameters: for at in 0..kinds.len() {
        push_comma(at, text)?;
        push_parameter(names, kinds[at], own[at], text)?;
    }
    Ok(())
}

/// Appends the first line of a method.
fn push_head(
    names: &Names,
    method: &MethodEntry,
    own: &[Spot],
    text: &mut Vec<u8>,
) -> Result<(), NoMemory>
    requires spot { IsKnown names.now method.now.spot }
    requires result { IsKnown names.now method.now.result }
    requires kinds { All (IsKnown names.now) method.now.parameters }
    requires own { All (IsKnown names.now) own.now }
    requires same { length own.now ≡ length method.now.parameters }
    ensures { OnOk result (text.new.items ≡ text.old.items
        ++ line (head_text (text_at names.now method.now.spot) (plain_signature names.now method.now) (map (plain_spot names.now) own.now))) }
{
    text.extend_from_slice(b"  ")?;
    push_spot(names, method.result, text)?;
    text.extend_from_slice(b" ")?;
    push_spot(names, method.spot, text)?;
    text.extend_from_slice(b"(")?;
    push_parameters(names, method.parameters.as_slice(), own, text)?;
    text.extend_from_slice(b") {\n")
}

/// Appends the line that returns an expression, and the last of its method.
fn push_value(
    names: &Names,
    exprs: &Arena<ExprNode>,
    root: NodeId,
    text: &mut Vec<u8>,
) -> Result<(), NoMemory>
    requires nodes { All (IsExprNode names.now) exprs.now }
    requires there { root.0 < length exprs.now }
    ensures { OnOk result (text.new.items ≡ text.old.items
        ++ (line (codes "    return " ++ (expression_text (plain_expr names.now exprs.now root.0) ++ codes ";")) ++ line (codes "  }"))) }
{
    let alloc = *text.allocator();
    text.extend_from_slice(b"    return ")?;
    push_expression(alloc, names, exprs, root, text)?;
    text.extend_from_slice(b";\n  }\n")
}

/// Appends the lines of a method with this body.
fn push_body(
    names: &Names,
    exprs: &Arena<ExprNode>,
    method: &MethodEntry,
    body: &Body,
    text: &mut Vec<u8>,
) -> Result<(), NoMemory>
    requires nodes { All (IsExprNode names.now) exprs.now }
    requires method { IsMethodEntry names.now exprs.now method.now }
    requires body { IsBody names.now exprs.now (length method.now.parameters) body.now }
    ensures { OnOk result (text.new.items ≡ text.old.items
        ++ body_text (text_at names.now method.now.spot) (plain_signature names.now method.now) (plain_body names.now exprs.now body.now)) }
{
    push_head(names, method, body.parameters.as_slice(), text)?;
    push_value(names, exprs, body.root, text)
}

/// Appends the lines of a method.
fn push_method(
    names: &Names,
    exprs: &Arena<ExprNode>,
    method: &MethodEntry,
    text: &mut Vec<u8>,
) -> Result<(), NoMemory>
    requires nodes { All (IsExprNode names.now) exprs.now }
    requires method { IsMethodEntry names.now exprs.now method.now }
    ensures { OnOk result (text.new.items ≡ text.old.items
        ++ method_text (text_at names.now method.now.spot, plain_method names.now exprs.now method.now)) }
{
    let bodies = method.bodies.as_slice();
    for body in bodies {
        push_body(names, exprs, method, body, text)?;
    }
    Ok(())
}

/// Appends the lines of methods.
pub fn push_methods(
    names: &Names,
    exprs: &Arena<ExprNode>,
    methods: &[MethodEntry],
    text: &mut Vec<u8>,
) -> Result<(), NoMemory>
    requires nodes { All (IsExprNode names.now) exprs.now }
    requires methods { All (IsMethodEntry names.now exprs.now) methods.now }
    ensures { OnOk result (text.new.items ≡ text.old.items
        ++ flat_map method_text (pairs_of (λ m. text_at names.now m.spot) (plain_method names.now exprs.now) methods.now)) }
{
    for method in methods {
        push_method(names, exprs, method, text)?;
    }
    Ok(())
}
