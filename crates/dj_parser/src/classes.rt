//! Classes.
ghost use Rattle.std.specs.Prelude.{List, [], ◌∷◌, ◌++◌, map, IfOk, OnOk};
ghost use Rattle.dj_tree.specs.ClassGrammar.{fields_of, methods_of};
ghost use Rattle.dj_tree.specs.Trees as plain;
ghost use Rattle.dj_declarations.specs.View.{member_view};
ghost use Rattle.dj_parser.specs.Said.{said_each, said_field, said_method};
ghost use Rattle.dj_parser.specs.Growth.{CanSay, Grew, Lasts};
ghost use Rattle.dj_parser.specs.Resolved.{AreFieldsFor, AreMethodsFor};

use crate::leaves::{resolve_optional, resolve_spot};
use crate::resolve::Resolve;
use crate::tables::Tables;
use dj_declarations::{RawClass, RawMember};
use dj_tree::{ClassDecl, FieldDecl, Listed, Method};
use std::alloc::{AllocError as NoMemory, Global};

/// Appends a member's field, where it is one.
fn add_field(
    alloc: Global,
    bytes: &[u8],
    member: &RawMember,
    tables: &mut Tables,
    fields: &mut Vec<FieldDecl>,
) -> Result<(), NoMemory>
    requires { CanSay tables.old (said_each said_field (fields_of (member_view bytes.now member.now ∷ []))) }
    ensures grew { OnOk result (Grew tables.old tables.new (said_each said_field (fields_of (member_view bytes.now member.now ∷ [])))) }
    ensures stand { OnOk result (Lasts tables.new (λ t. (xs : List plain.Field) → AreFieldsFor t fields.old.items xs
        → AreFieldsFor t fields.new.items (xs ++ fields_of (member_view bytes.now member.now ∷ [])))) }
{
    match member {
        RawMember::Field(field) => {
            let field = field.resolve(alloc, bytes, tables)?;
            fields.push(field)?;
            Ok(())
        }
        RawMember::Method(_) => Ok(()),
    }
}

/// Appends a member's method, where it is one.
fn add_method(
    alloc: Global,
    bytes: &[u8],
    member: &RawMember,
    tables: &mut Tables,
    methods: &mut Vec<Method>,
) -> Result<(), NoMemory>
    requires { CanSay tables.old (said_each said_method (methods_of (member_view bytes.now member.now ∷ []))) }
    ensures grew { OnOk result (Grew tables.old tables.new (said_each said_method (methods_of (member_view bytes.now member.now ∷ [])))) }
    ensures stand { OnOk result (Lasts tables.new (λ t. (xs : List plain.Method) → AreMethodsFor t methods.old.items xs
        → AreMethodsFor t methods.new.items (xs ++ methods_of (member_view bytes.now member.now ∷ [])))) }
{
    match member {
        RawMember::Field(_) => Ok(()),
        RawMember::Method(method) => {
            let method = method.resolve(alloc, bytes, tables)?;
            methods.push(method)?;
            Ok(())
        }
    }
}

/// The fields among the members, in order.
fn resolve_fields(
    alloc: Global,
    bytes: &[u8],
    members: &[RawMember],
    tables: &mut Tables,
) -> Result<Vec<FieldDecl>, NoMemory>
    requires { CanSay tables.old (said_each said_field (fields_of (map (member_view bytes.now) members.now))) }
    ensures grew { OnOk result (Grew tables.old tables.new (said_each said_field (fields_of (map (member_view bytes.now) members.now)))) }
    ensures stand { IfOk result (λ outs. Lasts tables.new (λ t. AreFieldsFor t outs.items (fields_of (map (member_view bytes.now) members.now)))) }
{
    let mut fields = Vec::new(alloc);
    for member in members {
        add_field(alloc, bytes, member, tables, &mut fields)?;
    }
    Ok(fields)
}

/// The methods among the members, in order.
fn resolve_methods(
    alloc: Global,
    bytes: &[u8],
    members: &[RawMember],
    tables: &mut Tables,
) -> Result<Vec<Method>, NoMemory>
    requires { CanSay tables.old (said_each said_method (methods_of (map (member_view bytes.now) members.now))) }
    ensures grew { OnOk result (Grew tables.old tables.new (said_each said_method (methods_of (map (member_view bytes.now) members.now)))) }
    ensures stand { IfOk result (λ outs. Lasts tables.new (λ t. AreMethodsFor t outs.items (methods_of (map (member_view bytes.now) members.now)))) }
{
    let mut methods = Vec::new(alloc);
    for member in members {
        add_method(alloc, bytes, member, tables, &mut methods)?;
    }
    Ok(methods)
}

impl Resolve for RawClass {
    ghost use Rattle.dj_declarations.specs.View.{class_view};
    ghost use Rattle.dj_parser.specs.Said.{said_class};
    ghost use Rattle.dj_parser.specs.Resolved.{IsClassFor};

    type Out = ClassDecl;

    ghost says = { λ bytes raw. said_class (class_view bytes raw) };

    ghost stands = { λ bytes tables raw out. IsClassFor tables out (class_view bytes raw) };

    fn resolve(
        &self,
        alloc: Global,
        bytes: &[u8],
        tables: &mut Tables,
    ) -> Result<ClassDecl, NoMemory> {
        let spot = resolve_spot(bytes, self.name, tables)?;
        let parent = resolve_optional(bytes, self.parent, tables)?;
        let fields = resolve_fields(alloc, bytes, self.members.as_slice(), tables)?;
        let methods = resolve_methods(alloc, bytes, self.members.as_slice(), tables)?;
        Ok(ClassDecl {
            spot,
            parent,
            fields: Listed::from_vec(fields),
            methods: Listed::from_vec(methods),
        })
    }
}
