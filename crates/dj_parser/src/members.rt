//! Fields, methods and operations on members.
ghost use Rattle.std.specs.Prelude.{IfOk, OnOk};
ghost use Rattle.dj_tree.specs.LineGrammar.{adds_member};
ghost use Rattle.dj_declarations.specs.View.{member_view};
ghost use Rattle.dj_parser.specs.Said.{said_member};
ghost use Rattle.dj_parser.specs.Growth.{CanSay, Grew, Lasts};
ghost use Rattle.dj_parser.specs.Resolved.{IsMemberFor};

use crate::leaves::{resolve_expr, resolve_spot};
use crate::resolve::{Resolve, resolve_each};
use crate::tables::Tables;
use dj_declarations::{RawField, RawMember, RawMemberOp, RawMethod};
use dj_lexer::Token;
use dj_tree::{FieldDecl, Listed, MemberOp, Method, Spot};
use std::alloc::{AllocError as NoMemory, Global};

impl Resolve for Token {
    ghost use Rattle.dj_declarations.specs.View.{spot_at};
    ghost use Rattle.dj_parser.specs.Said.{said_spot};
    ghost use Rattle.dj_parser.specs.Resolved.{IsSpotFor};

    type Out = Spot;

    ghost says = { λ bytes token. said_spot (spot_at bytes token) };

    ghost stands = { λ bytes tables token out. IsSpotFor tables out (spot_at bytes token) };

    fn resolve(&self, _alloc: Global, bytes: &[u8], tables: &mut Tables) -> Result<Spot, NoMemory> {
        resolve_spot(bytes, *self, tables)
    }
}

impl Resolve for RawField {
    ghost use Rattle.dj_declarations.specs.View.{field_view};
    ghost use Rattle.dj_parser.specs.Said.{said_field};
    ghost use Rattle.dj_parser.specs.Resolved.{IsFieldFor};

    type Out = FieldDecl;

    ghost says = { λ bytes raw. said_field (field_view bytes raw) };

    ghost stands = { λ bytes tables raw out. IsFieldFor tables out (field_view bytes raw) };

    fn resolve(
        &self,
        _alloc: Global,
        bytes: &[u8],
        tables: &mut Tables,
    ) -> Result<FieldDecl, NoMemory> {
        let kind = resolve_spot(bytes, self.kind, tables)?;
        let spot = resolve_spot(bytes, self.name, tables)?;
        Ok(FieldDecl { kind, spot })
    }
}

impl Resolve for RawMethod {
    ghost use Rattle.dj_declarations.specs.View.{method_view};
    ghost use Rattle.dj_parser.specs.Said.{said_method};
    ghost use Rattle.dj_parser.specs.Resolved.{IsMethodFor};

    type Out = Method;

    ghost says = { λ bytes raw. said_method (method_view bytes raw) };

    ghost stands = { λ bytes tables raw out. IsMethodFor tables out (method_view bytes raw) };

    fn resolve(
        &self,
        alloc: Global,
        bytes: &[u8],
        tables: &mut Tables,
    ) -> Result<Method, NoMemory> {
        let declared = self.declared.resolve(alloc, bytes, tables)?;
        let parameters = resolve_each(alloc, bytes, self.parameters.as_slice(), tables)?;
        let body = resolve_expr(bytes, &self.body, tables)?;
        Ok(Method {
            result: declared.kind,
            spot: declared.spot,
            parameters: Listed::from_vec(parameters),
            body,
        })
    }
}

/// The operation that adds a member.
fn resolve_added(
    alloc: Global,
    bytes: &[u8],
    member: &RawMember,
    tables: &mut Tables,
) -> Result<MemberOp, NoMemory>
    requires { CanSay tables.old (said_member (adds_member (member_view bytes.now member.now))) }
    ensures grew { OnOk result (Grew tables.old tables.new (said_member (adds_member (member_view bytes.now member.now)))) }
    ensures stands { IfOk result (λ out. Lasts tables.new (λ t. IsMemberFor t out (adds_member (member_view bytes.now member.now)))) }
{
    match member {
        RawMember::Field(field) => Ok(MemberOp::AddsField(field.resolve(alloc, bytes, tables)?)),
        RawMember::Method(method) => {
            Ok(MemberOp::AddsMethod(method.resolve(alloc, bytes, tables)?))
        }
    }
}

impl Resolve for RawMemberOp {
    ghost use Rattle.dj_declarations.specs.View.{member_op_view};
    ghost use Rattle.dj_parser.specs.Said.{said_member};
    ghost use Rattle.dj_parser.specs.Resolved.{IsMemberFor};

    type Out = MemberOp;

    ghost says = { λ bytes raw. said_member (member_op_view bytes raw) };

    ghost stands = { λ bytes tables raw out. IsMemberFor tables out (member_op_view bytes raw) };

    fn resolve(
        &self,
        alloc: Global,
        bytes: &[u8],
        tables: &mut Tables,
    ) -> Result<MemberOp, NoMemory> {
        match self {
            RawMemberOp::Adds(member) => resolve_added(alloc, bytes, member, tables),
            RawMemberOp::Modifies(method) => {
                Ok(MemberOp::ModifiesMethod(method.resolve(alloc, bytes, tables)?))
            }
            RawMemberOp::RemovesField(name) => {
                Ok(MemberOp::RemovesField(resolve_spot(bytes, *name, tables)?))
            }
            RawMemberOp::RemovesMethod(name) => {
                Ok(MemberOp::RemovesMethod(resolve_spot(bytes, *name, tables)?))
            }
        }
    }
}
