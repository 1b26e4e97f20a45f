//! Deltas and their operations on classes.

use crate::leaves::{resolve_optional, resolve_spot};
use crate::resolve::{Resolve, resolve_each};
use crate::tables::Tables;
use dj_declarations::{RawChange, RawClassOp, RawDelta};
use dj_tree::{ClassChange, ClassOp, DeltaDecl, Listed};
use std::alloc::{AllocError as NoMemory, Global};

impl Resolve for RawChange {
    ghost use Rattle.dj_parser.specs.Said.{said_change};
    ghost use Rattle.dj_parser.specs.Resolved.{IsChangeFor, plain_change_view};

    type Out = ClassChange;

    ghost says = { λ bytes raw. said_change (plain_change_view bytes raw) };

    ghost stands = { λ bytes tables raw out. IsChangeFor tables out (plain_change_view bytes raw) };

    fn resolve(
        &self,
        alloc: Global,
        bytes: &[u8],
        tables: &mut Tables,
    ) -> Result<ClassChange, NoMemory> {
        let spot = resolve_spot(bytes, self.name, tables)?;
        let parent = resolve_optional(bytes, self.parent, tables)?;
        let members = resolve_each(alloc, bytes, self.members.as_slice(), tables)?;
        Ok(ClassChange {
            spot,
            parent,
            members: Listed::from_vec(members),
        })
    }
}

impl Resolve for RawClassOp {
    ghost use Rattle.dj_declarations.specs.View.{class_op_view};
    ghost use Rattle.dj_parser.specs.Said.{said_operation};
    ghost use Rattle.dj_parser.specs.Resolved.{IsOperationFor};

    type Out = ClassOp;

    ghost says = { λ bytes raw. said_operation (class_op_view bytes raw) };

    ghost stands = { λ bytes tables raw out. IsOperationFor tables out (class_op_view bytes raw) };

    fn resolve(
        &self,
        alloc: Global,
        bytes: &[u8],
        tables: &mut Tables,
    ) -> Result<ClassOp, NoMemory> {
        match self {
            RawClassOp::Adds(class) => Ok(ClassOp::Adds(class.resolve(alloc, bytes, tables)?)),
            RawClassOp::Modifies(change) => {
                Ok(ClassOp::Modifies(change.resolve(alloc, bytes, tables)?))
            }
            RawClassOp::Removes(name) => {
                Ok(ClassOp::Removes(resolve_spot(bytes, *name, tables)?))
            }
        }
    }
}

impl Resolve for RawDelta {
    ghost use Rattle.dj_declarations.specs.View.{delta_view};
    ghost use Rattle.dj_parser.specs.Said.{said_delta};
    ghost use Rattle.dj_parser.specs.Resolved.{IsDeltaFor};

    type Out = DeltaDecl;

    ghost says = { λ bytes raw. said_delta (delta_view bytes raw) };

    ghost stands = { λ bytes tables raw out. IsDeltaFor tables out (delta_view bytes raw) };

    fn resolve(
        &self,
        alloc: Global,
        bytes: &[u8],
        tables: &mut Tables,
    ) -> Result<DeltaDecl, NoMemory> {
        let spot = resolve_spot(bytes, self.name, tables)?;
        let ops = resolve_each(alloc, bytes, self.ops.as_slice(), tables)?;
        Ok(DeltaDecl {
            spot,
            ops: Listed::from_vec(ops),
        })
    }
}
