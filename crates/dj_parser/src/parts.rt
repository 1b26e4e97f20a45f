//! Parts and their items.
ghost use Rattle.std.specs.Prelude.{IfOk, OnOk};
ghost use Rattle.dj_declarations.specs.View.{item_view};
ghost use Rattle.dj_parser.specs.Growth.{CanSay, Grew, Lasts};
ghost use Rattle.dj_parser.specs.Said.{said_condition};
ghost use Rattle.dj_parser.specs.Resolved.{IsConditionFor};

use crate::leaves::{resolve_formula, resolve_optional, resolve_spot};
use crate::resolve::{Resolve, resolve_each};
use crate::tables::Tables;
use arena_walk::NodeId;
use dj_declarations::{RawItem, RawPart};
use dj_tree::{Item, Listed, PartDecl};
use std::alloc::{AllocError as NoMemory, Global};

/// The condition of an item.
fn resolve_condition(
    bytes: &[u8],
    item: &RawItem,
    tables: &mut Tables,
) -> Result<Option<NodeId>, NoMemory>
    requires { CanSay tables.old (said_condition (item_view bytes.now item.now).condition) }
    ensures grew { OnOk result (Grew tables.old tables.new (said_condition (item_view bytes.now item.now).condition)) }
    ensures stands { IfOk result (λ out. Lasts tables.new (λ t. IsConditionFor t out (item_view bytes.now item.now).condition)) }
{
    match &item.when {
        Some(nodes) => Ok(Some(resolve_formula(bytes, nodes, tables)?)),
        None => Ok(None),
    }
}

impl Resolve for RawItem {
    ghost use Rattle.dj_declarations.specs.View.{item_view};
    ghost use Rattle.dj_parser.specs.Said.{said_item};
    ghost use Rattle.dj_parser.specs.Resolved.{IsItemFor};

    type Out = Item;

    ghost says = { λ bytes raw. said_item (item_view bytes raw) };

    ghost stands = { λ bytes tables raw out. IsItemFor tables out (item_view bytes raw) };

    fn resolve(&self, _alloc: Global, bytes: &[u8], tables: &mut Tables) -> Result<Item, NoMemory> {
        let delta = resolve_spot(bytes, self.delta, tables)?;
        let when = resolve_condition(bytes, self, tables)?;
        Ok(Item { delta, when })
    }
}

impl Resolve for RawPart {
    ghost use Rattle.dj_declarations.specs.View.{part_view};
    ghost use Rattle.dj_parser.specs.Said.{said_part};
    ghost use Rattle.dj_parser.specs.Resolved.{IsPartFor};

    type Out = PartDecl;

    ghost says = { λ bytes raw. said_part (part_view bytes raw) };

    ghost stands = { λ bytes tables raw out. IsPartFor tables out (part_view bytes raw) };

    fn resolve(
        &self,
        alloc: Global,
        bytes: &[u8],
        tables: &mut Tables,
    ) -> Result<PartDecl, NoMemory> {
        let spot = resolve_spot(bytes, self.name, tables)?;
        let after = resolve_optional(bytes, self.after, tables)?;
        let items = resolve_each(alloc, bytes, self.items.as_slice(), tables)?;
        Ok(PartDecl {
            spot,
            after,
            items: Listed::from_vec(items),
        })
    }
}
