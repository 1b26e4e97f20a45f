//! Declarations from their tokens: the names and nodes that they need go into tables.
ghost use Rattle.std.specs.Prelude.{ℕ, List, IfOk, OnOk};
ghost use Rattle.std.specs.List.{AllZip};
ghost use Rattle.dj_names.specs.Texts.{Text};
ghost use Rattle.dj_parser.specs.Said.{said_each};
ghost use Rattle.dj_parser.specs.Growth.{CanSay, Grew, Lasts};
ghost use Rattle.dj_parser.specs.declared.tables.Tables.{Tables};

use crate::tables::Tables;
use std::alloc::{AllocError as NoMemory, Global};

/// A declaration as tokens of a text.
///
/// - `says bytes raw`: the texts that it says.
/// - `stands bytes tables raw out`: the out stands for what the declaration does.
pub trait Resolve: Drop {
    /// The declaration with names and nodes by number.
    type Out: Drop;

    ghost says: { List ℕ → Self → List Text };

    ghost stands: { List ℕ → Tables → Self → Self.Out → Type 0 };

    /// The declaration with its names and nodes in the tables.
    fn resolve(
        &self,
        alloc: Global,
        bytes: &[u8],
        tables: &mut Tables,
    ) -> Result<Self::Out, NoMemory>
        requires { CanSay tables.old (says bytes.now self.now) }
        ensures grew { OnOk result (Grew tables.old tables.new (says bytes.now self.now)) }
        ensures stands { IfOk result (λ out. Lasts tables.new (λ t. stands bytes.now t self.now out)) };
}

/// Declarations of one kind, in order.
pub fn resolve_each<R: Resolve>(
    alloc: Global,
    bytes: &[u8],
    raws: &[R],
    tables: &mut Tables,
) -> Result<Vec<R::Out>, NoMemory>
    requires { CanSay tables.old (said_each (R.says bytes.now) raws.now) }
    ensures grew { OnOk result (Grew tables.old tables.new (said_each (R.says bytes.now) raws.now)) }
    ensures stand { IfOk result (λ outs. Lasts tables.new (λ t. AllZip (R.stands bytes.now t) raws.now outs.items)) }
{
    let mut outs = Vec::new(alloc);
    for raw in raws {
        let out = raw.resolve(alloc, bytes, tables)?;
        outs.push(out)?;
    }
    Ok(outs)
}
