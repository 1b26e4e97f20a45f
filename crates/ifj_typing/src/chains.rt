//! Which chains of superclasses never end. Each class is looked at once.
ghost use Rattle.std.specs.Prelude.{◌≡◌, ◌+◌, ◌<◌, length, Decides, IfOk};
ghost use Rattle.dj_calculus.specs.TableRules.{IsEndless};
ghost use Rattle.ifj_table.specs.Tables.{plain_table, table_classes};
ghost use Rattle.ifj_typing.specs.Chains.{class_text, AreTold, AreChains, AreWalked};

use ifj_table::Table;
use std::alloc::{AllocError as NoMemory, Global};

// Goes up from a class, until it comes to one that a walk went past already, or the superclass is none of the table's.
// Answers whether the chain never ends. `endless` tells it of the walks before, and `walks` of each class which walk came
// to it first. The walk has the number of the class that it starts from.
fn go_up(table: &Table, walks: &mut Vec<Option<usize>>, endless: &[bool], start: usize) -> bool
    requires start { start < length (table_classes table.now) }
    requires count { length endless.now ≡ start }
    requires told { AreTold table.now endless.now }
    requires walked { AreWalked table.now walks.old.items start }
    ensures walked { AreWalked table.now walks.new.items (start + 1) }
    ensures endless { Decides result (IsEndless (plain_table table.now) (class_text table.now start)) }
{
    let mut at = start;
    'up: while walks[at].is_none() {
        walks[at] = Some(start);
        match table.class_number(table.classes()[at].parent.name) {
            Some(next) => at = next,
            None => return false,
        }
    }
    match walks[at] {
        Some(walk) => walk == start || endless[walk],
        None => unreachable!(),
    }
}

/// Whether the chain of superclasses never ends, of each class by its number.
pub fn endless_chains(alloc: Global, table: &Table) -> Result<Vec<bool>, NoMemory>
    ensures { IfOk result (λ endless. AreChains table.now endless.items) }
{
    let count = table.classes().len();
    let mut walks = vec![in alloc; None; count]?;
    let mut endless = Vec::new(alloc);
    'starts: for start in 0..count {
        let never_ends = go_up(table, &mut walks, endless.as_slice(), start);
        endless.push(never_ends)?;
    }
    Ok(endless)
}
