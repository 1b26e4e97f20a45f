//! Methods with the classes that have them.
ghost use Rattle.std.specs.Prelude.{◌≡◌, ◌<◌, length, MatchOption};
ghost use Rattle.ifj_table.specs.Tables.{table_names, name_text};
ghost use Rattle.ifj_table.specs.Lookups.{HasNoMethod};
ghost use Rattle.ifj_lineages.specs.Lineages.{AreLineages};
ghost use Rattle.ifj_lineages.specs.Owned.{IsOwned};

use crate::lineages::Lineages;
use dj_names::Name;
use ifj_table::{ClassEntry, MethodEntry, Table};

/// A method with the class that has it.
#[derive(Drop)]
pub struct Owned<'a> {
    pub class: &'a ClassEntry,
    pub method: &'a MethodEntry,
}

/// The method of this name that a class has or inherits, and the class that has it.
pub fn owned_method<'a>(
    table: &'a Table,
    lineages: &Lineages,
    class: Name,
    method: Name,
) -> Option<Owned<'a>>
    requires lineages { AreLineages table.now lineages.now }
    requires class { class.0 < length (table_names table.now) }
    requires method { method.0 < length (table_names table.now) }
    ensures { MatchOption result
        (HasNoMethod table.now (name_text table.now class.0) (name_text table.now method.0))
        (λ owned. IsOwned table.now (name_text table.now class.0) (name_text table.now method.0) owned.class.now owned.method.now) }
{
    let found = match lineages.find_method(table, class, method) {
        Some(found) => found,
        None => return None,
    };
    let owner = match table.class_of(found.owner) {
        Some(owner) => owner,
        None => return None,
    };
    Some(Owned {
        class: owner,
        method: &owner.methods[found.place],
    })
}
