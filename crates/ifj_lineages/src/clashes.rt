//! Methods that override others with another signature.
ghost use Rattle.std.specs.Prelude.{◌≡◌, ◌⊎◌, ◌<◌, ◌^◌, ◌↔◌, ℕ, Contains, is_some, IsSome, IfOk, OnOk, Decides, length};
ghost use Rattle.persistent_trie.specs.Versions.{IsVersion, says, Keeps};
ghost use Rattle.ifj_table.specs.Entries.{text_at, plain_signature};
ghost use Rattle.ifj_table.specs.Held.{IsMethodEntry, IsClassEntry};
ghost use Rattle.ifj_table.specs.Tables.{plain_table, table_names, table_nodes, name_text};
ghost use Rattle.ifj_lineages.specs.Lineages.{AreLineages};
ghost use Rattle.ifj_lineages.specs.Overrides.{Turns, TurnsAmong};

use crate::lineages::Lineages;
use crate::owned::owned_method;
use crate::signatures::same_signature;
use dj_names::Name;
use ifj_table::{ClassEntry, MethodEntry, Table};
use persistent_trie::{Root, Trie};
use std::alloc::{AllocError as NoMemory, Global};

/// Whether the method of this name that a class has or inherits has another signature than this method. It takes no
/// memory.
pub fn turns(table: &Table, lineages: &Lineages, class: Name, method: &MethodEntry) -> bool
    requires lineages { AreLineages table.now lineages.now }
    requires class { class.0 < length (table_names table.now) }
    requires method { IsMethodEntry (table_names table.now) (table_nodes table.now) method.now }
    ensures { Decides result (Turns (plain_table table.now) (name_text table.now class.0) (text_at (table_names table.now) method.now.spot)
        (plain_signature (table_names table.now) method.now)) }
{
    match owned_method(table, lineages, class, method.spot.name) {
        Some(owned) => !same_signature(table, method, owned.method),
        None => false,
    }
}

/// The names of the methods of a class that override one with another signature.
pub fn turning_names(
    alloc: Global,
    table: &Table,
    lineages: &Lineages,
    class: &ClassEntry,
) -> Result<Vec<u32>, NoMemory>
    requires lineages { AreLineages table.now lineages.now }
    requires class { IsClassEntry (table_names table.now) (table_nodes table.now) class.now }
    ensures { IfOk result (λ names. (key : ℕ) → Contains names.items key ↔ TurnsAmong table.now class.now (length class.now.methods.items) key) }
{
    let mut names = Vec::new(alloc);
    for method in &class.methods {
        if turns(table, lineages, class.parent.name, method) {
            names.push(method.spot.name.0)?;
        }
    }
    Ok(names)
}

/// The version with these names beside those that it has.
pub fn put_names(trie: &mut Trie<()>, root: Root, names: &[u32]) -> Result<Root, NoMemory>
    requires { IsVersion trie.old root }
    ensures version { IfOk result (IsVersion trie.new) }
    ensures kept { OnOk result (Keeps trie.old trie.new) }
    ensures over { IfOk result (λ new. (key : ℕ) → key < 2 ^ 32
        → Decides (is_some (says trie.new new key)) (IsSome (says trie.old root key) ⊎ Contains names.now key)) }
{
    let mut now = root;
    for name in names {
        now = trie.insert(now, *name, ())?;
    }
    Ok(now)
}
