//! The members of one class, put over those that it inherits.
ghost use Rattle.std.specs.Prelude.{◌≡◌, IfOk, OnOk, length};
ghost use Rattle.persistent_trie.specs.Versions.{IsVersion, says, Keeps};
ghost use Rattle.ifj_lineages.specs.Overlays.{field_numbers, method_numbers, Overlays};

use ifj_table::{ClassEntry, Found};
use persistent_trie::{Root, Trie};
use std::alloc::AllocError as NoMemory;

/// The version with the fields of a class put over this one.
pub fn put_fields(trie: &mut Trie<Found>, root: Root, class: &ClassEntry) -> Result<Root, NoMemory>
    requires { IsVersion trie.old root }
    ensures version { IfOk result (IsVersion trie.new) }
    ensures kept { OnOk result (Keeps trie.old trie.new) }
    ensures over { IfOk result (λ new. Overlays (field_numbers class.now.fields.items) (length class.now.fields.items) class.now.spot.name (says trie.old root) (says trie.new new)) }
{
    let mut now = root;
    for (place, field) in class.fields.iter().enumerate() {
        let found = Found {
            owner: class.spot.name,
            place,
        };
        now = trie.insert(now, field.spot.name.0, found)?;
    }
    Ok(now)
}

/// The version with the methods of a class put over this one.
pub fn put_methods(trie: &mut Trie<Found>, root: Root, class: &ClassEntry) -> Result<Root, NoMemory>
    requires { IsVersion trie.old root }
    ensures version { IfOk result (IsVersion trie.new) }
    ensures kept { OnOk result (Keeps trie.old trie.new) }
    ensures over { IfOk result (λ new. Overlays (method_numbers class.now.methods.items) (length class.now.methods.items) class.now.spot.name (says trie.old root) (says trie.new new)) }
{
    let mut now = root;
    for (place, method) in class.methods.iter().enumerate() {
        let found = Found {
            owner: class.spot.name,
            place,
        };
        now = trie.insert(now, method.spot.name.0, found)?;
    }
    Ok(now)
}
