//! Fields that hide others, and methods that override others with another signature.
ghost use Rattle.std.specs.Prelude.{◌≡◌, ◌<◌, length, Decides};
ghost use Rattle.dj_tree.specs.WellFormed.{IsKnown};
ghost use Rattle.ifj_table.specs.Tables.{plain_table, table_names, table_nodes};
ghost use Rattle.ifj_table.specs.Entries.{text_at, plain_signature};
ghost use Rattle.ifj_table.specs.Held.{IsMethodEntry, IsClassEntry};
ghost use Rattle.ifj_lineages.specs.Lineages.{AreLineages};
ghost use Rattle.ifj_lineages.specs.Overrides.{Differs};
ghost use Rattle.ifj_typing.specs.Declarations.{HiddenField, OverrideDiffers, HiddenFields, OverridesDiffer, BreaksMembers, BreaksInheritance};
ghost use Rattle.ifj_typing.specs.Kinds.{text_of};
ghost use Rattle.ifj_typing.specs.Least.{IsLeastOf};

use crate::kind::instance;
use crate::least::lesser;
use crate::lookups::field_type;
use dj_names::Name;
use dj_tree::Instance;
use ifj_lineages::{Lineages, owned_method, same_signature, turns};
use ifj_table::{ClassEntry, FieldEntry, MethodEntry, Table};

// A field whose name a class above has for a field too.
fn hidden_fault(
    table: &Table,
    lineages: &Lineages,
    class: &ClassEntry,
    field: FieldEntry,
) -> Option<Instance>
    requires lineages { AreLineages table.now lineages.now }
    requires parent { IsKnown (table_names table.now) class.now.parent }
    requires field { IsKnown (table_names table.now) field.spot }
    ensures { IsLeastOf (HiddenField table.now class.now field) result }
{
    match field_type(table, lineages, class.parent.name, field.spot.name) {
        Some(_) => Some(instance(12, field.spot.at)),
        None => None,
    }
}

// Whether a class, or one above it, has the method with another signature. It goes up the chain.
fn finds_other(table: &Table, lineages: &Lineages, class: Name, method: &MethodEntry) -> bool
    requires lineages { AreLineages table.now lineages.now }
    requires class { class.0 < length (table_names table.now) }
    requires method { IsMethodEntry (table_names table.now) (table_nodes table.now) method.now }
    ensures { Decides result (Differs (plain_table table.now) (text_of (table_names table.now) class) (text_at (table_names table.now) method.now.spot)
        (plain_signature (table_names table.now) method.now)) }
{
    let mut at = class;
    'up: for _turn in 0..table.classes().len() {
        let owned = match owned_method(table, lineages, at, method.spot.name) {
            Some(owned) => owned,
            None => return false,
        };
        if !same_signature(table, method, owned.method) {
            return true;
        }
        at = owned.class.parent.name;
    }
    false
}

// Whether a class, or one above it, has the method with another signature. It goes up only where the class has no
// lineage.
fn differs_from(table: &Table, lineages: &Lineages, class: Name, method: &MethodEntry) -> bool
    requires lineages { AreLineages table.now lineages.now }
    requires class { class.0 < length (table_names table.now) }
    requires method { IsMethodEntry (table_names table.now) (table_nodes table.now) method.now }
    ensures { Decides result (Differs (plain_table table.now) (text_of (table_names table.now) class) (text_at (table_names table.now) method.now.spot)
        (plain_signature (table_names table.now) method.now)) }
{
    if turns(table, lineages, class, method) {
        return true;
    }
    match lineages.clashes(table, class, method.spot.name) {
        Some(clashes) => clashes,
        None => finds_other(table, lineages, class, method),
    }
}

// A method that a class above has with another signature.
fn override_fault(
    table: &Table,
    lineages: &Lineages,
    class: &ClassEntry,
    method: &MethodEntry,
) -> Option<Instance>
    requires lineages { AreLineages table.now lineages.now }
    requires parent { IsKnown (table_names table.now) class.now.parent }
    requires method { IsMethodEntry (table_names table.now) (table_nodes table.now) method.now }
    ensures { IsLeastOf (OverrideDiffers table.now class.now method.now) result }
{
    if differs_from(table, lineages, class.parent.name, method) {
        Some(instance(13, method.spot.at))
    } else {
        None
    }
}

// The least instance among the fields of a class.
fn fields_fault(table: &Table, lineages: &Lineages, class: &ClassEntry) -> Option<Instance>
    requires lineages { AreLineages table.now lineages.now }
    requires class { IsClassEntry (table_names table.now) (table_nodes table.now) class.now }
    ensures { IsLeastOf (HiddenFields table.now class.now) result }
{
    let mut least = None;
    for field in &class.fields {
        least = lesser(least, hidden_fault(table, lineages, class, *field));
    }
    least
}

// The least instance among the methods of a class.
fn methods_fault(table: &Table, lineages: &Lineages, class: &ClassEntry) -> Option<Instance>
    requires lineages { AreLineages table.now lineages.now }
    requires class { IsClassEntry (table_names table.now) (table_nodes table.now) class.now }
    ensures { IsLeastOf (OverridesDiffer table.now class.now) result }
{
    let mut least = None;
    for method in &class.methods {
        least = lesser(least, override_fault(table, lineages, class, method));
    }
    least
}

// The least instance among the members of a class.
fn members_fault(table: &Table, lineages: &Lineages, class: &ClassEntry) -> Option<Instance>
    requires lineages { AreLineages table.now lineages.now }
    requires class { IsClassEntry (table_names table.now) (table_nodes table.now) class.now }
    ensures { IsLeastOf (BreaksMembers table.now class.now) result }
{
    let fields = fields_fault(table, lineages, class);
    let methods = methods_fault(table, lineages, class);
    lesser(fields, methods)
}

/// The least instance of a rule of layer 4: a hidden field, an override with another signature. It takes no memory.
pub fn inheritance_fault(table: &Table, lineages: &Lineages) -> Option<Instance>
    requires { AreLineages table.now lineages.now }
    ensures { IsLeastOf (BreaksInheritance table.now) result }
{
    let mut least = None;
    for class in table.classes() {
        least = lesser(least, members_fault(table, lineages, class));
    }
    least
}
