//! What a table says of the types of expressions.
ghost use Rattle.std.specs.Prelude.{◌≡◌, ◌<◌, length, Decides, MatchOption, IfSome};
ghost use Rattle.dj_calculus.specs.Tables.{heading_of};
ghost use Rattle.dj_calculus.specs.Subclasses.{Exists, class_kind, Below, FieldOf, MethodOf};
ghost use Rattle.dj_calculus.specs.BodyRules.{HasField, HasMethod};
ghost use Rattle.ifj_table.specs.Tables.{plain_table, table_names, table_nodes};
ghost use Rattle.ifj_table.specs.Entries.{plain_signature};
ghost use Rattle.ifj_table.specs.Held.{IsMethodEntry};
ghost use Rattle.ifj_lineages.specs.Lineages.{AreLineages};
ghost use Rattle.ifj_typing.specs.Kinds.{text_of, plain_kind, IsKnownKind};

use crate::kind::Kind;
use dj_names::Name;
use ifj_lineages::{Lineages, owned_method};
use ifj_table::{MethodEntry, Table};

/// Whether a class exists: it is in the table, or is `Object`.
pub fn exists(table: &Table, class: Name) -> bool
    requires { class.0 < length (table_names table.now) }
    ensures { Decides result (Exists (plain_table table.now) (text_of (table_names table.now) class)) }
{
    if table.names().text(class) == "Object" {
        return true;
    }
    match table.class_of(class) {
        Some(_) => true,
        None => false,
    }
}

/// Whether a type is below a class.
pub fn is_below(table: &Table, lineages: &Lineages, kind: Kind, class: Name) -> bool
    requires lineages { AreLineages table.now lineages.now }
    requires kind { IsKnownKind (table_names table.now) kind }
    requires class { class.0 < length (table_names table.now) }
    ensures { Decides result (Below (plain_table table.now) (plain_kind (table_names table.now) kind) (class_kind (text_of (table_names table.now) class))) }
{
    match kind {
        Kind::Null => true,
        Kind::Class(lower) => lineages.is_subclass(table, lower, class),
    }
}

/// Whether a class is below a type.
pub fn is_above(table: &Table, lineages: &Lineages, kind: Kind, class: Name) -> bool
    requires lineages { AreLineages table.now lineages.now }
    requires kind { IsKnownKind (table_names table.now) kind }
    requires class { class.0 < length (table_names table.now) }
    ensures { Decides result (Below (plain_table table.now) (class_kind (text_of (table_names table.now) class)) (plain_kind (table_names table.now) kind)) }
{
    match kind {
        Kind::Null => false,
        Kind::Class(upper) => lineages.is_subclass(table, class, upper),
    }
}

/// The type of the field of this name that a class has or inherits.
pub fn field_type(table: &Table, lineages: &Lineages, class: Name, field: Name) -> Option<Name>
    requires lineages { AreLineages table.now lineages.now }
    requires class { class.0 < length (table_names table.now) }
    requires field { field.0 < length (table_names table.now) }
    ensures found { MatchOption result
        (¬ (HasField (plain_table table.now) (text_of (table_names table.now) class) (text_of (table_names table.now) field)))
        (λ kind. FieldOf (plain_table table.now) (text_of (table_names table.now) class) (text_of (table_names table.now) field) (text_of (table_names table.now) kind)) }
    ensures known { IfSome result (λ kind. kind.0 < length (table_names table.now)) }
{
    let found = match lineages.find_field(table, class, field) {
        Some(found) => found,
        None => return None,
    };
    let owner = match table.class_of(found.owner) {
        Some(owner) => owner,
        None => return None,
    };
    Some(owner.fields[found.place].kind.name)
}

/// The method of this name that a class has or inherits.
pub fn method_of<'a>(
    table: &'a Table,
    lineages: &Lineages,
    class: Name,
    method: Name,
) -> Option<&'a MethodEntry>
    requires lineages { AreLineages table.now lineages.now }
    requires class { class.0 < length (table_names table.now) }
    requires method { method.0 < length (table_names table.now) }
    ensures found { MatchOption result
        (¬ (HasMethod (plain_table table.now) (text_of (table_names table.now) class) (text_of (table_names table.now) method)))
        (λ entry. MethodOf (plain_table table.now) (text_of (table_names table.now) class) (text_of (table_names table.now) method)
        (heading_of (plain_signature (table_names table.now) entry.now))) }
    ensures held { IfSome result (λ entry. IsMethodEntry (table_names table.now) (table_nodes table.now) entry.now) }
{
    match owned_method(table, lineages, class, method) {
        Some(owned) => Some(owned.method),
        None => None,
    }
}
