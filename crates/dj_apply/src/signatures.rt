//! Signatures of methods that a table has and of methods that a source declares.
ghost use Rattle.std.specs.Prelude.{◌≡◌, All, map};
ghost use Rattle.std.specs.Str.{bytes_eq};
ghost use Rattle.dj_tree.specs.Plain.{plain_spot, plain_method};
ghost use Rattle.dj_tree.specs.WellFormed.{IsKnown, IsField, IsMethod};
ghost use Rattle.dj_calculus.specs.Entries.{same_types, same_signature, signature_of};
ghost use Rattle.ifj_table.specs.Entries.{plain_signature};
ghost use Rattle.ifj_table.specs.Held.{IsMethodEntry};
ghost use Rattle.ifj_table.specs.Tables.{table_names, table_nodes};

use dj_names::Names;
use dj_tree::{FieldDecl, Method, Source, Spot};
use ifj_table::{MethodEntry, Table};

// Whether two names, each in its own table of names, have one text.
fn same_text(names: &Names, one: Spot, others: &Names, other: Spot) -> bool
    requires one_known { IsKnown names.now one }
    requires other_known { IsKnown others.now other }
    ensures { result ≡ bytes_eq (plain_spot names.now one).text (plain_spot others.now other).text }
{
    names.text(one.name) == others.text(other.name)
}

// Whether these are the types of these parameters.
fn same_types_as(names: &Names, types: &[Spot], others: &Names, parameters: &[FieldDecl]) -> bool
    requires types_known { All (IsKnown names.now) types.now }
    requires parameters_known { All (IsField others.now) parameters.now }
    ensures { result ≡ same_types (map (plain_spot names.now) types.now) (map (λ p. plain_spot others.now p.kind) parameters.now) }
{
    if types.len() != parameters.len() {
        return false;
    }
    for at in 0..types.len() {
        if !same_text(names, types[at], others, parameters[at].kind) {
            return false;
        }
    }
    true
}

// Whether a method of the table has the signature of a method of the source.
pub fn has_signature(table: &Table, old: &MethodEntry, source: &Source, method: &Method) -> bool
    requires held { IsMethodEntry (table_names table.now) (table_nodes table.now) old.now }
    requires known { IsMethod source.now.names source.now.exprs method.now }
    ensures { result ≡ same_signature (plain_signature (table_names table.now) old.now) (signature_of (plain_method source.now.names source.now.exprs method.now)) }
{
    let names = table.names();
    let types = old.parameters.as_slice();
    let parameters = method.parameters.as_slice();
    if !same_types_as(names, types, &source.names, parameters) {
        return false;
    }
    same_text(names, old.result, &source.names, method.result)
}
