//! Methods with one signature.
ghost use Rattle.std.specs.Prelude.{◌≡◌, All, map, length};
ghost use Rattle.dj_tree.specs.Plain.{plain_spot};
ghost use Rattle.dj_tree.specs.WellFormed.{IsKnown};
ghost use Rattle.dj_calculus.specs.Entries.{same_types as are_same_types, same_signature as is_same_signature};
ghost use Rattle.ifj_table.specs.Tables.{table_names, table_nodes};
ghost use Rattle.ifj_table.specs.Entries.{plain_signature};
ghost use Rattle.ifj_table.specs.Held.{IsMethodEntry};

use dj_names::Names;
use dj_tree::Spot;
use ifj_table::{MethodEntry, Table};

// Whether two lists of types are the same, wherever they stand.
fn same_types(names: &Names, one: &[Spot], other: &[Spot]) -> bool
    requires one { All (IsKnown names.now) one.now }
    requires other { All (IsKnown names.now) other.now }
    ensures { result ≡ are_same_types (map (plain_spot names.now) one.now) (map (plain_spot names.now) other.now) }
{
    if one.len() != other.len() {
        return false;
    }
    for (number, spot) in one.iter().enumerate() {
        if names.text(spot.name) != names.text(other[number].name) {
            return false;
        }
    }
    true
}

/// Whether two methods of a table have one signature.
pub fn same_signature(table: &Table, one: &MethodEntry, other: &MethodEntry) -> bool
    requires one { IsMethodEntry (table_names table.now) (table_nodes table.now) one.now }
    requires other { IsMethodEntry (table_names table.now) (table_nodes table.now) other.now }
    ensures { result ≡ is_same_signature (plain_signature (table_names table.now) one.now) (plain_signature (table_names table.now) other.now) }
{
    let names = table.names();
    if same_types(
        names,
        one.parameters.as_slice(),
        other.parameters.as_slice(),
    ) {
        names.text(one.result.name) == names.text(other.result.name)
    } else {
        false
    }
}
