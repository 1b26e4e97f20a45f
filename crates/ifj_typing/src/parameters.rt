//! The types of parameters by the numbers of their names.
ghost use Rattle.std.specs.Prelude.{◌≡◌, length, map, IfOk};
ghost use Rattle.ifj_table.specs.Tables.{table_names, table_nodes};
ghost use Rattle.ifj_table.specs.Held.{IsBody, IsMethodEntry};
ghost use Rattle.ifj_typing.specs.Parameters.{TellsTypes, spot_texts};

use dj_names::{Name, names_are_distinct};
use ifj_table::{Body, MethodEntry, Table};
use indexmap::IndexMap;
use std::alloc::{AllocError as NoMemory, Global};

/// The type of each parameter of a body, by the number of its name. Of parameters of one name it is that of the last.
pub fn parameter_types(
    alloc: Global,
    table: &Table,
    method: &MethodEntry,
    body: &Body,
) -> Result<IndexMap<u32, Name>, NoMemory>
    requires method { IsMethodEntry (table_names table.now) (table_nodes table.now) method.now }
    requires body { IsBody (table_names table.now) (table_nodes table.now) (length method.now.parameters) body.now }
    ensures { IfOk result (TellsTypes (table_names table.now) (spot_texts (table_names table.now) body.now.parameters) (spot_texts (table_names table.now) method.now.parameters)) }
{
    names_are_distinct(table.names());
    let types = method.parameters.as_slice();
    let mut found = IndexMap::new(alloc);
    for (number, name) in body.parameters.as_slice().iter().enumerate() {
        found.insert(name.name.0, types[number].name)?;
    }
    Ok(found)
}
