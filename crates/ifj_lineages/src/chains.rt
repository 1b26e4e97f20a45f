//! The order in which classes are looked at: each one after its superclass.
ghost use Rattle.std.specs.Prelude.{◌≡◌, ◌<◌, All, length, IfOk};
ghost use Rattle.ifj_table.specs.Tables.{table_classes};

use ifj_table::Table;
use std::alloc::{AllocError as NoMemory, Global};

/// The numbers of the classes from this one on up, as far as none was seen before. Then they are seen.
pub fn go_up(
    alloc: Global,
    table: &Table,
    seen: &mut Vec<bool>,
    start: usize,
) -> Result<Vec<usize>, NoMemory>
    requires start { start < length (table_classes table.now) }
    requires all { length seen.old.items ≡ length (table_classes table.now) }
    ensures all { length seen.new.items ≡ length (table_classes table.now) }
    ensures within { IfOk result (λ path. All (λ number. number < length (table_classes table.now)) path.items) }
{
    let mut path = Vec::new(alloc);
    let mut at = start;
    'up: while !seen[at] {
        seen[at] = true;
        path.push(at)?;
        match table.class_number(table.classes()[at].parent.name) {
            Some(next) => at = next,
            None => return Ok(path),
        }
    }
    Ok(path)
}
