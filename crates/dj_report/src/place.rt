//! Places in words.
ghost use Rattle.std.specs.Prelude.{◌≡◌, ◌≤◌, ◌++◌, length, codes, decimal, string_bytes, IfOk};
ghost use Rattle.dj_report.specs.Places.{IsPlaceText};

use dj_names::place_of;
use std::alloc::{AllocError as NoMemory, Global};

/// Line and column of a byte offset.
pub fn place_text(alloc: Global, bytes: &[u8], at: u32) -> Result<String, NoMemory>
    requires small { length bytes.now ≤ 4194305 }
    requires within { at ≤ length bytes.now }
    ensures { IfOk result (λ text. IsPlaceText bytes.now at (string_bytes text)) }
{
    let place = place_of(bytes, at);
    line_and_column(alloc, place.line, place.column)
}

fn line_and_column(alloc: Global, line: u32, column: u32) -> Result<String, NoMemory>
    ensures { IfOk result (λ text. string_bytes text ≡ decimal line ++ (codes ":" ++ decimal column)) }
{
    format!(in alloc; "{line}:{column}")
}
