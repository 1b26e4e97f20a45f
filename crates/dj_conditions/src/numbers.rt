//! Names by their numbers.

ghost use Rattle.std.specs.Prelude.{◌≡◌, ◌≤◌, length, nat_eq};
ghost use Rattle.std.specs.List.{position_or_len};

use indexmap::IndexSet;

/// The place of a name among names, from 0, and how many names there are where it isn't among them. A
/// name is told by its number in the table of names.
pub fn number_in(names: &IndexSet<u32>, name: u32) -> u32
    requires { length names.now.keys ≤ 4294967295 }
    ensures { result ≡ position_or_len (nat_eq name) names.now.keys }
{
    match names.get_index_of(&name) {
        Some(number) => number as u32,
        None => names.len() as u32,
    }
}
