//! The pieces of words.
ghost use Rattle.std.specs.Prelude.{◌≡◌, ◌==◌, map, IfOk};
ghost use Rattle.std.specs.List.{slice_split};
ghost use Rattle.dj_calculus.specs.Configurations.{pieces_of};

use std::alloc::{AllocError as NoMemory, Global};

/// The pieces of a configuration word or an order word: none of `-`, and else what stands between its
/// commas. `pieces_of` is the definition.
pub fn pieces(alloc: Global, word: &str) -> Result<Vec<&str>, NoMemory>
    ensures { IfOk result (λ pieces. map (λ piece. piece.now) pieces.items ≡ pieces_of word.now) }
{
    if word == "-" {
        return Ok(Vec::new(alloc));
    }
    cut(alloc, word)
}

// What stands between the commas.
fn cut(alloc: Global, word: &str) -> Result<Vec<&str>, NoMemory>
    ensures { IfOk result (λ pieces. map (λ piece. piece.now) pieces.items ≡ slice_split (λ byte. byte == 44) word.now) }
{
    word.split(',').collect(alloc)
}
