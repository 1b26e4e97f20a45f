//! Names from tokens.
ghost use Rattle.std.specs.Prelude.{◌≡◌, ◌+◌, ◌-◌, ◌^◌, ◌<◌, ◌≤◌, length, slice_range, IfOk, OnErr};
ghost use Rattle.std.specs.Str.{IsUtf8};
ghost use Rattle.dj_names.specs.Texts.{Extends};
ghost use Rattle.dj_lexer.specs.Symbols.{symbol_of};
ghost use Rattle.dj_reader.specs.Terminals.{spot_of};
ghost use Rattle.dj_tree.specs.Plain.{plain_spot};
ghost use Rattle.dj_tree.specs.WellFormed.{IsKnown};

use dj_lexer::Token;
use dj_names::Names;
use dj_tree::Spot;
use std::alloc::AllocError as NoMemory;

// The text of a token as a `str`.
fn utf8_text(bytes: &[u8], token: Token) -> &str
    requires { IsUtf8 (slice_range bytes.now token.from token.to) }
    ensures { result.now ≡ slice_range bytes.now token.from token.to }
{
    str::from_utf8(token.text(bytes)).unwrap()
}

/// The name that a token of a text says, which goes into the table where it is new, with the byte offset of the
/// token. The text of the token is UTF-8. Without memory the table is as before.
pub fn add_spot(names: &mut Names, bytes: &[u8], token: Token) -> Result<Spot, NoMemory>
    requires text { IsUtf8 (slice_range bytes.now token.from token.to) }
    requires room { length names.old < 2 ^ 32 - 1 }
    ensures spot { IfOk result (λ s. plain_spot names.new s ≡ spot_of (symbol_of bytes.now token)) }
    ensures known { IfOk result (IsKnown names.new) }
    ensures err { OnErr result (names.new ≡ names.old) }
    ensures numbers { Extends names.old names.new }
    ensures few { length names.new ≤ length names.old + 1 }
{
    let name = names.add(utf8_text(bytes, token))?;
    Ok(Spot {
        name,
        at: token.from,
    })
}
