//! Refused files.
ghost use Rattle.std.specs.Prelude.{◌≡◌, ◌≤◌, length, IfOk};
ghost use Rattle.dj_refusals.specs.Refusals.{IsWithin, IsNamed};
ghost use Rattle.dj_report.specs.Refusals.{IsRefusalText, refused, refused_name};

use crate::join::joined;
use crate::place::place_text;
use crate::words::{java_words, lex_place, lex_words, line_words, takes_name};
use dj_faults::LineFault;
use dj_lexer::token_at;
use dj_refusals::{JavaFault, Refusal};
use std::alloc::{AllocError as NoMemory, Global};

/// The text of a refusal of a file, with the places in its bytes as line and column. It needs that the place stands
/// in the bytes, and that a token begins there where the text tells its name, in one of the two dialects. Nothing is
/// asked of how many brackets are open. `IsRefusalText` says which text it is.
pub fn refusal_text(alloc: Global, bytes: &[u8], refusal: &Refusal) -> Result<Vec<u8>, NoMemory>
    requires small { length bytes.now ≤ 4194305 }
    requires within { IsWithin bytes.now refusal.now }
    requires named { IsNamed bytes.now refusal.now }
    ensures { IfOk result (λ text. IsRefusalText bytes.now refusal.now text.items) }
{
    match *refusal {
        Refusal::TooLong => joined(alloc, &[b"refused: longer than 4194304 bytes", b"\n"]),
        Refusal::Lex(fault) => {
            let place = place_text(alloc, bytes, lex_place(fault))?;
            refused_text(alloc, &place, lex_words(fault))
        }
        Refusal::Syntax(at) => {
            let place = place_text(alloc, bytes, at)?;
            refused_text(alloc, &place, "syntax")
        }
        Refusal::Line(fault, at) => line_text(alloc, bytes, fault, at),
        Refusal::Java(fault, at) => java_text(alloc, bytes, fault, at),
    }
}

/// The text of a fault of a line.
fn line_text(alloc: Global, bytes: &[u8], fault: LineFault, at: u32) -> Result<Vec<u8>, NoMemory>
    requires small { length bytes.now ≤ 4194305 }
    requires within { at ≤ length bytes.now }
    requires named { IsNamed bytes.now (Refusal.Line fault at) }
    ensures { IfOk result (λ text. IsRefusalText bytes.now (Refusal.Line fault at) text.items) }
{
    let place = place_text(alloc, bytes, at)?;
    if !takes_name(fault) {
        return refused_text(alloc, &place, line_words(fault));
    }
    let name = token_at(bytes, at);
    refused_name_text(alloc, &place, line_words(fault), name)
}

/// The text of a fault of a Java file.
fn java_text(alloc: Global, bytes: &[u8], fault: JavaFault, at: u32) -> Result<Vec<u8>, NoMemory>
    requires small { length bytes.now ≤ 4194305 }
    requires within { at ≤ length bytes.now }
    requires named { IsNamed bytes.now (Refusal.Java fault at) }
    ensures { IfOk result (λ text. IsRefusalText bytes.now (Refusal.Java fault at) text.items) }
{
    let place = place_text(alloc, bytes, at)?;
    let name = token_at(bytes, at);
    refused_name_text(alloc, &place, java_words(fault), name)
}

fn refused_text(alloc: Global, place: &str, words: &str) -> Result<Vec<u8>, NoMemory>
    ensures { IfOk result (λ text. text.items ≡ refused place.now words.now) }
{
    joined(
        alloc,
        &[
            b"refused at ",
            place.as_bytes(),
            b": ",
            words.as_bytes(),
            b"\n",
        ],
    )
}

fn refused_name_text(
    alloc: Global,
    place: &str,
    words: &str,
    name: &[u8],
) -> Result<Vec<u8>, NoMemory>
    ensures { IfOk result (λ text. text.items ≡ refused_name place.now words.now name.now) }
{
    joined(
        alloc,
        &[
            b"refused at ",
            place.as_bytes(),
            b": ",
            words.as_bytes(),
            b" ",
            name,
            b"\n",
        ],
    )
}
