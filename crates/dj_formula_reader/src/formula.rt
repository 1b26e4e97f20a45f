//! Formulas.
ghost use Rattle.std.specs.Prelude.{◌≤◌, length, IfOk};
ghost use Rattle.dj_lexer.specs.Symbols.{symbols_of};
ghost use Rattle.dj_reader.specs.Answering.{Answers};
ghost use Rattle.dj_formula_reader.specs.Machine.{formula_reading};
ghost use Rattle.dj_formula_reader.specs.View.{forms_of};

use crate::machine::{FormulaMark, Machine, Turn};
use crate::steps::step;
use dj_lexer::Token;
use dj_reader::{ReadError, Reading, Stack};
use std::alloc::Global;

/// Reads the formula at the front of the tokens of a text, up to the `;` behind it, which stays. The answer
/// is its nodes in post-order, or the tokens from the first on that can't stand where it stands: what
/// `formula_reading` gives of the symbols.
pub fn read_formula<'a>(
    alloc: Global,
    bytes: &[u8],
    tokens: &'a [Token],
) -> Reading<'a, Vec<FormulaMark>>
    ensures answers { Answers bytes.now (λ marks. forms_of bytes.now marks.items) result
        (formula_reading (symbols_of bytes.now tokens.now)) }
    ensures fewer { IfOk result (λ read. length read.1.now ≤ length tokens.now) }
{
    let mut machine = Machine {
        frames: Stack::new(alloc),
        marks: Vec::new(alloc),
        is_waiting: true,
    };
    let mut rest = tokens;
    'tokens: while let [token, behind @ ..] = rest {
        match step(bytes, &mut machine, *token)? {
            Turn::Goes => rest = behind,
            Turn::Ends => return Ok((machine.marks, rest)),
            Turn::Stops => return Err(ReadError::Syntax(rest)),
        }
    }
    Err(ReadError::Syntax(rest))
}
