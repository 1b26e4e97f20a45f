//! Expressions.
ghost use Rattle.std.specs.Prelude.{◌<◌, ◌^◌, length};
ghost use Rattle.dj_lexer.specs.Symbols.{symbols_of};
ghost use Rattle.dj_reader.specs.Answering.{Answers};
ghost use Rattle.dj_expr_reader.specs.Machine.{expr_reading};
ghost use Rattle.dj_expr_reader.specs.View.{plain_marks};

use crate::machine::{ExprMark, Machine, Mode, Turn};
use crate::steps::step;
use dj_lexer::{Dialect, Token};
use dj_reader::{ReadError, Reading, Stack};
use std::alloc::Global;

/// Reads the expression at the front of the tokens of a text, up to the `;` behind it, which stays. The answer
/// is its nodes in post-order, or the tokens from the first on that can't stand where it stands: what
/// `expr_reading` gives of the symbols.
pub fn read_expr<'a>(
    alloc: Global,
    bytes: &[u8],
    dialect: Dialect,
    tokens: &'a [Token],
) -> Reading<'a, Vec<ExprMark>>
    requires { length tokens.now < 2 ^ 32 }
    ensures { Answers bytes.now (λ marks. plain_marks bytes.now marks.items) result
        (expr_reading dialect (symbols_of bytes.now tokens.now)) }
{
    let mut machine = Machine {
        mode: Mode::Waiting,
        frames: Stack::new(alloc),
        marks: Vec::new(alloc),
    };
    let mut rest = tokens;
    'tokens: while let [token, behind @ ..] = rest {
        match step(bytes, dialect, &mut machine, *token)? {
            Turn::Goes => rest = behind,
            Turn::Ends => return Ok((machine.marks, rest)),
            Turn::Stops => return Err(ReadError::Syntax(rest)),
        }
    }
    Err(ReadError::Syntax(rest))
}
