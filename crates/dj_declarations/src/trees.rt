//! Formulas and expressions, as their nodes in post-order.
ghost use Rattle.std.specs.Prelude.{◌<◌, ◌≤◌, ◌^◌, length, IfOk};
ghost use Rattle.dj_lexer.specs.Symbols.{symbols_of};
ghost use Rattle.dj_reader.specs.Answering.{Answers};
ghost use Rattle.dj_formula_reader.specs.Laws.{formula_trees};
ghost use Rattle.dj_expr_reader.specs.Laws.{expr_trees};
ghost use Rattle.dj_declarations.specs.View.{formula_view, expr_view};

use dj_expr_reader::{expressions_are_read, read_expr};
use dj_formula_reader::{formulas_are_read, read_formula};
use dj_lexer::{Dialect, Token};
use dj_nodes::{ExprNodes, FormulaNodes};
use dj_reader::Reading;
use std::alloc::Global;

/// A formula, up to the `;` behind it.
pub fn formula<'a>(alloc: Global, bytes: &[u8], tokens: &'a [Token]) -> Reading<'a, FormulaNodes>
    ensures answers { Answers bytes.now (formula_view bytes.now) result (formula_trees (symbols_of bytes.now tokens.now)) }
    ensures fewer { IfOk result (λ x. length x.1.now ≤ length tokens.now) }
{
    formulas_are_read();
    let (marks, rest) = read_formula(alloc, bytes, tokens)?;
    Ok((FormulaNodes::new(marks), rest))
}

/// An expression, up to the `;` behind it.
pub fn expression<'a>(
    alloc: Global,
    bytes: &[u8],
    dialect: Dialect,
    tokens: &'a [Token],
) -> Reading<'a, ExprNodes>
    requires { length tokens.now < 2 ^ 32 }
    ensures answers { Answers bytes.now (expr_view bytes.now) result (expr_trees dialect (symbols_of bytes.now tokens.now)) }
    ensures fewer { IfOk result (λ x. length x.1.now ≤ length tokens.now) }
{
    expressions_are_read();
    let (marks, rest) = read_expr(alloc, bytes, dialect, tokens)?;
    Ok((ExprNodes::new(marks), rest))
}
