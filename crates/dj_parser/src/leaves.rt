//! Names, formulas and expressions in the tables.
ghost use Rattle.std.specs.Prelude.{IfOk, OnOk};
ghost use Rattle.std.specs.Option.{option_map};
ghost use Rattle.dj_declarations.specs.View.{spot_at, formula_view, expr_view};
ghost use Rattle.dj_parser.specs.Said.{said_spot, said_optional, said_formula, said_expr};
ghost use Rattle.dj_parser.specs.Growth.{CanSay, Grew, Lasts};
ghost use Rattle.dj_parser.specs.Resolved.{IsSpotFor, IsOptionalFor, IsExprFor, IsFormulaFor};

use crate::tables::Tables;
use arena_walk::NodeId;
use dj_lexer::Token;
use dj_nodes::{ExprNodes, FormulaNodes, add_expr, add_formula, add_spot};
use dj_tree::Spot;
use std::alloc::AllocError as NoMemory;

/// The name of a token.
pub fn resolve_spot(bytes: &[u8], token: Token, tables: &mut Tables) -> Result<Spot, NoMemory>
    requires { CanSay tables.old (said_spot (spot_at bytes.now token)) }
    ensures grew { OnOk result (Grew tables.old tables.new (said_spot (spot_at bytes.now token))) }
    ensures stands { IfOk result (λ spot. Lasts tables.new (λ t. IsSpotFor t spot (spot_at bytes.now token))) }
{
    let spot = add_spot(&mut tables.names, bytes, token)?;
    Ok(spot)
}

/// The name of a token, where there is one.
pub fn resolve_optional(
    bytes: &[u8],
    token: Option<Token>,
    tables: &mut Tables,
) -> Result<Option<Spot>, NoMemory>
    requires { CanSay tables.old (said_optional (option_map (spot_at bytes.now) token)) }
    ensures grew { OnOk result (Grew tables.old tables.new (said_optional (option_map (spot_at bytes.now) token))) }
    ensures stands { IfOk result (λ out. Lasts tables.new (λ t. IsOptionalFor t out (option_map (spot_at bytes.now) token))) }
{
    match token {
        Some(token) => Ok(Some(resolve_spot(bytes, token, tables)?)),
        None => Ok(None),
    }
}

/// The root of an expression.
pub fn resolve_expr(
    bytes: &[u8],
    nodes: &ExprNodes,
    tables: &mut Tables,
) -> Result<NodeId, NoMemory>
    requires { CanSay tables.old (said_expr (expr_view bytes.now nodes.now)) }
    ensures grew { OnOk result (Grew tables.old tables.new (said_expr (expr_view bytes.now nodes.now))) }
    ensures stands { IfOk result (λ root. Lasts tables.new (λ t. IsExprFor t root (expr_view bytes.now nodes.now))) }
{
    let root = add_expr(&mut tables.names, &mut tables.exprs, bytes, nodes)?;
    Ok(root)
}

/// The root of a formula.
pub fn resolve_formula(
    bytes: &[u8],
    nodes: &FormulaNodes,
    tables: &mut Tables,
) -> Result<NodeId, NoMemory>
    requires { CanSay tables.old (said_formula (formula_view bytes.now nodes.now)) }
    ensures grew { OnOk result (Grew tables.old tables.new (said_formula (formula_view bytes.now nodes.now))) }
    ensures stands { IfOk result (λ root. Lasts tables.new (λ t. IsFormulaFor t root (formula_view bytes.now nodes.now))) }
{
    let root = add_formula(&mut tables.names, &mut tables.formulas, bytes, nodes)?;
    Ok(root)
}
