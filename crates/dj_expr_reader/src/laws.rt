//! Laws of the reading of expressions.
ghost use Rattle.dj_expr_reader.specs.Laws.{ExpressionsAreRead, ExprTreesAreRead, OneExpression};

/// `expr_reading` reads exactly the expressions that end at a `;`, each as its nodes, and else finds the
/// first symbol that can't stand where it stands; `expr_trees` reads the same as trees.
pub fn expressions_are_read()
    ensures nodes { ExpressionsAreRead }
    ensures trees { ExprTreesAreRead }
{}

/// An expression is told by its nodes.
pub fn one_expression()
    ensures { OneExpression }
{}
