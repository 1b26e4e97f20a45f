//! Laws of the reading of formulas.
ghost use Rattle.dj_formula_reader.specs.Laws.{FormulasAreRead, FormulaTreesAreRead, OneFormula};

/// `formula_reading` reads exactly the formulas that end at a `;`, each as its nodes, and else finds the
/// first symbol that can't stand where it stands; `formula_trees` reads the same as trees.
pub fn formulas_are_read()
    ensures nodes { FormulasAreRead }
    ensures trees { FormulaTreesAreRead }
{}

/// A formula is told by its nodes.
pub fn one_formula()
    ensures { OneFormula }
{}
