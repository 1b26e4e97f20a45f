//! Laws of the search.
ghost use Rattle.sat_solver.specs.Measures.{WeightIsLexicographic};

/// The number by which a search is measured rises exactly where the list of literal counts per level rises in
/// lexicographic order.
pub fn weight_is_lexicographic()
    ensures { WeightIsLexicographic }
{}
