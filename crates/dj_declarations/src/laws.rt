//! Laws of the grammar of whole files.
ghost use Rattle.dj_declarations.specs.Laws.{SourcesAreRead, ClassesAreRead, OneSource, OneJava};

use dj_expr_reader::expressions_are_read;
use dj_formula_reader::formulas_are_read;

/// The readings of product lines and of Java files, made of those of formulas and of expressions, read what
/// the grammar spells up to the end, and nothing else; and each fault is the first symbol that can't stand
/// where it stands.
pub fn sources_are_read()
    ensures sources { SourcesAreRead }
    ensures classes { ClassesAreRead }
{
    formulas_are_read();
    expressions_are_read();
}

/// Symbols spell at most one product line, and at most one list of Java classes.
pub fn one_reading()
    ensures sources { OneSource }
    ensures classes { OneJava }
{
    sources_are_read();
}
