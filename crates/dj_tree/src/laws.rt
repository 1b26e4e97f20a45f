//! Laws of the grammar.
ghost use Rattle.dj_tree.specs.Laws.{SpelledSourcesAreLaid, SpelledClassesAreLaid};
ghost use Rattle.dj_tree.specs.Examples.{ALine, NoLine, ACast, NoCast, AssignmentsToTheRight, FieldsToTheLeft, OperatorsGroup, NegationsBindTightest};

use dj_lexer::token_spans;

/// What the tokens of a text spell is laid: tokens of the dialect, one after the other, spell it.
pub fn spelled_is_laid()
    ensures sources { SpelledSourcesAreLaid }
    ensures classes { SpelledClassesAreLaid }
{
    token_spans();
}

/// Worked examples of the grammar.
pub fn grammar_examples()
    ensures a_line { ALine }
    ensures no_line { NoLine }
    ensures a_cast { ACast }
    ensures no_cast { NoCast }
    ensures assignments { AssignmentsToTheRight }
    ensures fields { FieldsToTheLeft }
    ensures operators { OperatorsGroup }
    ensures negations { NegationsBindTightest }
{}
