//! Laws of files.
ghost use Rattle.dj_front.specs.Laws.{OneLine, OneRefusal, NoRefusedLine, RefusalsAreSaid, OneJavaTable};

/// Bytes say at most one product line without faults, or are refused for one reason.
pub fn one_answer()
    ensures one_line { OneLine }
    ensures one_refusal { OneRefusal }
    ensures no_refused_line { NoRefusedLine }
{
    dj_lexer::one_token_list();
    dj_lexer::one_answer();
    dj_declarations::one_reading();
    dj_calculus::one_first_fault();
}

/// What bytes are refused for can be said of them, as `dj_report::refusal_text` needs it.
pub fn refusals_are_said()
    ensures { RefusalsAreSaid }
{
    dj_lexer::token_spans();
}

/// Bytes are the Java text of one table at most, wherever its names stand.
pub fn one_java_table()
    ensures { OneJavaTable }
{
    dj_lexer::one_token_list();
    dj_declarations::one_reading();
}
