//! Laws of Java files.
ghost use Rattle.java_reader.specs.Laws.{OneTable, OneRefusal, NoRefusedTable};

/// Bytes are the Java file of at most one table, or are refused for one reason.
pub fn one_answer()
    ensures one_table { OneTable }
    ensures one_refusal { OneRefusal }
    ensures no_refused_table { NoRefusedTable }
{
    dj_lexer::one_token_list();
    dj_lexer::one_answer();
    dj_declarations::one_reading();
}
