//! Laws of answers.
ghost use Rattle.dj_run.specs.Laws.{OneStatus, OneText, StatusesAreListed, UsageIsForNoCommand, GeneratedTypechecks};
ghost use Rattle.dj_run.specs.OneEach.{OfJava, OneEach};

/// The words and the bytes of the file that they name define answers of one status, and of one text where the text of
/// the command's answers is fixed. Whatever the files hold, only the listed statuses are defined, and 64 for words that
/// are no command alone.
pub fn answers_of_words()
    ensures one_status { OneStatus }
    ensures one_text { OneText }
    ensures statuses_are_listed { StatusesAreListed }
    ensures usage_is_for_no_command { UsageIsForNoCommand }
{
    one_each();
}

/// `typecheck` says `yes` to each text that is generated of a configuration, where it keeps the limits of a Java file: at
/// most 4,194,304 bytes, and at most 256 brackets open at once.
pub fn generated_texts_typecheck()
    ensures { GeneratedTypechecks }
{
    java_answers();
    dj_lexer::one_token_list();
    dj_calculus_laws::places_never_matter();
}

// What there is one of: lines and tables of bytes, reasons, texts, least instances.
pub fn one_each()
    ensures { OneEach }
{
    java_answers();
    dj_front::one_answer();
    dj_report::one_refusal_text();
    dj_report::one_no_text();
    dj_generate::one_text();
    dj_calculus::one_least();
    dj_calculus::good_breaks_nothing();
}

fn java_answers()
    ensures { OfJava }
{
    java_reader::one_answer();
    dj_report::one_refusal_text();
    dj_report::one_rule_text();
    dj_calculus::one_least();
    dj_calculus::well_typed_breaks_nothing();
    dj_calculus_laws::tables_are_tables();
}
