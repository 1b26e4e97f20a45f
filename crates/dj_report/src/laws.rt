//! Laws of the texts.
ghost use Rattle.dj_report.specs.Laws.{OneRefusalText, OneRuleText, OneNoText};

/// A refusal has at most one text.
pub fn one_refusal_text()
    ensures { OneRefusalText }
{
    dj_lexer::one_token_at();
}

/// An instance of a rule has at most one line in the bytes of its file.
pub fn one_rule_text()
    ensures { OneRuleText }
{
    dj_lexer::one_token_at();
}

/// An instance that counts in a configuration has at most one text that says so.
pub fn one_no_text()
    ensures { OneNoText }
{
    one_rule_text();
}
