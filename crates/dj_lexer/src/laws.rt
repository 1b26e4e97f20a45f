//! Laws of tokens and faults.
ghost use Rattle.dj_lexer.specs.Laws.{OneTokenList, OneTokenAt, OneFirstFault, NoFaultInTokens, TokensOrFault, TokensAreSpans, TokensRise, TokensAreOfDialect, TokensAreFew};

/// A text has at most one list of tokens of a dialect.
pub fn one_token_list()
    ensures { OneTokenList }
{}

/// At an offset of bytes begins at most one token, whichever dialect it is of.
pub fn one_token_at()
    ensures { OneTokenAt }
{}

/// Bytes have either tokens with no more than `MAX_DEPTH` brackets open at once, or one first fault.
pub fn one_answer()
    ensures one_first_fault { OneFirstFault }
    ensures no_fault_in_tokens { NoFaultInTokens }
    ensures tokens_or_fault { TokensOrFault }
{}

/// Tokens take bytes of the text, one after the other, and are words and symbols of the dialect.
pub fn token_spans()
    ensures tokens_are_spans { TokensAreSpans }
    ensures tokens_rise { TokensRise }
    ensures tokens_are_of_dialect { TokensAreOfDialect }
    ensures tokens_are_few { TokensAreFew }
{}
