//! The words of each fault.
ghost use Rattle.std.specs.Prelude.{◌≡◌};
ghost use Rattle.dj_refusals.specs.Refusals.{lex_place as lex_place_of, takes_name as takes_name_of};
ghost use Rattle.dj_report.specs.Refusals.{java_words as java_words_of, lex_words as lex_words_of, line_words as line_words_of};

use dj_faults::LineFault;
use dj_lexer::LexFault;
use dj_refusals::JavaFault;

/// The byte offset of a fault of the tokens.
pub fn lex_place(fault: LexFault) -> u32
    ensures { result ≡ lex_place_of fault }
{
    match fault {
        LexFault::NotUtf8(at)
        | LexFault::BadCharacter(at)
        | LexFault::OpenComment(at)
        | LexFault::TooDeep(at) => at,
    }
}

pub fn lex_words(fault: LexFault) -> &'static str
    ensures { result.now ≡ lex_words_of fault }
{
    match fault {
        LexFault::NotUtf8(_) => "not UTF-8",
        LexFault::BadCharacter(_) => "bad character",
        LexFault::OpenComment(_) => "comment not closed",
        LexFault::TooDeep(_) => "more than 256 brackets open",
    }
}

/// The words of a fault of a line, before the name that it is about.
pub fn line_words(fault: LineFault) -> &'static str
    ensures { result.now ≡ line_words_of fault }
{
    match fault {
        LineFault::RepeatedFeature => "repeated feature",
        LineFault::UnknownFeature => "unknown feature",
        LineFault::TooManyFeatures => "more than 4096 features",
        LineFault::RepeatedDelta => "repeated delta",
        LineFault::UnknownDelta => "unknown delta",
        LineFault::DeltaNotPlaced => "delta not placed",
        LineFault::DeltaPlacedTwice => "delta placed twice",
        LineFault::RepeatedPart => "repeated part",
        LineFault::UnknownPart => "unknown part",
        LineFault::PartsNoChain => "part not on the chain",
        LineFault::RepeatedOperation => "repeated operation",
        LineFault::RepeatedMember => "repeated member",
        LineFault::RepeatedParameter => "repeated parameter",
        LineFault::ReservedClass => "reserved class",
        LineFault::OriginalOutside => "original outside a modified method",
    }
}

/// The words of a fault of a Java file, before the name that it is about.
pub fn java_words(fault: JavaFault) -> &'static str
    ensures { result.now ≡ java_words_of fault }
{
    match fault {
        JavaFault::Class => "repeated class",
        JavaFault::Member => "repeated member",
        JavaFault::Parameter => "repeated parameter",
    }
}

/// Whether the words end with a name.
pub fn takes_name(fault: LineFault) -> bool
    ensures { result ≡ takes_name_of fault }
{
    !matches!(
        fault,
        LineFault::TooManyFeatures | LineFault::OriginalOutside
    )
}
