//! Refused files.
use dj_faults::LineFault;
use dj_lexer::LexFault;

/// Why a file is refused. Places are byte offsets.
#[derive(Clone, Copy, Debug, PartialEq, Eq)]
pub enum Refusal {
    /// It has more than 4,194,304 bytes.
    TooLong,
    /// It has no tokens.
    Lex(LexFault),
    /// Its tokens spell nothing; the place is that of the first that can't stand where it stands.
    Syntax(u32),
    /// The product line has a fault, at a place.
    Line(LineFault, u32),
    /// The Java file has a fault, at a place.
    Java(JavaFault, u32),
}

/// A fault of a Java file whose tokens spell classes, in the order in which faults are looked for. `java_fault_of`
/// says which fault of the calculus it is.
#[derive(Clone, Copy, Debug, PartialEq, Eq)]
pub enum JavaFault {
    /// A class that was declared before, or is named `Object`.
    Class,
    /// A field or a method that was declared before in its class.
    Member,
    /// A parameter that was named before in its method.
    Parameter,
}
