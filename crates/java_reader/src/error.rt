//! Why bytes give no class table.
use dj_lexer::LexFault;
use dj_refusals::JavaFault;
use thiserror::Error;

/// Why bytes are no Java file that gives a class table. Places are byte offsets.
#[derive(Clone, Copy, Debug, PartialEq, Eq, Error)]
pub enum JavaError {
    /// They have no tokens.
    #[error("the bytes have no tokens")]
    Lex(LexFault),
    /// Their tokens spell no classes; the place is that of the first that can't stand where it stands, or the end.
    #[error("the text cannot go on like this")]
    Syntax(u32),
    /// The classes have a fault, at a place.
    #[error("a name is declared twice, or is reserved")]
    Repeated(JavaFault, u32),
    #[error("out of memory")]
    NoMemory,
}
