//! Why tokens give no tree.
use thiserror::Error;

/// Why tokens give no tree.
#[derive(Debug, Drop, Error)]
pub enum ParseError {
    /// The byte offset of the first token that can't stand where it stands, or of the end of the text, where something is
    /// missing.
    #[error("the text cannot go on like this")]
    Syntax(u32),
    #[error("out of memory")]
    NoMemory,
}
