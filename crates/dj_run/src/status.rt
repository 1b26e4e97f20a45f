//! Exit statuses.

/// The status that the program ends with.
#[derive(Clone, Copy, Debug, PartialEq, Eq)]
pub struct Status(pub u8);

impl Status {
    /// The output is what was asked for.
    pub const DONE: Status = Status(0);
    /// A rule is broken.
    pub const REFUTED: Status = Status(1);
    /// The file was refused.
    pub const FILE_REFUSED: Status = Status(2);
    /// The configuration word or the order word was refused.
    pub const WORD_REFUSED: Status = Status(3);
    /// The words are no command.
    pub const USAGE: Status = Status(64);
    /// The words aren't UTF-8.
    pub const WORDS_UNREADABLE: Status = Status(65);
    /// The file couldn't be read.
    pub const READ_FAILED: Status = Status(66);
    /// The command, or what the file needs, isn't built.
    pub const NOT_BUILT: Status = Status(70);
    /// There was no memory.
    pub const NO_MEMORY: Status = Status(71);
    /// The output couldn't be written.
    pub const WRITE_FAILED: Status = Status(74);
}
