//! A machine that takes the tokens of an expression one by one.
use dj_lexer::Token;
use dj_reader::Stack;

/// A node of an expression in post-order, by the token of its name, or of its keyword for `This`, `Null` and
/// `Original`. A call has the number of its arguments.
#[derive(Clone, Copy, Debug, PartialEq, Eq, Drop)]
pub enum ExprMark {
    Variable(Token),
    This(Token),
    Null(Token),
    Field(Token),
    Call(Token, u32),
    New(Token),
    Cast(Token),
    Assign(Token),
    Original(Token, u32),
}

/// What is called: a method by its name, or the method body before, by the word `original`.
#[derive(Clone, Copy, Drop)]
pub enum Callee {
    Method(Token),
    Original(Token),
}

/// What is open.
#[derive(Clone, Copy, Drop)]
pub enum Frame {
    /// A bracket around an expression.
    Bracket,
    /// A cast before its operand.
    Cast(Token),
    /// An assignment before its value.
    Assign(Token),
    /// Arguments, with the number of complete ones.
    Arguments(Callee, u32),
}

/// What was taken last.
#[derive(Clone, Copy, Drop)]
pub enum Mode {
    /// What an operand follows.
    Waiting,
    /// `(`, which begins a cast or stands around an expression.
    Opened,
    /// A name behind such a `(`.
    OpenedName(Token),
    /// `)` behind that.
    ClosedName(Token),
    /// A name.
    Named(Token),
    /// `new`, then its class, then `(`.
    New,
    NewClass(Token),
    NewOpened(Token),
    /// An operand with all that is behind it, then `.`, then a name.
    Holding,
    Dotted,
    Member(Token),
    /// `(` before arguments.
    Called(Callee),
}

/// What a token does to the machine.
#[derive(Clone, Copy, Drop)]
pub enum Turn {
    Goes,
    /// The token stands behind the whole expression.
    Ends,
    /// The token can't stand there.
    Stops,
}

/// What was taken last, what is open, and the marks so far.
#[derive(Drop)]
pub struct Machine {
    pub mode: Mode,
    pub frames: Stack<Frame>,
    pub marks: Vec<ExprMark>,
}
