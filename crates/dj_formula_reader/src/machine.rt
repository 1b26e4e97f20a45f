//! A machine that takes the tokens of a formula one by one.
use dj_lexer::Token;
use dj_reader::Stack;

/// A node of a formula, in post-order. A feature is the token of its name.
#[derive(Clone, Copy, Debug, PartialEq, Eq, Drop)]
pub enum FormulaMark {
    True,
    False,
    Feature(Token),
    Not,
    And,
    Or,
    Implies,
    Same,
}

/// What is open: a bracket, or an operator that waits for its right part.
#[derive(Clone, Copy, Drop)]
pub enum Frame {
    Open,
    Same,
    Implies,
    Or,
    And,
    Not,
}

/// What a token does to the machine.
#[derive(Clone, Copy, Drop)]
pub enum Turn {
    Goes,
    /// The token stands behind the whole formula.
    Ends,
    /// The token can't stand there.
    Stops,
}

/// What is open, and the marks of what was taken.
#[derive(Drop)]
pub struct Machine {
    pub frames: Stack<Frame>,
    pub marks: Vec<FormulaMark>,
    /// An operand comes next.
    pub is_waiting: bool,
}
