//! The tokens of a product line and of a Java file.
#![tactic(auto)]

mod front;
mod laws;
mod lexer;
mod place;
#[cfg(test)]
mod tests;
mod token;

pub use laws::{one_answer, one_token_at, one_token_list, token_spans};
pub use lexer::lex;
pub use place::token_at;
pub use token::{Dialect, LexError, LexFault, MAX_DEPTH, MAX_LENGTH, Token, TokenKind, Tokens};
