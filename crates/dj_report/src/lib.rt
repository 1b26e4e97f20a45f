//! What the program says of refusals and of broken rules, as the bytes that it writes.
#![tactic(auto)]

mod answers;
mod join;
mod laws;
mod place;
mod refusal;
mod rules;
mod word_texts;
mod words;

pub use answers::no_text;
pub use laws::{one_no_text, one_refusal_text, one_rule_text};
pub use refusal::refusal_text;
pub use rules::rule_text;
pub use word_texts::{config_text, order_text};
