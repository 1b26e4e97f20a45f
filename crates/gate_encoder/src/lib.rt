//! Gates over clauses, under named keys.
#![tactic(auto)]

mod formula;
mod gates;
mod laws;
mod parts;
#[cfg(test)]
mod tests;

pub use gates::Gates;
pub use laws::{
    choices_extend, clauses_say, formulas_have_values, free_keys_decide, gates_have_values,
    renaming_keeps, values_say,
};
