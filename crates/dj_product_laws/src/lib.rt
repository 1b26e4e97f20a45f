//! Laws of broken operations, of conflicts, and of the product in one pass over the parts.
#![tactic(auto)]

mod laws;

pub use laws::{
    conflicts_by_things, faults_are_rules, least_conflict, members_in_any_order, one_broken_part,
    one_pass, part_in_any_order, product_or_least,
};
