//! Laws of the definitions in `dj_calculus` that the layers above stand on.
#![tactic(auto)]

mod laws;

pub use laws::{
    different_steps, disjoint_orders, distinct_parameters, flat_tables, flattenable_products,
    parts_in_order, places_never_matter, ranges_of_rules, tables_are_tables, undefined_exactly_if,
};
