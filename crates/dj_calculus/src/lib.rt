//! The meaning of a product line, as definitions, and the laws that they keep.
#![tactic(auto)]

mod examples;
mod laws;

pub use examples::{
    disjoint_deltas, expression_texts, kept_versions, missing_field, null_values, one_line_files,
    overlaps,
};
pub use laws::{
    chain_is_reached, counts_by_layers, good_breaks_nothing, good_exactly_if, laid_has_expressions,
    one_first_fault, one_least, one_member, one_product, one_type, operations, product_exactly_if,
    void_is_good, well_typed_breaks_nothing, well_typed_exactly_if,
};
