// The grammar file as bytes: its layout, and the accessors of its heading and of its rules (document 01, "The grammar file").
#![tactic(auto)]

mod bytes;
mod layout;
mod lists;
mod records;
mod rule;

pub use bytes::{byte, fields, four_bytes, two_bytes};
pub use layout::{
    categories, dimension, dimensions, record_byte, record_of, rules, rules_held, start, words,
};
pub use lists::{block_check, few_zeros, occurrences, same_bytes, total, zeros};
pub use records::{
    daughters_of, dimension_in, record_category, record_daughter, record_daughters, record_word,
    variables,
};
pub use rule::{category_of, daughter, daughter_count, weight_of};
