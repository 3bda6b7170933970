// The reader of the grammar file: the tests of its blocks, its heading and its records (document 01, "The grammar file", refusals 1 to 10).
#![tactic(auto)]

mod blocks;
mod heading;
mod reader;

pub use blocks::{blocks_for, records_in};
pub use heading::{CATEGORIES, RULES, WORDS, dimensions_right, within};
pub use reader::{grammar_refusal, read_grammar};
