// The categories derivable from the entries of a lexicon, as a table of rows (document 02, paper 6).
#![tactic(auto)]

mod rounds;
mod tables;

pub use rounds::derivable_forms;
pub use tables::{FormTable, TABLE, find_row};
