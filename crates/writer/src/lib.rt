// The writer of the grammar file: the file of a heading's numbers and the records' bytes (document 01, "Survey and writer").
#![tactic(auto)]

mod blocks;
mod given;
mod heading;
mod writer;

pub use blocks::put_file;
pub use writer::write_grammar;
