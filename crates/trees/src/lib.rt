// The reader of a tree given as a list (document 01, "Trace and tree", refusals 19 to 21).
#![tactic(auto)]

mod reading;
mod tree_reader;

pub use reading::read_tree;
