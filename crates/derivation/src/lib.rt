// Derivation trees: their checker, and the trace that a tree spells (document 01, "Trace and tree", refusal 22).
#![tactic(auto)]

mod calls;
mod run;

pub use calls::{check_tree, conversion_tests, tree_to_trace};
