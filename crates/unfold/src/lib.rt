// The tree that a trace spells (document 01, "Trace and tree"), and what the two conversions make of each other's answers.
#![tactic(auto)]

mod to_tree;

pub use to_tree::trace_to_tree;
