// The table of a grammar's rules, from which a step reads what it needs of a rule.
#![tactic(auto)]

mod places;
mod table;

pub use table::compile;
