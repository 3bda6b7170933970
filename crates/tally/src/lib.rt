// The count of analyses and the effort, and entry m of the listing, from the tables of a grammar (document 01, "Counting and listing").
#![tactic(auto)]

mod calls;
mod prefixes;

pub use calls::{count_from, entry_from};
