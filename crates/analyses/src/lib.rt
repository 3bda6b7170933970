// The count of analyses, and entry m of the listing (document 01, "Counting and listing").
#![tactic(auto)]

mod calls;

pub use calls::{count, entry, limits_refusal, tables_of};
