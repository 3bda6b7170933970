// The trace checker (document 01, "Trace and tree", refusals 12 to 18).
#![tactic(auto)]

mod trace;

pub use trace::{check_trace, run_trace};
