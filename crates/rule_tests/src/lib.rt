// The tests of the rules, refusals 6 to 10 rule by rule, for the reader and the writer.
#![tactic(auto)]

mod chain;
mod layout;
mod rules;

pub use layout::{Layout, Records};
pub use rules::rules_refusal;
