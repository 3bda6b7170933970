// The walk from one live prefix to the next, the chain of the rules of a category, and the turns, which tell where the walk goes on (document 01, "Counting and
// listing").
#![tactic(auto)]

mod chain;
mod prefixes;
mod turns;

pub use chain::{CHAIN, chain_rules};
pub use prefixes::{Tables, Walk, at_end};
pub use turns::{TURNS, no_turns};
