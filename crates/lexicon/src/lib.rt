// The entries of a minimalist lexicon: their feature bytes, refusals 30 and 10 (document 02, paper 6).
#![tactic(auto)]

mod entries;
mod features;

pub use entries::{ENTRY, before_zero, entries_refusal, entry_bytes, entry_word};
pub use features::{is_licensee, is_licensor, licenses, selects};
