// The rules of the grammar made from a lexicon, as records one after another, and the dimensions of its categories (document 02, paper 6). The forms are the
// rows of a table; category 0 is the new start, and category i + 1 the form of row i.
#![tactic(auto)]

mod entries;
mod numbers;
mod schemes;
mod starts;

pub use entries::add_entry_rules;
pub use numbers::{CATEGORIES, dimensions};
pub use schemes::add_scheme_rules;
pub use starts::add_starts;
