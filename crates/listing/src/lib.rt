// The listing as a stream: from each entry to the next (document 01, "Counting and listing").
#![tactic(auto)]

mod stream;

pub use stream::next_entry;
