// What the program prints, a page at a time, and what it reads out of its files (document 01, "Counting and listing").
#![tactic(auto)]

mod program;
mod sentence;
mod verdict;

pub use program::{Rest, Text, first_page, next_page};
