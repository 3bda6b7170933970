// The categories of a minimalist grammar as rows of bytes: which are left out, merge and move of rows (document 02, paper 6; W11-0605, section 3).
#![tactic(auto)]

mod forms;
mod merges;
mod moves;

pub use forms::{ROW, Row, entry_row, left_out, movers, start_row};
pub use merges::{MergeScheme, Merged, merge_rows};
pub use moves::{MoveScheme, Moved, move_row};
