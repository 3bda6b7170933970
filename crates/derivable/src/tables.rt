// A table of forms: their rows, one after another.
ghost use Rattle.std.specs.Prelude.{◌≡◌, ◌<◌, ◌≤◌, length, take, MatchOption};
ghost use Rattle.derivable.specs.Tables.{row_at, first_same, Added};

use forms::{ROW, Row};
use grammar::same_bytes;

// The most rows of a table: one more than a grammar has categories beside the new start.
const ROWS: usize = 64;

// The bytes of a table's rows.
pub const TABLE: usize = ROWS * ROW;

// A table of forms, in fixed memory: the first `count` rows are theirs.
#[derive(Drop)]
pub struct FormTable {
    pub rows: [Row; ROWS],
    pub count: usize,
}

// The number of the first of the rows that is the given one.
pub fn find_row(rows: &[Row], row: &[u8]) -> Option<usize>
    ensures { MatchOption result
        (length rows.now ≤ first_same (row_at rows.now) row.now 0 (length rows.now))
        (λ i. (i < length rows.now) × (i ≡ first_same (row_at rows.now) row.now 0 (length rows.now))) }
{
    rows.iter().position(|r| same_bytes(r, row))
}

impl FormTable {
    // The table without forms.
    pub fn empty() -> FormTable
        ensures { result.count ≡ 0 }
    {
        FormTable {
            rows: [[0; ROW]; ROWS],
            count: 0,
        }
    }

    // The rows of the forms.
    pub fn forms(&self) -> &[Row]
        requires { self.now.count ≤ 64 }
        ensures { result.now ≡ take self.now.count self.now.rows }
    {
        &self.rows[..self.count]
    }

    // Adds a form's row unless it is there or the rows are 64.
    pub(crate) fn add(&mut self, row: &Row)
        requires { self.old.count ≤ 64 }
        ensures { Added self.old row.now self.new }
    {
        if self.count < ROWS && find_row(self.forms(), row).is_none() {
            self.rows[self.count] = *row;
            self.count += 1;
        }
    }
}
