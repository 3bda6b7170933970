// The rounds: forms added until nothing is new.
ghost use Rattle.std.specs.Prelude.{◌≡◌, ◌<◌, ◌≤◌};
ghost use Rattle.minimalist.specs.Lexicon.{lexicon_of, entries};
ghost use Rattle.minimalist.specs.Closure.{forms_after};
ghost use Rattle.derivable.specs.Tables.{Holds};
ghost use Rattle.derivable.specs.Rounds.{Grows, AddedKept, with_merge, with_move, with_merges, with_round, with_entry, Rounds, Derived};

use crate::tables::FormTable;
use forms::{Row, entry_row, left_out, merge_rows, move_row};
use lexicon::entry_bytes;

// Every round but the last adds a form, and there is room for 64, so this many are enough.
const ROUNDS: usize = 63;

// Adds the form of a row, unless it is left out.
fn add_kept(table: &mut FormTable, row: &Row)
    requires { table.old.count ≤ 64 }
    ensures { AddedKept table.old row.now table.new }
{
    if !left_out(row) {
        table.add(row);
    }
}

// Adds the category of the merge of forms i and j, if there is one.
fn add_merge(table: &mut FormTable, i: usize, j: usize)
    requires { (table.old.count ≤ 64) × (i < table.old.count) × (j < table.old.count) }
    ensures { Grows (with_merge i j) table.old table.new }
{
    let rows = &table.rows;
    if let Some(merged) = merge_rows(&rows[i], &rows[j]) {
        add_kept(table, &merged.row);
    }
}

// Adds the category of the move of form i, if there is one.
fn add_move(table: &mut FormTable, i: usize)
    requires { (table.old.count ≤ 64) × (i < table.old.count) }
    ensures { Grows (with_move i) table.old table.new }
{
    if let Some(moved) = move_row(&table.rows[i]) {
        add_kept(table, &moved.row);
    }
}

// Adds the categories of the merges of form i with each of the first m forms.
fn add_merges(table: &mut FormTable, m: usize, i: usize)
    requires { (table.old.count ≤ 64) × (m ≤ table.old.count) × (i < m) }
    ensures { Grows (with_merges i m) table.old table.new }
{
    for j in 0..m {
        add_merge(table, i, j);
    }
}

// Adds all that one merge or move makes of the forms.
fn one_round(table: &mut FormTable)
    requires { table.old.count ≤ 64 }
    ensures { Grows with_round table.old table.new }
{
    let m = table.count;
    for i in 0..m {
        add_merges(table, m, i);
        add_move(table, i);
    }
}

// Makes rounds until one adds nothing.
fn all_rounds(table: &mut FormTable)
    requires { table.old.count ≤ 64 }
    ensures { Rounds 63 table.old table.new }
{
    for _round in 0..ROUNDS {
        let before = table.count;
        one_round(table);
        if table.count == before {
            return;
        }
    }
}

// Adds the form of an entry.
fn add_entry(table: &mut FormTable, e: &[u8])
    requires { table.old.count ≤ 64 }
    ensures { Grows (with_entry e.now) table.old table.new }
{
    let row = entry_row(e);
    table.add(&row);
}

// Puts the forms of the entries into the table, whatever it held.
fn entry_forms(table: &mut FormTable, bytes: &[u8], count: u16)
    requires { count ≡ entries bytes.now }
    ensures { (table.new.count ≤ 64) × Holds table.new.rows table.new.count (forms_after (lexicon_of bytes.now) 0) }
{
    table.count = 0;
    for i in 0..count {
        add_entry(table, entry_bytes(bytes, i));
    }
}

// Puts the categories derivable from the entries of a lexicon into the table, whatever it held; 64 of them stand for more than 63. The table is lent: 4,104 bytes
// would be copied.
pub fn derivable_forms(table: &mut FormTable, bytes: &[u8], count: u16)
    requires { count ≡ entries bytes.now }
    ensures { (table.new.count ≤ 64) × Derived bytes.now table.new }
{
    // No Option in place of 64: `Derived` says which forms the table holds, and those of the definition stop at 64 too.
    entry_forms(table, bytes, count);
    all_rounds(table);
}
