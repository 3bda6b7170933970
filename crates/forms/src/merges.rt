// The merge of two forms, as rows: the first three schemes.
ghost use Rattle.std.specs.Prelude.{◌≡◌, ◌<◌, ◌≤◌, get_or};
ghost use Rattle.forms.specs.Rows.{merge_numbered, rest_byte, going_byte, late_byte, merge_byte, FilledBy, SaysMerge};

use crate::forms::{CELL, LEXICAL, MOVERS, Row, movers};
use grammar::byte;
use lexicon::selects;
use std::array::from_fn;

// The schemes of a merge: the strings of the two heads are joined where the second has no feature left, after an entry or before another form; else its
// chain moves.
#[derive(Clone, Copy, PartialEq, Eq)]
pub enum MergeScheme {
    First,
    Second,
    Third,
}

impl MergeScheme {
    // The scheme of a number: 1 is the first, 3 the third, and every other number the second.
    pub fn numbered(number: u8) -> MergeScheme
        ensures { result ≡ merge_numbered number }
    {
        match number {
            1 => MergeScheme::First,
            3 => MergeScheme::Third,
            _ => MergeScheme::Second,
        }
    }
}

// A merge: its scheme, and the row of the category.
#[derive(Clone, Copy)]
pub struct Merged {
    pub scheme: MergeScheme,
    pub row: Row,
}

// Byte p of a head's cell without its first feature, where n chains move.
pub fn rest_byte(a: &[u8], n: usize, p: usize) -> u8
    ensures { result ≡ rest_byte a.now n p }
{
    match p {
        0..=4 => byte(a, p + 1),
        MOVERS => (n % 256) as u8,
        _ => 0,
    }
}

// Byte x of cell k as it goes on; cell 0 is what is left of the head.
fn going_byte(b: &[u8], k: usize, x: usize) -> u8
    requires { (k < 512) × (x < 8) }
    ensures { result ≡ going_byte b.now k x }
{
    if 0 < k {
        return byte(b, CELL * k + x);
    }
    if x < 5 { byte(b, x + 1) } else { 0 }
}

// The same up to cell j, and 0 after it.
fn late_byte(b: &[u8], j: usize, k: usize, x: usize) -> u8
    requires { (k < 512) × (x < 8) }
    ensures { result ≡ late_byte b.now j k x }
{
    if k <= j { going_byte(b, k, x) } else { 0 }
}

// Byte p of the row of a merge, where i and j chains move and those of b go on from cell `from` on.
fn merge_byte(a: &[u8], b: &[u8], i: usize, j: usize, from: usize, p: usize) -> u8
    requires { (i < 256) × (j < 256) × (from ≤ 1) × (p < 64) }
    ensures { result ≡ merge_byte a.now b.now i j from p }
{
    if p < CELL {
        return rest_byte(a, i + j + 1 - from, p);
    }
    if p / CELL <= i {
        return byte(a, p);
    }
    late_byte(b, j, p / CELL - i - 1 + from, p % CELL)
}

// The row of a merge.
fn merge_row(a: &[u8], b: &[u8], from: usize) -> Row
    requires { from ≤ 1 }
    ensures { FilledBy (merge_byte a.now b.now (get_or a.now 7 0) (get_or b.now 7 0) from) result }
{
    let i = movers(a);
    let j = movers(b);
    from_fn(|p| merge_byte(a, b, i, j, from, p))
}

// Merges two forms, if a scheme does.
pub fn merge_rows(a: &[u8], b: &[u8]) -> Option<Merged>
    ensures { SaysMerge a.now b.now result }
{
    if !selects(byte(a, 0), byte(b, 0)) {
        return None;
    }
    if byte(b, 1) != 0 {
        return Some(Merged {
            scheme: MergeScheme::Third,
            row: merge_row(a, b, 0),
        });
    }
    let scheme = if byte(a, LEXICAL) == 1 {
        MergeScheme::First
    } else {
        MergeScheme::Second
    };
    Some(Merged {
        scheme,
        row: merge_row(a, b, 1),
    })
}
