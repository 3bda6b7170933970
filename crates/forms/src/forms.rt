// Forms as rows of 64 bytes: 8 cells of 8, the head's and those of the moving chains.
ghost use Rattle.std.specs.Prelude.{◌≡◌, ◌+◌, ◌-◌, ◌*◌, ◌<◌, get_or};
ghost use Rattle.minimalist.specs.Lexicon.{entry_of};
ghost use Rattle.minimalist.specs.Schemes.{lexical_form};
ghost use Rattle.minimalist.specs.Made.{start_form};
ghost use Rattle.forms.specs.Rows.{row_of, SaysLeftOut, entry_byte, start_byte, firsts_in, any_same, wrong_firsts};

use grammar::{byte, fields};
use lexicon::{before_zero, is_licensee};
use std::array::from_fn;

// The bytes of a row.
pub const ROW: usize = 64;

// A row.
pub type Row = [u8; ROW];

// The bytes of a cell of a row.
pub const CELL: usize = 8;

// The byte of the head's cell that says whether the form is lexical.
pub const LEXICAL: usize = 6;

// The byte of the head's cell that says how many chains move.
pub const MOVERS: usize = 7;

// Byte p of the row of an entry's lexical form, from its 6 feature bytes, of which n are features.
fn entry_byte(six: &[u8], n: usize, p: usize) -> u8
    ensures { result ≡ entry_byte six.now n p }
{
    if p < n {
        byte(six, p)
    } else {
        u8::from(p == LEXICAL)
    }
}

// The row of an entry's lexical form, from the entry's 8 bytes.
pub fn entry_row(e: &[u8]) -> Row
    ensures { result ≡ row_of (lexical_form (entry_of e.now)) }
{
    let six = fields(e, 2, 6);
    let n = before_zero(six);
    from_fn(|p| entry_byte(six, n, p))
}

// Byte p of the row of the wanted category's form.
fn start_byte(start: u8, lexical: bool, p: usize) -> u8
    ensures { result ≡ start_byte start lexical p }
{
    match p {
        0 => start,
        LEXICAL => u8::from(lexical),
        _ => 0,
    }
}

// The row of the wanted category's form, lexical or derived.
pub fn start_row(start: u8, lexical: bool) -> Row
    ensures { result ≡ row_of (start_form start lexical) }
{
    from_fn(|p| start_byte(start, lexical, p))
}

// How many chains move.
pub fn movers(row: &[u8]) -> usize
    ensures { (result ≡ get_or row.now 7 0) × (result < 256) }
{
    usize::from(byte(row, MOVERS))
}

// The first byte of moving chain j.
pub fn first_byte(row: &[u8], j: usize) -> u8
    requires { j < 256 }
    ensures { result ≡ get_or row.now (8 * (j + 1)) 0 }
{
    byte(row, CELL * (j + 1))
}

// Whether a moving chain from chain k on, of n, begins with the byte m.
fn begins_later(row: &[u8], k: usize, n: usize, m: u8) -> bool
    requires { n < 256 }
    ensures { result ≡ any_same m (firsts_in row.now k (n - k)) }
{
    (k..n).any(|j| m == first_byte(row, j))
}

// Whether the n moving chains are wrong: one begins with no licensee, or two with the same.
fn wrong_moving(row: &[u8], n: usize) -> bool
    requires { n < 256 }
    ensures { result ≡ wrong_firsts (firsts_in row.now 0 n) }
{
    (0..n).any(|k| {
        let m = first_byte(row, k);
        !is_licensee(m) || begins_later(row, k + 1, n, m)
    })
}

// Whether the form of the row is left out.
pub fn left_out(row: &[u8]) -> bool
    ensures { SaysLeftOut row.now result }
{
    byte(row, 0) == 0 || wrong_moving(row, movers(row))
}
