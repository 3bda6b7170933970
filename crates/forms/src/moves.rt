// The move of a form, as rows: the fourth and the fifth scheme.
ghost use Rattle.std.specs.Prelude.{◌≡◌, true, ◌+◌, ◌<◌, ◌≤◌, MatchOption};
ghost use Rattle.model.specs.Base.{occurrences};
ghost use Rattle.minimalist.specs.Lexicon.{is_licensor};
ghost use Rattle.forms.specs.Rows.{move_numbered, firsts_in, place_in, land_byte, stay_byte, move_byte, FilledBy, SaysMove};

use crate::forms::{CELL, Row, first_byte, movers};
use crate::merges::rest_byte;
use grammar::byte;
use lexicon::{is_licensor, licenses};
use std::array::from_fn;

// The schemes of a move: the chain lands where it has no feature left, else it stays.
#[derive(Clone, Copy, PartialEq, Eq)]
pub enum MoveScheme {
    Fourth,
    Fifth,
}

impl MoveScheme {
    // The scheme of a number: 4 is the fourth, and every other number the fifth.
    pub fn numbered(number: u8) -> MoveScheme
        ensures { result ≡ move_numbered number }
    {
        match number {
            4 => MoveScheme::Fourth,
            _ => MoveScheme::Fifth,
        }
    }
}

// A move: its scheme, the number, from 1 on, of the chain that is moved, and the row of the category.
#[derive(Clone, Copy)]
pub struct Moved {
    pub scheme: MoveScheme,
    pub chain: u8,
    pub row: Row,
}

// How many of the n moving chains begin with the licensee of the licensor p.
fn how_many(row: &[u8], n: usize, p: u8) -> usize
    requires { (n < 256) × (is_licensor p ≡ true) }
    ensures { result ≡ occurrences (p + 16) (firsts_in row.now 0 n) }
{
    (0..n).filter(|j| licenses(p, first_byte(row, *j))).count()
}

// The place of the first of the n moving chains that begins with the licensee of the licensor p.
fn first_begins(row: &[u8], n: usize, p: u8) -> Option<usize>
    requires { (n < 256) × (is_licensor p ≡ true) }
    ensures { MatchOption result (n ≤ place_in (p + 16) (firsts_in row.now 0 n)) (λ t. (t < n) × (t ≡ place_in (p + 16) (firsts_in row.now 0 n))) }
{
    (0..n).position(|j| licenses(p, first_byte(row, j)))
}

// Byte p of the moving chains where chain t is gone.
fn land_byte(a: &[u8], t: usize, p: usize) -> u8
    requires { (8 ≤ p) × (p < 64) }
    ensures { result ≡ land_byte a.now t p }
{
    byte(a, if p / CELL - 1 < t { p } else { p + CELL })
}

// Byte p of the moving chains where chain t is without its first feature.
fn stay_byte(a: &[u8], t: usize, p: usize) -> u8
    requires { (8 ≤ p) × (p < 64) }
    ensures { result ≡ stay_byte a.now t p }
{
    if p / CELL - 1 != t {
        return byte(a, p);
    }
    if p % CELL < 5 { byte(a, p + 1) } else { 0 }
}

// Byte p of the row of a move of chain t of n by a scheme.
fn move_byte(a: &[u8], n: usize, t: usize, scheme: MoveScheme, p: usize) -> u8
    requires { p < 64 }
    ensures { result ≡ move_byte a.now n t scheme p }
{
    match scheme {
        MoveScheme::Fourth if p < CELL => rest_byte(a, n.saturating_sub(1), p),
        MoveScheme::Fourth => land_byte(a, t, p),
        MoveScheme::Fifth if p < CELL => rest_byte(a, n, p),
        MoveScheme::Fifth => stay_byte(a, t, p),
    }
}

// Moves the one chain that can move, if there is one.
pub fn move_row(a: &[u8]) -> Option<Moved>
    ensures { SaysMove a.now result }
{
    let f = byte(a, 0);
    let n = movers(a);
    if !is_licensor(f) || how_many(a, n, f) != 1 {
        return None;
    }
    let t = first_begins(a, n, f)?;
    let scheme = if byte(a, CELL * (t + 1) + 1) == 0 {
        MoveScheme::Fourth
    } else {
        MoveScheme::Fifth
    };
    let row = from_fn(|p| move_byte(a, n, t, scheme, p));
    Some(Moved {
        scheme,
        chain: (t + 1) as u8,
        row,
    })
}
