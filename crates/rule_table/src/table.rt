// The table of a grammar's rules is made, once for a call, by the constants of `ranks::table`. Here e is the record of a rule in the grammar file, and d has
// the dimensions of the categories.
ghost use Rattle.std.proofs.Math.Option.{none};
ghost use Rattle.std.specs.Prelude.{◌≡◌, ◌+◌, ◌*◌, ◌<◌, ◌≤◌, ltb, length, if◌then◌else◌};
ghost use Rattle.model.specs.GrammarFile.{field, grammar_refusal, grammar_of};
ghost use Rattle.ranks.specs.Prediction.{Sized, packed};
ghost use Rattle.ranks.specs.Daughters.{daughter};
ghost use Rattle.ranks.specs.Table.{Compiled};
ghost use Rattle.rule_table.specs.Cells.{head_cell, lengths_cell, pair_at, pair_of, zeros, in_order, cells_of, Put};

use crate::places::{LENGTHS, stand_of, stand_or};
use grammar::{
    byte, dimension_in, dimensions, record_category, record_daughter, record_daughters, record_of,
    record_word, rules_held,
};
use model::RuleNumber;
use ranks::daughters::{made_wide, rising};
use ranks::prediction::pack;
use ranks::table::{
    CATEGORIES, CATEGORY, CELLS, DIMENSION, DIMENSIONS, LENGTH, PLACE0, TABLE, WORD,
};

// The two cells of a daughter: it as a prediction whose ranks are positions, and the component of the rule in which each of its components stands.
#[derive(Clone, Copy)]
struct Pair {
    cell: u64,
    places: u64,
}

// Cell 0 of a rule: how many daughters it has, the dimension of its category, the category, and the word.
fn head_cell(d: &[u8], e: &[u8]) -> u64
    ensures { result ≡ head_cell d.now e.now }
{
    let a = record_category(e);
    let n = u64::from(record_daughters(e)) % DIMENSION;
    let m = u64::from(dimension_in(d, a)) % DIMENSIONS;
    let b = u64::from(a.0) % CATEGORIES;
    let w = u64::from(record_word(e).0);
    n + DIMENSION * m + CATEGORY * b + WORD * w
}

// The length of component k of a rule whose category has m components, 1 where there is no such component.
fn length_in(e: &[u8], m: usize, k: usize) -> u64
    requires { k < 4 }
    ensures { (result ≡ if ltb k m then field e.now (7 + k) else 1) × (result < 256) }
{
    if k < m {
        u64::from(byte(e, LENGTHS + k))
    } else {
        1
    }
}

// Cell 1: the lengths of its four components.
fn lengths_cell(d: &[u8], e: &[u8]) -> u64
    ensures { result ≡ lengths_cell d.now e.now }
{
    let m = usize::from(dimension_in(d, record_category(e)));
    let n0 = length_in(e, m, 0);
    let n1 = length_in(e, m, 1);
    let n2 = length_in(e, m, 2);
    let n3 = length_in(e, m, 3);
    n0 + LENGTH * (n1 + LENGTH * (n2 + LENGTH * n3))
}

// The two cells of daughter j, which there is.
fn pair_at(d: &[u8], e: &[u8], j: usize) -> Pair
    requires { j < 3 }
    ensures { result ≡ pair_at d.now e.now j }
{
    let a = record_daughter(e, j);
    let n = usize::from(dimension_in(d, a));
    let s0 = stand_of(e, j, 0);
    let s1 = stand_or(e, n, j, 1, s0);
    let s2 = stand_or(e, n, j, 2, s0);
    let s3 = stand_or(e, n, j, 3, s0);
    let b = u64::from(a.0) % CATEGORIES;
    let cell = pack(
        0,
        j as u64,
        b,
        s3.position,
        s2.position,
        s1.position,
        s0.position,
    );
    let last = s2.component + PLACE0 * s3.component;
    let places = n as u64 + PLACE0 * (s0.component + PLACE0 * (s1.component + PLACE0 * last));
    Pair { cell, places }
}

// The two cells of daughter j, 0 where there are not so many daughters: so they stand in the table.
fn pair_of(d: &[u8], e: &[u8], j: usize) -> Pair
    requires { j < 3 }
    ensures { result ≡ pair_of d.now e.now j }
{
    if j < usize::from(record_daughters(e)) {
        pair_at(d, e, j)
    } else {
        Pair { cell: 0, places: 0 }
    }
}

// The daughter of these two cells, ready made for a rule of dimension 1: its component begins at rank 0.
fn ready(p: Pair) -> u64
    requires { Sized (daughter zeros p.cell p.places 0) }
    ensures { result ≡ packed (daughter zeros p.cell p.places 0) }
{
    let b = [0u64; 4];
    made_wide(p.cell, p.places, &b, 0)
}

// The first n of three numbers in rising order.
fn in_order(n: u8, x: u64, y: u64, z: u64) -> [u64; 3]
    ensures { result ≡ in_order n x y z }
{
    match n {
        3 => rising(x, y, z),
        2 => [x.min(y), x.max(y), z],
        _ => [x, y, z],
    }
}

// The cells of a rule; a lexical rule has the first alone.
fn cells_of(d: &[u8], e: &[u8]) -> [u64; CELLS]
    ensures { result ≡ cells_of d.now e.now }
{
    let head = head_cell(d, e);
    let n = record_daughters(e);
    if n == 0 {
        return [head, 0, 0, 0, 0, 0, 0, 0];
    }
    let lens = lengths_cell(d, e);
    let p0 = pair_of(d, e, 0);
    let p1 = pair_of(d, e, 1);
    let p2 = pair_of(d, e, 2);
    if dimension_in(d, record_category(e)) == 1 {
        let t = in_order(n, ready(p0), ready(p1), ready(p2));
        [head, lens, t[0], 0, t[1], 0, t[2], 0]
    } else {
        [
            head, lens, p0.cell, p0.places, p1.cell, p1.places, p2.cell, p2.places,
        ]
    }
}

// Writes the cells of a rule into the table, from cell `at` on.
fn put(t: &mut [u64; TABLE], at: usize, cells: [u64; CELLS])
    requires { (length t.old ≡ 2048) × (length cells ≡ 8) × (at + 8 ≤ 2048) }
    ensures { Put cells t.old t.new at }
{
    t[at..at + CELLS].copy_from_slice(&cells);
}

// The table of the file's rules.
pub fn compile(file: &[u8]) -> [u64; TABLE]
    ensures { grammar_refusal file.now ≡ none → Compiled (grammar_of file.now) result }
{
    let mut t = [0u64; TABLE];
    let d = dimensions(file);
    for r in 0..rules_held(file) {
        let e = record_of(file, RuleNumber(r));
        put(&mut t, CELLS * usize::from(r), cells_of(d, e));
    }
    t
}
