// The rules of a grammar as a table, made once for a call: CELLS cells a rule, which begin at the place that `place_of` gives. The constants of this file say
// how cells are packed: the table is made by them (crate `rule_table`) and read by them, here and in `daughters`. What is a prediction is packed as
// `prediction` says.
ghost use Rattle.std.specs.Prelude.{◌≡◌, ℕ, ◌+◌, ◌*◌, ◌/◌, ◌%◌, ◌<◌, ◌≤◌, get_or};
ghost use Rattle.ranks.specs.Moves.{lengths_of};
ghost use Rattle.ranks.specs.Table.{daughters_in, dimension_in, category_in, word_in, at_most_two, of_two, marked, ready_made};

use crate::prediction::marked;
use model::{Category, RuleNumber, Word};

// The table holds the cells of 256 rules.
pub const TABLE: usize = 2048;

pub const CELLS: usize = 8;

// A rule has at most so many daughters.
pub const MOST_DAUGHTERS: usize = 3;

// Cell 0 has, from below, the number of daughters, the dimension of the category, the category, and the word: 1 in the place of each but the first.
pub const DIMENSION: u64 = 4;

pub const CATEGORY: u64 = 32;

pub const WORD: u64 = 2048;

// What is above every dimension, every category and every word in its place.
pub const DIMENSIONS: u64 = 8;

pub const CATEGORIES: u64 = 64;

const WORDS: u64 = 65536;

// Cell 1 has the lengths of the components of a nonlexical rule.
const LENGTHS: usize = 1;

// Each length is below this, and this is 1 in the place of the second.
pub const LENGTH: u64 = 65536;

// From cell 2 on each daughter of a rule of dimension 2 or more has two cells: it as a prediction with positions for ranks, and then where its components
// stand. A rule of dimension 1 has its daughters ready made, in rising order, in the first of each two cells, and 0 in the second. A lexical rule has 0 in
// all.
const FIRST_DAUGHTER: usize = 2;

const FIRST_PLACES: usize = 3;

// The second of a daughter's two cells has, from below, the daughter's dimension, and of each of its components the component of the rule: 1 in the place of
// each of these.
pub const PLACE0: u64 = 8;

pub const PLACE1: u64 = 64;

pub const PLACE2: u64 = 512;

pub const PLACE3: u64 = 4096;

// Where the cells of a rule begin.
pub fn place_of(r: RuleNumber) -> usize
    ensures { result ≡ 8 * r.0 }
{
    CELLS * usize::from(r.0)
}

// How many daughters the rule has whose cells begin at `at`.
pub fn daughters(t: &[u64; TABLE], at: usize) -> usize
    requires { at + 8 ≤ 2048 }
    ensures { (result ≡ daughters_in t.now at) × (result < 4) }
{
    (t[at] % DIMENSION) as usize
}

// The dimension of its category.
pub fn dimension(t: &[u64; TABLE], at: usize) -> u64
    requires { at + 8 ≤ 2048 }
    ensures { result ≡ dimension_in t.now at }
{
    t[at] / DIMENSION % DIMENSIONS
}

// Its category.
pub fn category(t: &[u64; TABLE], at: usize) -> Category
    requires { at + 8 ≤ 2048 }
    ensures { result.0 ≡ category_in t.now at }
{
    Category((t[at] / CATEGORY % CATEGORIES) as u8)
}

// Its word.
pub fn word(t: &[u64; TABLE], at: usize) -> Word
    requires { at + 8 ≤ 2048 }
    ensures { result.0 ≡ word_in t.now at }
{
    Word((t[at] / WORD % WORDS) as u16)
}

// The lengths of the components of a rule that is nonlexical, as one number.
pub fn lengths(t: &[u64; TABLE], at: usize) -> u64
    requires { at + 8 ≤ 2048 }
    ensures { result ≡ get_or t.now (at + 1) 0 }
{
    t[at + LENGTHS]
}

// The same, one by one.
pub fn lengths_of(lens: u64) -> [u64; 4]
    ensures { result ≡ lengths_of lens }
{
    [
        lens % LENGTH,
        lens / LENGTH % LENGTH,
        lens / LENGTH / LENGTH % LENGTH,
        lens / LENGTH / LENGTH / LENGTH,
    ]
}

// The length of the first component.
pub fn first_length(t: &[u64; TABLE], at: usize) -> u64
    requires { at + 8 ≤ 2048 }
    ensures { result ≡ get_or t.now (at + 1) 0 % 65536 }
{
    t[at + LENGTHS] % LENGTH
}

// The length of the second.
pub fn second_length(t: &[u64; TABLE], at: usize) -> u64
    requires { at + 8 ≤ 2048 }
    ensures { result ≡ get_or t.now (at + 1) 0 / 65536 % 65536 }
{
    t[at + LENGTHS] / LENGTH % LENGTH
}

// Daughter j as a prediction with positions for ranks.
pub fn daughter_cell(t: &[u64; TABLE], at: usize, j: usize) -> u64
    requires { (at + 8 ≤ 2048) × (j < 3) }
    ensures { result ≡ get_or t.now (at + 2 + 2 * j) 0 }
{
    t[at + FIRST_DAUGHTER + 2 * j]
}

// Where its components stand.
pub fn places_cell(t: &[u64; TABLE], at: usize, j: usize) -> u64
    requires { (at + 8 ≤ 2048) × (j < 3) }
    ensures { result ≡ get_or t.now (at + 3 + 2 * j) 0 }
{
    t[at + FIRST_PLACES + 2 * j]
}

// The j-th of the daughters that a rule of dimension 1 has ready made, with `mark` added to its number.
pub fn ready_made(t: &[u64; TABLE], at: usize, j: usize, mark: u64) -> u64
    requires { (at + 8 ≤ 2048) × (j < 3) × (get_or t.now (at + 2 + 2 * j) 0 < 1152921504606846976) × (mark < 512) }
    ensures { result ≡ marked mark (get_or t.now (at + 2 + 2 * j) 0) }
{
    marked(daughter_cell(t, at, j), mark)
}

// All three of them.
pub fn all_ready_made(t: &[u64; TABLE], at: usize, mark: u64) -> [u64; MOST_DAUGHTERS]
    requires { (at + 8 ≤ 2048) × ((j : ℕ) → j < 3 → get_or t.now (at + 2 + 2 * j) 0 < 1152921504606846976) × (mark < 512) }
    ensures { result ≡ ready_made t.now at mark }
{
    [
        ready_made(t, at, 0, mark),
        ready_made(t, at, 1, mark),
        ready_made(t, at, 2, mark),
    ]
}

// Whether daughter j has at most two components; one that is not there has none.
fn at_most_two(t: &[u64; TABLE], at: usize, j: usize) -> bool
    requires { (at + 8 ≤ 2048) × (j < 3) }
    ensures { result ≡ at_most_two t.now at j }
{
    places_cell(t, at, j) % DIMENSIONS < 3
}

// Whether the category has two components, and each daughter at most two.
pub fn of_two(t: &[u64; TABLE], at: usize) -> bool
    requires { at + 8 ≤ 2048 }
    ensures { result ≡ of_two t.now at }
{
    dimension(t, at) == 2 && at_most_two(t, at, 0) && at_most_two(t, at, 1) && at_most_two(t, at, 2)
}
