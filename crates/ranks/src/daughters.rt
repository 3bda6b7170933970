// The daughters of a nonlexical step, as predictions of the next queue.
ghost use Rattle.std.specs.Prelude.{◌≡◌, ℕ, ◌+◌, ◌*◌, ◌%◌, ◌<◌, ◌≤◌, length, get_or, take};
ghost use Rattle.ranks.specs.Prediction.{Sized, packed};
ghost use Rattle.ranks.specs.Daughters.{daughter, Alone, two_bases, MakesTwo, Rising};
ghost use Rattle.ranks.specs.Step.{daughter_at, daughters_at, Makes};

use crate::prediction::{alone, category, lifted, number, pack, rank, with_least};
use crate::table::{
    DIMENSIONS, MOST_DAUGHTERS, PLACE0, PLACE1, PLACE2, PLACE3, TABLE, daughter_cell, places_cell,
};

// A category has at most so many components.
const COMPONENTS: u64 = 4;

// Three numbers in rising order.
pub fn rising(x: u64, y: u64, z: u64) -> [u64; 3]
    ensures order { Rising x y z (get_or result 0 0) (get_or result 1 0) (get_or result 2 0) }
    ensures long { length result ≡ 3 }
{
    let a = x.min(y);
    let b = x.max(y);
    let c = b.min(z);
    [a.min(c), a.max(c), b.max(z)]
}

// The daughter of these two cells, where the front's components begin at the ranks b. `mark` is added to its number.
pub fn made_wide(cell: u64, places: u64, b: &[u64; 4], mark: u64) -> u64
    requires { (length b.now ≡ 4) × Sized (daughter b.now cell places mark) }
    ensures { result ≡ packed (daughter b.now cell places mark) }
{
    let r0 = b[(places / PLACE0 % COMPONENTS) as usize] + rank(cell, 0);
    let r1 = b[(places / PLACE1 % COMPONENTS) as usize] + rank(cell, 1);
    let r2 = b[(places / PLACE2 % COMPONENTS) as usize] + rank(cell, 2);
    let r3 = b[(places / PLACE3 % COMPONENTS) as usize] + rank(cell, 3);
    let least = r0.min(r1).min(r2.min(r3));
    pack(
        least,
        mark + number(cell),
        u64::from(category(cell).0),
        r3,
        r2,
        r1,
        r0,
    )
}

// The same; a daughter with a single component has one rank in every place.
pub fn made(cell: u64, places: u64, b: &[u64; 4], mark: u64) -> u64
    requires { (length b.now ≡ 4) × Sized (daughter b.now cell places mark) × (places % 8 ≡ 1 → Alone cell places) }
    ensures { result ≡ packed (daughter b.now cell places mark) }
{
    if places % DIMENSIONS == 1 {
        return alone(cell, b[(places / PLACE0 % COMPONENTS) as usize], mark);
    }
    made_wide(cell, places, b, mark)
}

// Daughter j of d from the cells of the rule that begin at `at`, or 0 where there are not so many.
pub fn made_at(t: &[u64; TABLE], at: usize, d: usize, j: usize, b: &[u64; 4], mark: u64) -> u64
    requires { (at + 8 ≤ 2048) × (j < 3) × (length b.now ≡ 4) × (j < d → Makes t.now at j b.now mark) }
    ensures { j < d → result ≡ daughter_at t.now at j b.now mark }
{
    if j < d {
        made(daughter_cell(t, at, j), places_cell(t, at, j), b, mark)
    } else {
        0
    }
}

// The d daughters, and 0 behind them.
pub fn all_made_at(
    t: &[u64; TABLE],
    at: usize,
    d: usize,
    b: &[u64; 4],
    mark: u64,
) -> [u64; MOST_DAUGHTERS]
    requires { (at + 8 ≤ 2048) × (length b.now ≡ 4) × ((j : ℕ) → j < 3 → j < d → Makes t.now at j b.now mark) }
    ensures { take d result ≡ take d (daughters_at t.now at b.now mark) }
{
    let mut e = [0; MOST_DAUGHTERS];
    for j in 0..d.min(MOST_DAUGHTERS) {
        e[j] = made_at(t, at, d, j, b, mark);
    }
    e
}

// The daughter of these two cells, which has at most two components, for a front of two. Component `lowest` of the front has rank 0, and what takes the place of
// the other begins at rank `base`. A place is 0 or 1, so that it is the other's where place and `lowest` add up to 1.
fn made_two(cell: u64, places: u64, lowest: u64, base: u64, mark: u64) -> u64
    requires { MakesTwo cell places lowest base mark }
    ensures { result ≡ packed (daughter (two_bases lowest base) cell places mark) }
{
    let far0 = (places / PLACE0 + lowest) % 2;
    let far1 = (places / PLACE1 + lowest) % 2;
    let y = lifted(cell, far0, far1, base, mark);
    with_least(y, rank(y, 0).min(rank(y, 1)))
}

// Daughter j of d, made in this way from the cells of the rule that begin at `at`, or 0 where there are not so many. Beside `made_at`, since it asks other facts
// of the cells.
pub fn made_two_at(
    t: &[u64; TABLE],
    at: usize,
    d: usize,
    j: usize,
    lowest: u64,
    base: u64,
    mark: u64,
) -> u64
    requires { (at + 8 ≤ 2048) × (j < 3) × (j < d → MakesTwo (get_or t.now (at + 2 + 2 * j) 0) (get_or t.now (at + 3 + 2 * j) 0) lowest base mark) }
    ensures { j < d → result ≡ daughter_at t.now at j (two_bases lowest base) mark }
{
    if j < d {
        made_two(
            daughter_cell(t, at, j),
            places_cell(t, at, j),
            lowest,
            base,
            mark,
        )
    } else {
        0
    }
}

// The d daughters made in this way, and 0 behind them.
pub fn all_made_two_at(
    t: &[u64; TABLE],
    at: usize,
    d: usize,
    lowest: u64,
    base: u64,
    mark: u64,
) -> [u64; MOST_DAUGHTERS]
    requires { (at + 8 ≤ 2048) × ((j : ℕ) → j < 3 → j < d → MakesTwo (get_or t.now (at + 2 + 2 * j) 0) (get_or t.now (at + 3 + 2 * j) 0) lowest base mark) }
    ensures { take d result ≡ take d (daughters_at t.now at (two_bases lowest base) mark) }
{
    let mut e = [0; MOST_DAUGHTERS];
    for j in 0..d.min(MOST_DAUGHTERS) {
        e[j] = made_two_at(t, at, d, j, lowest, base, mark);
    }
    e
}
