// Tests and sums over a whole list of bytes.
ghost use Rattle.std.specs.Prelude.{◌≡◌, ◌+◌, ◌*◌, ◌<◌, ◌≤◌, length};
ghost use Rattle.model.specs.Base.{occurrences, same_list, total};
ghost use Rattle.model.specs.GrammarFile.{all_zero, fields, weighted};

use crate::bytes::fields;

// Whether every byte is 0. All are looked at, whatever the first ones are: in a loop with no way out the compiler takes many at once.
fn all_zero(bytes: &[u8]) -> bool
    ensures { result ≡ all_zero bytes.now }
{
    let mut zero = true;
    for b in bytes {
        zero &= *b == 0;
    }
    zero
}

// Whether every byte is 0, up to the first that is not: for a few bytes.
fn none_set(bytes: &[u8]) -> bool
    ensures { result ≡ all_zero bytes.now }
{
    bytes.iter().all(|b| *b == 0)
}

// Whether n bytes from byte i on are 0.
pub fn zeros(bytes: &[u8], i: usize, n: usize) -> bool
    ensures { result ≡ all_zero (fields bytes.now i n) }
{
    all_zero(fields(bytes, i, n))
}

// The same, for a few bytes.
pub fn few_zeros(bytes: &[u8], i: usize, n: usize) -> bool
    ensures { result ≡ all_zero (fields bytes.now i n) }
{
    none_set(fields(bytes, i, n))
}

// The sum of the bytes.
pub fn total(bytes: &[u8]) -> u32
    requires { length bytes.now < 65536 }
    ensures { result ≡ total bytes.now }
{
    bytes.iter().map(|b| u32::from(*b)).sum()
}

// How often x is among the bytes.
pub fn occurrences(x: usize, bytes: &[u8]) -> usize
    ensures { result ≡ occurrences x bytes.now }
{
    bytes.iter().filter(|b| usize::from(**b) == x).count()
}

// The check of a part of a block, which no file has: byte by byte.
fn part_check(bytes: &[u8]) -> u32
    requires { length bytes.now ≤ 508 }
    ensures { result ≡ weighted 1 bytes.now }
{
    let mut sum: u32 = 0;
    for (i, b) in bytes.iter().enumerate() {
        sum += (i as u32 + 1) * u32::from(*b);
    }
    sum
}

// How many turns of four bytes the check of a block takes.
const TURNS: usize = 127;

// Of the bytes at one of the four places of a turn: their sum over the turns taken, and the sum of these sums after each turn.
#[derive(Clone, Copy)]
struct Lane {
    sum: u32,
    sums: u32,
}

// The lane with the byte of one more turn, of 127. That a byte is below 256 is said for the bounds of the caller.
fn taken(lane: Lane, x: u8) -> Lane
    requires { (lane.sum ≤ 32130) × (lane.sums ≤ 4112895) }
    ensures { (result.sum ≡ lane.sum + x) × (result.sums ≡ lane.sums + (lane.sum + x)) × (x < 256) }
{
    let sum = lane.sum + u32::from(x);
    Lane {
        sum,
        sums: lane.sums + sum,
    }
}

// What a lane adds to the check after all turns, where its bytes stand k places before the last of their turn.
fn added(lane: Lane, k: u32) -> u32
    requires { (k ≤ 3) × (lane.sum ≤ lane.sums) × (lane.sums ≤ 4112895) }
    ensures { (result + k * lane.sum ≡ 4 * lane.sums) × (result ≤ 16451580) }
{
    4 * lane.sums - k * lane.sum
}

// The check of a block: the sum over its bytes 0 to 507 of (i + 1) times byte i. Four bytes are taken a turn, from the last turn to the first: a byte of turn t
// is in the sums after t + 1 turns. Its factor is 4 times t + 1, less 3, 2, 1 or 0 for the first to the fourth place of the turn.
pub fn block_check(block: &[u8]) -> u32
    ensures { result ≡ weighted 1 (fields block.now 0 508) }
{
    let summed = fields(block, 0, 508);
    if summed.len() < 508 {
        return part_check(summed);
    }
    let mut lanes = [Lane { sum: 0, sums: 0 }; 4];
    for turn in (0..TURNS).rev() {
        for place in 0..4 {
            lanes[place] = taken(lanes[place], summed[4 * turn + place]);
        }
    }
    added(lanes[0], 3) + added(lanes[1], 2) + added(lanes[2], 1) + added(lanes[3], 0)
}

// Whether two lists of bytes are the same.
pub fn same_bytes(a: &[u8], b: &[u8]) -> bool
    ensures { result ≡ same_list a.now b.now }
{
    a == b
}
