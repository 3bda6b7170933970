// A prediction as one number: from above its least rank, its number, its category, and the ranks of components 3 to 0, the category in 6 bits, each other in 9;
// the rank of component 0 stands again where there is no component. A rank is below 256: one bit of its 9 is free. The functions of this file alone take such a
// number apart or put it together; `queue` compares two whole ones, of which the one with the lesser least rank is the lesser.
ghost use Rattle.std.specs.Prelude.{◌≡◌, [], ◌∷◌, ◌+◌, ◌*◌, ◌<◌, get_or};
ghost use Rattle.ranking.specs.Ranks.{above, shifted};
ghost use Rattle.ranks.specs.Table.{marked};
ghost use Rattle.ranks.specs.Prediction.{Short, Behind, Apart, Sized, Flags, ranks, packed, unpacked, marks, remade};
ghost use Rattle.ranks.specs.Moves.{moves_ranks, moves_lengths, Bounded, Small};

use model::Category;

// The components of the front that move other ranks: the one of rank 0 gives way to len0 variables, the one of rank f1 to len1, and so on; where there is
// none the length is 1.
#[derive(Clone, Copy)]
pub struct Moves {
    pub len0: u64,
    pub f1: u64,
    pub len1: u64,
    pub f2: u64,
    pub len2: u64,
    pub f3: u64,
    pub len3: u64,
}

// 1 in the place of each part.
const LEAST: u64 = 2251799813685248;

const NUMBER: u64 = 4398046511104;

const CATEGORY: u64 = 68719476736;

const RANK3: u64 = 134217728;

const RANK2: u64 = 262144;

const RANK1: u64 = 512;
// 1 in the places of ranks 0, 2 and 3: of component 0, and of those that repeat it where there are two components.
const FIRST: u64 = 134479873;
// 1 in the place of each rank, the least one's too.
const ONES: u64 = 2251799948165633;
// A rank's place has WIDTH bits, and LANE is above every number in it. The free bit is HIGH.
const WIDTH: usize = 9;

const LANE: u64 = 512;

const HIGH: u64 = 256;

const CATEGORIES: u64 = 64;

// The prediction as a number.
pub fn pack(least: u64, number: u64, category: u64, r3: u64, r2: u64, r1: u64, r0: u64) -> u64
    requires { Sized (record { least = least; number = number; category = category; rank3 = r3; rank2 = r2; rank1 = r1; rank0 = r0 }) }
    ensures { result ≡ packed (record { least = least; number = number; category = category; rank3 = r3; rank2 = r2; rank1 = r1; rank0 = r0 }) }
{
    least * LEAST
        + number * NUMBER
        + category * CATEGORY
        + r3 * RANK3
        + r2 * RANK2
        + r1 * RANK1
        + r0
}

// The prediction x with `mark` added to its number.
pub fn marked(x: u64, mark: u64) -> u64
    requires { (x < 1152921504606846976) × (mark < 512) }
    ensures { result ≡ marked mark x }
{
    x + mark * NUMBER
}

// The prediction x, whose only component has its position for a rank, with that component b further on and `mark` added to its number.
pub fn alone(x: u64, b: u64, mark: u64) -> u64
    requires { ((unpacked x).least ≡ 0) × (b + (unpacked x).rank0 < 512) × (mark < 512) }
    ensures { result ≡ x + b * 2251799948165633 + (unpacked x).rank0 * 2251799813685248 + mark * 4398046511104 }
{
    x + b * ONES + x % LANE * LEAST + mark * NUMBER
}

// The prediction x, which has at most two components and 0 in the place of its least rank, with `mark` added to its number, and with `base` added to the rank
// of component 0 where far0 is 1, and to that of component 1 where far1 is 1; where there is one component, far1 is far0.
pub fn lifted(x: u64, far0: u64, far1: u64, base: u64, mark: u64) -> u64
    requires { ((unpacked x).least ≡ 0) × (far0 < 2) × (far1 < 2) × (base < 512) × (mark < 512) }
    ensures { result ≡ x + base * (far0 * 134479873 + far1 * 512) + mark * 4398046511104 }
{
    x + base * (far0 * FIRST + far1 * RANK1) + mark * NUMBER
}

// The prediction x, which has 0 in the place of its least rank, with `least` there.
pub fn with_least(x: u64, least: u64) -> u64
    requires { ((unpacked x).least ≡ 0) × (least < 512) }
    ensures { result ≡ x + least * 2251799813685248 }
{
    x + least * LEAST
}

// Its number.
pub fn number(x: u64) -> u64
    ensures { result ≡ (unpacked x).number }
{
    x / NUMBER % LANE
}

// Its category.
pub fn category(x: u64) -> Category
    ensures { (result.0 ≡ (unpacked x).category) × (result.0 < 64) }
{
    Category((x / CATEGORY % CATEGORIES) as u8)
}

// The rank of component c.
pub fn rank(x: u64, c: usize) -> u64
    requires { c < 4 }
    ensures { result ≡ get_or (ranks (unpacked x)) c 0 }
{
    (x >> (WIDTH * c)) % LANE
}

// The ranks of its components.
pub fn ranks_of(x: u64) -> [u64; 4]
    ensures { result ≡ ranks (unpacked x) }
{
    [rank(x, 0), rank(x, 1), rank(x, 2), rank(x, 3)]
}

// 1 in the place of each rank of x that lies above f.
fn reached(x: u64, f: u64) -> u64
    requires { Short (unpacked x) × (f < 256) }
    ensures { result ≡ packed (marks (above f 1) (unpacked x)) }
{
    ((x + (HIGH - 1 - f) * ONES) / HIGH) & ONES
}

// len in the place of each 1 of t.
fn spread(t: u64, len: u64) -> u64
    requires { Flags (unpacked t) × (len < 256) }
    ensures { result ≡ packed (marks (above 0 len) (unpacked t)) }
{
    (t * LANE - t) & (len * ONES)
}

// Each rank has len0 - 1 more, where the front's component of rank 0 gives way to len0 variables, and each that lies above f1 has len1 - 1 more, where another
// of rank f1 gives way to len1, in a prediction that is not the front.
pub fn moved1(x: u64, len0: u64, f1: u64, len1: u64) -> u64
    requires { Short (unpacked x) × Behind (unpacked x) × Apart (0 ∷ (f1 ∷ [])) (len0 ∷ (len1 ∷ [])) (unpacked x) × (len0 < 256) × (f1 < 256) × (len1 < 256) }
    ensures { result ≡ remade (shifted (0 ∷ (f1 ∷ [])) (len0 ∷ (len1 ∷ []))) x }
{
    let t1 = reached(x, f1);
    x + len0 * ONES + spread(t1, len1) - t1 - ONES
}

// The same for the front's component of rank 0 and three others.
pub fn moved3(x: u64, m: Moves) -> u64
    requires { Short (unpacked x) × Behind (unpacked x) × Apart (moves_ranks m) (moves_lengths m) (unpacked x) × Bounded m }
    ensures { result ≡ remade (shifted (moves_ranks m) (moves_lengths m)) x }
{
    let t1 = reached(x, m.f1);
    let t2 = reached(x, m.f2);
    let t3 = reached(x, m.f3);
    x + m.len0 * ONES + spread(t1, m.len1) + spread(t2, m.len2) + spread(t3, m.len3)
        - t1
        - t2
        - t3
        - ONES
}

// The same for the front's component of rank 0 alone: every rank of a prediction that is not the front has len0 - 1 more.
pub fn shifted(x: u64, len0: u64) -> u64
    requires { Short (unpacked x) × Behind (unpacked x) × (len0 < 256) }
    ensures { result ≡ remade (shifted (0 ∷ []) (len0 ∷ [])) x }
{
    x + len0 * ONES - ONES
}

// Each rank where four components, of the ranks f, give way to variables: so many as `lens` says.
pub fn moved4(x: u64, f: &[u64; 4], lens: &[u64; 4]) -> u64
    requires { Short (unpacked x) × Apart f.now lens.now (unpacked x) × Small f.now × Small lens.now }
    ensures { result ≡ remade (shifted f.now lens.now) x }
{
    let [f0, f1, f2, f3] = *f;
    let [n0, n1, n2, n3] = *lens;
    let t0 = reached(x, f0);
    let t1 = reached(x, f1);
    let t2 = reached(x, f2);
    let t3 = reached(x, f3);
    x + spread(t0, n0) + spread(t1, n1) + spread(t2, n2) + spread(t3, n3) - t0 - t1 - t2 - t3
}
