// Which components of the front move the ranks of the queue: those whose lengths are not 1.
ghost use Rattle.std.specs.Prelude.{◌≡◌, [], ◌∷◌, ◌<◌};
ghost use Rattle.ranking.specs.Ranks.{shifted};
ghost use Rattle.ranks.specs.Prediction.{ranks, unpacked, Short, Behind, Apart, remade};
ghost use Rattle.ranks.specs.Queue.{Roomy, Every, Mapped};
ghost use Rattle.ranks.specs.Moves.{moves_ranks, moves_lengths, with_one, gathered, lengths_of, Bounded, begun, Begins};

use crate::prediction::{Moves, moved4, ranks_of};
use crate::queue::{ROOM, move1, move3, shift};
use crate::table::lengths_of;

// The highest rank: none lies above it.
const HIGHEST: u64 = 255;

// m with a component of rank f and len variables.
fn with_one(m: Moves, f: u64, len: u64) -> Moves
    ensures { result ≡ with_one m f len }
{
    if len == 1 {
        return m;
    }
    if f == 0 {
        return Moves { len0: len, ..m };
    }
    Moves {
        len0: m.len0,
        f1: f,
        len1: len,
        f2: m.f1,
        len2: m.len1,
        f3: m.f2,
        len3: m.len2,
    }
}

// Of the front, where the rule's components have these lengths.
pub fn moves_of(front: u64, lens: u64) -> Moves
    ensures { result ≡ gathered (ranks (unpacked front)) (lengths_of lens) }
{
    let none = Moves {
        len0: 1,
        f1: HIGHEST,
        len1: 1,
        f2: HIGHEST,
        len2: 1,
        f3: HIGHEST,
        len3: 1,
    };
    let f = ranks_of(front);
    let n = lengths_of(lens);
    // Written out, as `gathered` unfolds on four.
    let m3 = with_one(none, f[3], n[3]);
    let m2 = with_one(m3, f[2], n[2]);
    let m1 = with_one(m2, f[1], n[1]);
    with_one(m1, f[0], n[0])
}

// The predictions from..to, which are behind the front, to `out` on, where its component of rank 0 gives way to len0 variables, and another, of rank f1, to len1;
// where there is no other, len1 is 1.
pub fn advance_two(
    w: &mut [u64; ROOM],
    from: usize,
    to: usize,
    out: usize,
    len0: u64,
    f1: u64,
    len1: u64,
)
    requires { Roomy w.old from to out × Every Short w.old from to × Every Behind w.old from to × Every (Apart (0 ∷ (f1 ∷ [])) (len0 ∷ (len1 ∷ []))) w.old from to × (len0 < 256) × (f1 < 256) × (len1 < 256) }
    ensures { Mapped (remade (shifted (0 ∷ (f1 ∷ [])) (len0 ∷ (len1 ∷ [])))) w.old w.new from to out }
{
    if len1 == 1 {
        shift(w, from, to, out, len0);
        return;
    }
    move1(w, from, to, out, len0, f1, len1);
}

// The predictions from..to, which are behind the front, to `out` on.
pub fn advance(w: &mut [u64; ROOM], from: usize, to: usize, out: usize, m: Moves)
    requires { Roomy w.old from to out × Every Short w.old from to × Every Behind w.old from to × Every (Apart (moves_ranks m) (moves_lengths m)) w.old from to × Bounded m }
    ensures { Mapped (remade (shifted (moves_ranks m) (moves_lengths m))) w.old w.new from to out }
{
    if m.len3 == 1 && m.len2 == 1 {
        advance_two(w, from, to, out, m.len0, m.f1, m.len1);
        return;
    }
    move3(w, from, to, out, m);
}

// The ranks at which the components of the front begin after a step by a rule of these lengths.
pub fn bases(front: u64, lens: u64) -> [u64; 4]
    requires { Begins front lens }
    ensures { result ≡ ranks (begun front lens) }
{
    ranks_of(moved4(front, &ranks_of(front), &lengths_of(lens)))
}
