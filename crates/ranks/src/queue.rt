// The queue: a rising list of predictions, each one number, as the part from..to of a lent array. A step reads from..to and writes the next queue
// behind it, so that the queues of all steps of a run stand one behind the other.
ghost use Rattle.std.specs.Prelude.{◌≡◌, [], ◌∷◌, ℕ, ◌+◌, ◌-◌, ◌<◌, ◌≤◌, get_or};
ghost use Rattle.ranking.specs.Ranks.{shifted};
ghost use Rattle.ranks.specs.Prediction.{Short, Behind, Apart, remade};
ghost use Rattle.ranks.specs.Moves.{moves_ranks, moves_lengths, Bounded};
ghost use Rattle.ranks.specs.Held.{FirstQueue};
ghost use Rattle.ranks.specs.Queue.{Roomy, Gap, Every, Mapped, Settled, Placed};

use crate::prediction::{Moves, moved1, moved3, pack, shifted};
use model::Category;

// 64 predictions for each of the 97 queues of a run, and as many cells behind the last. A queue is given by `from` and `to`, and is no slice: what is written
// behind it is in the same array.
pub const ROOM: usize = 6272;

// Writes f of each number of from..to, to `out` on.
fn carry<F: Fn(u64) -> u64>(w: &mut [u64; ROOM], from: usize, to: usize, out: usize, f: F)
    ghost after: { ℕ → ℕ }
    requires room { Roomy w.old from to out }
    requires may_call { (i : ℕ) → from ≤ i → i < to → F.pre f (get_or w.old i 0) }
    requires answers { (i y : ℕ) → from ≤ i → i < to → F.post f (get_or w.old i 0) y → y ≡ after (get_or w.old i 0) }
    ensures { Mapped after w.old w.new from to out }
{
    // A counter beside i: with the place reckoned as `out + (i - from)` a step by a rule of dimension 1 takes half as long again.
    let mut k = out;
    for i in from..to {
        w[k] = f(w[i]);
        k += 1;
    }
}

// The predictions from..to, which are behind the front, to `out` on: the front's component of rank 0 gives way to len0 variables.
pub fn shift(w: &mut [u64; ROOM], from: usize, to: usize, out: usize, len0: u64)
    requires { Roomy w.old from to out × Every Short w.old from to × Every Behind w.old from to × (len0 < 256) }
    ensures { Mapped (remade (shifted (0 ∷ []) (len0 ∷ []))) w.old w.new from to out }
{
    carry(w, from, to, out, move |x| shifted(x, len0));
}

// The same where a component of rank f1 gives way to len1 variables too.
pub fn move1(w: &mut [u64; ROOM], from: usize, to: usize, out: usize, len0: u64, f1: u64, len1: u64)
    requires { Roomy w.old from to out × Every Short w.old from to × Every Behind w.old from to × Every (Apart (0 ∷ (f1 ∷ [])) (len0 ∷ (len1 ∷ []))) w.old from to × (len0 < 256) × (f1 < 256) × (len1 < 256) }
    ensures { Mapped (remade (shifted (0 ∷ (f1 ∷ [])) (len0 ∷ (len1 ∷ [])))) w.old w.new from to out }
{
    carry(w, from, to, out, move |x| moved1(x, len0, f1, len1));
}

// The same for three other components. A component that is not there has rank 255, above which there is none.
pub fn move3(w: &mut [u64; ROOM], from: usize, to: usize, out: usize, m: Moves)
    requires { Roomy w.old from to out × Every Short w.old from to × Every Behind w.old from to × Every (Apart (moves_ranks m) (moves_lengths m)) w.old from to × Bounded m }
    ensures { Mapped (remade (shifted (moves_ranks m) (moves_lengths m))) w.old w.new from to out }
{
    carry(w, from, to, out, move |x| moved3(x, m));
}

// A lexical step: the front goes, and every rank is one less.
pub fn scan(w: &mut [u64; ROOM], from: usize, to: usize)
    requires { Roomy w.old (from + 1) to to × Every Short w.old (from + 1) to × Every Behind w.old (from + 1) to }
    ensures { Mapped (remade (λ n. n - 1)) w.old w.new (from + 1) to to }
{
    shift(w, from + 1, to, to, 0);
}

// Puts e in its place in the rising list that stands from from + gap to end: what is not above e moves down to `from` first. Answers the place after e.
pub fn settle(w: &mut [u64; ROOM], from: usize, gap: usize, end: usize, e: u64) -> usize
    requires { Gap w.old from gap end }
    ensures { Settled e w.old w.new from gap end result }
{
    // By index: one array is read and written, at a distance of `gap`, until e has its place.
    let mut p = from;
    while p + gap < end {
        let x = w[p + gap];
        if e < x {
            w[p] = e;
            return p + 1;
        }
        w[p] = x;
        p += 1;
    }
    w[p] = e;
    p + 1
}

// One daughter in its place: the list of from + 1 .. end with e in it stands in from..end then. There is a function for each number of daughters, since each
// leaves the rest to the one below it.
pub fn settle1(w: &mut [u64; ROOM], from: usize, end: usize, e: u64)
    requires { Gap w.old from 1 end }
    ensures { Placed (e ∷ []) w.old w.new from 1 end }
{
    settle(w, from, 1, end, e);
}

// Two daughters, in rising order.
pub fn settle2(w: &mut [u64; ROOM], from: usize, end: usize, e0: u64, e1: u64)
    requires { Gap w.old from 2 end × (e0 ≤ e1) }
    ensures { Placed (e0 ∷ (e1 ∷ [])) w.old w.new from 2 end }
{
    let p = settle(w, from, 2, end, e0);
    settle1(w, p, end, e1);
}

// Three daughters, in rising order.
pub fn settle3(w: &mut [u64; ROOM], from: usize, end: usize, e0: u64, e1: u64, e2: u64)
    requires { Gap w.old from 3 end × (e0 ≤ e1) × (e1 ≤ e2) }
    ensures { Placed (e0 ∷ (e1 ∷ (e2 ∷ []))) w.old w.new from 3 end }
{
    let p = settle(w, from, 3, end, e0);
    settle2(w, p, end, e1, e2);
}

// The first queue, w[0..1]: a prediction of category a, whose only component has rank 0.
pub fn first_queue(a: Category) -> [u64; ROOM]
    requires { a.0 < 64 }
    ensures { FirstQueue a.0 result }
{
    let mut w = [0u64; ROOM];
    w[0] = pack(0, 0, u64::from(a.0), 0, 0, 0, 0);
    w
}
