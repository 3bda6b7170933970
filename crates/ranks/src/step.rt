// A nonlexical step on the queue.
ghost use Rattle.std.specs.Prelude.{[], ◌∷◌, ◌++◌, map, ◌+◌, ◌-◌, ◌<◌, ◌≤◌, take, length};
ghost use Rattle.std.proofs.Math.Seq.{slice};
ghost use Rattle.ranking.specs.Ranks.{shifted};
ghost use Rattle.ranks.specs.Prediction.{Short, Behind, Apart, remade};
ghost use Rattle.ranks.specs.Moves.{moves_ranks, moves_lengths, Bounded};
ghost use Rattle.ranks.specs.Step.{ExpandsWide, expanded_wide, ExpandsTwo, expanded_two, Expandable, Expanded};
ghost use Rattle.ranks.specs.Queue.{Every, Gap, Placed, Steps, Next, insert_all};

use crate::daughters::{all_made_at, all_made_two_at, rising};
use crate::moves::{advance, advance_two, bases, moves_of};
use crate::prediction::{Moves, rank};
use crate::queue::{ROOM, settle1, settle2, settle3, shift};
use crate::table::{
    MOST_DAUGHTERS, TABLE, all_ready_made, daughters, dimension, first_length, lengths, of_two,
    place_of, second_length,
};
use model::RuleNumber;

// A step by a rule of dimension 1. Its component has len variables, so the d daughters, the first d of e, hold the ranks below len, and every other rank moves
// up by len - 1: the daughters come first, in their order. The next queue begins at `to`.
pub fn expand_narrow(
    w: &mut [u64; ROOM],
    from: usize,
    to: usize,
    d: usize,
    len: u64,
    e: &[u64; MOST_DAUGHTERS],
)
    requires { Steps w.old from to d × Every Short w.old (from + 1) to × Every Behind w.old (from + 1) to × (len < 256) }
    ensures { Next (take d e.now ++ map (remade (shifted (0 ∷ []) (len ∷ []))) (slice (from + 1) to w.old)) w.old w.new to (to + d + (to - (from + 1))) }
{
    // All three are stored, whatever d is: a copy of so many takes longer.
    let [e0, e1, e2] = *e;
    w[to] = e0;
    w[to + 1] = e1;
    w[to + 2] = e2;
    shift(w, from + 1, to, to + d, len);
}

// The daughters e, put in their places in the rising list that stands behind as many free cells from `from` on, up to `end`; it fills from..end then.
fn settle_some(w: &mut [u64; ROOM], from: usize, end: usize, e: &[u64])
    requires { Gap w.old from (length e.now) end × (length e.now ≤ 3) }
    ensures { Placed e.now w.old w.new from (length e.now) end }
{
    match *e {
        [x] => settle1(w, from, end, x),
        [x, y] => settle2(w, from, end, x.min(y), x.max(y)),
        [x, y, z] => {
            let [low, mid, high] = rising(x, y, z);
            settle3(w, from, end, low, mid, high);
        }
        _ => unreachable!(),
    }
}

// A step whose daughters are e, in any order: the others move as m says, and the daughters settle among them. The next queue begins at `to`.
fn replace(w: &mut [u64; ROOM], from: usize, to: usize, m: Moves, e: &[u64])
    requires { Steps w.old from to (length e.now) × (0 < length e.now) × Every Short w.old (from + 1) to × Every Behind w.old (from + 1) to × Every (Apart (moves_ranks m) (moves_lengths m)) w.old (from + 1) to × Bounded m }
    ensures { Next (insert_all e.now (map (remade (shifted (moves_ranks m) (moves_lengths m))) (slice (from + 1) to w.old))) w.old w.new to (to + length e.now + (to - (from + 1))) }
{
    let d = e.len();
    advance(w, from + 1, to, to + d, m);
    settle_some(w, to, to + d + (to - (from + 1)), e);
}

// A step by the rule whose cells begin at `at`, which has d daughters and not dimension 1: the queue from..to to the one that begins at `to`. `mark` is
// added to the daughters' numbers.
fn expand_wide(
    t: &[u64; TABLE],
    w: &mut [u64; ROOM],
    from: usize,
    to: usize,
    at: usize,
    d: usize,
    mark: u64,
)
    requires { ExpandsWide t.now at d mark w.old from to }
    ensures { Next (expanded_wide t.now at d mark w.old from to) w.old w.new to (to + d + (to - (from + 1))) }
{
    let front = w[from];
    let lens = lengths(t, at);
    let b = bases(front, lens);
    let e = all_made_at(t, at, d, &b, mark);
    replace(w, from, to, moves_of(front, lens), &e[..d]);
}

// The same for a rule of dimension 2 whose daughters have at most two components. One of the front's components has rank 0, so that the front's ranks are not
// compared with each other to know where they begin. Each order of the two has its own arm: which of them has rank 0 is a constant there, so that the table alone
// tells which ranks of a daughter begin at `base`.
fn expand_two(
    t: &[u64; TABLE],
    w: &mut [u64; ROOM],
    from: usize,
    to: usize,
    at: usize,
    d: usize,
    mark: u64,
)
    requires { ExpandsTwo t.now at d mark w.old from to }
    ensures { Next (expanded_two t.now at d mark w.old from to) w.old w.new to (to + d + (to - (from + 1))) }
{
    let front = w[from];
    let len0 = first_length(t, at);
    let len1 = second_length(t, at);
    let f0 = rank(front, 0);
    let f1 = rank(front, 1);
    let end = to + d + (to - (from + 1));
    if f0 == 0 {
        let e = all_made_two_at(t, at, d, 0, f1 + len0 - 1, mark);
        advance_two(w, from + 1, to, to + d, len0, f1, len1);
        settle_some(w, to, end, &e[..d]);
        return;
    }
    let e = all_made_two_at(t, at, d, 1, f0 + len1 - 1, mark);
    advance_two(w, from + 1, to, to + d, len1, f0, len0);
    settle_some(w, to, end, &e[..d]);
}

// A step by nonlexical rule r, which is of the category of the front of the queue from..to. The next queue is written from `to` on. The daughters have the
// numbers `mark`, `mark` + 1 and `mark` + 2.
pub fn expand(
    t: &[u64; TABLE],
    w: &mut [u64; ROOM],
    from: usize,
    to: usize,
    r: RuleNumber,
    mark: u64,
)
    requires { Expandable t.now r.0 mark w.old from to }
    ensures { Expanded t.now r.0 mark w.old w.new from to }
{
    let at = place_of(r);
    let d = daughters(t, at);
    if dimension(t, at) == 1 {
        let len = first_length(t, at);
        expand_narrow(w, from, to, d, len, &all_ready_made(t, at, mark));
        return;
    }
    if !of_two(t, at) {
        expand_wide(t, w, from, to, at, d, mark);
        return;
    }
    expand_two(t, w, from, to, at, d, mark);
}
