// The run along a tree: its trace, and whether that is accepted.
ghost use Rattle.std.specs.Prelude.{[], ◌∷◌, ◌≡◌, ℕ, ◌+◌, ◌<◌, ◌≤◌, length, get_or};
ghost use Rattle.std.proofs.Math.Option.{none};
ghost use Rattle.model.specs.GrammarFile.{grammar_refusal, grammar_of};
ghost use Rattle.model.specs.Tree.{nodes_refusal};
ghost use Rattle.ranks.specs.Prediction.{unpacked};
ghost use Rattle.trees.specs.Places.{Ended, sister};
ghost use Rattle.derivation.specs.TreeRun.{NamesGiven, Spelled};

use grammar::start;
use model::{MOST_STEPS, RuleNumber};
use ranks::prediction::number;
use ranks::queue::{ROOM, first_queue};
use ranks::table::{daughters, place_of};
use rule_table::compile;
use steps::{NUMBERS, first_daughter, first_standing, step};

// Names d predictions from number `made` on by the places of the daughters of the node at place i, which the table of ends gives.
fn name_daughters(
    ends: &[u16; MOST_STEPS],
    i: usize,
    made: usize,
    d: usize,
    names: &mut [u16; NUMBERS],
)
    requires { (made + d ≤ 388) × (i < 96) × ((j : ℕ) → j < d → sister ends.now i j < 96) }
    ensures { NamesGiven ends.now i made d names.old names.new }
{
    let mut at = i + 1;
    for name in &mut names[made..made + d] {
        *name = at as u16;
        at = usize::from(ends[at]);
    }
}

// The place of the node that the front of the queue w[from..] stands for.
fn front_node(w: &[u64; ROOM], from: usize, names: &[u16; NUMBERS]) -> usize
    requires { (from < 6272) × ((unpacked (get_or w.now from 0)).number < 388) }
    ensures { result ≡ get_or names.now (unpacked (get_or w.now from 0)).number 0 }
{
    usize::from(names[number(w[from]) as usize])
}

// Whether the yield of the tree fits the sentence, for a list that passes the tests of its nodes; then its trace is stored. A tree's trace reads the words
// of its yield in their order, so no yield is computed. The prediction of number p stands for the node at place names[p].
pub fn spells(
    file: &[u8],
    sentence: &[u32],
    list: &[u16],
    ends: &[u16; MOST_STEPS],
    trace: &mut [u16; MOST_STEPS],
) -> bool
    requires { (grammar_refusal file.now ≡ none) × (length list.now ≤ 96) × (nodes_refusal (grammar_of file.now) 0 ((grammar_of file.now).start ∷ []) list.now ≡ none) × Ended (grammar_of file.now) list.now ends.now 0 (length list.now) }
    ensures { Spelled (grammar_of file.now) sentence.now list.now trace.new result }
{
    let t = compile(file);
    let mut w = first_queue(start(file));
    let mut names = [0u16; NUMBERS];
    let mut at = first_standing(list.len());
    for k in 0..list.len() {
        let from = at.from;
        if at.to <= from {
            return false;
        }
        let i = front_node(&w, from, &names);
        let r = list[i];
        let Ok(next) = step(file, &t, sentence, &mut w, at, RuleNumber(r)) else {
            return false;
        };
        trace[k] = r;
        let d = daughters(&t, place_of(RuleNumber(r)));
        name_daughters(ends, i, first_daughter(k), d, &mut names);
        at = next;
    }
    sentence.len() <= at.read
}
