// Trace to tree. The run of the trace gives the prediction that each step takes. The daughters of step k have the numbers from 4 * (k + 1) on; from the
// root's, number 0, the nodes are written parent before daughters.
ghost use Rattle.std.proofs.Math.Option.{none};
ghost use Rattle.std.specs.Prelude.{◌++◌, ◌≡◌, ℕ, ◌+◌, ◌-◌, ◌<◌, ◌≤◌, length, get_or, drop};
ghost use Rattle.model.specs.Base.{numbers_from};
ghost use Rattle.model.specs.Calls.{trace_to_tree_verdict, trace_to_tree_output, written};
ghost use Rattle.model.specs.Conversions.{tree_of};
ghost use Rattle.model.specs.GrammarFile.{grammar_refusal, grammar_of};
ghost use Rattle.model.specs.Trace.{trace_refusal};
ghost use Rattle.model.specs.Tree.{Tree, preorder};
ghost use Rattle.model.specs.Verdict.{verdict};
ghost use Rattle.unfold.specs.Unfold.{daughter_count, Linked, Grows, Grown, Pushed};

use buffers::number_at;
use derivation::conversion_tests;
use grammar::daughter_count;
use model::{MOST_STEPS, RuleNumber, Verdict};
use recognizer::run_trace;
use steps::{NUMBERS, first_daughter};

// Stores, for the prediction that each step takes, the step.
fn link(taken: &[u16], steps: &mut [u16; NUMBERS])
    requires { (length taken.now ≤ 96) × ((k : ℕ) → k < length taken.now → get_or taken.now k 0 < 388) }
    ensures { Linked taken.now steps.new (length taken.now) }
{
    for (k, p) in taken.iter().enumerate() {
        steps[usize::from(*p)] = k as u16;
    }
}

// Writes the numbers from `first` on.
fn count_up(list: &mut [u16], first: u16)
    requires { first + length list.old ≤ 65536 }
    ensures { list.new ≡ numbers_from first (length list.old) }
{
    for (k, x) in list.iter_mut().enumerate() {
        *x = first + k as u16;
    }
}

// Puts d predictions, from number `first` on, before those that wait from `top` on. Answers where they begin.
fn push(st: &mut [u16; MOST_STEPS], top: usize, first: u16, d: u8) -> usize
    requires { (top ≤ 96) × (d ≤ top) × (first + d ≤ 65536) }
    ensures { Pushed st.old st.new top first d result }
{
    let from = top - usize::from(d);
    count_up(&mut st[from..top], first);
    from
}

// Writes the tree that stands in the table where prediction 0 is at the front of the output, parent before daughters.
fn write_tree(file: &[u8], trace: &[u16], steps: &[u16; NUMBERS], out: &mut [u16])
    requires { Grown (daughter_count file.now) trace.now steps.now × (96 ≤ length out.old) }
    ensures { (tree : Tree) → Grows (daughter_count file.now) trace.now steps.now tree 0 → length (preorder tree) ≤ 96 → out.new ≡ preorder tree ++ drop (length (preorder tree)) out.old }
{
    let mut st = [0u16; MOST_STEPS];
    let mut top: usize = MOST_STEPS - 1;
    let mut w: usize = 0;
    // By index: the stack of predictions ends this loop, and no list.
    while top < MOST_STEPS {
        let p = usize::from(st[top]);
        let k = usize::from(steps[p]);
        let r = number_at(trace, k);
        out[w] = r;
        w += 1;
        top = push(
            &mut st,
            top + 1,
            first_daughter(k) as u16,
            daughter_count(file, RuleNumber(r)),
        );
    }
}

// A trace's verdict, for a grammar file and a sentence that are accepted and an output with room; of an accepted trace, the tree is written.
fn converted(file: &[u8], sentence: &[u32], trace: &[u16], out: &mut [u16]) -> Verdict
    requires { (grammar_refusal file.now ≡ none) × (length sentence.now ≤ 96) × (96 ≤ length out.old) }
    ensures { (result ≡ verdict (trace_refusal (grammar_of file.now) sentence.now trace.now) (length trace.now)) × (out.new ≡ written (trace_refusal (grammar_of file.now) sentence.now trace.now) (tree_of (grammar_of file.now) sentence.now trace.now) out.old) }
{
    let mut taken = [0u16; MOST_STEPS];
    let n = run_trace(file, sentence, trace, &mut taken)?;
    let mut steps = [0u16; NUMBERS];
    link(&taken[..trace.len()], &mut steps);
    write_tree(file, trace, &steps, out);
    Ok(n)
}

// Trace to tree: refusals 1 to 10, 23, 11 and 29, 12, the trace's own; else the node count, and the tree's list at the front of the output. One run of the
// trace, and a turn for each node.
pub fn trace_to_tree(file: &[u8], sentence: &[u32], trace: &[u16], out: &mut [u16]) -> Verdict
    ensures { (result ≡ trace_to_tree_verdict file.now sentence.now trace.now out.old) × (out.new ≡ trace_to_tree_output file.now sentence.now trace.now out.old) }
{
    conversion_tests(file, sentence, out)?;
    converted(file, sentence, trace, out)
}
