// The sums of weights along traces and trees of the copy grammar: K3 with its tree K4, and refusals of the checkers (document 02, paper 1).
use crate::show::print;
use crate::words::{SENTENCE, TRACE, TREE, WORD_0, WORD_1, WORD_2};
use std::io;

// The sum along a trace.
pub fn along_trace(
    rt: &impl Print,
    file: &[u8],
    sentence: &[u32],
    trace: &[u16],
) -> io::Result<()> {
    print(rt, weights::weigh_trace(file, sentence, trace))
}

// The sum along a tree.
pub fn along_tree(rt: &impl Print, file: &[u8], sentence: &[u32], tree: &[u16]) -> io::Result<()> {
    print(rt, weights::weigh_tree(file, sentence, tree))
}

// The trace of K3 and the tree that belongs to it; a shorter trace, which is also the list of its tree.
fn sums(rt: &impl Print, file: &[u8]) -> io::Result<()> {
    along_trace(rt, file, &SENTENCE, &TRACE)?;
    along_tree(rt, file, &SENTENCE, &TREE)?;
    along_trace(rt, file, &[WORD_0, WORD_0], &[0, 3, 5, 5])?;
    along_tree(rt, file, &[WORD_0, WORD_0], &[0, 3, 5, 5])
}

// K4's list as a trace, a word that is not next, a list that ends, a yield that is not the sentence, an unknown word, and an empty file.
fn refusals(rt: &impl Print, file: &[u8]) -> io::Result<()> {
    along_trace(rt, file, &SENTENCE, &TREE)?;
    along_trace(rt, file, &[WORD_0, WORD_1], &[0, 3, 5, 5])?;
    along_tree(rt, file, &[WORD_0, WORD_0], &[0, 3, 5])?;
    along_tree(rt, file, &[WORD_0, WORD_1], &[0, 3, 5, 5])?;
    along_tree(rt, file, &[WORD_0, WORD_2], &[0, 3, 5, 5])?;
    along_tree(rt, &file[..0], &[WORD_0, WORD_0], &[0, 3, 5, 5])
}

// Where all weights are 0 the sum is 0.
pub fn run(rt: &impl Print, copy: &[u8], weighted: &[u8]) -> io::Result<()> {
    sums(rt, weighted)?;
    sums(rt, copy)?;
    refusals(rt, weighted)
}
