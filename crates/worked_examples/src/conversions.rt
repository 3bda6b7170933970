// The tree checker and both conversions on the copy grammar: K4, K9, and 22.
use crate::show::{print, print_written};
use crate::words::{SENTENCE, TRACE, TREE, WORD_0, WORD_1};
use std::io;

// The tree checker's verdict.
pub fn check(rt: &impl Print, file: &[u8], sentence: &[u32], tree: &[u16]) -> io::Result<()> {
    print(rt, derivation::check_tree(file, sentence, tree))
}

// The trace that belongs to a tree.
pub fn trace_of(rt: &impl Print, file: &[u8], sentence: &[u32], tree: &[u16]) -> io::Result<()> {
    let mut out = [0u16; 96];
    let v = derivation::tree_to_trace(file, sentence, tree, &mut out);
    print_written(rt, v, &out)
}

// The tree that belongs to a trace.
pub fn tree_of(rt: &impl Print, file: &[u8], sentence: &[u32], trace: &[u16]) -> io::Result<()> {
    let mut out = [0u16; 96];
    let v = unfold::trace_to_tree(file, sentence, trace, &mut out);
    print_written(rt, v, &out)
}

// K4.
fn both_ways(rt: &impl Print, copy: &[u8]) -> io::Result<()> {
    check(rt, copy, &SENTENCE, &TREE)?;
    trace_of(rt, copy, &SENTENCE, &TREE)?;
    tree_of(rt, copy, &SENTENCE, &TRACE)?;
    tree_of(rt, copy, &SENTENCE, &TREE)
}

// K9.
fn refused_lists(rt: &impl Print, copy: &[u8]) -> io::Result<()> {
    check(rt, copy, &[WORD_0, WORD_0], &[0, 3, 5])?;
    check(rt, copy, &[WORD_0, WORD_0], &[0, 3, 5, 6])?;
    check(rt, copy, &[WORD_0, WORD_0], &[0, 3, 5, 5, 5])
}

// 13, and 22: the yield is another sentence, a shorter and a longer one.
fn refused_trees(rt: &impl Print, copy: &[u8]) -> io::Result<()> {
    check(rt, copy, &[WORD_0, WORD_0], &[0, 7])?;
    check(rt, copy, &[WORD_0, WORD_1], &[0, 3, 5, 5])?;
    check(rt, copy, &[WORD_0], &[0, 3, 5, 5])?;
    check(rt, copy, &[WORD_0, WORD_0, WORD_0], &[0, 3, 5, 5])?;
    trace_of(rt, copy, &[WORD_0, WORD_1], &[0, 3, 5, 5])
}

pub fn run(rt: &impl Print, copy: &[u8]) -> io::Result<()> {
    both_ways(rt, copy)?;
    refused_lists(rt, copy)?;
    refused_trees(rt, copy)
}
