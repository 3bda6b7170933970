// The trace checker on the copy grammar: K3, K4, K7 and K8.
use crate::show::print;
use crate::words::{SENTENCE, TRACE, TREE, WORD_0, WORD_1};
use std::io;

// The trace checker's verdict.
pub fn check(rt: &impl Print, file: &[u8], sentence: &[u32], trace: &[u16]) -> io::Result<()> {
    print(rt, recognizer::check_trace(file, sentence, trace))
}

pub fn run(rt: &impl Print, copy: &[u8]) -> io::Result<()> {
    // K3, and K4: its tree's list is no trace
    check(rt, copy, &SENTENCE, &TRACE)?;
    check(rt, copy, &SENTENCE, &TREE)?;
    // K7
    check(rt, copy, &[WORD_0, WORD_0], &[0, 3, 5, 5])?;
    check(rt, copy, &[WORD_0, WORD_1], &[0, 3, 5, 5])?;
    check(rt, copy, &[WORD_0, WORD_0, WORD_0], &[0, 3, 5, 5])?;
    // K8
    check(rt, copy, &[WORD_0, WORD_0], &[0, 1, 5])?;
    check(rt, copy, &[WORD_0, WORD_0], &[0, 3, 5, 5, 5])
}
