// Words heard unclearly, on the copy grammar, whose words are 0 and 1 (document 02, paper 5).
use crate::counts::{show_count, show_entry};
use crate::words::{TRACE, TREE, WORD_0, WORD_1};
use crate::{conversions, sums, traces};
use model::Word;
use sentences::{place_with, single_word};
use std::io;

// The trace of K3 and its tree on 0, one of 0 and 1, 0, 1; where the second word is 0 for certain, the step that reads 1 is refused, and so is the tree.
fn analyses_that_fit(rt: &impl Print, file: &[u8], weighted: &[u8]) -> io::Result<()> {
    let either = place_with(Word(0), Word(1));
    let heard = [WORD_0, either, WORD_0, single_word(Word(1))];
    traces::check(rt, file, &heard, &TRACE)?;
    conversions::check(rt, file, &heard, &TREE)?;
    conversions::trace_of(rt, file, &heard, &TREE)?;
    conversions::tree_of(rt, file, &heard, &TRACE)?;
    sums::along_trace(rt, weighted, &heard, &TRACE)?;
    sums::along_tree(rt, weighted, &heard, &TREE)?;
    traces::check(rt, file, &[either, WORD_0, either, either], &TRACE)?;
    conversions::check(rt, file, &[either, WORD_0, either, either], &TREE)
}

// Four words of which nothing is clear: the four sentences that the grammar has among them, an analysis each. Of three words there is none.
fn counts_of_all(rt: &impl Print, file: &[u8]) -> io::Result<()> {
    let either = place_with(Word(0), Word(1));
    let heard = [either, either, either, either];
    show_count(rt, file, &heard, 7, 1000000)?;
    show_entry(rt, file, &heard, 7, 0)?;
    show_entry(rt, file, &heard, 7, 1)?;
    show_entry(rt, file, &heard, 7, 2)?;
    show_entry(rt, file, &heard, 7, 3)?;
    show_entry(rt, file, &heard, 7, 4)?;
    show_count(rt, file, &heard[..3], 7, 1000000)
}

// 29 at its place; 11 for either end, also where the lowest is above the highest; 29 at a place before 11 at the next; both before 12 and after 24; and over 96 places
// before all of them.
fn refusals(rt: &impl Print, file: &[u8]) -> io::Result<()> {
    traces::check(
        rt,
        file,
        &[WORD_0, place_with(Word(1), Word(0))],
        &[0, 3, 5, 5],
    )?;
    traces::check(
        rt,
        file,
        &[WORD_0, place_with(Word(1), Word(2))],
        &[0, 3, 5, 5],
    )?;
    conversions::check(
        rt,
        file,
        &[WORD_0, place_with(Word(2), Word(1))],
        &[0, 3, 5, 5],
    )?;
    conversions::trace_of(
        rt,
        file,
        &[WORD_1, place_with(Word(65535), Word(0))],
        &[0, 3, 5, 5],
    )?;
    conversions::tree_of(
        rt,
        file,
        &[place_with(Word(1), Word(0)), place_with(Word(2), Word(2))],
        &[0, 3, 5, 5],
    )?;
    sums::along_trace(rt, file, &[place_with(Word(1), Word(0))], &[0; 97])?;
    sums::along_tree(rt, file, &[place_with(Word(0), Word(65535))], &[0; 97])?;
    show_count(rt, file, &[place_with(Word(1), Word(0))], 7, 1000000)?;
    show_count(rt, file, &[place_with(Word(1), Word(0))], 0, 1000000)?;
    show_entry(rt, file, &[place_with(Word(1), Word(0))], 7, 0)?;
    show_entry(rt, file, &[place_with(Word(1), Word(0)); 97], 7, 0)
}

pub fn run(rt: &impl Print, copy: &[u8], weighted: &[u8]) -> io::Result<()> {
    analyses_that_fit(rt, copy, weighted)?;
    counts_of_all(rt, copy)?;
    refusals(rt, copy)
}
