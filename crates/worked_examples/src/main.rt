// Runs the calls on the files of data/: the worked examples of document 01 (K3 to K10), sums of weights, and a damaged file for each refusal 1 to 10; words heard
// unclearly; the calls on dates; and the grammar of a lexicon. Each answer is on a line: its numbers, or R with the refusal's number and place.
#![tactic(auto)]

mod conversions;
mod counts;
mod figures;
mod lexicons;
mod opening_days;
mod reading;
mod show;
mod sums;
mod traces;
mod unclear;
mod words;
mod writing;

use crate::show::{load, title};
use std::io;

fn main(rt: HostRuntime) -> io::Result<()> {
    title(&rt, "reader")?;
    reading::run(&rt)?;
    let mut copy_file = [0u8; 1024];
    let copy = load(&rt, "copy", &mut copy_file);
    title(&rt, "the copy grammar written again")?;
    writing::run(&rt, copy)?;
    let mut weighted_file = [0u8; 1024];
    let weighted = load(&rt, "weighted", &mut weighted_file);
    title(&rt, "the copy grammar with weights written again")?;
    writing::run(&rt, weighted)?;
    let mut shuffled_file = [0u8; 1024];
    let shuffled = load(&rt, "shuffled_rule", &mut shuffled_file);
    title(
        &rt,
        "the copy grammar with a rule twice, in two orders of its daughters, written again",
    )?;
    writing::run(&rt, shuffled)?;
    title(&rt, "trace checker")?;
    traces::run(&rt, copy)?;
    title(&rt, "trees")?;
    conversions::run(&rt, copy)?;
    title(&rt, "survey")?;
    figures::run(&rt)?;
    let mut pair_file = [0u8; 1024];
    let pair = load(&rt, "pair", &mut pair_file);
    title(&rt, "counts and entries")?;
    counts::run(&rt, copy, pair)?;
    title(&rt, "sums of weights")?;
    sums::run(&rt, copy, weighted)?;
    title(&rt, "words heard unclearly")?;
    unclear::run(&rt, copy, weighted)?;
    title(&rt, "dates and opening days")?;
    opening_days::run(&rt)?;
    title(&rt, "lexicons")?;
    lexicons::run(&rt)
}
