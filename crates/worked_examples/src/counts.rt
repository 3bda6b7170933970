// Counts and entries: K5, K6 and K10.
use crate::show::{print, print_written};
use crate::words::{SENTENCE, WORD_0};
use model::Counts;
use std::fmt::Display;
use std::{fmt, io};

// Count and effort, parted by a blank.
#[derive(Clone, Copy)]
struct Figures(Counts);

impl Display for Figures {
    fn fmt<W: fmt::Write>(&self, f: &mut fmt::Formatter<W>) -> fmt::Result {
        write!(f, "{} {}", self.0.count, self.0.effort)
    }
}

pub fn show_count(
    rt: &impl Print,
    file: &[u8],
    sentence: &[u32],
    n: u64,
    limit: u64,
) -> io::Result<()> {
    print(rt, analyses::count(file, sentence, n, limit).map(Figures))
}

pub fn show_entry(
    rt: &impl Print,
    file: &[u8],
    sentence: &[u32],
    n: u64,
    m: u64,
) -> io::Result<()> {
    let mut out = [0u16; 96];
    let v = analyses::entry(file, sentence, n, 1000000, m, &mut out);
    print_written(rt, v, &out)
}

// K5 and K6
fn copy_cases(rt: &impl Print, file: &[u8]) -> io::Result<()> {
    show_count(rt, file, &SENTENCE, 7, 1000000)?;
    show_count(rt, file, &SENTENCE, 7, 12)?;
    show_count(rt, file, &SENTENCE, 6, 1000000)
}

// K10's figures
fn pair_cases(rt: &impl Print, file: &[u8]) -> io::Result<()> {
    show_count(rt, file, &[WORD_0, WORD_0, WORD_0], 5, 1000000)?;
    show_entry(rt, file, &[WORD_0, WORD_0, WORD_0], 5, 0)?;
    show_entry(rt, file, &[WORD_0, WORD_0, WORD_0], 5, 1)?;
    show_entry(rt, file, &[WORD_0, WORD_0, WORD_0], 5, 2)
}

pub fn run(rt: &impl Print, copy: &[u8], pair: &[u8]) -> io::Result<()> {
    copy_cases(rt, copy)?;
    pair_cases(rt, pair)
}
