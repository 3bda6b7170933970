// The reader's verdict of four files that it accepts, and of one for each refusal 1 to 10 (of 9 two, of 10 four).
use crate::show::{load, print};
use std::io;
use std::rt::Files;

// A file's name and its verdict; a file that can't be opened has length 0.
fn show(rt: &(impl Files + Print), path: &str) -> io::Result<()> {
    print!(rt; "{path}: ")?;
    let mut file = [0u8; 7169];
    print(rt, reader::read_grammar(load(rt, path, &mut file)))
}

// Four files that are accepted; blocks and heading, refusals 1 to 5; rules, refusals 6 to 10; no file.
const PATHS: [&str; 20] = [
    "copy",
    "weighted",
    "pair",
    "other_orders",
    "wrong_length",
    "wrong_check",
    "wrong_kind",
    "wrong_start",
    "wrong_blocks",
    "wrong_count",
    "wrong_daughter",
    "wrong_word",
    "variable_twice",
    "unused_byte",
    "rest_of_block",
    "repeated_rule",
    "repeated_but_for_weight",
    "shuffled_rule",
    "exchanged_daughters",
    "no_such_file",
];

pub fn run(rt: &(impl Files + Print)) -> io::Result<()> {
    for path in PATHS {
        show(rt, path)?;
    }
    Ok(())
}
