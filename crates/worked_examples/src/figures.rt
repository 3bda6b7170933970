// The survey of the copy grammar, and of a grammar with categories that have no tree: the figures.
use crate::show::{load, print_written};
use std::io;
use std::rt::Files;

// The figures on a line, one a category; or the refusal.
fn show(rt: &(impl Files + Print), path: &str) -> io::Result<()> {
    let mut file = [0u8; 7169];
    let grammar = load(rt, path, &mut file);
    let mut figures = [0u16; 96];
    let v = survey::survey(grammar, &mut figures);
    print_written(rt, v, &figures)
}

pub fn run(rt: &(impl Files + Print)) -> io::Result<()> {
    for path in ["copy", "barren"] {
        show(rt, path)?;
    }
    Ok(())
}
