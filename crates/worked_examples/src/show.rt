// A file read, and titles and answers printed on the standard output.
ghost use Rattle.std.specs.Prelude.{◌≤◌, length};
ghost use Rattle.worked_examples.specs.Counts.{IsPrefixLen};

use model::{Refusal, Verdict};
use std::fmt::Display;
use std::fs::File;
use std::io::{ErrorKind, Read};
use std::rt::Files;
use std::{fmt, io};

// Reads a file to the start of buf, and answers with what it put there; a file that can't be opened has length 0.
pub fn load<'a>(files: &impl Files, path: &str, buf: &'a mut [u8]) -> &'a [u8]
    ensures { length result.now ≤ length buf.old }
{
    let read = match File::open(files, path) {
        Ok(mut file) => read_full(&mut file, buf),
        Err(_) => 0,
    };
    &buf[..read]
}

// Reads until buf is full, the input ends or a read fails, and answers how many bytes it put at the start of buf. A read that a signal interrupts is tried again.
fn read_full(input: &mut impl Read, buf: &mut [u8]) -> usize
    ensures { IsPrefixLen result buf.new }
{
    let mut done = 0;
    for _ in 0..u64::MAX {
        if done == buf.len() {
            break;
        }
        match input.read(&mut buf[done..]) {
            Ok(0) => break,
            Ok(n) => done += n,
            Err(e) if e.kind() == ErrorKind::Interrupted => {}
            Err(_) => break,
        }
    }
    done
}

// The title of a part on a line.
pub fn title(rt: &impl Print, text: &str) -> io::Result<()> {
    println!(rt; "{text}")
}

// An answer on a line: its value, or R with the refusal's number and its place.
pub fn print<T: Display + Drop>(rt: &impl Print, answer: Result<T, Refusal>) -> io::Result<()> {
    match answer {
        Ok(value) => println!(rt; "{value}"),
        Err(r) => println!(rt; "R {} {}", r.number(), r.place()),
    }
}

// Numbers, parted by blanks.
#[derive(Clone, Copy)]
struct Numbers<'a>(&'a [u16]);

impl Display for Numbers<'_> {
    fn fmt<W: fmt::Write>(&self, f: &mut fmt::Formatter<W>) -> fmt::Result {
        for (i, x) in self.0.iter().enumerate() {
            if 0 < i {
                write!(f, " ")?;
            }
            write!(f, "{x}")?;
        }
        Ok(())
    }
}

// The first so many of a list.
fn first(list: &[u16], count: u64) -> Numbers<'_> {
    Numbers(&list[..list.len().min(count as usize)])
}

// What a call that writes a list answers: the list on a line, or the refusal.
pub fn print_written(rt: &impl Print, answer: Verdict, out: &[u16]) -> io::Result<()> {
    print(rt, answer.map(|n| first(out, n)))
}
