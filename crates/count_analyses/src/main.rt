// The program: reads the files `grammar` and `sentence` in the working folder, and prints count and effort and then one trace a line; or R with a refusal's
// number and place (document 01, "Counting and listing").
#![tactic(auto)]

ghost use Rattle.std.specs.Prelude.{◌≤◌, ℕ, List, IfOk, length};
ghost use Rattle.count_analyses.specs.Pieces.{IsPrefixLen, PieceSays, Appended, ReadingSays, WrittenSays};

use report::{first_page, next_page};
use std::fs::File;
use std::io;
use std::io::{ErrorKind, Read};
use std::rt::Files;

// What is read of the files: of a grammar one byte more than an accepted one can have, of a sentence N and one word more than an accepted one can have.
const GRAMMAR_BYTES: usize = 7169;

const SENTENCE_BYTES: usize = 195;

// The most that one read of a file is asked for, and the room for a page of the text.
const LARGE_BUFFER: usize = 65536;

// How many of a file's bytes stand in a buffer, and whether the number of bytes read of it is even.
#[derive(Clone, Copy)]
struct Loaded {
    bytes: usize,
    even: bool,
}

const EMPTY: Loaded = Loaded {
    bytes: 0,
    even: true,
};

// How many bytes were moved by a read or a write that has just answered `got`, 0 as at a file's end; or none yet, where a signal interrupted it before a byte
// was moved.
fn moved(got: io::Result<usize>) -> io::Result<Option<usize>>
    ensures { (buf : List ℕ) → IfOk got (λ n. n ≤ length buf) → PieceSays buf result }
{
    match got {
        Ok(n) => Ok(Some(n)),
        Err(e) if e.kind() == ErrorKind::Interrupted => Ok(None),
        Err(e) => Err(e),
    }
}

// Puts the chunk behind the first `done` bytes of the buffer, as much of it as there is room for: how many bytes then stand in it.
fn append(chunk: &[u8], buf: &mut [u8], done: usize) -> usize
    requires { done ≤ length buf.old }
    ensures { Appended chunk.now (length chunk.now) buf.old done buf.new result }
{
    let end = done + chunk.len().min(buf.len() - done);
    buf[done..end].copy_from_slice(&chunk[..end - done]);
    end
}

// Reads once more, where `loaded` tells what has been read so far: what stands in the buffer then, or none where the file has ended. A read that a signal interrupts
// changes nothing, and is tried again.
fn read_on(
    file: &mut impl Read,
    chunk: &mut [u8],
    buf: &mut [u8],
    loaded: Loaded,
) -> io::Result<Option<Loaded>>
    requires { loaded.bytes ≤ length buf.old }
    ensures { ReadingSays buf.new result }
{
    match moved(file.read(chunk))? {
        None => Ok(Some(loaded)),
        Some(0) => Ok(None),
        Some(n) => Ok(Some(Loaded {
            bytes: append(&chunk[..n], buf, loaded.bytes),
            even: loaded.even == (n % 2 == 0),
        })),
    }
}

// Reads a file to its end, and into the buffer as much of it as the buffer holds. The loop counts its tries up to a number that no run uses up.
fn read_file(file: &mut impl Read, buf: &mut [u8]) -> io::Result<Loaded>
    ensures { IfOk result (λ loaded. IsPrefixLen loaded.bytes buf.new) }
{
    let mut chunk = [0u8; LARGE_BUFFER];
    let mut loaded = EMPTY;
    for _ in 0..u64::MAX {
        match read_on(file, &mut chunk, buf, loaded)? {
            Some(more) => loaded = more,
            None => return Ok(loaded),
        }
    }
    Err(io::Error::from(ErrorKind::TimedOut))
}

// Opens a file, and reads its first `most` bytes. An open that a signal interrupts is tried again.
fn load_first(files: &impl Files, name: &str, most: u64, buf: &mut [u8]) -> io::Result<Loaded>
    ensures { IfOk result (λ loaded. IsPrefixLen loaded.bytes buf.new) }
{
    let file = File::open(files, name)?;
    read_file(&mut file.take(most), buf)
}

// What is read of a file, which counts as empty where it cannot be opened or read.
fn load(files: &impl Files, name: &str, most: u64, buf: &mut [u8]) -> Loaded
    ensures { IsPrefixLen result.bytes buf.new }
{
    load_first(files, name, most, buf).unwrap_or(EMPTY)
}

// Writes once more, where the first `done` bytes of the text are written: how many are written then. A write that a signal interrupts takes nothing, and is
// tried again.
fn write_on(rt: &impl Print, text: &[u8], done: usize) -> io::Result<usize>
    requires { done ≤ length text.now }
    ensures { WrittenSays text.now result }
{
    match moved(rt.write_some(&text[done..]))? {
        None => Ok(done),
        Some(0) => Err(io::Error::from(ErrorKind::WriteZero)),
        Some(n) => Ok(done + n),
    }
}

// Writes a text to standard output. The loop counts its tries up to a number that no run uses up, where the library's `write_all` gives up sooner.
fn write_text(rt: &impl Print, text: &[u8]) -> io::Result<()> {
    let mut done = 0;
    for _ in 0..u64::MAX {
        if done == text.len() {
            return Ok(());
        }
        done = write_on(rt, text, done)?;
    }
    Err(io::Error::from(ErrorKind::TimedOut))
}

// Writes the text for what was read of the files, page by page: after each page, less of it is left.
fn print_text(rt: &impl Print, file: &[u8], bytes: &[u8], even: bool) -> io::Result<()> {
    let mut space = [0u8; LARGE_BUFFER];
    // A slice: the proof of its bounds did not close on the array itself.
    let out: &mut [u8] = &mut space;
    let mut text = first_page(file, bytes, even, out);
    // The text ends this loop, and no list.
    loop {
        write_text(rt, &out[..text.end])?;
        let Some(rest) = text.rest else {
            return Ok(());
        };
        text = next_page(rest, out);
    }
}

// A text that cannot be written to its end is the last, and why is said on standard error.
fn main(rt: HostRuntime) {
    let mut file = [0u8; GRAMMAR_BYTES];
    let mut bytes = [0u8; SENTENCE_BYTES];
    let grammar = load(&rt, "grammar", GRAMMAR_BYTES as u64, &mut file);
    let sentence = load(&rt, "sentence", u64::MAX, &mut bytes);
    let printed = print_text(
        &rt,
        &file[..grammar.bytes],
        &bytes[..sentence.bytes],
        sentence.even,
    );
    if let Err(why) = printed {
        let _ = eprintln!(rt; "count_analyses: standard output: {why}");
    }
}
