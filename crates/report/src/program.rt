// What the program prints for what it reads of its files, a page at a time (document 01, "Counting and listing"): the line of its verdict, then the listing.
ghost use Rattle.std.proofs.Math.Option.{none};
ghost use Rattle.std.specs.Prelude.{◌≡◌, List, ℕ, ◌+◌, ◌<◌, ◌≤◌, length};
ghost use Rattle.model.specs.Counting.{limits_refusal};
ghost use Rattle.model.specs.GrammarFile.{grammar_refusal, start_of};
ghost use Rattle.model.specs.Program.{program_limit};
ghost use Rattle.steps.specs.Steps.{begin};
ghost use Rattle.report.specs.Printing.{MayGoOn, PutPage, TablesOf, Begun, CountedPage, RefusedPage, FirstPage, NextPage};

use crate::sentence::{Sentence, read_limit};
use crate::verdict::{EFFORT_LIMIT, program_tests};
use analyses::tables_of;
use lines::put_verdict;
use model::Refusal;
use pages::{Page, Pen, fill};
use steps::{Standing, first_standing};
use tally::count_from;
use walk::{Tables, Walk};

// What the rest of a text is made from: the tables of the grammar, the sentence, and the walk over the listing, which stands at `at`.
#[derive(Drop)]
pub struct Rest {
    tables: Tables,
    sentence: Sentence,
    walk: Walk,
    at: Standing,
}

// A page of the text stands at the front of a buffer, up to `end`, and there may be more.
#[derive(Drop)]
pub struct Text {
    pub end: usize,
    pub rest: Option<Rest>,
}

// Puts lines of the listing from a place of the buffer on, as long as there is room for a line of 96 numbers.
fn put_page(mut rest: Rest, place: usize, out: &mut [u8]) -> Text
    requires { MayGoOn rest × (place + 576 < length out.old) }
    ensures { PutPage rest place out.old out.new result }
{
    // One loan of the whole: the check takes no `&mut` of one field beside a `&` of another.
    let from = &mut rest;
    let pen = Pen { at: from.at, place };
    match fill(
        &from.tables,
        from.sentence.heard(),
        &mut from.walk,
        out,
        pen,
    ) {
        Page::More(next) => {
            from.at = next.at;
            Text {
                end: next.place,
                rest: Some(rest),
            }
        }
        Page::Last(end) => Text { end, rest: None },
    }
}

// Where the walk over the listing begins: at the empty list, and n steps may be made.
fn first_of_listing(n: u64) -> Standing
    requires { (1 ≤ n) × (n ≤ 96) }
    ensures { result ≡ begin n }
{
    first_standing(n as usize)
}

// The text where the listing is all to come, from the tables of an accepted grammar, the sentence and the node limit.
fn begun(tables: Tables, sentence: Sentence, n: u64) -> Rest
    requires { (tables.start.0 < 64) × (limits_refusal n program_limit ≡ none) }
    ensures { (file : List ℕ) → grammar_refusal file ≡ none → TablesOf file tables.rules tables.chain → tables.start.0 ≡ start_of file → Begun file sentence.words sentence.spoken n result }
{
    let walk = Walk::first(tables.start);
    Rest {
        tables,
        sentence,
        walk,
        at: first_of_listing(n),
    }
}

// The first page for an accepted grammar and a sentence and limits that pass their tests: the line of the count's verdict, and lines of the listing. Never inlined:
// what it copies would take up the program's stack as long as the program runs.
#[inline(never)]
fn counted_page(file: &[u8], sentence: Sentence, n: u64, out: &mut [u8]) -> Text
    requires { (grammar_refusal file.now ≡ none) × (limits_refusal n program_limit ≡ none) × (620 < length out.old) }
    ensures { CountedPage file.now sentence.words sentence.spoken n out.new result }
{
    let tables = tables_of(file);
    let v = count_from(&tables, sentence.heard(), n as usize, EFFORT_LIMIT);
    let end = put_verdict(v, out, 0);
    match v {
        Ok(_) => put_page(begun(tables, sentence, n), end, out),
        Err(_) => Text { end, rest: None },
    }
}

// The line of a refusal, which is all that is printed.
fn refused_page(r: Refusal, out: &mut [u8]) -> Text
    requires { 44 ≤ length out.old }
    ensures { RefusedPage r out.new result }
{
    Text {
        end: put_verdict(Err(r), out, 0),
        rest: None,
    }
}

// The first page for what is read of the two files: of the grammar file its first bytes, of the sentence file its first bytes and whether its length is even,
// which those bytes do not tell where the file is longer.
pub fn first_page(file: &[u8], bytes: &[u8], even: bool, out: &mut [u8]) -> Text
    requires { 620 < length out.old }
    ensures { FirstPage file.now bytes.now even out.new result }
{
    let sentence = Sentence::read(bytes);
    let n = u64::from(read_limit(bytes));
    match program_tests(file, sentence.heard(), n, even) {
        Ok(()) => counted_page(file, sentence, n, out),
        Err(r) => refused_page(r, out),
    }
}

// The next page, from what the rest of a text is made from.
pub fn next_page(rest: Rest, out: &mut [u8]) -> Text
    requires { MayGoOn rest × (576 < length out.old) }
    ensures { NextPage rest out.new result }
{
    put_page(rest, 0, out)
}
