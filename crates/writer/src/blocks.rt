// The bytes of the file, block by block.
ghost use Rattle.std.specs.Prelude.{◌≡◌, [], ◌+◌, ◌*◌, ◌<◌, ◌≤◌, get_or, length};
ghost use Rattle.std.proofs.lemmas.List.Edits.{sets};
ghost use Rattle.model.specs.GrammarFile.{fields, weighted, check_of, blocks_for};
ghost use Rattle.model.specs.Writer.{little4, file_of};
ghost use Rattle.writer.specs.Writing.{heading, heading_given, rule_content, content_at, Filled, Checked};

use crate::given::Given;
use grammar::{block_check, byte, fields};
use model::MOST_CATEGORIES;
use reader::{blocks_for, records_in};

// Byte i of the heading's block, with 0 in place of its check.
fn heading_byte(given: &Given, i: usize) -> u8
    ensures { result ≡ content_at (heading_given given.now) [] 0 i }
{
    if 16 <= i {
        return byte(fields(given.dimensions, 0, MOST_CATEGORIES), i - 16);
    }
    let words = given.words.to_le_bytes();
    let rules = given.rules.to_le_bytes();
    let numbers: [u8; 16] = [
        0,
        0,
        1,
        given.categories,
        given.start,
        words[0],
        words[1],
        rules[0],
        rules[1],
        0,
        0,
        0,
        0,
        0,
        0,
        0,
    ];
    numbers[i]
}

// Byte i of rule block k, with 0 in place of its check.
fn rule_byte(rules: u16, records: &[u8], k: u16, i: usize) -> u8
    ensures { result ≡ get_or (rule_content rules records.now k) i 0 }
{
    if 4 <= i {
        return byte(
            fields(records, 504 * usize::from(k).saturating_sub(1), 504),
            i - 4,
        );
    }
    let number = k.to_le_bytes();
    let held = records_in(rules, k) as u8;
    let numbers: [u8; 4] = [number[0], number[1], 2, held];
    numbers[i]
}

// Byte i of block k, with 0 in place of its check.
fn content_byte(given: &Given, k: u16, i: usize) -> u8
    ensures { result ≡ content_at (heading_given given.now) given.now.records.now k i }
{
    if k == 0 {
        return heading_byte(given, i);
    }
    rule_byte(given.rules, given.records, k, i)
}

// Puts the bytes of all blocks, with 0 in place of their checks.
fn fill_blocks(given: &Given, out: &mut [u8])
    requires { length out.old < 33554432 }
    ensures { (length out.new ≡ length out.old) × Filled (heading_given given.now) given.now.records.now out.new }
{
    for p in 0..out.len() {
        out[p] = content_byte(given, (p / 512) as u16, p % 512);
    }
}

// The check of the 508 bytes from byte `from` on.
fn check_from(bytes: &[u8], from: usize) -> u32
    ensures { result ≡ weighted 1 (fields bytes.now from 508) }
{
    block_check(fields(bytes, from, 508))
}

// Puts the check of block k, little-endian.
fn put_check(out: &mut [u8], k: usize)
    requires { 512 * k + 512 ≤ length out.old }
    ensures { out.new ≡ sets out.old (512 * k + 508) (little4 (check_of out.old k)) }
{
    let sum = check_from(out, 512 * k);
    let at = 512 * k + 508;
    out[at..at + 4].copy_from_slice(&sum.to_le_bytes());
}

// Puts the checks of n blocks.
fn put_checks(out: &mut [u8], n: usize)
    requires { length out.old ≡ 512 * n }
    ensures { Checked out.old out.new n }
{
    for k in 0..n {
        put_check(out, k);
    }
}

// Puts the whole file into a buffer of its length. The heading is given in parts, as `make_grammar` calls it.
pub fn put_file(
    categories: u8,
    start: u8,
    words: u16,
    rules: u16,
    dimensions: &[u8],
    records: &[u8],
    out: &mut [u8],
)
    requires { length out.old ≡ 512 * blocks_for rules }
    ensures { out.new ≡ file_of (heading categories start words rules dimensions.now) records.now }
{
    let given = Given {
        categories,
        start,
        words,
        rules,
        dimensions,
        records,
    };
    fill_blocks(&given, out);
    put_checks(out, blocks_for(rules));
}
