// The reader: all tests of a grammar file in their order, each after those before it have passed.
ghost use Rattle.std.specs.Prelude.{◌≡◌, ◌≤◌};
ghost use Rattle.model.specs.Verdict.{verdict, tested};
ghost use Rattle.model.specs.GrammarFile.{blocks, rules_of, grammar_refusal};
ghost use Rattle.reader.specs.Reading.{from_rules, from_counts, from_blocks};

use crate::blocks::{
    blocks_refusal, wrong_block, wrong_blocks, wrong_check, wrong_count, wrong_length, wrong_rest,
};
use crate::heading::wrong_heading;
use grammar::{dimensions, rules, words};
use model::{Refusal, Verdict};
use rule_tests::{Layout, Records, rules_refusal};

// The tests of the rules, and of the rest of the last block.
fn from_rules(file: &[u8]) -> Result<(), Refusal>
    requires { rules_of file.now ≤ 256 }
    ensures { result ≡ tested (from_rules file.now) }
{
    let n = rules(file);
    let records = Records {
        bytes: file,
        layout: Layout::Blocks,
    };
    rules_refusal(dimensions(file), words(file), &records, n)?;
    if wrong_rest(file) {
        return Err(Refusal::Grammar(9, n));
    }
    Ok(())
}

// The tests from the number of blocks on, of a file of n blocks.
fn from_counts(file: &[u8], n: u16) -> Result<(), Refusal>
    requires { (n ≡ blocks file.now) × (rules_of file.now ≤ 256) }
    ensures { result ≡ tested (from_counts file.now) }
{
    if wrong_blocks(file) {
        return Err(Refusal::Grammar(5, 0));
    }
    blocks_refusal(1, n, 5, |k| wrong_count(file, k))?;
    from_rules(file)
}

// The tests from the checks of the blocks on, of a file of n blocks.
fn from_blocks(file: &[u8], n: u16) -> Result<(), Refusal>
    requires { n ≡ blocks file.now }
    ensures { result ≡ tested (from_blocks file.now) }
{
    blocks_refusal(0, n, 2, |k| wrong_check(file, k))?;
    blocks_refusal(0, n, 3, |k| wrong_block(file, k))?;
    if wrong_heading(file) {
        return Err(Refusal::Grammar(4, 0));
    }
    from_counts(file, n)
}

// The tests of a grammar file: refusals 1 to 10. That a file passes them is asked by a requires, and said by no type: docs/ARCHITECTURE.md names the functions
// that ask it.
pub fn grammar_refusal(file: &[u8]) -> Result<(), Refusal>
    ensures { result ≡ tested (grammar_refusal file.now) }
{
    if wrong_length(file) {
        return Err(Refusal::Grammar(1, 0));
    }
    from_blocks(file, (file.len() / 512) as u16)
}

// Reads a grammar file: the number of its rules, or the first refusal of 1 to 10.
pub fn read_grammar(file: &[u8]) -> Verdict
    ensures { result ≡ verdict (grammar_refusal file.now) (rules_of file.now) }
{
    grammar_refusal(file)?;
    Ok(u64::from(rules(file)))
}
