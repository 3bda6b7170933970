// The grammar of a minimalist lexicon, as a file (document 02, paper 6).
#![tactic(auto)]

ghost use Rattle.std.specs.Prelude.{◌≡◌, ◌<◌, ◌≤◌, T, length};
ghost use Rattle.model.specs.Writer.{all_bytes};
ghost use Rattle.std.proofs.Math.Option.{none};
ghost use Rattle.minimalist.specs.Lexicon.{entries, entries_refusal};
ghost use Rattle.minimalist.specs.MakeGrammar.{MakeOutcome};
ghost use Rattle.make_grammar.specs.Making.{told_with, PutsRules, WritesMade};

use derivable::{FormTable, derivable_forms};
use forms::Row;
use lexicon::{ENTRY, entries_refusal};
use made_records::{RECORD, Records};
use made_rules::{add_entry_rules, add_scheme_rules, add_starts, dimensions};
use model::{Refusal, Verdict};
use reader::blocks_for;
use writer::put_file;

// The most categories beside the new start.
const FORMS: usize = 63;

// Tells its callers that every element is below 256; the answer is not used.
fn known_bytes(bytes: &[u8]) -> u8
    ensures { T (all_bytes bytes.now) }
{
    if 0 < bytes.len() { bytes[0] } else { 0 }
}

// Puts the records of all rules, and says how many they are; none where the new start has none, or where they are too many.
fn put_rules(
    forms: &[Row],
    lexicon: &[u8],
    count: u16,
    start: u8,
    records: &mut Records,
) -> Option<usize>
    requires { (length forms.now ≤ 63) × (0 < start) × (count ≡ entries lexicon.now) }
    ensures { PutsRules forms.now lexicon.now start (told_with result records.new) }
{
    add_starts(forms, start, records);
    if records.count == Some(0) {
        return None;
    }
    add_entry_rules(forms, lexicon, count, records);
    add_scheme_rules(forms, records);
    records.count
}

// Writes the file of forms and of the rules' records, if there is room: 23, or the file's length.
fn write_made(forms: &[Row], words: u16, rules: u16, records: &[u8], out: &mut [u8]) -> Verdict
    requires { (length forms.now ≤ 63) × (rules ≤ 256) }
    ensures { WritesMade forms.now words rules records.now out.old result out.new }
{
    let n = 512 * blocks_for(rules);
    if out.len() < n {
        return Err(Refusal::Desk(23, 0));
    }
    put_file(
        (forms.len() + 1) as u8,
        0,
        words,
        rules,
        &dimensions(forms),
        records,
        &mut out[0..n],
    );
    Ok(n as u64)
}

// Makes the grammar of a lexicon that passes its tests. Apart from them, so that a call that they refuse makes no tables.
fn made(lexicon: &[u8], words: u32, start: u32, out: &mut [u8]) -> Verdict
    requires { T (all_bytes lexicon.now) × (entries_refusal lexicon.now words start ≡ none) }
    ensures { MakeOutcome lexicon.now words start out.old result out.new }
{
    let count = (lexicon.len() / ENTRY) as u16;
    let mut table = FormTable::empty();
    derivable_forms(&mut table, lexicon, count);
    if FORMS < table.count {
        return Err(Refusal::Grammar(31, 0));
    }
    let forms = table.forms();
    let mut records = Records::empty();
    let Some(rules) = put_rules(forms, lexicon, count, start as u8, &mut records) else {
        return Err(Refusal::Grammar(31, 0));
    };
    write_made(
        forms,
        words as u16,
        rules as u16,
        &records.bytes[..RECORD * rules],
        out,
    )
}

// Makes the grammar of a lexicon: refusals 30, 10, 31, 23; else the file's length, with the file at the front of the output.
pub fn make_grammar(lexicon: &[u8], words: u32, start: u32, out: &mut [u8]) -> Verdict
    ensures { MakeOutcome lexicon.now words start out.old result out.new }
{
    let _ = known_bytes(lexicon);
    entries_refusal(lexicon, words, start)?;
    made(lexicon, words, start, out)
}
