// Where things stand in a grammar file, and its fields, read where they lie. Each is the field of the list of bytes, whatever the list; for a file that
// the reader accepts it is the part of the grammar (proofs/OfGrammar).
ghost use Rattle.std.specs.Prelude.{◌≡◌, ◌+◌, ◌≤◌};
ghost use Rattle.model.specs.GrammarFile.{categories_of, start_of, words_of, rules_of, dimensions_of, dimension_in, record_place, record_of, field};

use crate::bytes::{byte, fields, two_bytes};
use crate::records::dimension_in;
use model::{Category, MOST_RULES, RuleNumber};

// The number of categories, C.
pub fn categories(file: &[u8]) -> u8
    ensures { result ≡ categories_of file.now }
{
    byte(file, 3)
}

// The start category.
pub fn start(file: &[u8]) -> Category
    ensures { result.0 ≡ start_of file.now }
{
    Category(byte(file, 4))
}

// The number of words, W.
pub fn words(file: &[u8]) -> u16
    ensures { result ≡ words_of file.now }
{
    two_bytes(file, 5)
}

// The number of rules, R.
pub fn rules(file: &[u8]) -> u16
    ensures { result ≡ rules_of file.now }
{
    two_bytes(file, 7)
}

// How many rules a table of MOST_RULES holds: all of them, in a file that the reader accepts.
pub fn rules_held(file: &[u8]) -> u16
    ensures { (result ≤ 256) × (rules_of file.now ≤ 256 → result ≡ rules_of file.now) }
{
    rules(file).min(MOST_RULES as u16)
}

// The dimensions of the categories, one byte each.
pub fn dimensions(file: &[u8]) -> &[u8]
    ensures { result.now ≡ dimensions_of file.now }
{
    fields(file, 16, usize::from(categories(file)))
}

// The dimension of a category, 0 where there is no such category.
pub fn dimension(file: &[u8], a: Category) -> u8
    ensures { result ≡ dimension_in (dimensions_of file.now) a.0 }
{
    dimension_in(dimensions(file), a)
}

// Where the record of a rule begins.
pub fn record_place(r: RuleNumber) -> usize
    ensures { result ≡ record_place r.0 }
{
    let i = usize::from(r.0);
    512 * (1 + i / 21) + 4 + 24 * (i % 21)
}

// The record of a rule.
pub fn record_of(file: &[u8], r: RuleNumber) -> &[u8]
    ensures { result.now ≡ record_of file.now r.0 }
{
    fields(file, record_place(r), 24)
}

// Byte k of a rule's record, counted from `start`.
pub fn record_byte(file: &[u8], r: RuleNumber, start: u8, k: usize) -> u8
    ensures { result ≡ field (record_of file.now r.0) (start + k) }
{
    byte(record_of(file, r), k.saturating_add(usize::from(start)))
}
