// The entries of a lexicon: refusals 30 and 10.
ghost use Rattle.std.specs.Prelude.{◌≡◌, ◌&&◌, ◌%◌, eqb, length};
ghost use Rattle.model.specs.GrammarFile.{within};
ghost use Rattle.model.specs.Base.{every, any_below};
ghost use Rattle.model.specs.Verdict.{tested};
ghost use Rattle.minimalist.specs.Lexicon.{is_feature, before_zero, entry_bytes, word_in, wrong_entry, entries, wrong_lexicon, repeated_entry, entries_refusal};

use crate::features::is_feature;
use grammar::{few_zeros, fields, same_bytes, two_bytes};
use model::{EMPTY_WORD, Refusal, Word};

// The bytes of an entry.
pub const ENTRY: usize = 8;

// The most entries of a lexicon.
const ENTRIES: usize = 32;

// The most words of a lexicon.
const WORDS: u32 = 4096;

// The categories that a feature byte or a start can name are 1 to this one.
const CATEGORIES: u32 = 15;

// The 8 bytes of entry i.
pub fn entry_bytes(bytes: &[u8], i: u16) -> &[u8]
    ensures { result.now ≡ entry_bytes bytes.now i }
{
    fields(bytes, ENTRY * usize::from(i), ENTRY)
}

// The word of an entry, from its 8 bytes.
pub fn entry_word(e: &[u8]) -> Word
    ensures { result.0 ≡ word_in e.now }
{
    Word(two_bytes(e, 0))
}

// How many bytes are before the first 0.
pub fn before_zero(bytes: &[u8]) -> usize
    ensures { result ≡ length (before_zero bytes.now) }
{
    bytes.iter().position(|b| *b == 0).unwrap_or(bytes.len())
}

// Whether every byte before the first 0 is a feature.
fn all_features(bytes: &[u8]) -> bool
    ensures { result ≡ every is_feature (before_zero bytes.now) }
{
    bytes
        .iter()
        .take_while(|b| **b != 0)
        .all(|b| is_feature(*b))
}

// Refusal 30 of the 8 bytes of an entry.
fn entry_wrong(e: &[u8], words: u32) -> bool
    ensures { result ≡ wrong_entry words e.now }
{
    let six = fields(e, 2, 6);
    let n = before_zero(six);
    let word = entry_word(e);
    n == 0
        || !all_features(six)
        || !few_zeros(six, n, 6)
        || words <= u32::from(word.0) && word.0 != EMPTY_WORD
}

// Whether an entry of the first n is wrong.
fn some_wrong(bytes: &[u8], words: u32, n: u16) -> bool
    ensures { result ≡ any_below (λ i. wrong_entry words (entry_bytes bytes.now i)) n }
{
    (0..n).any(|i| entry_wrong(entry_bytes(bytes, i), words))
}

// Whether the length, the word count and the start are in range.
fn numbers_right(bytes: &[u8], words: u32, start: u32) -> bool
    ensures { result ≡ (eqb (length bytes.now % 8) 0 && within 1 32 (entries bytes.now) && within 1 4096 words && within 1 15 start) }
{
    let n = bytes.len() / ENTRY;
    bytes.len() % ENTRY == 0
        && (1..=ENTRIES).contains(&n)
        && (1..=WORDS).contains(&words)
        && (1..=CATEGORIES).contains(&start)
}

// Refusal 30.
fn lexicon_wrong(bytes: &[u8], words: u32, start: u32) -> bool
    ensures { result ≡ wrong_lexicon bytes.now words start }
{
    !numbers_right(bytes, words, start) || some_wrong(bytes, words, (bytes.len() / ENTRY) as u16)
}

// Refusal 10: entry i is equal to an earlier one.
fn repeated_entry(bytes: &[u8], i: u16) -> bool
    ensures { result ≡ repeated_entry bytes.now i }
{
    let e = entry_bytes(bytes, i);
    (0..i).any(|j| same_bytes(entry_bytes(bytes, j), e))
}

// Refusals 30 and 10.
pub fn entries_refusal(bytes: &[u8], words: u32, start: u32) -> Result<(), Refusal>
    ensures { result ≡ tested (entries_refusal bytes.now words start) }
{
    if lexicon_wrong(bytes, words, start) {
        return Err(Refusal::Grammar(30, 0));
    }
    let n = (bytes.len() / ENTRY) as u16;
    for i in 0..n {
        if repeated_entry(bytes, i) {
            return Err(Refusal::Grammar(10, i));
        }
    }
    Ok(())
}
