// The tests of the heading: refusal 4.
ghost use Rattle.std.specs.Prelude.{◌≡◌};
ghost use Rattle.model.specs.Base.{every};
ghost use Rattle.model.specs.GrammarFile.{within, wrong_heading};
ghost use Rattle.reader.specs.Reading.{numbers_right, start_right, unused_right};

use grammar::{categories, dimension, dimensions, rules, start, words, zeros};
use model::{MOST_CATEGORIES, MOST_RULES};

// How many categories, words and rules a grammar has at most, and the highest dimension.
pub const CATEGORIES: u16 = MOST_CATEGORIES as u16;

pub const WORDS: u16 = 4096;

pub const RULES: u16 = MOST_RULES as u16;

const DIMENSIONS: u16 = 4;

// Whether x is from low to high, ends included.
pub fn within(low: u16, high: u16, x: u16) -> bool
    ensures { result ≡ within low high x }
{
    (low..=high).contains(&x)
}

// Whether every byte is from 1 to 4.
pub fn dimensions_right(bytes: &[u8]) -> bool
    ensures { result ≡ every (within 1 4) bytes.now }
{
    bytes.iter().all(|d| within(1, DIMENSIONS, u16::from(*d)))
}

// Whether C, W and R are in range.
fn numbers_right(file: &[u8]) -> bool
    ensures { result ≡ numbers_right file.now }
{
    within(1, CATEGORIES, u16::from(categories(file)))
        && within(1, WORDS, words(file))
        && within(1, RULES, rules(file))
}

// Whether the start is a category of dimension 1.
fn start_right(file: &[u8]) -> bool
    ensures { result ≡ start_right file.now }
{
    let a = start(file);
    a.0 < categories(file) && dimension(file, a) == 1
}

// Whether the heading's unused bytes are 0.
fn unused_right(file: &[u8]) -> bool
    ensures { result ≡ unused_right file.now }
{
    let used = 16 + usize::from(categories(file));
    zeros(file, 9, 7) && zeros(file, used, 508usize.saturating_sub(used))
}

// Refusal 4: a heading value out of range, the start not a category of dimension 1, or an unused byte not 0.
pub fn wrong_heading(file: &[u8]) -> bool
    ensures { result ≡ wrong_heading file.now }
{
    !(numbers_right(file)
        && dimensions_right(dimensions(file))
        && start_right(file)
        && unused_right(file))
}
