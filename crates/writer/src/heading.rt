// Refusal 4 of the given numbers.
ghost use Rattle.std.specs.Prelude.{◌≡◌};
ghost use Rattle.model.proofs.WriterHeading.{wrong_numbers};
ghost use Rattle.writer.specs.Writing.{heading_given, numbers_in};

use crate::given::Given;
use grammar::{dimension_in, fields, zeros};
use model::{Category, MOST_CATEGORIES};
use reader::{CATEGORIES, RULES, WORDS, dimensions_right, within};

// Whether C, W and R are in range.
fn numbers_in(categories: u8, words: u16, rules: u16) -> bool
    ensures { result ≡ numbers_in categories words rules }
{
    within(1, CATEGORIES, u16::from(categories))
        && within(1, WORDS, words)
        && within(1, RULES, rules)
}

// Refusal 4 of a heading's numbers with 64 dimension bytes.
pub fn wrong_numbers(given: &Given) -> bool
    ensures { result ≡ wrong_numbers (heading_given given.now) }
{
    let n = usize::from(given.categories);
    let own = fields(given.dimensions, 0, n);
    !(numbers_in(given.categories, given.words, given.rules)
        && dimensions_right(own)
        && given.start < given.categories
        && dimension_in(own, Category(given.start)) == 1
        && zeros(given.dimensions, n, MOST_CATEGORIES.saturating_sub(n)))
}
