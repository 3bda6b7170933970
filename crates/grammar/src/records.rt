// The fields of a record, which is a list of bytes that may stand anywhere.
ghost use Rattle.std.specs.Prelude.{◌≡◌, ◌+◌};
ghost use Rattle.model.specs.GrammarFile.{field, daughters_of, word_of, dimension_in, variables};

use crate::bytes::{byte, fields, two_bytes};
use model::{Category, Word};

// The category that the rule names.
pub fn record_category(e: &[u8]) -> Category
    ensures { result.0 ≡ field e.now 0 }
{
    Category(byte(e, 0))
}

// How many daughters the rule has.
pub fn record_daughters(e: &[u8]) -> u8
    ensures { result ≡ field e.now 1 }
{
    byte(e, 1)
}

// The categories of the daughters, one byte each.
pub fn daughters_of(e: &[u8]) -> &[u8]
    ensures { result.now ≡ daughters_of e.now }
{
    fields(e, 2, usize::from(record_daughters(e)))
}

// The category of the daughter at position j.
pub fn record_daughter(e: &[u8], j: usize) -> Category
    ensures { result.0 ≡ field e.now (2 + j) }
{
    Category(byte(e, j.saturating_add(2)))
}

// The rule's word.
pub fn record_word(e: &[u8]) -> Word
    ensures { result.0 ≡ word_of e.now }
{
    Word(two_bytes(e, 5))
}

// The dimension of a category, 0 where there is no such category.
pub fn dimension_in(dimensions: &[u8], a: Category) -> u8
    ensures { result ≡ dimension_in dimensions.now a.0 }
{
    byte(dimensions, usize::from(a.0))
}

// How many variables the daughters have.
pub fn variables(dimensions: &[u8], e: &[u8]) -> u16
    ensures { result ≡ variables dimensions.now e.now }
{
    daughters_of(e)
        .iter()
        .map(|a| u16::from(dimension_in(dimensions, Category(*a))))
        .sum()
}
