// The fields of a rule, by its number, read from the file where they lie.
ghost use Rattle.std.specs.Prelude.{◌≡◌, ◌+◌, ◌<◌};
ghost use Rattle.model.specs.GrammarFile.{record_of, field, weight_of};

use crate::bytes::byte;
use crate::layout::record_place;
use model::{Category, RuleNumber};

// Byte i of a rule's record, read where it lies in the file. The slice of the record is not cut out first: the survey reads so a category at each visit.
fn byte_of(file: &[u8], r: RuleNumber, i: usize) -> u8
    requires { i < 24 }
    ensures { result ≡ field (record_of file.now r.0) i }
{
    byte(file, record_place(r) + i)
}

// The category that the rule names.
pub fn category_of(file: &[u8], r: RuleNumber) -> Category
    ensures { result.0 ≡ field (record_of file.now r.0) 0 }
{
    Category(byte_of(file, r, 0))
}

// How many daughters the rule has.
pub fn daughter_count(file: &[u8], r: RuleNumber) -> u8
    ensures { result ≡ field (record_of file.now r.0) 1 }
{
    byte_of(file, r, 1)
}

// The category of the daughter at position j.
pub fn daughter(file: &[u8], r: RuleNumber, j: usize) -> Category
    ensures { result.0 ≡ field (record_of file.now r.0) (2 + j) }
{
    if j < 22 {
        Category(byte_of(file, r, 2 + j))
    } else {
        Category(0)
    }
}

// The rule's weight.
pub fn weight_of(file: &[u8], r: RuleNumber) -> u8
    ensures { result ≡ weight_of (record_of file.now r.0) }
{
    byte_of(file, r, 23)
}
