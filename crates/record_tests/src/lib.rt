// The tests of one record: refusals 6 to 9, for `rule_tests`. The record and the dimensions are lists of bytes that may stand anywhere.
#![tactic(auto)]

ghost use Rattle.std.specs.Prelude.{◌≡◌, ◌+◌, ◌*◌, eqb, leb, length};
ghost use Rattle.model.specs.Base.{all_below, any_below, occurrences};
ghost use Rattle.model.specs.Verdict.{tested};
ghost use Rattle.model.specs.GrammarFile.{dimension_in, field, all_zero, wrong_category, wrong_word, each_once, wrong_variables, unused_set};
ghost use Rattle.record_tests.specs.RecordTests.{unused_lexical, unused_nonlexical, record_tests};

use grammar::{
    dimension_in, few_zeros, fields, occurrences, record_category, record_daughter,
    record_daughters, record_word, total, variables, zeros,
};
use model::{Category, EMPTY_WORD, Refusal, RuleNumber};

// Whether there is no such category.
fn no_category(dimensions: &[u8], a: Category) -> bool
    ensures { result ≡ leb (length dimensions.now) a.0 }
{
    dimensions.len() <= usize::from(a.0)
}

// Whether one of the first n daughters is no category.
fn wrong_daughter(dimensions: &[u8], e: &[u8], n: u8) -> bool
    ensures { result ≡ any_below (λ j. leb (length dimensions.now) (field e.now (2 + j))) n }
{
    (0..n).any(|j| no_category(dimensions, record_daughter(e, usize::from(j))))
}

// Refusal 6: category, daughter count or daughter.
fn wrong_category(dimensions: &[u8], e: &[u8]) -> bool
    ensures { result ≡ wrong_category dimensions.now e.now }
{
    let n = record_daughters(e);
    no_category(dimensions, record_category(e)) || 3 < n || wrong_daughter(dimensions, e, n)
}

// Refusal 7: lexical with dimension other than 1, or no such word.
fn wrong_word(dimensions: &[u8], e: &[u8], words: u16) -> bool
    ensures { result ≡ wrong_word dimensions.now e.now words }
{
    let w = record_word(e);
    record_daughters(e) == 0
        && (dimension_in(dimensions, record_category(e)) != 1 || words <= w.0 && w.0 != EMPTY_WORD)
}

// Whether every variable of every daughter occurs exactly once. Nested loops, left by a label at the first that does not (docs/DECISIONS.md, "Forms").
fn each_once(dimensions: &[u8], e: &[u8]) -> bool
    ensures { result ≡ each_once dimensions.now e.now }
{
    let named = fields(e, 11, usize::from(variables(dimensions, e)));
    let n = usize::from(record_daughters(e));
    let mut once = true;
    'daughters: for j in 0..n {
        let d = usize::from(dimension_in(dimensions, record_daughter(e, j)));
        for c in 0..d {
            if occurrences(4 * j + c, named) != 1 {
                once = false;
                break 'daughters;
            }
        }
    }
    once
}

// Refusal 8: variables not each once, or lengths not adding up.
fn wrong_variables(dimensions: &[u8], e: &[u8]) -> bool
    ensures { result ≡ wrong_variables dimensions.now e.now }
{
    let d = usize::from(dimension_in(dimensions, record_category(e)));
    0 < record_daughters(e)
        && (total(fields(e, 7, d)) != u32::from(variables(dimensions, e))
            || !each_once(dimensions, e))
}

// Whether the bytes are 0 that a lexical rule does not use.
fn lexical_unused(e: &[u8]) -> bool
    ensures { result ≡ all_zero (unused_lexical e.now) }
{
    few_zeros(e, 2, 3) && zeros(e, 7, 16)
}

// Whether the bytes are 0 that a nonlexical rule does not use.
fn nonlexical_unused(dimensions: &[u8], e: &[u8]) -> bool
    ensures { result ≡ all_zero (unused_nonlexical dimensions.now e.now) }
{
    let n = usize::from(record_daughters(e));
    let d = usize::from(dimension_in(dimensions, record_category(e)));
    let v = usize::from(variables(dimensions, e));
    few_zeros(e, 2 + n, 3usize.saturating_sub(n))
        && few_zeros(e, 5, 2)
        && few_zeros(e, 7 + d, 4usize.saturating_sub(d))
        && few_zeros(e, 11 + v, 12usize.saturating_sub(v))
}

// Refusal 9: an unused byte is not 0.
fn unused_set(dimensions: &[u8], e: &[u8]) -> bool
    ensures { result ≡ unused_set dimensions.now e.now }
{
    if record_daughters(e) == 0 {
        !lexical_unused(e)
    } else {
        !nonlexical_unused(dimensions, e)
    }
}

// Refusals 6 to 9 of record e, which is that of rule r.
pub fn record_refusal(dimensions: &[u8], words: u16, e: &[u8], r: RuleNumber) -> Result<(), Refusal>
    ensures { result ≡ tested (record_tests dimensions.now words e.now r.0) }
{
    if wrong_category(dimensions, e) {
        return Err(Refusal::Grammar(6, r.0));
    }
    if wrong_word(dimensions, e, words) {
        return Err(Refusal::Grammar(7, r.0));
    }
    if wrong_variables(dimensions, e) {
        return Err(Refusal::Grammar(8, r.0));
    }
    if unused_set(dimensions, e) {
        return Err(Refusal::Grammar(9, r.0));
    }
    Ok(())
}
