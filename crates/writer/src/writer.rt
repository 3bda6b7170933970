// The writer: all tests in their order, and then the file.
ghost use Rattle.std.specs.Prelude.{◌≡◌};
ghost use Rattle.model.specs.Calls.{write_verdict, write_output};
ghost use Rattle.model.specs.Verdict.{tested};
ghost use Rattle.model.specs.Writer.{writer_refusal};
ghost use Rattle.writer.specs.Writing.{heading};

use crate::blocks::put_file;
use crate::given::Given;
use crate::heading::wrong_numbers;
use grammar::fields;
use model::{Refusal, Verdict};
use reader::blocks_for;
use rule_tests::{Layout, Records, rules_refusal};

// Refusals 4 to 10 of what is given. It is given in parts: of slices in a struct the proof does not know that they are bytes.
fn given_refusal(
    categories: u8,
    start: u8,
    words: u16,
    rules: u16,
    dimensions: &[u8],
    records: &[u8],
) -> Result<(), Refusal>
    ensures { result ≡ tested (writer_refusal (heading categories start words rules dimensions.now) records.now) }
{
    let given = Given {
        categories,
        start,
        words,
        rules,
        dimensions,
        records,
    };
    if dimensions.len() != 64 || 256 < rules || wrong_numbers(&given) {
        return Err(Refusal::Grammar(4, 0));
    }
    if records.len() != 24 * usize::from(rules) {
        return Err(Refusal::Grammar(5, 0));
    }
    let packed = Records {
        bytes: records,
        layout: Layout::Packed,
    };
    rules_refusal(
        fields(dimensions, 0, usize::from(categories)),
        words,
        &packed,
        rules,
    )
}

// The writer: refusals 4 to 10, 23; else the file's length, with the file at the front of the output. The heading is given in parts, as C passes it.
pub fn write_grammar(
    categories: u8,
    start: u8,
    words: u16,
    rules: u16,
    dimensions: &[u8],
    records: &[u8],
    out: &mut [u8],
) -> Verdict
    ensures { (result ≡ write_verdict (heading categories start words rules dimensions.now) records.now out.old) × (out.new ≡ write_output (heading categories start words rules dimensions.now) records.now out.old) }
{
    given_refusal(categories, start, words, rules, dimensions, records)?;
    let n = 512 * blocks_for(rules);
    if out.len() < n {
        return Err(Refusal::Desk(23, 0));
    }
    put_file(
        categories,
        start,
        words,
        rules,
        dimensions,
        records,
        &mut out[0..n],
    );
    Ok(n as u64)
}
