// What the program tests before it counts.
ghost use Rattle.std.specs.Prelude.{◌≡◌};
ghost use Rattle.model.specs.Verdict.{tested};
ghost use Rattle.report.specs.Whole.{tests_of};

use analyses::limits_refusal;
use model::Refusal;
use reader::grammar_refusal;
use sentences::sentence_refusal;

// "effort limit 1,000,000"
pub const EFFORT_LIMIT: u64 = 1000000;

// The refusal of the grammar, of a sentence file of even length, of the limits or of the sentence; or none of them.
pub fn program_tests(file: &[u8], sentence: &[u32], n: u64, even: bool) -> Result<(), Refusal>
    ensures { result ≡ tested (tests_of file.now sentence.now n even) }
{
    grammar_refusal(file)?;
    if even {
        return Err(Refusal::Analysis(11, 0));
    }
    limits_refusal(n, EFFORT_LIMIT)?;
    sentence_refusal(file, sentence)
}
