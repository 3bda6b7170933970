// What the program reads out of the first bytes of the sentence file.
ghost use Rattle.std.specs.Prelude.{◌≡◌, take};
ghost use Rattle.model.specs.Program.{limit_in};
ghost use Rattle.report.specs.Whole.{WordsRead};

use grammar::{byte, two_bytes};
use model::{MOST_STEPS, Word};
use sentences::single_word;

// How many words are read of a sentence: one more than an accepted one can have.
pub const SENTENCE_WORDS: usize = MOST_STEPS + 1;

// N, the file's first byte; 0 in an empty file.
pub fn read_limit(bytes: &[u8]) -> u8
    ensures { result ≡ limit_in bytes.now }
{
    byte(bytes, 0)
}

// The words read of a sentence, in fixed memory, each as a place that holds it alone: so many, at the front.
#[derive(Clone, Copy)]
pub struct Sentence {
    pub words: [u32; SENTENCE_WORDS],
    pub spoken: usize,
}

impl Sentence {
    // Reads the sentence's words, or the first SENTENCE_WORDS of them.
    pub fn read(bytes: &[u8]) -> Sentence
        ensures { WordsRead bytes.now result.words result.spoken }
    {
        let mut words = [0; SENTENCE_WORDS];
        let spoken = (bytes.len().saturating_sub(1) / 2).min(SENTENCE_WORDS);
        for k in 0..spoken {
            words[k] = single_word(Word(two_bytes(bytes, 2 * k + 1)));
        }
        Sentence { words, spoken }
    }

    // The words.
    pub fn heard(&self) -> &[u32]
        ensures { result.now ≡ take self.now.spoken self.now.words }
    {
        &self.words[..self.spoken.min(SENTENCE_WORDS)]
    }
}
