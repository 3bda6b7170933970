// One step of the recognizer, whose predictions hold ranks: a rule number applied to the front prediction (document 01, "One step"; document 02, paper 7).
#![tactic(auto)]

ghost use Rattle.std.specs.Prelude.{◌≡◌, ◌<◌, ◌≤◌};
ghost use Rattle.model.specs.GrammarFile.{grammar_of};
ghost use Rattle.ranking.specs.Numbered.{made_at};
ghost use Rattle.steps.specs.Steps.{begin, Ready, Applies, Applied, StepSays, hears, read_by, opens, ahead, Advances, Opening, Makes};

use grammar::rules;
use model::{EMPTY_WORD, RuleNumber, Word};
use ranks::prediction::category;
use ranks::queue::{ROOM, scan};
use ranks::step::expand;
use ranks::table::{TABLE, category as category_in, daughters, place_of, word};
use sentences::fits;

// Predictions have numbers below this: the root's is 0, and each of MOST_STEPS steps gives numbers to its daughters.
pub const NUMBERS: usize = 388;

// Where the recognizer stands: its queue is the part from..to of a lent array, behind the queues of the steps before; so many words are read, so many steps
// are made, and so many may still be made.
#[derive(Clone, Copy)]
pub struct Standing {
    pub from: usize,
    pub to: usize,
    pub read: usize,
    pub steps: usize,
    pub left: usize,
}

// Why a step does not lead on: a test refuses it, 13, 14, 15 or 16, by its number as in `model::Refusal`; or its queue is longer than the steps then left.
#[derive(Clone, Copy, PartialEq, Eq)]
pub enum Halt {
    Refused(u8),
    Long,
}

// The start: the queue is the start category alone, and n steps may be made.
pub fn first_standing(n: usize) -> Standing
    ensures { result ≡ begin n }
{
    Standing {
        from: 0,
        to: 1,
        read: 0,
        steps: 0,
        left: n,
    }
}

// The number of the first daughter of step k; the others have the next numbers.
pub fn first_daughter(k: usize) -> usize
    requires { k < 96 }
    ensures { result ≡ made_at k }
{
    4 * (k + 1)
}

// How many words the step of rule r reads: of a lexical rule one, if its word is not the empty word.
fn read_by(t: &[u64; TABLE], r: RuleNumber) -> usize
    requires { r.0 < 256 }
    ensures { (result ≡ read_by t.now r.0) × (result ≤ 1) }
{
    let cell = place_of(r);
    if daughters(t, cell) == 0 && word(t, cell).0 != EMPTY_WORD {
        1
    } else {
        0
    }
}

// Whether the step of a lexical rule with this word leads on: it is the empty word, which takes no place, or it fits the next place.
fn hears(word: Word, sentence: &[u32], read: usize) -> bool
    ensures { result ≡ hears word.0 sentence.now read }
{
    word.0 == EMPTY_WORD || (read < sentence.len() && fits(word, sentence[read]))
}

// Whether the step of rule r, which is of the front's category, leads on: a lexical one by its word; another where the queue that it leads to is no longer
// than the steps then left.
pub fn opens(t: &[u64; TABLE], sentence: &[u32], at: Standing, r: RuleNumber) -> bool
    requires { (r.0 < 256) × Advances at }
    ensures { result ≡ opens t.now sentence.now at r.0 }
{
    let cell = place_of(r);
    let d = daughters(t, cell);
    if d == 0 {
        return hears(word(t, cell), sentence, at.read);
    }
    at.to - at.from + d <= at.left
}

// Where the step of rule r leads.
fn ahead(t: &[u64; TABLE], at: Standing, r: RuleNumber) -> Standing
    requires { (r.0 < 256) × Advances at }
    ensures { result ≡ ahead t.now at r.0 }
{
    let d = daughters(t, place_of(r));
    let n = read_by(t, r);
    Standing {
        from: at.to,
        to: at.to + (at.to - at.from - 1 + d),
        read: at.read + n,
        steps: at.steps + 1,
        left: at.left - 1,
    }
}

// Makes the step of rule r, which leads on: the next queue is written from `at.to` on, and what stands before it is as it was. `expand` is called in two
// places: the compiler takes a function that is called in one place alone into its caller, and the walk is quicker with `expand` outside.
pub fn make(t: &[u64; TABLE], w: &mut [u64; ROOM], at: Standing, r: RuleNumber) -> Standing
    requires { Opening t.now w.old at r.0 }
    ensures { Makes t.now w.old w.new at r.0 result }
{
    let d = daughters(t, place_of(r));
    if d == 0 {
        scan(w, at.from, at.to);
        return ahead(t, at, r);
    }
    let k = at.steps;
    let mark = first_daughter(k) as u64;
    if d == 1 {
        expand(t, w, at.from, at.to, r, mark);
        return ahead(t, at, r);
    }
    expand(t, w, at.from, at.to, r, mark);
    ahead(t, at, r)
}

// The step of rule r, which is of the front's category.
fn apply(
    t: &[u64; TABLE],
    sentence: &[u32],
    w: &mut [u64; ROOM],
    at: Standing,
    r: RuleNumber,
) -> Result<Standing, Halt>
    requires { Applies t.now sentence.now w.old at r.0 }
    ensures { Applied t.now sentence.now w.old w.new at r.0 result }
{
    if opens(t, sentence, at, r) {
        return Ok(make(t, w, at, r));
    }
    if daughters(t, place_of(r)) == 0 {
        return Err(Halt::Refused(16));
    }
    Err(Halt::Long)
}

// The step of rule number r: refusals 13, 14 and 15, and what the step of a rule of the front's category does.
pub fn step(
    file: &[u8],
    t: &[u64; TABLE],
    sentence: &[u32],
    w: &mut [u64; ROOM],
    at: Standing,
    r: RuleNumber,
) -> Result<Standing, Halt>
    requires { Ready (grammar_of file.now) t.now sentence.now w.old at }
    ensures { StepSays (grammar_of file.now) t.now sentence.now w.old w.new at r.0 result }
{
    if rules(file) <= r.0 {
        return Err(Halt::Refused(13));
    }
    let from = at.from;
    if at.to <= from {
        return Err(Halt::Refused(14));
    }
    if category_in(t, place_of(r)) != category(w[from]) {
        return Err(Halt::Refused(15));
    }
    apply(t, sentence, w, at, r)
}
