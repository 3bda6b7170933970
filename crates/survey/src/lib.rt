// The survey of categories: for each category 0 if no tree has it as root, else the least height of such a tree.
#![tactic(auto)]

ghost use Rattle.std.specs.Prelude.{◌≡◌, false, ◌<◌, length, replicate};
ghost use Rattle.std.proofs.Math.Option.{none};
ghost use Rattle.model.specs.GrammarFile.{grammar_of, grammar_refusal, rules_of, categories_of, daughters_of, record_of};
ghost use Rattle.model.specs.Calls.{SurveyOutcome};
ghost use Rattle.model.specs.Survey.{ready, visit, survey_round, survey};

use buffers::{number_at, room_refusal};
use grammar::{categories, category_of, daughter, daughter_count, rules};
use model::{RuleNumber, Verdict};
use reader::grammar_refusal;

// Every daughter of the rule has a figure, below that of the round.
fn daughters_ready(file: &[u8], figures: &[u16], r: RuleNumber, round: u16) -> bool
    requires { (grammar_refusal file.now ≡ none) × (r.0 < rules_of file.now) }
    ensures { result ≡ ready round figures.now (daughters_of (record_of file.now r.0)) }
{
    // By their positions: along the slice of the daughters the survey takes longer.
    (0..usize::from(daughter_count(file, r))).all(|j| {
        let x = number_at(figures, usize::from(daughter(file, r, j).0));
        0 < x && x < round
    })
}

// A visit to rule r: its category gets the figure of the round if it has none and the daughters are ready. Says whether it got one.
fn visit_rule(file: &[u8], figures: &mut [u16], r: RuleNumber, round: u16) -> bool
    requires { (grammar_refusal file.now ≡ none) × (r.0 < rules_of file.now) × (length figures.old ≡ categories_of file.now) }
    ensures { (figures.new ≡ visit (grammar_of file.now) round figures.old r.0) × (result ≡ false → figures.new ≡ figures.old) }
{
    let i = usize::from(category_of(file, r).0);
    if number_at(figures, i) != 0 || !daughters_ready(file, figures, r, round) {
        return false;
    }
    figures[i] = round;
    true
}

// One round: a visit to every rule. Says whether a category got a figure.
fn visit_all(file: &[u8], figures: &mut [u16], round: u16) -> bool
    requires { (grammar_refusal file.now ≡ none) × (length figures.old ≡ categories_of file.now) }
    ensures { (figures.new ≡ survey_round (grammar_of file.now) round figures.old) × (result ≡ false → figures.new ≡ figures.old) }
{
    let mut changed = false;
    for r in 0..rules(file) {
        if visit_rule(file, figures, RuleNumber(r), round) {
            changed = true;
        }
    }
    changed
}

// The figures: rounds over the rules, at most as many as there are categories, until one changes nothing.
fn fill(file: &[u8], figures: &mut [u16])
    requires { (grammar_refusal file.now ≡ none) × (figures.old ≡ replicate (categories_of file.now) 0) }
    ensures { figures.new ≡ survey (grammar_of file.now) }
{
    for round in 1..=u16::from(categories(file)) {
        if !visit_all(file, figures, round) {
            return;
        }
    }
}

// The survey: refusals 1 to 10, 23; else C, with C figures at the front of the output. Costs at most C times R visits to a rule.
pub fn survey(file: &[u8], out: &mut [u16]) -> Verdict
    ensures { SurveyOutcome file.now out.old result out.new }
{
    grammar_refusal(file)?;
    room_refusal(out)?;
    let n = categories(file);
    write_figures(file, &mut out[0..usize::from(n)]);
    Ok(u64::from(n))
}

// The figures of an accepted file, one for each category.
fn write_figures(file: &[u8], figures: &mut [u16])
    requires { (grammar_refusal file.now ≡ none) × (length figures.old ≡ categories_of file.now) }
    ensures { figures.new ≡ survey (grammar_of file.now) }
{
    figures.fill(0);
    fill(file, figures);
}
