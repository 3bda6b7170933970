// The walk over the live prefixes in dictionary order: from each to the next (document 01, "Counting and listing").
ghost use Rattle.std.specs.Prelude.{◌≡◌, ◌<◌, length};
ghost use Rattle.ranks.specs.Held.{FirstQueue};
ghost use Rattle.walk.specs.Named.{Names, number_of};
ghost use Rattle.walk.specs.Walking.{at_end};
ghost use Rattle.walk.specs.Turns.{NoTurns, found};
ghost use Rattle.walk.specs.Prefixes.{MayFind, StandsAt, FirstOpen, MayResume, Resumed, MayChoose, Chosen, MayExtend, Extended, Walks, WalkedOn};

use crate::chain::{CHAIN, first_rule, next_rule};
use crate::turns::{TURNS, no_turns, rule_of, standing_of, turn_or};
use model::{Category, MOST_STEPS, RuleNumber};
use ranks::prediction::category;
use ranks::queue::{ROOM, first_queue};
use ranks::table::TABLE;
use steps::{Standing, make, opens};

// What a walk reads of the grammar: the table of its rules, the chain of the rules of each category, and the start category.
#[derive(Drop)]
pub struct Tables {
    pub rules: [u64; TABLE],
    pub chain: [u16; CHAIN],
    pub start: Category,
}

// What a walk writes: the queues of the steps made, the rules of these steps, and where to go on. Where it stands is a value of its own: the clauses speak of
// both where it stood and where it comes to.
#[derive(Drop)]
pub struct Walk {
    pub queues: [u64; ROOM],
    pub path: [u16; MOST_STEPS],
    pub turns: [u64; TURNS],
}

// The first rule from r on, of the same category, whose step leads on from `at`.
fn find(
    tables: &Tables,
    sentence: &[u32],
    at: Standing,
    r: Option<RuleNumber>,
) -> Option<RuleNumber>
    requires { MayFind tables.now.rules tables.now.chain sentence.now at r }
    ensures { Names result (found tables.now.rules tables.now.chain sentence.now at (number_of r)) }
{
    let mut next = r;
    // By the chain: what ends this loop is that each next rule has a higher number, and not the end of a list.
    while let Some(x) = next {
        if opens(&tables.rules, sentence, at, x) {
            return next;
        }
        next = next_rule(&tables.chain, x);
    }
    None
}

impl Walk {
    // The walk at the start, before the empty list of rules: the queue is that of the start category.
    pub fn first(start: Category) -> Walk
        requires { start.0 < 64 }
        ensures { FirstQueue start.0 result.queues × (length result.path ≡ 96) × NoTurns result.turns }
    {
        Walk {
            queues: first_queue(start),
            path: [0; MOST_STEPS],
            turns: no_turns(),
        }
    }

    // The first rule whose step leads on from `at`.
    fn first_open(&self, tables: &Tables, sentence: &[u32], at: Standing) -> Option<RuleNumber>
        requires { StandsAt tables.now.rules tables.now.chain sentence.now self.now.queues at }
        ensures { FirstOpen tables.now.rules tables.now.chain sentence.now self.now.queues at result }
    {
        let from = at.from;
        if from == at.to {
            return None;
        }
        find(
            tables,
            sentence,
            at,
            first_rule(&tables.chain, category(self.queues[from])),
        )
    }

    // The step to make where no rule leads on from `at`: from where, and of which rule. It takes the place of the last step that led there for which a later
    // rule leads on from where that step was made; the steps after that one are left.
    fn resume(&self, at: Standing) -> Option<(Standing, RuleNumber)>
        requires { MayResume self.now.turns at }
        ensures { Resumed self.now.turns at result }
    {
        let turn = self.turns[at.steps];
        let r = rule_of(turn)?;
        Some((standing_of(turn, at.steps + at.left), r))
    }

    // The step that leads to the next live prefix: from where, and of which rule.
    fn choose(
        &self,
        tables: &Tables,
        sentence: &[u32],
        at: Standing,
    ) -> Option<(Standing, RuleNumber)>
        requires { MayChoose tables.now.rules tables.now.chain sentence.now self.now.queues self.now.turns at }
        ensures { Chosen tables.now.rules tables.now.chain sentence.now self.now.queues self.now.turns at result }
    {
        match self.first_open(tables, sentence, at) {
            Some(r) => Some((at, r)),
            None => self.resume(at),
        }
    }

    // Makes the step of rule r, which leads on from `at`: the rule goes on the path, and where to go on after it among the turns.
    fn extend(&mut self, tables: &Tables, sentence: &[u32], at: Standing, r: RuleNumber) -> Standing
        requires { MayExtend tables.now.rules tables.now.chain sentence.now self.old.queues self.old.path self.old.turns at r.0 }
        ensures { Extended tables.now.rules tables.now.chain sentence.now self.old.queues self.old.path self.old.turns self.new.queues self.new.path self.new.turns at r.0 result }
    {
        let k = at.steps;
        let x = find(tables, sentence, at, next_rule(&tables.chain, r));
        self.turns[k + 1] = turn_or(at, x, self.turns[k]);
        self.path[k] = r.0;
        make(&tables.rules, &mut self.queues, at, r)
    }

    // The next live prefix, in dictionary order, after the one that path[0..at.steps] holds: where the walk then stands, with its rules on the path.
    pub fn next(&mut self, tables: &Tables, sentence: &[u32], at: Standing) -> Option<Standing>
        requires { Walks tables.now.rules tables.now.chain sentence.now self.old.queues self.old.path self.old.turns at }
        ensures { WalkedOn tables.now.rules tables.now.chain sentence.now self.old.queues self.old.path self.old.turns self.new.queues self.new.path self.new.turns at result }
    {
        let (from, r) = self.choose(tables, sentence, at)?;
        Some(self.extend(tables, sentence, from, r))
    }
}

// Whether the prefix is complete: nothing is predicted, and every word is read.
pub fn at_end(sentence: &[u32], at: Standing) -> bool
    ensures { result ≡ at_end sentence.now at }
{
    at.from == at.to && at.read == sentence.len()
}
