// Refusals 6 to 10 of the rules.
ghost use Rattle.std.specs.Prelude.{◌≡◌, ◌≤◌};
ghost use Rattle.model.specs.Verdict.{tested};
ghost use Rattle.model.specs.GrammarFile.{record_refusal};
ghost use Rattle.rule_tests.specs.Chains.{InChain};
ghost use Rattle.rule_tests.specs.Layout.{record_in};
ghost use Rattle.rule_tests.specs.Rules.{rules_refusal};

use crate::chain::{HASHES, enter, hash_of, repeated_rule};
use crate::layout::Records;
use model::{MOST_RULES, Refusal, RuleNumber};
use record_tests::record_refusal;

// Refusals 6 to 10 of rule r, whose record is e.
fn rule_refusal(
    dimensions: &[u8],
    words: u16,
    records: &Records,
    chain: &[u16; MOST_RULES],
    e: &[u8],
    r: RuleNumber,
) -> Result<(), Refusal>
    requires { InChain (record_in records.now.layout records.now.bytes.now) r.0 chain.now e.now }
    ensures { result ≡ tested (record_refusal dimensions.now words (record_in records.now.layout records.now.bytes.now) r.0) }
{
    record_refusal(dimensions, words, e, r)?;
    if repeated_rule(records, chain, e, r) {
        return Err(Refusal::Grammar(10, r.0));
    }
    Ok(())
}

// Refusals 6 to 10 of the rules 0 to n - 1, rule after rule: the first that meets a rule, if one does. Each rule is put into its chain before it is tested.
pub fn rules_refusal(
    dimensions: &[u8],
    words: u16,
    records: &Records,
    n: u16,
) -> Result<(), Refusal>
    requires { n ≤ 256 }
    ensures { result ≡ tested (rules_refusal dimensions.now words (record_in records.now.layout records.now.bytes.now) n) }
{
    let mut table = [0u16; HASHES];
    let mut chain = [0u16; MOST_RULES];
    for i in 0..n {
        let r = RuleNumber(i);
        let e = records.record(r);
        chain[usize::from(i)] = enter(&mut table, hash_of(e), r);
        rule_refusal(dimensions, words, records, &chain, e, r)?;
    }
    Ok(())
}
