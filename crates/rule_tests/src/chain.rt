// Refusal 10 by hashes: the earlier records that may hold the same rule as a record are those with the same hash, and a chain leads from each to the one before.
ghost use Rattle.std.specs.Prelude.{◌≡◌, ◌+◌, ◌<◌, get_or, set};
ghost use Rattle.model.specs.GrammarFile.{field, repeated};
ghost use Rattle.rule_tests.specs.Chains.{hash_sum, hash_of, InChain};
ghost use Rattle.rule_tests.specs.Layout.{record_in};

use crate::layout::Records;
use doubles::same_rule;
use grammar::byte;
use model::{MOST_RULES, RuleNumber};

// A hash is one byte.
pub const HASHES: usize = 256;

// Byte i of a record, as a wider number.
fn wide(e: &[u8], i: usize) -> u16
    ensures { (result ≡ field e.now i) × (result < 256) }
{
    u16::from(byte(e, i))
}

// The sum that the hash of a record is made of.
fn hash_sum(e: &[u8]) -> u16
    ensures { result ≡ hash_sum e.now }
{
    let daughters = wide(e, 2) + wide(e, 3) + wide(e, 4);
    29 * wide(e, 0) + 17 * daughters + wide(e, 5) + 37 * wide(e, 6)
}

// The hash of a record.
pub fn hash_of(e: &[u8]) -> u8
    ensures { result ≡ hash_of e.now }
{
    (hash_sum(e) % 256) as u8
}

// Enters record r, whose hash is h, in the table of the latest records. The answer is what stood there: one more than the number of the latest record
// before it with that hash, or 0. It is a number, and no Option: `latest` and `Chained`, which say what a chain is, are of numbers.
pub fn enter(table: &mut [u16; HASHES], h: u8, r: RuleNumber) -> u16
    requires { r.0 < 256 }
    ensures { (result ≡ get_or table.old h 0) × (table.new ≡ set table.old h (r.0 + 1)) }
{
    let i = usize::from(h);
    let before = table[i];
    table[i] = r.0 + 1;
    before
}

// Where the chain leads from record r: one more than the number of an earlier record, or 0 at its end.
fn earlier(chain: &[u16; MOST_RULES], r: RuleNumber) -> u16
    requires { r.0 < 256 }
    ensures { result ≡ get_or chain.now r.0 0 }
{
    chain[usize::from(r.0)]
}

// Refusal 10: rule r, whose record is e, is an earlier one, its weight and the order of its daughters aside. It is compared with those of its chain.
pub fn repeated_rule(records: &Records, chain: &[u16; MOST_RULES], e: &[u8], r: RuleNumber) -> bool
    requires { InChain (record_in records.now.layout records.now.bytes.now) r.0 chain.now e.now }
    ensures { result ≡ repeated (record_in records.now.layout records.now.bytes.now) r.0 }
{
    // A loop along the chain, which ends because its numbers fall.
    let mut next = earlier(chain, r);
    while 0 < next {
        let j = next - 1;
        if same_rule(records.record(RuleNumber(j)), e) {
            return true;
        }
        next = earlier(chain, RuleNumber(j));
    }
    false
}
