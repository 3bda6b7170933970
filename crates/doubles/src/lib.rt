// Whether a rule is an earlier one, its weight and the order of its daughters aside: what refusal 10 tests of two records (document 01; document 02, papers 1
// and 4). What it means of the rules is in specs/.
#![tactic(auto)]

mod order;
mod pair;

ghost use Rattle.std.specs.Prelude.{◌≡◌};
ghost use Rattle.model.specs.GrammarFile.{same_record, same_frame, same_reordered, same_rule};

use crate::order::other_orders;
use crate::pair::Pair;
use grammar::{byte, fields, same_bytes, total};

// Whether two records are the same, weight aside.
fn same_record(earlier: &[u8], e: &[u8]) -> bool
    ensures { result ≡ same_record earlier.now e.now }
{
    same_bytes(fields(earlier, 0, 23), fields(e, 0, 23))
}

// Whether two records have the same category, daughter count, word and component lengths: no order of the daughters changes these.
fn same_frame(earlier: &[u8], e: &[u8]) -> bool
    ensures { result ≡ same_frame earlier.now e.now }
{
    same_bytes(fields(earlier, 0, 2), fields(e, 0, 2))
        && same_bytes(fields(earlier, 5, 6), fields(e, 5, 6))
}

// Whether record e equals the earlier one once its daughters are reordered. What no order changes is compared first.
fn same_reordered(earlier: &[u8], e: &[u8]) -> bool
    ensures { result ≡ same_reordered earlier.now e.now }
{
    let orders = other_orders(byte(e, 1));
    if orders.is_empty() || !same_frame(earlier, e) {
        return false;
    }
    let pair = Pair {
        earlier,
        e,
        variables: total(fields(e, 7, 4)),
    };
    pair.same_components() && pair.same_in_some(orders)
}

// Refusal 10 of two records: record e equals the earlier one, weight aside, as it is or once its daughters are reordered. Records of different categories,
// byte 0, are compared no further.
pub fn same_rule(earlier: &[u8], e: &[u8]) -> bool
    ensures { result ≡ same_rule earlier.now e.now }
{
    byte(earlier, 0) == byte(e, 0) && (same_record(earlier, e) || same_reordered(earlier, e))
}
