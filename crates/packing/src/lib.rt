// A verdict as one 64-bit number, for C.
#![tactic(auto)]

ghost use Rattle.std.specs.Prelude.{◌≡◌, ◌+◌, ◌*◌, ◌<◌};
ghost use Rattle.packing.specs.Packing.{packed_refusal, Fits, ValueFits, CountsFit, Says, SaysCount, SaysDate};

use calendar::Date;
use model::{Counts, Refusal, Verdict};

// The bit of a refusal, and the lowest bits of whose it is and of its number.
const REFUSED: u64 = 1 << 63;

const WHOSE: u64 = 1 << 40;

const NUMBER: u64 = 1 << 32;

// The lowest bit of the effort of a count.
const EFFORT: u64 = 1 << 30;

// The lowest bits of a date's year and month.
const YEAR: u64 = 1 << 16;

const MONTH: u64 = 1 << 8;

// Bit 63, whose the refusal is, its number and its place.
fn refused(whose: u64, number: u8, place: u16) -> u64
    requires { whose < 3 }
    ensures { result ≡ 9223372036854775808 + 1099511627776 * whose + 4294967296 * number + place }
{
    REFUSED + WHOSE * whose + NUMBER * u64::from(number) + u64::from(place)
}

// A refusal.
fn refusal_bits(r: Refusal) -> u64
    ensures { (result ≡ packed_refusal r) × Fits r }
{
    match r {
        Refusal::Grammar(number, place) => refused(0, number, place),
        Refusal::Analysis(number, place) => refused(1, number, place),
        Refusal::Desk(number, place) => refused(2, number, place),
    }
}

// A verdict: its value, or its refusal.
pub fn verdict_bits(v: Verdict) -> u64
    requires { ValueFits v }
    ensures { Says v result }
{
    v.unwrap_or_else(refusal_bits)
}

// The count's verdict: count and effort, or its refusal.
pub fn count_bits(v: Result<Counts, Refusal>) -> u64
    requires { CountsFit v }
    ensures { SaysCount v result }
{
    v.map_or_else(refusal_bits, |c| c.count + EFFORT * c.effort)
}

// A date's verdict: year, month and day, or its refusal.
pub fn date_bits(v: Result<Date, Refusal>) -> u64
    ensures { SaysDate v result }
{
    v.map_or_else(refusal_bits, |d| {
        YEAR * u64::from(d.year) + MONTH * u64::from(d.month) + u64::from(d.day)
    })
}
