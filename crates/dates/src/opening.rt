// The opening day of a deposit, and whether it is open on a day.
ghost use Rattle.std.specs.Prelude.{◌≡◌, true, ◌≤◌};
ghost use Rattle.model.specs.Verdict.{verdict};
ghost use Rattle.calendar.specs.Calendar.{is_date, day_number};
ghost use Rattle.dates.specs.Dates.{longest_term, opening, term_refusal, opening_verdict, open_verdict};

use crate::numbers::{is_date, number_of};
use crate::{NO_DATE, TOO_LATE};
use calendar::{DAYS, Date, LAST_YEAR, is_leap, month_length};
use model::Verdict;

// The longest term, in months.
const LONGEST_TERM: u64 = 600;

// The opening day, in the month the term after the deposit's.
fn opening_date(d: Date, term: u64) -> Date
    requires { (is_date d ≡ true) × (term ≤ longest_term) }
    ensures { result ≡ opening d term }
{
    let months = u64::from(d.month - 1) + term;
    let year = d.year + (months / 12) as u16;
    let month = (months % 12) as u8 + 1;
    let last = month_length(is_leap(year), month);
    Date {
        year,
        month,
        day: d.day.min(last),
    }
}

// The number of the opening day, from a deposit's date, which is one of the span, and its term; or 28.
fn opening_number(d: Date, term: u64) -> Verdict
    requires { is_date d ≡ true }
    ensures { result ≡ verdict (term_refusal d term) (day_number (opening d term)) }
{
    if LONGEST_TERM < term {
        return Err(TOO_LATE);
    }
    let opened = opening_date(d, term);
    if LAST_YEAR < opened.year {
        return Err(TOO_LATE);
    }
    Ok(number_of(opened))
}

// The number of a deposit's opening day.
pub fn opening_day(d: Date, term: u64) -> Verdict
    ensures { result ≡ opening_verdict d term }
{
    if is_date(d) {
        opening_number(d, term)
    } else {
        Err(NO_DATE)
    }
}

// 1 or 0, for open or not on the day asked: a number, as the paper has it and C gets it.
pub fn is_open(d: Date, term: u64, asked: u64) -> Verdict
    ensures { result ≡ open_verdict d term asked }
{
    if !is_date(d) || DAYS <= asked {
        return Err(NO_DATE);
    }
    let day = opening_number(d, term)?;
    Ok(u64::from(day <= asked))
}
