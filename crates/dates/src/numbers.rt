// A date's number, and a number's date.
ghost use Rattle.std.specs.Prelude.{◌≡◌, true, ◌+◌, ◌-◌, ◌<◌, ◌≤◌};
ghost use Rattle.calendar.specs.Calendar.{first_year, last_year, days, year_length, is_date, days_of_years, days_of_months, day_number, date_in, date_of};
ghost use Rattle.dates.specs.Dates.{number_verdict, date_call};

use crate::NO_DATE;
use calendar::{DAYS, Date, FIRST_YEAR, LAST_YEAR, first_day, is_leap, month_length, year_length};
use model::{Refusal, Verdict};

// The most days that a year has.
const LONGEST_YEAR: u64 = 366;

// The date is one of the span.
pub fn is_date(d: Date) -> bool
    ensures { result ≡ is_date d }
{
    (FIRST_YEAR..=LAST_YEAR).contains(&d.year)
        && (1..=12).contains(&d.month)
        && (1..=month_length(is_leap(d.year), d.month)).contains(&d.day)
}

// The days of a year before a month.
fn months_before(year: u16, month: u8) -> u64
    requires { (1 ≤ month) × (month ≤ 12) }
    ensures { result ≡ days_of_months year (month - 1) }
{
    let leap = is_leap(year);
    let mut total = 0;
    for k in 1..month {
        total += u64::from(month_length(leap, k));
    }
    total
}

// The number of a date of the span. That it is one is a requires, here and in opening.rt, and no invariant of a type: docs/ARCHITECTURE.md names these functions.
pub fn number_of(d: Date) -> u64
    requires { is_date d ≡ true }
    ensures { result ≡ day_number d }
{
    u64::from(first_day(d.year)) + months_before(d.year, d.month) + u64::from(d.day - 1)
}

// A date's number.
pub fn day_number(d: Date) -> Verdict
    ensures { result ≡ number_verdict d }
{
    if is_date(d) {
        Ok(number_of(d))
    } else {
        Err(NO_DATE)
    }
}

// The date of a year by its day, counted from 0.
fn date_in(year: u16, number: u64) -> Date
    requires { number < year_length year }
    ensures { result ≡ date_in year number }
{
    let leap = is_leap(year);
    let mut left = number;
    for month in 1..=12 {
        let in_month = u64::from(month_length(leap, month));
        if left < in_month {
            return Date {
                year,
                month,
                day: left as u8 + 1,
            };
        }
        left -= in_month;
    }
    unreachable!()
}

// The date that is so many days after 1 January of a year.
fn date_after(start: u16, count: u64) -> Date
    requires { (first_year ≤ start) × (start ≤ last_year) × (days_of_years (start - first_year) + count < days) }
    ensures { result ≡ date_of (days_of_years (start - first_year) + count) }
{
    let mut left = count;
    for year in start..=LAST_YEAR {
        let in_year = year_length(year);
        if left < in_year {
            return date_in(year, left);
        }
        left -= in_year;
    }
    unreachable!()
}

// A number's one date. No year has more than 366 days, so that the year looked up has begun by that day; it is the day's year or the one before it.
pub fn date_of(number: u64) -> Result<Date, Refusal>
    ensures { result ≡ date_call number }
{
    if DAYS <= number {
        return Err(NO_DATE);
    }
    let year = FIRST_YEAR + (number / LONGEST_YEAR) as u16;
    Ok(date_after(year, number - u64::from(first_day(year))))
}
