// The Gregorian calendar from 1 January 2000 to 31 December 2399 by its tables (document 02, paper 3). The rule that they are proved to hold is in specs/.
#![tactic(auto)]

ghost use Rattle.std.specs.Prelude.{Some};
ghost use Rattle.calendar.specs.Shown.{date_text};

mod first_days;
mod leap_years;
mod months;

pub use first_days::first_day;
pub use leap_years::{is_leap, year_length};
pub use months::month_length;
use std::fmt;

// A date: the year as it is written, month and day counted from 1. Dates are ordered by year, month and day.
#[derive(Clone, Copy, PartialEq, Eq, PartialOrd, Ord)]
pub struct Date {
    pub year: u16,
    pub month: u8,
    pub day: u8,
}

// Year, month and day, parted by blanks.
impl fmt::Display for Date {
    ghost output = { λ d. Some (date_text d) };

    fn fmt<W: fmt::Write>(&self, f: &mut fmt::Formatter<W>) -> fmt::Result {
        write!(f, "{} {} {}", self.year, self.month, self.day)
    }
}

pub const FIRST_YEAR: u16 = 2000;

pub const LAST_YEAR: u16 = 2399;

// How many days the span has.
pub const DAYS: u64 = 146097;
