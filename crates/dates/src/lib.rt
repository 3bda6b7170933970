// The day a deposit opens (document 02, paper 3): a date's number, a number's date, the opening day, and open or not on a day.
#![tactic(auto)]

mod numbers;
mod opening;
mod wide;

use model::Refusal;
pub use numbers::{date_of, day_number};
pub use opening::{is_open, opening_day};
pub use wide::date_from;

// No such date, or a date or a day number outside the span.
const NO_DATE: Refusal = Refusal::Desk(27, 0);

// A term that is too long, or an opening day after the last date.
const TOO_LATE: Refusal = Refusal::Desk(28, 0);
