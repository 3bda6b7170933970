// A date from numbers that are wider than its fields.
ghost use Rattle.calendar.specs.Calendar.{date};
ghost use Rattle.dates.specs.WideDates.{StandsFor};

use calendar::Date;

// A number that is too large for its field becomes the largest of the field, which is no year, month or day of the span either.
pub fn date_from(year: u32, month: u32, day: u32) -> Date
    ensures { StandsFor (date year month day) result }
{
    Date {
        year: u16::try_from(year).unwrap_or(u16::MAX),
        month: u8::try_from(month).unwrap_or(u8::MAX),
        day: u8::try_from(day).unwrap_or(u8::MAX),
    }
}
