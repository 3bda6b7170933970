// Dates and opening days (document 02, paper 3): both ends of the span, leap years, the paper's own example, and refusals 27 and 28.
use crate::show::print;
use calendar::Date;
use std::io;

fn date(year: u16, month: u8, day: u8) -> Date {
    Date { year, month, day }
}

// The opening day's number and its date, or the refusal.
fn opening(rt: &impl Print, deposited: Date, term: u64) -> io::Result<()> {
    let day = dates::opening_day(deposited, term);
    print(rt, day)?;
    if let Ok(number) = day {
        print(rt, dates::date_of(number))?;
    }
    Ok(())
}

// The numbers of the first and the last day, of the ends of February 2000 and 2100, and of what is no date of the span.
fn numbers(rt: &impl Print) -> io::Result<()> {
    let asked = [
        date(2000, 1, 1),
        date(2000, 2, 29),
        date(2100, 2, 28),
        date(2100, 3, 1),
        date(2399, 12, 31),
        date(2100, 2, 29),
        date(2001, 4, 31),
        date(2001, 13, 1),
        date(2001, 1, 0),
        date(1999, 12, 31),
        date(2400, 1, 1),
    ];
    for d in asked {
        print(rt, dates::day_number(d))?;
    }
    Ok(())
}

// The dates of these numbers, and a number past the last.
fn dates_of(rt: &impl Print) -> io::Result<()> {
    for number in [0, 59, 36583, 36584, 146096, 146097] {
        print(rt, dates::date_of(number))?;
    }
    Ok(())
}

// "31 January 2001 plus 1 month is 28 February 2001"; 29 February after one year and after four; no term, the longest, and what is refused.
fn openings(rt: &impl Print) -> io::Result<()> {
    opening(rt, date(2001, 1, 31), 1)?;
    opening(rt, date(2000, 2, 29), 12)?;
    opening(rt, date(2000, 2, 29), 48)?;
    opening(rt, date(2000, 12, 31), 0)?;
    opening(rt, date(2000, 12, 31), 600)?;
    opening(rt, date(2000, 12, 31), 601)?;
    opening(rt, date(2399, 12, 1), 1)?;
    opening(rt, date(2100, 2, 29), 601)
}

// The day before the opening day, that day and the last; a term that is too long, a day that is none and a date that is none, which are tested before.
fn open_or_not(rt: &impl Print) -> io::Result<()> {
    let deposited = date(2001, 1, 31);
    print(rt, dates::is_open(deposited, 1, 423))?;
    print(rt, dates::is_open(deposited, 1, 424))?;
    print(rt, dates::is_open(deposited, 1, 146096))?;
    print(rt, dates::is_open(deposited, 601, 424))?;
    print(rt, dates::is_open(deposited, 601, 146097))?;
    print(rt, dates::is_open(date(2001, 2, 29), 601, 424))
}

pub fn run(rt: &impl Print) -> io::Result<()> {
    numbers(rt)?;
    dates_of(rt)?;
    openings(rt)?;
    open_or_not(rt)
}
