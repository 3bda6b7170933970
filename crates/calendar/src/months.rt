// The lengths of months.
ghost use Rattle.std.specs.Prelude.{◌≡◌, ◌≤◌};
ghost use Rattle.calendar.specs.Calendar.{length_in};

// "month lengths come from a table for common and leap years": of a common year, and of a leap year.
const MONTH_LENGTHS: [[u8; 12]; 2] = [
    [31, 28, 31, 30, 31, 30, 31, 31, 30, 31, 30, 31],
    [31, 29, 31, 30, 31, 30, 31, 31, 30, 31, 30, 31],
];

// The length of a month, counted from 1, of a leap year or of a common one.
pub fn month_length(leap: bool, month: u8) -> u8
    requires { (1 ≤ month) × (month ≤ 12) }
    ensures { result ≡ length_in leap month }
{
    MONTH_LENGTHS[usize::from(leap)][usize::from(month - 1)]
}
