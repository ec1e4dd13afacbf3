// A moment as a text: ISO 8601, in UTC, with milliseconds.
ghost use Rattle.std.specs.Prelude.{◌≡◌, ◌<◌, ◌≤◌};
ghost use Rattle.bay_io.specs.Moments.{digit_at, month_from, year_from};
ghost use Rattle.bay_io.specs.Moments as spec;

// The milliseconds of a day.
const DAY: u64 = 86_400_000;

// The last millisecond of the year 9999.
const LAST: u64 = 253_402_300_799_999;

// Returns whether a year has 366 days.
fn is_leap_year(year: u64) -> bool
    ensures { result ≡ spec.is_leap_year year }
{
    year % 4 == 0 && (year % 100 != 0 || year % 400 == 0)
}

// Returns the number of days of a year.
fn days_in_year(year: u64) -> u64
    ensures { result ≡ spec.days_in_year year }
{
    if is_leap_year(year) { 366 } else { 365 }
}

// Returns the number of days of a month, 1 to 12.
fn days_in_month(year: u64, month: u64) -> u64
    ensures { result ≡ spec.days_in_month year month }
{
    match month {
        2 => { if is_leap_year(year) { 29 } else { 28 } }
        4 | 6 | 9 | 11 => 30,
        _ => 31,
    }
}

// Returns the year, up to 9999, of the day that comes `days` days after the first of January 1970,
// and how many days after the first day of this year it comes.
fn year_of(days: u64) -> (u64, u64)
    ensures value { result ≡ year_from 8029 1970 days }
    ensures within { (result.0 < 10000) × (result.1 ≤ days) }
{
    let mut year = 1970;
    let mut left = days;
    for i in 0..8029u64 {
        let length = days_in_year(year);
        if left < length {
            break;
        }
        year += 1;
        left -= length;
    }
    (year, left)
}

// Returns the month, 1 to 12, of the day `days` days after the first of a year, and its offset from
// the first of that month.
fn month_of(year: u64, days: u64) -> (u64, u64)
    ensures value { result ≡ month_from 11 year 1 days }
    ensures within { result.1 ≤ days }
{
    let mut month = 1;
    let mut left = days;
    for i in 0..11u64 {
        let length = days_in_month(year, month);
        if left < length {
            break;
        }
        month += 1;
        left -= length;
    }
    (month, left)
}

// Returns the digit of a number at a unit: 1, 10, 100 or 1000.
fn digit(number: u64, unit: u64) -> u8
    requires { 0 < unit }
    ensures { result ≡ digit_at number unit }
{
    b'0' + (number / unit % 10) as u8
}

/// Returns a moment in milliseconds since 1970 as `YYYY-MM-DDThh:mm:ss.mmmZ` (ISO 8601, in UTC).
/// For a moment after the year 9999 it returns the last millisecond of that year.
#[tactic(auto, unfolding(crate::specs::Moments::utc_text))]
pub fn utc_text(moment: u64) -> [u8; 24]
    ensures { result ≡ spec.utc_text moment }
{
    let moment = moment.min(LAST);
    let (year, days) = year_of(moment / DAY);
    let (month, before) = month_of(year, days);
    let ms = moment % DAY;
    let day = before + 1;
    let hour = ms / 3_600_000;
    let minute = ms / 60_000 % 60;
    let second = ms / 1_000 % 60;
    [
        digit(year, 1000),
        digit(year, 100),
        digit(year, 10),
        digit(year, 1),
        b'-',
        digit(month, 10),
        digit(month, 1),
        b'-',
        digit(day, 10),
        digit(day, 1),
        b'T',
        digit(hour, 10),
        digit(hour, 1),
        b':',
        digit(minute, 10),
        digit(minute, 1),
        b':',
        digit(second, 10),
        digit(second, 1),
        b'.',
        digit(ms, 100),
        digit(ms, 10),
        digit(ms, 1),
        b'Z',
    ]
}
