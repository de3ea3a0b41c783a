ghost use Rattle.std.specs.Prelude.{◌≡◌, ◌↔◌, ℕ, ◌+◌, ◌-◌, ◌*◌, ◌<◌, ℤ, pos, ◌≤ℤ◌, unsigned_abs, List, length, IsTrue, OnSome, IfSome, IfNone};
ghost use Rattle.jiff.specs.Words.{epoch_day};
ghost use Rattle.jiff_core.specs.Calendar.{IsCivilDate, days_from_civil};
ghost use Rattle.cell_core.specs.Day.{HasTwoDigits, number_at, IsDayText, day_in, IsPrintedDay, is_printed_day, IsPrintedDate, day_text, date_text, two_digits};

use jiff::ToSpan;
use jiff::civil::{Date, date};

/// The day that a text such as `1994-03-16` names, where 1970-01-01 is 0.
///
/// The text is four digits, `-`, two digits, `-` and two digits, and names a date of the years
/// 0001 to 9999 that the calendar has. Any other text names no day.
pub fn read_day(text: &str) -> Option<i32>
    ensures day { IfSome result (λ n. IsDayText text.now × (n ≡ day_in text.now)) }
    ensures none { IfNone result (¬ IsDayText text.now) }
{
    let bytes = text.as_bytes();
    let [_, _, _, _, b'-', _, _, b'-', _, _] = bytes else {
        return None;
    };
    let century = number_at(bytes, 0)?;
    let year = number_at(bytes, 2)?;
    let month = number_at(bytes, 5)?;
    let day = number_at(bytes, 8)?;
    let year = century as u16 * 100 + year as u16;
    if year == 0 {
        return None;
    }
    civil_day(year, month, day)
}

/// The number that the two digits at a place write, if there are digits.
fn number_at(text: &[u8], place: usize) -> Option<u8>
    requires { place + 1 < length text.now }
    ensures digits { OnSome result (HasTwoDigits text.now place) }
    ensures number { IfSome result (λ n. n ≡ number_at text.now place) }
    ensures small { IfSome result (λ n. n < 100) }
    ensures none { IfNone result (¬ HasTwoDigits text.now place) }
{
    let (tens, ones) = (text[place], text[place + 1]);
    if tens.is_ascii_digit() && ones.is_ascii_digit() {
        Some((tens - b'0') * 10 + (ones - b'0'))
    } else {
        None
    }
}

/// The day number of a date, if the calendar has it.
fn civil_day(year: u16, month: u8, day: u8) -> Option<i32>
    requires year { year < 10000 }
    requires month { month < 100 }
    requires day { day < 100 }
    ensures number { IfSome result (λ n. IsCivilDate (pos year) month day
        × (n ≡ days_from_civil (pos year) month day)) }
    ensures none { IfNone result (¬ IsCivilDate (pos year) month day) }
{
    match Date::new(year as i16, month as i8, day as i8) {
        Ok(date) => Some(day_of(date)),
        Err(_) => None,
    }
}

/// The days from 1970-01-01 to a date.
fn day_of(date: Date) -> i32
    ensures { result ≡ epoch_day date }
{
    (date.duration_since(epoch()).as_hours() / 24) as i32
}

/// Day 0.
fn epoch() -> Date
    ensures { epoch_day result ≡ pos 0 }
{
    date(1970, 1, 1)
}

/// The first day of the years that a text of a date can name, 0001-01-01.
const FIRST_PRINTED_DAY: i32 = -719_162;

/// The last one, 9999-12-31.
const LAST_PRINTED_DAY: i32 = 2_932_896;

/// Whether a day prints as its date, which lies in the years 0001 to 9999. Any other day prints as
/// its number, and no text of a date names it.
pub fn is_printed_day(day: i32) -> bool
    ensures test { result ≡ is_printed_day day }
    ensures day { IsTrue result ↔ IsPrintedDay day }
{
    (FIRST_PRINTED_DAY..=LAST_PRINTED_DAY).contains(&day)
}

/// The date of a day as `YYYY-MM-DD`.
pub(crate) fn day_bytes(day: i32) -> [u8; 10]
    requires { IsPrintedDay day }
    ensures { result ≡ day_text day }
{
    date_bytes(date_of(day))
}

fn date_of(day: i32) -> Date
    requires { IsPrintedDay day }
    ensures { epoch_day result ≡ day }
{
    match epoch().checked_add((day as i64).days()) {
        Ok(date) => date,
        Err(_) => unreachable!(),
    }
}

/// A date of a year that isn't negative as `YYYY-MM-DD`.
fn date_bytes(date: Date) -> [u8; 10]
    requires { pos 0 ≤ℤ date.year }
    ensures { result ≡ date_text (unsigned_abs date.year) date.month date.day }
{
    written(date.year() as u16, date.month() as u8, date.day() as u8)
}

/// A year, a month and a day as `YYYY-MM-DD`.
fn written(year: u16, month: u8, day: u8) -> [u8; 10]
    requires year { year < 10000 }
    requires month { month < 100 }
    requires day { day < 100 }
    ensures { result ≡ date_text year month day }
{
    let century = digits((year / 100) as u8);
    let year = digits((year % 100) as u8);
    let month = digits(month);
    let day = digits(day);
    [
        century[0], century[1], year[0], year[1], b'-', month[0], month[1], b'-', day[0], day[1],
    ]
}

/// The two digits of a number.
fn digits(number: u8) -> [u8; 2]
    requires { number < 100 }
    ensures { result ≡ two_digits number }
{
    [b'0' + number / 10, b'0' + number % 10]
}

/// A law, with nothing to run: a day of the years 0001 to 9999 is read as it was printed, and a
/// text that is read as a day is printed again as it was.
pub fn days_read_as_printed()
    ensures date { (year month day : ℕ) → IsPrintedDate year month day
        → day_text (days_from_civil (pos year) month day) ≡ date_text year month day }
    ensures printed { (n : ℤ) → IsPrintedDay n → IsDayText (day_text n) }
    ensures read { (n : ℤ) → IsPrintedDay n → day_in (day_text n) ≡ n }
    ensures again { (text : List ℕ) → IsDayText text → day_text (day_in text) ≡ text }
{}
