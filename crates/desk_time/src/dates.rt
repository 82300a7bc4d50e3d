//! Dates by their day numbers, and weekdays.
ghost use Rattle.std.specs.Prelude.{◌≡◌, ◌<◌, pos, MatchOption, IsAscii};
ghost use Rattle.jiff_core.specs.Calendar.{IsCivilDate};
ghost use Rattle.jiff_core.specs.Date.{epoch_day, IsYmd};
ghost use Rattle.desk_time.specs.Limits.{IsDay};
ghost use Rattle.desk_time.specs.Reads.{Reads};
ghost use Rattle.desk_time.specs.Dates.{IsDateOf, IsDateText, date_text, year_of, month_of, day_of_month, weekday_of};

use crate::digits::{four_digits, read_four, read_two, two_digits};
use crate::horizon::{FIRST_DAY, LAST_DAY};
use jiff_core::civil::Date;

fn date_with(year: u16, month: u8, month_day: u8) -> Option<Date>
    requires year { year < 10000 }
    requires month { month < 100 }
    requires month_day { month_day < 100 }
    ensures { MatchOption result (¬ (IsCivilDate (pos year) month month_day)) (IsYmd (pos year) (pos month) (pos month_day)) }
{
    Date::new(year as i16, month as i8, month_day as i8).ok()
}

// The number of a day that clocks can show.
fn day_shown(day: i32) -> Option<u32>
    ensures { Reads (λ n. (day ≡ pos n) × IsDay n) result }
{
    let day = u32::try_from(day).ok()?;
    if FIRST_DAY <= day && day <= LAST_DAY {
        Some(day)
    } else {
        None
    }
}

fn day_of(year: u16, month: u8, month_day: u8) -> Option<u32>
    requires year { year < 10000 }
    requires month { month < 100 }
    requires month_day { month_day < 100 }
    ensures { Reads (IsDateOf year month month_day) result }
{
    let date = date_with(year, month, month_day)?;
    day_shown(date.to_unix_epoch_day())
}

/// The day, counted from 1970-01-01, that the ten bytes `YYYY-MM-DD` name (ISO 8601).
///
/// `None` exactly where they are no date from 1999-12-31 to 2100-01-01, written so.
pub fn read_date(text: &[u8]) -> Option<u32>
    ensures { Reads (IsDateText text.now) result }
{
    match text {
        [a, b, c, d, b'-', e, f, b'-', g, h] => {
            let year = read_four(*a, *b, *c, *d)?;
            let month = read_two(*e, *f)?;
            let month_day = read_two(*g, *h)?;
            day_of(year, month, month_day)
        }
        _ => None,
    }
}

fn date_on(day: u32) -> Date
    requires { IsDay day }
    ensures { epoch_day result ≡ pos day }
{
    Date::from_unix_epoch_day(i64::from(day)).unwrap()
}

fn date_of(day: u32) -> Date
    requires { IsDay day }
    ensures year { result.year ≡ pos (year_of day) }
    ensures month { result.month ≡ month_of day }
    ensures month_day { result.day ≡ day_of_month day }
{
    date_on(day)
}

/// The ten bytes `YYYY-MM-DD` of a day, counted from 1970-01-01 (ISO 8601): the one text that reads as it.
pub fn date_text(day: u32) -> [u8; 10]
    requires { IsDay day }
    ensures text { result ≡ date_text day }
    ensures reads { IsDateText result day }
    ensures ascii { IsAscii result }
{
    let date = date_of(day);
    let [a, b, c, d] = four_digits(date.year as u16);
    let [e, f] = two_digits(date.month);
    let [g, h] = two_digits(date.day);
    [a, b, c, d, b'-', e, f, b'-', g, h]
}

/// The weekday of a day, counted from 1970-01-01: from 0 for Monday to 6 for Sunday.
pub fn weekday(day: u32) -> u8
    requires { IsDay day }
    ensures { result ≡ weekday_of day }
{
    ((day + 3) % 7) as u8
}
