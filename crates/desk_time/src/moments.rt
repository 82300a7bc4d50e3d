//! The text of a moment.
ghost use Rattle.std.specs.Prelude.{◌≡◌, ◌+◌, ◌*◌, ◌<◌, ◌≤◌, ◌∷◌, [], IsAscii};
ghost use Rattle.desk_time.specs.Limits.{minutes_a_day, last_day, IsMoment};
ghost use Rattle.desk_time.specs.Reads.{Reads};
ghost use Rattle.desk_time.specs.Moments.{IsClockText, IsMomentText, clock_text, moment_text};

use crate::dates::{date_text, read_date};
use crate::digits::{read_two, two_digits};
use crate::horizon::{END_OF_MINUTES, FIRST_MINUTE, MINUTES_A_DAY};

// The minute of the day of `HH:MM`, by the digits.
fn read_clock(hour: (u8, u8), minute: (u8, u8)) -> Option<u32>
    ensures { Reads (IsClockText (hour.0 ∷ hour.1 ∷ 58 ∷ minute.0 ∷ minute.1 ∷ [])) result }
{
    let hour = read_two(hour.0, hour.1)?;
    let minute = read_two(minute.0, minute.1)?;
    if hour < 24 && minute < 60 {
        Some(u32::from(hour) * 60 + u32::from(minute))
    } else {
        None
    }
}

// The minute of a day, where it lies in the horizon or is its end.
fn moment_at(day: u32, minute: u32) -> Option<u32>
    requires day { day ≤ last_day }
    requires minute { minute < minutes_a_day }
    ensures { Reads (λ m. (m ≡ day * minutes_a_day + minute) × IsMoment m) result }
{
    let moment = day * MINUTES_A_DAY + minute;
    if FIRST_MINUTE <= moment && moment <= END_OF_MINUTES {
        Some(moment)
    } else {
        None
    }
}

/// The minute since 1970-01-01T00:00Z that the 17 bytes `YYYY-MM-DDTHH:MMZ` name (ISO 8601, in UTC).
///
/// `None` exactly where they are no moment from 2000-01-01T00:00Z to 2100-01-01T00:00Z, both included, written so.
pub fn read_moment(text: &[u8]) -> Option<u32>
    ensures { Reads (IsMomentText text.now) result }
{
    match text {
        [date @ .., b'T', a, b, b':', c, d, b'Z'] => {
            let day = read_date(date)?;
            let minute = read_clock((*a, *b), (*c, *d))?;
            moment_at(day, minute)
        }
        _ => None,
    }
}

fn clock_text(minute: u32) -> [u8; 5]
    requires { minute < minutes_a_day }
    ensures text { result ≡ clock_text minute }
    ensures ascii { IsAscii result }
{
    let [a, b] = two_digits((minute / 60) as u8);
    let [c, d] = two_digits((minute % 60) as u8);
    [a, b, b':', c, d]
}

/// The 17 bytes `YYYY-MM-DDTHH:MMZ` of a moment (ISO 8601, in UTC): the one text that reads as it.
pub fn moment_text(minute: u32) -> [u8; 17]
    requires { IsMoment minute }
    ensures text { result ≡ moment_text minute }
    ensures reads { IsMomentText result minute }
    ensures ascii { IsAscii result }
{
    let [a, b, c, d, e, f, g, h, i, j] = date_text(minute / MINUTES_A_DAY);
    let [k, l, m, n, o] = clock_text(minute % MINUTES_A_DAY);
    [a, b, c, d, e, f, g, h, i, j, b'T', k, l, m, n, o, b'Z']
}
