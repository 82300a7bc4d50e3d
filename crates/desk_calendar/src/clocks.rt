//! What clocks show, and until when they only go on.
ghost use Rattle.std.specs.Prelude.{◌≡◌, ◌<◌, ◌≤◌, ◌^◌, ◌+ℤ◌, pos, nat_le, if◌then◌else◌};
ghost use Rattle.desk_base.specs.meaning.Capacity.{shifts_of};
ghost use Rattle.desk_base.specs.rules.Limits.{end_of_minutes};
ghost use Rattle.desk_base.specs.rows.Lookups.{KeysRise};
ghost use Rattle.desk_base.specs.meaning.Time.{clock_minute, minute_of};
ghost use Rattle.desk_calendar.specs.Clocks.{GoesOn};

use desk_base::limits::{END_OF_MINUTES, MINUTES_A_DAY};
use desk_base::{CalendarId, Tables, nearer};

/// Minutes of a day, as what clocks show is counted.
pub const A_DAY: u64 = MINUTES_A_DAY as u64;

/// What clocks show, in minutes since they showed 1970-01-01T00:00, and the minute before which they are not set.
#[derive(Clone, Copy, Debug)]
pub struct Clock {
    pub shown: u64,
    pub until: u32,
}

/// By how many minutes clocks are ahead of UTC, with one shift more.
fn begun(offset: i32, shift: (u32, i32), minute: u32) -> i32
    ensures { result ≡ (if nat_le shift.0 minute then shift.1 else offset) }
{
    if shift.0 <= minute { shift.1 } else { offset }
}

/// What clocks show that are so many minutes ahead of UTC.
fn by_offset(minute: u32, offset: i32) -> u64
    ensures value { result ≡ minute_of (pos minute +ℤ offset) }
    ensures small { result < 2 ^ 34 }
{
    let local = i64::from(minute) + i64::from(offset);
    if local < 0 { 0 } else { local as u64 }
}

/// What clocks of a zone with these shifts show. Each shift is looked at: a zone has 256 at most.
fn by_shifts(shifts: &[(u32, i32)], minute: u32) -> Clock
    requires { minute < end_of_minutes }
    ensures small { result.shown < 2 ^ 34 }
    ensures shown { result.shown ≡ clock_minute shifts.now minute }
    ensures later { minute < result.until }
    ensures until { result.until ≤ end_of_minutes }
    ensures on { GoesOn shifts.now minute result.until }
{
    let mut offset = 0;
    let mut until = END_OF_MINUTES;
    for shift in shifts {
        offset = begun(offset, *shift, minute);
        until = nearer(minute, until, shift.0);
    }
    Clock {
        shown: by_offset(minute, offset),
        until,
    }
}

/// What clocks of the calendar's zone show.
pub fn clock_at(tables: &Tables, calendar: CalendarId, minute: u32) -> Clock
    requires rise { KeysRise tables.now }
    requires inside { minute < end_of_minutes }
    ensures small { result.shown < 2 ^ 34 }
    ensures shown { result.shown ≡ clock_minute (shifts_of tables.now calendar) minute }
    ensures later { minute < result.until }
    ensures until { result.until ≤ end_of_minutes }
    ensures on { GoesOn (shifts_of tables.now calendar) minute result.until }
{
    match tables.zone_of(calendar) {
        Some(zone) => by_shifts(zone.shifts.as_slice(), minute),
        None => by_shifts(&[], minute),
    }
}
