//! What a calendar gives at a minute of one local day, and until when on that day.
ghost use Rattle.std.specs.Prelude.{◌≡◌, ◌<◌, ◌≤◌, ◌^◌, ◌+◌, ◌/◌, ◌%◌, ℕ, []};
ghost use Rattle.desk_base.specs.meaning.Capacity.{calendar_capacity};
ghost use Rattle.desk_base.specs.rules.Limits.{minutes_a_day};
ghost use Rattle.desk_base.specs.rows.Lookups.{KeysRise};
ghost use Rattle.desk_calendar.specs.Locals.{day_given, week_given};

use crate::clocks::A_DAY;
use desk_base::limits::MINUTES_A_DAY;
use desk_base::{BreakRow, CalendarId, DayRow, Tables, WorkRow, covering, next_bound};

/// Days of a week.
const DAYS_A_WEEK: u32 = 7;

/// The weekday of day 0, which was a Thursday; Monday is 0.
const FIRST_WEEKDAY: u32 = 3;

/// A capacity, and the minute of the local day before which it stays the same.
#[derive(Clone, Copy, Debug)]
pub struct Local {
    pub capacity: u32,
    pub until: u32,
}

/// A capacity as it is counted with.
fn amount(capacity: u16) -> u32
    ensures small { result < 2 ^ 16 }
    ensures value { result ≡ capacity }
{
    u32::from(capacity)
}

/// What the day rows of a day give.
fn of_day(days: &[DayRow], minute: u32) -> Local
    requires { minute < minutes_a_day }
    ensures small { result.capacity < 2 ^ 16 }
    ensures capacity { result.capacity ≡ day_given days.now minute }
    ensures later { minute < result.until }
    ensures until { result.until ≤ minutes_a_day }
    ensures steady { (k : ℕ) → minute ≤ k → k < result.until → day_given days.now k ≡ day_given days.now minute }
{
    let until = next_bound(days, minute, MINUTES_A_DAY);
    match covering(days, minute) {
        Some(row) => Local {
            capacity: amount(row.capacity),
            until,
        },
        None => Local { capacity: 0, until },
    }
}

/// What the work of a weekday gives.
fn of_works(works: &[WorkRow], minute: u32) -> u32
    ensures small { result < 2 ^ 16 }
    ensures value { result ≡ week_given [] works.now minute }
{
    match covering(works, minute) {
        Some(row) => amount(row.capacity),
        None => 0,
    }
}

/// What the breaks and the work of a weekday give.
fn of_week(breaks: &[BreakRow], works: &[WorkRow], minute: u32) -> Local
    requires { minute < minutes_a_day }
    ensures small { result.capacity < 2 ^ 16 }
    ensures capacity { result.capacity ≡ week_given breaks.now works.now minute }
    ensures later { minute < result.until }
    ensures until { result.until ≤ minutes_a_day }
    ensures steady { (k : ℕ) → minute ≤ k → k < result.until → week_given breaks.now works.now k ≡ week_given breaks.now works.now minute }
{
    let near = next_bound(breaks, minute, MINUTES_A_DAY);
    let until = next_bound(works, minute, near);
    match covering(breaks, minute) {
        Some(_) => Local { capacity: 0, until },
        None => Local {
            capacity: of_works(works, minute),
            until,
        },
    }
}

/// What the calendar gives when its clocks show so many minutes since they showed 1970-01-01T00:00.
pub fn local_at(tables: &Tables, calendar: CalendarId, shown: u64) -> Local
    requires rise { KeysRise tables.now }
    requires small { shown < 2 ^ 34 }
    ensures small { result.capacity < 2 ^ 16 }
    ensures capacity { result.capacity ≡ calendar_capacity tables.now calendar (record { day = shown / minutes_a_day; minute = shown % minutes_a_day }) }
    ensures later { shown % minutes_a_day < result.until }
    ensures until { result.until ≤ minutes_a_day }
    ensures steady { (k : ℕ) → shown % minutes_a_day ≤ k → k < result.until → calendar_capacity tables.now calendar (record { day = shown / minutes_a_day; minute = k }) ≡ result.capacity }
{
    let day = (shown / A_DAY) as u32;
    let minute = (shown % A_DAY) as u32;
    let days = tables.days_at(calendar, day);
    if !days.is_empty() {
        return of_day(days, minute);
    }
    let weekday = (day + FIRST_WEEKDAY) % DAYS_A_WEEK;
    of_week(
        tables.breaks_at(calendar, weekday),
        tables.works_at(calendar, weekday),
        minute,
    )
}
