//! The capacity of a plain resource, and until when it stays.
ghost use Rattle.std.specs.Prelude.{◌≡◌, ◌<◌, ◌≤◌, ◌^◌, ℕ};
ghost use Rattle.desk_base.specs.meaning.Capacity.{capacity, calendar_of};
ghost use Rattle.desk_base.specs.rules.Limits.{end_of_minutes};
ghost use Rattle.desk_base.specs.rows.Lookups.{KeysRise};
ghost use Rattle.desk_calendar.specs.Locals.{calendar_at};

use crate::clocks::{A_DAY, Clock, clock_at};
use crate::locals::local_at;
use crate::offs::off_at;
use desk_base::limits::END_OF_MINUTES;
use desk_base::{CalendarId, ResourceId, Tables};

/// A capacity, and the minute before which it stays the same.
#[derive(Clone, Copy, Debug)]
pub struct Steady {
    pub capacity: u32,
    pub until: u32,
}

/// What the calendar gives, whoever has it.
fn calendar_at(tables: &Tables, calendar: CalendarId, minute: u32) -> Steady
    requires rise { KeysRise tables.now }
    requires inside { minute < end_of_minutes }
    ensures small { result.capacity < 2 ^ 16 }
    ensures capacity { result.capacity ≡ calendar_at tables.now calendar minute }
    ensures later { minute < result.until }
    ensures until { result.until ≤ end_of_minutes }
    ensures steady { (k : ℕ) → minute ≤ k → k < result.until → calendar_at tables.now calendar k ≡ result.capacity }
{
    let Clock { shown, until } = clock_at(tables, calendar, minute);
    let local = local_at(tables, calendar, shown);
    let left = local.until - (shown % A_DAY) as u32;
    Steady {
        capacity: local.capacity,
        until: until.min(minute + left),
    }
}

/// The capacity of the resource at the minute, and until when it stays.
#[tactic(auto, unfolding(desk_base::specs::meaning::Capacity::capacity))]
pub fn steady_at(tables: &Tables, resource: ResourceId, minute: u32) -> Steady
    requires rise { KeysRise tables.now }
    requires inside { minute < end_of_minutes }
    ensures small { result.capacity < 2 ^ 16 }
    ensures capacity { result.capacity ≡ capacity tables.now resource minute }
    ensures later { minute < result.until }
    ensures until { result.until ≤ end_of_minutes }
    ensures steady { (k : ℕ) → minute ≤ k → k < result.until → capacity tables.now resource k ≡ capacity tables.now resource minute }
{
    let off = off_at(tables, resource, minute);
    if off.is_off {
        return Steady {
            capacity: 0,
            until: off.until,
        };
    }
    match calendar_of(tables, resource) {
        Some(calendar) => {
            let given = calendar_at(tables, calendar, minute);
            Steady {
                capacity: given.capacity,
                until: off.until.min(given.until),
            }
        }
        None => Steady {
            capacity: 0,
            until: END_OF_MINUTES,
        },
    }
}

/// The calendar of the resource, if it has one.
fn calendar_of(tables: &Tables, resource: ResourceId) -> Option<CalendarId>
    requires { KeysRise tables.now }
    ensures { result ≡ calendar_of tables.now resource }
{
    match tables.resource(resource) {
        Some(row) => row.calendar,
        None => None,
    }
}

/// The capacity of the resource at the minute.
pub fn capacity_at(tables: &Tables, resource: ResourceId, minute: u32) -> u32
    requires rise { KeysRise tables.now }
    requires inside { minute < end_of_minutes }
    ensures small { result < 2 ^ 16 }
    ensures value { result ≡ capacity tables.now resource minute }
{
    steady_at(tables, resource, minute).capacity
}
