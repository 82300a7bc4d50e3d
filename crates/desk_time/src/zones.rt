//! The local time of a zone.
ghost use Rattle.std.specs.Prelude.{◌≡◌, ◌-◌, ◌<◌, ◌≤◌, IsTrue, length, slice_get};
ghost use Rattle.jiff_core.specs.Calendar.{IsWithin};
ghost use Rattle.desk_time.specs.Limits.{IsMinute, IsDay, minutes_a_day};
ghost use Rattle.desk_time.specs.Clocks.{last_shift, offset_at, local_time};
ghost use Rattle.desk_time.specs.Zones.{are_shifts};

use crate::clocks::Local;
use crate::horizon::MINUTES_A_DAY;

// How many of the shifts have begun by a minute.
fn begun(shifts: &[(u32, i32)], minute: u32) -> usize
    requires zone { IsTrue (are_shifts shifts.now) }
    requires minute { IsMinute minute }
    ensures some { 1 ≤ result }
    ensures no_more { result ≤ length shifts.now }
    ensures last { last_shift shifts.now minute ≡ slice_get shifts.now (result - 1) }
{
    shifts.partition_point(|shift| shift.0 <= minute)
}

fn offset_at(shifts: &[(u32, i32)], minute: u32) -> i32
    requires zone { IsTrue (are_shifts shifts.now) }
    requires minute { IsMinute minute }
    ensures value { result ≡ offset_at shifts.now minute }
    ensures a_day_at_most { IsWithin minutes_a_day result }
{
    shifts[begun(shifts, minute) - 1].1
}

/// What the clocks of a zone show at a minute of the horizon.
///
/// A shift is the minute from which it holds and by how many minutes clocks are then ahead of UTC. A zone has 1 to 256,
/// the first from 2000-01-01T00:00Z, strictly rising, none after 2100-01-01T00:00Z, each by a day at most.
pub fn local(shifts: &[(u32, i32)], minute: u32) -> Local
    requires zone { IsTrue (are_shifts shifts.now) }
    requires minute { IsMinute minute }
    ensures time { result ≡ local_time shifts.now minute }
    ensures shown_day { IsDay result.day }
    ensures in_day { result.minute < minutes_a_day }
{
    let shown = (i64::from(minute) + i64::from(offset_at(shifts, minute))) as u32;
    Local {
        day: shown / MINUTES_A_DAY,
        minute: (shown % MINUTES_A_DAY) as u16,
    }
}
