//! The capacity of a plain resource over a window.
ghost use Rattle.std.specs.Prelude.{◌≡◌, ◌<◌, ◌≤◌, pos, IfOk};
ghost use Rattle.desk_base.specs.meaning.Capacity.{capacity};
ghost use Rattle.desk_base.specs.rules.Limits.{end_of_minutes};
ghost use Rattle.desk_base.specs.rows.Lookups.{KeysRise};
ghost use Rattle.desk_spans.specs.Minutes.{EachMinute};
ghost use Rattle.desk_spans.specs.Timeline.{end_of, value_at};

use crate::steady::steady_at;
use desk_base::{NoMemory, ResourceId, Tables, Window};
use desk_spans::Profile;
use std::alloc::Global;

/// At each minute of the window the capacity of the resource.
pub fn capacity_profile(
    alloc: Global,
    tables: &Tables,
    resource: ResourceId,
    window: Window,
) -> Result<Profile, NoMemory>
    requires rise { KeysRise tables.now }
    requires window { window.from < window.to }
    ensures window_from { IfOk result (λ p. p.from ≡ window.from) }
    ensures window_end { IfOk result (λ p. end_of p ≡ window.to) }
    ensures values { IfOk result (λ p. EachMinute window.from window.to (λ m. value_at p m ≡ pos (capacity tables.now resource m))) }
{
    let from = window.from.get();
    let to = window.to.get();
    let Ok(mut profile) = Profile::begun_at(alloc, from, 0) else {
        return Err(NoMemory);
    };
    let mut minute = from;
    while minute < to {
        let steady = steady_at(tables, resource, minute);
        let until = steady.until.min(to);
        let Ok(()) = profile.lay(until, i64::from(steady.capacity)) else {
            return Err(NoMemory);
        };
        minute = until;
    }
    Ok(profile)
}
