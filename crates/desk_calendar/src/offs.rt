//! Times off of a resource.
ghost use Rattle.std.specs.Prelude.{◌≡◌, ◌<◌, ◌≤◌, ◌==◌, ◌&&◌, ℕ};
ghost use Rattle.std.specs.List.{list_any};
ghost use Rattle.desk_base.specs.rules.Limits.{end_of_minutes};
ghost use Rattle.desk_base.specs.rows.Lookups.{KeysRise};
ghost use Rattle.desk_calendar.specs.Offs.{is_off};

use desk_base::limits::END_OF_MINUTES;
use desk_base::{ResourceId, Tables, covering, next_bound};

/// Whether a resource is off, and the minute before which it stays so.
#[derive(Clone, Copy, Debug)]
pub struct Off {
    pub is_off: bool,
    pub until: u32,
}

/// Whether the resource is off at the minute.
pub fn off_at(tables: &Tables, resource: ResourceId, minute: u32) -> Off
    requires rise { KeysRise tables.now }
    requires inside { minute < end_of_minutes }
    ensures off { result.is_off ≡ is_off tables.now resource minute }
    ensures later { minute < result.until }
    ensures until { result.until ≤ end_of_minutes }
    ensures steady { (k : ℕ) → minute ≤ k → k < result.until → is_off tables.now resource k ≡ result.is_off }
{
    let offs = tables.offs_of(resource);
    match covering(offs, minute) {
        Some(off) => Off {
            is_off: true,
            until: off.to.get(),
        },
        None => Off {
            is_off: false,
            until: next_bound(offs, minute, END_OF_MINUTES),
        },
    }
}
