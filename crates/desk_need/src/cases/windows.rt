//! The rule of windows.
ghost use Rattle.std.specs.Prelude.{◌≡◌, true};
ghost use Rattle.std.specs.Option.{option_map_or};
ghost use Rattle.desk_base.specs.meaning.Eligible.{is_in_windows};
ghost use Rattle.desk_base.specs.meaning.Time.{is_inside};

use crate::same::begin_of;
use desk_base::{GroupRow, Leaf};

/// Whether the leaf's own window, if it has one, holds the time from one minute to another.
fn is_in_own_window(leaf: &Leaf, from: u64, to: u64) -> bool
    ensures { result ≡ option_map_or (is_inside (record { from = from; to = to })) leaf.now.window true }
{
    match leaf.window {
        Some(w) => u64::from(w.from.get()) <= from && to <= u64::from(w.to.get()),
        None => true,
    }
}

/// Whether the leaf's time lies inside the group's window and inside its own, where its group starts at this minute.
pub fn is_in_windows(group: &GroupRow, leaf: &Leaf, start: u32) -> bool
    ensures { result ≡ is_in_windows group.now leaf.now start }
{
    let from = begin_of(leaf, start);
    let to = from + u64::from(leaf.duration);
    u64::from(group.from.get()) <= from
        && to <= u64::from(group.to.get())
        && is_in_own_window(leaf, from, to)
}
