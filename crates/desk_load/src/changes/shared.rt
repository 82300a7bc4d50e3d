//! The weight of a resource, with that of another added for some time or taken away.
ghost use Rattle.std.specs.Prelude.{◌≡◌, ◌<◌, ◌≤◌, pos, ◌+ℤ◌, IfOk, IfSome, if◌then◌else◌};
ghost use Rattle.desk_base.specs.meaning.Time.{covers};
ghost use Rattle.desk_base.specs.rules.Limits.{first_minute, end_of_minutes};
ghost use Rattle.desk_spans.specs.Minutes.{EachMinute};
ghost use Rattle.desk_spans.specs.Timeline.{end_of, value_at};
ghost use Rattle.desk_load.specs.Links.{signed};

use crate::changes::turns::Turn;
use desk_base::limits::{END_OF_MINUTES, FIRST_MINUTE};
use desk_base::{Minute, NoMemory};
use desk_spans::Profile;
use std::alloc::Global;

/// A value, and the minute before which it stays the same.
#[derive(Clone, Copy)]
struct Level {
    value: i64,
    until: u32,
}

/// What a profile has at a minute within a time; 0 outside of it.
fn level_within(source: &Profile, from: Minute, to: Minute, minute: u32) -> Level
    requires begin { source.now.from ≡ first_minute }
    requires end { end_of source.now ≡ end_of_minutes }
    requires first { first_minute ≤ minute }
    requires last { minute < end_of_minutes }
    ensures later { minute < result.until }
    ensures inside { result.until ≤ end_of_minutes }
    ensures values { EachMinute minute result.until (λ m. (if covers from to m then value_at source.now m else pos 0) ≡ result.value) }
{
    if minute < from.get() {
        return Level {
            value: 0,
            until: from.get(),
        };
    }
    if to.get() <= minute {
        return Level {
            value: 0,
            until: END_OF_MINUTES,
        };
    }
    let stretch = source.stretch_at(minute);
    Level {
        value: stretch.value,
        until: stretch.end.min(to.get()),
    }
}

/// A value with one that comes or goes; `None` where 64 bits do not hold it.
fn combined(turn: Turn, value: i64, more: i64) -> Option<i64>
    ensures { IfSome result (λ v. v ≡ value +ℤ signed turn more) }
{
    match turn {
        Turn::Comes => value.checked_add(more),
        Turn::Goes => value.checked_sub(more),
    }
}

/// A profile of the horizon, to which another is added for some time, or from which it is taken away. It goes once over the
/// stretches of both.
pub(crate) fn shared(
    alloc: Global,
    turn: Turn,
    target: &Profile,
    source: &Profile,
    from: Minute,
    to: Minute,
) -> Result<Profile, NoMemory>
    requires target_begin { target.now.from ≡ first_minute }
    requires target_end { end_of target.now ≡ end_of_minutes }
    requires source_begin { source.now.from ≡ first_minute }
    requires source_end { end_of source.now ≡ end_of_minutes }
    ensures begin { IfOk result (λ p. p.from ≡ first_minute) }
    ensures end { IfOk result (λ p. end_of p ≡ end_of_minutes) }
    ensures values { IfOk result (λ p. EachMinute first_minute end_of_minutes (λ m. value_at p m ≡ value_at target.now m +ℤ signed turn (if covers from to m then value_at source.now m else pos 0))) }
{
    let Ok(mut profile) = Profile::begun_at(alloc, FIRST_MINUTE, 0) else {
        return Err(NoMemory);
    };
    let mut minute = FIRST_MINUTE;
    while minute < END_OF_MINUTES {
        let stretch = target.stretch_at(minute);
        let level = level_within(source, from, to, minute);
        let Some(value) = combined(turn, stretch.value, level.value) else {
            return Err(NoMemory);
        };
        let until = stretch.end.min(level.until);
        let Ok(()) = profile.lay(until, value) else {
            return Err(NoMemory);
        };
        minute = until;
    }
    Ok(profile)
}
