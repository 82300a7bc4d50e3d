//! Numbers and facts of a minute, with the minute until which they stay.
ghost use Rattle.std.specs.Prelude.{◌≡◌, ◌+◌, ◌<◌, ◌^◌, min};
ghost use Rattle.desk_base.specs.rules.Limits.{end_of_minutes};

use desk_base::limits::END_OF_MINUTES;
use desk_base::nearer;

/// A number, and the minute before which it stays the same.
#[derive(Clone, Copy, Debug)]
pub struct Steady {
    pub value: u128,
    pub until: u32,
}

/// Whether something holds, and the minute before which that stays so.
#[derive(Clone, Copy, Debug)]
pub struct Held {
    pub holds: bool,
    pub until: u32,
}

/// Room, where `None` is room without bound, and the minute before which it stays the same.
#[derive(Clone, Copy, Debug)]
pub struct Room {
    pub bound: Option<u128>,
    pub until: u32,
}

/// A number that stays until the horizon ends.
pub fn always(value: u128) -> Steady
    ensures value { result.value ≡ value }
    ensures until { result.until ≡ end_of_minutes }
{
    Steady {
        value,
        until: END_OF_MINUTES,
    }
}

/// Two numbers together.
pub fn together(a: Steady, b: Steady) -> Steady
    requires a { a.value < 2 ^ 127 }
    requires b { b.value < 2 ^ 127 }
    ensures value { result.value ≡ a.value + b.value }
    ensures until { result.until ≡ min a.until b.until }
{
    Steady {
        value: a.value + b.value,
        until: a.until.min(b.until),
    }
}
