//! Starts in a run.
ghost use Rattle.std.specs.Prelude.{◌≡◌, ◌<◌, ◌≤◌, ◌^◌, ℕ};
ghost use Rattle.desk_load.specs.Starts.{IsAmong};

/// The starts from `first` on, `step` minutes from each to the next, up to `last`, which need not be one.
#[derive(Clone, Copy, Debug)]
pub struct Starts {
    pub first: u32,
    pub last: u32,
    pub step: u32,
}

/// The least of the starts from one of them on that is not before a later minute, if no last one ended them.
pub(crate) fn start_from(among: &Starts, start: u32, minute: u32) -> u32
    requires start { IsAmong among.now start }
    requires later { start < minute }
    requires step { 1 ≤ among.now.step }
    requires small { among.now.step ≤ 2 ^ 20 }
    requires end { minute ≤ 2 ^ 30 }
    ensures start { IsAmong among.now result }
    ensures later { start < result }
    ensures small { result ≤ 2 ^ 31 }
    ensures least { (s : ℕ) → IsAmong among.now s → start ≤ s → s < result → s < minute }
{
    let steps = (minute - start + among.step - 1) / among.step;
    start + steps * among.step
}
