//! Which starts keep the rule of windows: a run of minutes, that is never written out.
ghost use Rattle.std.specs.Prelude.{◌≡◌, true, min, max};
ghost use Rattle.desk_base.specs.meaning.Eligible.{is_in_windows};
ghost use Rattle.desk_need.specs.Starts.{AreStarts, IsIn, LiesInside, LiesInOwn};

use desk_base::{GroupRow, Leaf};

/// The starts from the first minute on up to the last, both of them included. The first is not after the last.
#[derive(Clone, Copy, Debug, PartialEq, Eq)]
pub struct StartRun {
    pub first: u32,
    pub last: u32,
}

/// The starts from which the leaf lies between two minutes.
fn starts_inside(leaf: &Leaf, from: u32, to: u32) -> Option<StartRun>
    ensures { AreStarts (λ s. LiesInside leaf.now from to s) result }
{
    let taken = u64::from(leaf.offset) + u64::from(leaf.duration);
    let end = u64::from(to);
    if end < taken {
        return None;
    }
    let first = from.saturating_sub(leaf.offset);
    let last = (end - taken) as u32;
    if first <= last {
        Some(StartRun { first, last })
    } else {
        None
    }
}

fn later(a: u32, b: u32) -> u32
    ensures { result ≡ max a b }
{
    if a < b { b } else { a }
}

fn earlier(a: u32, b: u32) -> u32
    ensures { result ≡ min a b }
{
    if a < b { a } else { b }
}

/// The starts that are in both runs.
fn in_both(a: StartRun, b: StartRun) -> Option<StartRun>
    ensures { AreStarts (λ s. IsIn a s × IsIn b s) result }
{
    let first = later(a.first, b.first);
    let last = earlier(a.last, b.last);
    if first <= last {
        Some(StartRun { first, last })
    } else {
        None
    }
}

/// The starts from which the leaf lies inside its own window, where it has one, of those in a run.
fn in_own_window(leaf: &Leaf, run: StartRun) -> Option<StartRun>
    ensures { AreStarts (λ s. IsIn run s × LiesInOwn leaf.now s) result }
{
    match leaf.window {
        None => Some(run),
        Some(window) => match starts_inside(leaf, window.from.get(), window.to.get()) {
            None => None,
            Some(own) => in_both(run, own),
        },
    }
}

/// The starts from which the leaf keeps the rule of windows: it lies inside the group's window, and inside its own where it has
/// one. `None` where there is none.
pub fn window_starts(group: &GroupRow, leaf: &Leaf) -> Option<StartRun>
    ensures { AreStarts (λ s. is_in_windows group.now leaf.now s ≡ true) result }
{
    match starts_inside(leaf, group.from.get(), group.to.get()) {
        None => None,
        Some(run) => in_own_window(leaf, run),
    }
}
