//! Starts in whole steps of a group.
ghost use Rattle.std.specs.Prelude.{◌≡◌, ℕ, ◌+◌, ◌≤◌};
ghost use Rattle.desk_base.specs.rules.Limits.{end_of_minutes};
ghost use Rattle.desk_feasible.specs.Grid.{IsInSteps};

use desk_base::GroupRow;

/// The least minute in whole steps from the group's start on that is not before another.
pub fn next_in_steps(group: &GroupRow, minute: u32) -> u32
    requires step { 1 ≤ group.now.step }
    requires small { minute ≤ end_of_minutes }
    ensures steps { IsInSteps group.now result }
    ensures low { minute ≤ result }
    ensures near { result ≤ end_of_minutes + group.now.step }
    ensures least { (s : ℕ) → minute ≤ s → IsInSteps group.now s → result ≤ s }
{
    let from = group.from.get();
    if minute <= from {
        return from;
    }
    let step = u32::from(group.step);
    let rest = (minute - from) % step;
    if rest == 0 {
        minute
    } else {
        minute + (step - rest)
    }
}
