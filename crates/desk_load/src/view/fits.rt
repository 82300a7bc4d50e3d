//! Where a booking first has room, among starts that are told one after another.
ghost use Rattle.std.specs.Prelude.{◌≡◌, ℕ, ◌+◌, ◌<◌, ◌≤◌, IfNone, IfSome};
ghost use Rattle.desk_base.specs.rules.Limits.{first_minute, end_of_minutes};
ghost use Rattle.desk_load.specs.Starts.{IsNextOf};
ghost use Rattle.desk_load.specs.Views.{IsFree, demand_over};

use crate::view::demand::Demand;
use crate::view::free::FreeView;
use desk_base::Steps;
use std::sync::ledger::Ledger;

/// Starts that are told one after another, and never written out.
pub trait StartList {
    ghost use Rattle.std.specs.Prelude.{ℕ};

    // the minute is one of the starts
    ghost has: { Self → ℕ → Type 0 };

    /// The least of the starts that is not before a minute; `None` where there is none.
    fn next(&self, minute: u32) -> Option<u32>
        ensures { IsNextOf (has self.now) minute result };
}

impl FreeView<'_> {
    /// The least of the starts from which on a booking of so many minutes has room. It goes on behind each stretch that is short
    /// of room. One step.
    pub fn first_fit_among<L: Ledger, S: StartList>(
        &self,
        demand: &Demand,
        duration: u32,
        starts: &S,
        steps: &mut Steps<L>,
    ) -> Option<u32>
        requires first { (s : ℕ) → S.has starts.now s → first_minute ≤ s }
        requires end { (s : ℕ) → S.has starts.now s → s + duration ≤ end_of_minutes }
        ensures none { IfNone result ((s : ℕ) → S.has starts.now s → IsFree self.now (demand_over demand.now s (s + duration)) → ⊥) }
        ensures start { IfSome result (S.has starts.now) }
        ensures free { IfSome result (λ s. IsFree self.now (demand_over demand.now s (s + duration))) }
        ensures least { IfSome result (λ s. (r : ℕ) → S.has starts.now r → r < s → IsFree self.now (demand_over demand.now r (r + duration)) → ⊥) }
        ensures step { steps.new ≡ steps.old + 1 }
    {
        steps.tick();
        let mut minute = 0;
        'fits: loop {
            let start = match starts.next(minute) {
                Some(start) => start,
                None => return None,
            };
            match self.gap_in(demand, start, start + duration) {
                None => return Some(start),
                Some(gap) => minute = gap.until,
            }
        }
    }
}
