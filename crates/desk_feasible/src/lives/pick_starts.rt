//! The starts at which a first pick keeps grid and part-of-same.
ghost use Rattle.std.specs.Prelude.{◌≡◌, ◌∷◌, [], ◌↔◌, true, None};
ghost use Rattle.desk_base.specs.meaning.Picks.{first_broken_same};
ghost use Rattle.desk_feasible.specs.Live.{IsPickStart};
ghost use Rattle.desk_load.specs.Starts.{IsNextOf};

use crate::lives::steps::next_in_steps;
use desk_base::{Minute, ResourceId};
use desk_load::StartList;
use desk_need::{Case, StartRun};
use std::marker::Model;

/// The starts of a run at which a first pick keeps grid and part-of-same, as the minutes at which its leaf begins. The run ends
/// before the group's window does.
#[derive(Drop)]
pub struct PickStarts<'a> {
    pub case: &'a Case<'a>,
    pub pick: Option<ResourceId>,
    pub offset: u32,
    pub run: StartRun,
}

impl<'a> Model for PickStarts<'a> {
    ghost use Rattle.std.specs.Prelude.{ℕ, ◌<◌, ◌≤◌, ◌+◌};
    ghost use Rattle.desk_base.specs.rules.Limits.{end_of_minutes};
    ghost use Rattle.desk_feasible.specs.Live.{IsReady, PickRun};

    ghost Value = { PickRun };

    ghost view = { λ x. record { asked = x.case.now; pick = x.pick; offset = x.offset; first = x.run.first; last = x.run.last } };

    ghost invariant = { λ x. IsReady x.case.now × (x.run.last < x.case.now.group.to) × ((s : ℕ) → x.run.first ≤ s → s ≤ x.run.last → s + x.offset ≤ end_of_minutes) };
}

impl<'a> PickStarts<'a> {
    /// Whether the pick keeps part-of-same from a minute on.
    fn keeps_same(&self, minute: Minute) -> bool
        ensures { result ≡ true ↔ first_broken_same self.now.asked.tables minute self.now.asked.group.nodes self.now.asked.group.leaves (self.now.pick ∷ []) ≡ None }
    {
        self.case.same_ok(minute, &[self.pick]).is_ok()
    }

    /// The least of these starts that is not before a minute.
    pub fn next_start(&self, from: u32) -> Option<u32>
        ensures { IsNextOf (IsPickStart self.now) from result }
    {
        let low = from.max(self.run.first);
        if self.run.last < low {
            return None;
        }
        let group = self.case.group();
        // Read so that their ranges are known.
        let _window = (group.from.get(), group.to.get());
        let mut start = next_in_steps(group, low);
        while start <= self.run.last {
            if self.keeps_same(Minute::of(start).unwrap()) {
                return Some(start);
            }
            start += u32::from(group.step);
        }
        None
    }
}

impl<'a> StartList for PickStarts<'a> {
    ghost use Rattle.desk_feasible.specs.Live.{BeginsAt};

    ghost has = { λ x. BeginsAt x };

    fn next(&self, minute: u32) -> Option<u32> {
        // Read so that its range is known.
        let _end = self.case.group().to.get();
        match self.next_start(minute.saturating_sub(self.offset)) {
            Some(start) => Some(start + self.offset),
            None => None,
        }
    }
}
