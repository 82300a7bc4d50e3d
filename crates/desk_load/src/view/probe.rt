//! Where a booking is short of room, and where it first has room.
ghost use Rattle.std.specs.Prelude.{◌≡◌, ℕ, ◌+◌, ◌<◌, ◌≤◌, ◌^◌, IfNone, IfSome};
ghost use Rattle.desk_base.specs.rules.Limits.{first_minute, end_of_minutes};
ghost use Rattle.desk_spans.specs.Minutes.{EachMinute};
ghost use Rattle.desk_load.specs.Starts.{IsStart};
ghost use Rattle.desk_load.specs.Views.{IsProbe, IsFree, IsShortOn, HasRoomAt, demand_at, demand_over};

use crate::view::demand::{Demand, demand_of};
use crate::view::free::FreeView;
use crate::view::starts::{Starts, start_from};
use desk_base::{Ask, Minute, ResourceId, Steps};
use std::sync::ledger::Ledger;

/// What a probe tells: the booking is free, or the first of its minutes at which it has no room, and there the least resource.
#[derive(Clone, Copy, Debug)]
pub enum Probe {
    Free,
    Short { resource: ResourceId, minute: u32 },
}

/// A minute at which a booking has no room, the least resource there, and the minute before which it stays so.
#[derive(Clone, Copy, Debug)]
pub(crate) struct Gap {
    pub resource: ResourceId,
    pub minute: u32,
    pub until: u32,
}

impl FreeView<'_> {
    /// The first minute of a range at which a booking has no room.
    pub(crate) fn gap_in(&self, demand: &Demand, from: u32, to: u32) -> Option<Gap>
        requires first { first_minute ≤ from }
        requires end { to ≤ end_of_minutes }
        ensures none { IfNone result (EachMinute from to (λ k. HasRoomAt self.now (demand_at demand.now k) k)) }
        ensures low { IfSome result (λ g. from ≤ g.minute) }
        ensures high { IfSome result (λ g. g.minute < to) }
        ensures later { IfSome result (λ g. g.minute < g.until) }
        ensures inside { IfSome result (λ g. g.until ≤ end_of_minutes) }
        ensures before { IfSome result (λ g. EachMinute from g.minute (λ k. HasRoomAt self.now (demand_at demand.now k) k)) }
        ensures short { IfSome result (λ g. EachMinute g.minute g.until (λ k. IsShortOn self.now (demand_at demand.now k) k g.resource)) }
    {
        let mut minute = from;
        while minute < to {
            let scan = self.short_at(demand, minute);
            match scan.short {
                Some(resource) => {
                    return Some(Gap {
                        resource,
                        minute,
                        until: scan.until,
                    });
                }
                None => minute = scan.until,
            }
        }
        None
    }

    /// Whether a booking has room on top of what stands. It walks the stretches of its time in which nothing changes.
    pub(crate) fn look_for_room(&self, ask: &Ask) -> Probe
        ensures probe { IsProbe self.now ask.now result }
        ensures begin { first_minute ≤ ask.now.window.from }
        ensures end { ask.now.window.to ≤ end_of_minutes }
    {
        let from = ask.window.from.get();
        let to = ask.window.to.get();
        match self.gap_in(&demand_of(ask), from, to) {
            Some(gap) => Probe::Short {
                resource: gap.resource,
                minute: gap.minute,
            },
            None => Probe::Free,
        }
    }

    /// Whether a booking has room on top of what stands. One step.
    pub fn probe<L: Ledger>(&self, ask: &Ask, steps: &mut Steps<L>) -> Probe
        ensures probe { IsProbe self.now ask.now result }
        ensures step { steps.new ≡ steps.old + 1 }
    {
        steps.tick();
        self.look_for_room(ask)
    }

    /// The least of the starts from which on a booking of so many minutes has room. It goes on behind each stretch that is short
    /// of room. One step.
    pub fn first_fit<L: Ledger>(
        &self,
        demand: &Demand,
        duration: u32,
        among: &Starts,
        steps: &mut Steps<L>,
    ) -> Option<u32>
        requires some { 1 ≤ duration }
        requires first { first_minute ≤ among.now.first }
        requires end { among.now.last + duration ≤ end_of_minutes }
        requires step { 1 ≤ among.now.step }
        requires small { among.now.step ≤ 2 ^ 20 }
        ensures none { IfNone result ((s : ℕ) → IsStart among.now s → IsFree self.now (demand_over demand.now s (s + duration)) → ⊥) }
        ensures start { IfSome result (IsStart among.now) }
        ensures free { IfSome result (λ s. IsFree self.now (demand_over demand.now s (s + duration))) }
        ensures least { IfSome result (λ s. (r : ℕ) → IsStart among.now r → r < s → IsFree self.now (demand_over demand.now r (r + duration)) → ⊥) }
        ensures step { steps.new ≡ steps.old + 1 }
    {
        steps.tick();
        let mut start = among.first;
        while start <= among.last {
            match self.gap_in(demand, start, start + duration) {
                None => return Some(start),
                Some(gap) => start = start_from(among, start, gap.until),
            }
        }
        None
    }
}
