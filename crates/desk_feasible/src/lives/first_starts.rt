//! At which start a first pick is live next.
ghost use Rattle.std.specs.Prelude.{◌≡◌, ◌∷◌, [], ℕ, ◌+◌, ◌≤◌, ◌<◌, ◌↔◌, ⊤, slice_get, Some, None, IfSome, MatchOption};
ghost use Rattle.desk_base.specs.meaning.Eligible.{first_broken_rule};
ghost use Rattle.desk_base.specs.search.Listing.{IsLive, IsWithinOptions};
ghost use Rattle.desk_base.specs.search.Positions.{position_at};
ghost use Rattle.desk_feasible.specs.Live.{IsReady, HasLaid, steps_of};
ghost use Rattle.desk_load.specs.Starts.{IsNextOf};
ghost use Rattle.desk_need.specs.Starts.{IsIn};

use crate::lives::growing::{goes_on, leaf_at};
use crate::lives::pick_starts::PickStarts;
use desk_base::{GroupRow, Leaf, Minute, Options, ResourceId, Steps};
use desk_load::laws::{fitting_bookings_are_free, free_bookings_fit};
use desk_load::{Demand, FreeView};
use desk_need::{Case, StartRun, window_starts};
use std::sync::ledger::Ledger;

/// Of a run of minutes those that are within a search's options, inside the group's window, and not before one.
fn cut(group: &GroupRow, options: &Options, run: StartRun, from: u32) -> StartRun
    ensures cut { (s : ℕ) → (IsIn result s ↔ (IsIn run s × (from ≤ s) × (s < group.now.to) × IsWithinOptions options.now s)) }
    ensures end { result.last < group.now.to }
{
    let mut first = run.first.max(from);
    let mut last = run.last.min(group.to.get() - 1);
    if let Some(minute) = options.from {
        first = first.max(minute.get());
    }
    if let Some(minute) = options.to {
        last = last.min(minute.get() - 1);
    }
    StartRun { first, last }
}

/// The least start, not below a minute, at which the first leaf may be left out alone.
fn first_skip(case: &Case<'_>, options: &Options, from: u32) -> Option<u32>
    requires { IsReady case.now }
    ensures { IsNextOf (λ s. IsLive case.now.tables case.now.group options.now (position_at s (None ∷ []))) from result }
{
    if !goes_on(case, &[], false) {
        return None;
    }
    let group = case.group();
    let all = StartRun {
        first: group.from.get(),
        last: group.to.get(),
    };
    let starts = PickStarts {
        case,
        pick: None,
        offset: 0,
        run: cut(group, options, all, from),
    };
    starts.next_start(from)
}

/// The least start, not below a minute, at which a resource that breaks no rule of the first leaf is live alone. One step.
fn first_pick<L: Ledger>(
    view: &FreeView<'_>,
    case: &Case<'_>,
    options: &Options,
    leaf: &Leaf,
    id: ResourceId,
    from: u32,
    steps: &mut Steps<L>,
) -> Option<u32>
    requires ready { IsReady case.now }
    requires laid { HasLaid case.now view.now 0 [] }
    requires leaf { slice_get case.now.group.leaves 0 ≡ Some leaf.now }
    requires serves { first_broken_rule case.now.tables leaf.now id ≡ None }
    ensures first { IsNextOf (λ s. IsLive case.now.tables case.now.group options.now (position_at s (Some id ∷ []))) from result }
    ensures step { steps.new ≤ steps.old + 1 }
{
    free_bookings_fit();
    fitting_bookings_are_free();
    // Read so that their ranges are known.
    let _window = (case.group().from.get(), case.group().to.get());
    if !goes_on(case, &[], true) {
        return None;
    }
    let group = case.group();
    let run = match window_starts(group, leaf) {
        Some(run) => run,
        None => return None,
    };
    let starts = PickStarts {
        case,
        pick: Some(id),
        offset: leaf.offset,
        run: cut(group, options, run, from),
    };
    let demand = Demand {
        resource: id,
        effort: leaf.effort,
    };
    match view.first_fit_among(&demand, leaf.duration, &starts, steps) {
        Some(minute) => Some(minute - leaf.offset),
        None => None,
    }
}

/// The same of a pick: a resource that breaks no rule of the first leaf but for its windows, or `None`.
fn first_minute_of<L: Ledger>(
    view: &FreeView<'_>,
    case: &Case<'_>,
    options: &Options,
    pick: &Option<ResourceId>,
    from: u32,
    steps: &mut Steps<L>,
) -> Option<u32>
    requires ready { IsReady case.now }
    requires laid { HasLaid case.now view.now 0 [] }
    requires serves { MatchOption pick.now ⊤ (λ id. IfSome (slice_get case.now.group.leaves 0) (λ leaf. first_broken_rule case.now.tables leaf id ≡ None)) }
    ensures first { IsNextOf (λ s. IsLive case.now.tables case.now.group options.now (position_at s (pick.now ∷ []))) from result }
    ensures steps { steps.new ≤ steps.old + steps_of pick.now }
{
    match pick {
        None => first_skip(case, options, from),
        Some(id) => {
            let leaf = leaf_at(case, 0);
            first_pick(view, case, options, leaf, *id, from, steps)
        }
    }
}

/// The least start, not below a minute, at which a pick of the first leaf is live alone: a resource that breaks no rule of that leaf
/// but for its windows, or `None`, where it is left out. Nothing is laid on the view. One step, and none for a leaf that is left
/// out.
pub fn first_start<L: Ledger>(
    view: &FreeView<'_>,
    case: &Case<'_>,
    options: &Options,
    pick: &Option<ResourceId>,
    from: u32,
    steps: &mut Steps<L>,
) -> Option<Minute>
    requires ready { IsReady case.now }
    requires laid { HasLaid case.now view.now 0 [] }
    requires serves { MatchOption pick.now ⊤ (λ id. IfSome (slice_get case.now.group.leaves 0) (λ leaf. first_broken_rule case.now.tables leaf id ≡ None)) }
    ensures first { IsNextOf (λ s. IsLive case.now.tables case.now.group options.now (position_at s (pick.now ∷ []))) from result }
    ensures steps { steps.new ≤ steps.old + steps_of pick.now }
{
    // Read so that its range is known.
    let _begin = case.group().from.get();
    let _end = case.group().to.get();
    match first_minute_of(view, case, options, pick, from, steps) {
        Some(start) => Minute::of(start),
        None => None,
    }
}
