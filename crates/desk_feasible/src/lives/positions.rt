//! Whether a position is live, judged by itself.
ghost use Rattle.std.specs.Prelude.{◌≡◌, ◌+◌, ◌≤◌, ◌<◌, ◌^◌, ◌↔◌, [], length, Some, None, IsTrue, IfOk, MatchOption, ⊤, option_map};
ghost use Rattle.std.specs.List.{list_all};
ghost use Rattle.desk_base.specs.meaning.Picks.{choices_of, pattern_of, first_broken_same};
ghost use Rattle.desk_base.specs.meaning.Trees.{tree_of};
ghost use Rattle.desk_base.specs.rows.Lookups.{KeysRise};
ghost use Rattle.desk_base.specs.search.Listing.{IsLive, IsOnGrid, IsWithinOptions, BeginsPattern, serves};
ghost use Rattle.desk_feasible.specs.Live.{IsReady, IsInPlace};
ghost use Rattle.desk_feasible.specs.Broken.{unserved_as};
ghost use Rattle.desk_base.specs.search.Verdicts.{first_unserved};

use crate::asks::new_asks;
use crate::broken::Broken;
use crate::fitting::do_fit;
use crate::grid::is_on_grid;
use crate::lives::growing::goes_on;
use crate::serving::first_unserved;
use desk_base::{Minute, NoMemory, Options, Position, ResourceId, Steps};
use desk_load::FreeView;
use desk_need::Case;
use std::alloc::Global;
use std::sync::ledger::Ledger;

/// Whether the start is not before the options' first one.
fn is_from(from: Option<Minute>, start: Minute) -> bool
    ensures { IsTrue result ↔ MatchOption from ⊤ (λ m. m ≤ start) }
{
    match from {
        None => true,
        Some(minute) => minute.get() <= start.get(),
    }
}

/// Whether the start is before the options' end.
fn is_below(to: Option<Minute>, start: Minute) -> bool
    ensures { IsTrue result ↔ MatchOption to ⊤ (λ m. start < m) }
{
    match to {
        None => true,
        Some(minute) => start.get() < minute.get(),
    }
}

/// Whether there are picks, and they begin a pattern of the case's tree.
fn begin_pattern(case: &Case<'_>, picks: &[Option<ResourceId>]) -> bool
    ensures { IsTrue result ↔ ((1 ≤ length picks.now) × BeginsPattern (tree_of case.now.group.nodes) (pattern_of picks.now)) }
{
    match picks {
        [] => false,
        [front @ .., last] => goes_on(case, front, last.is_some()),
    }
}

/// The first chosen leaf that its resource does not serve.
fn unserved(case: &Case<'_>, start: Minute, picks: &[Option<ResourceId>]) -> Option<Broken>
    requires rise { KeysRise case.now.tables }
    requires few { length case.now.group.leaves < 2 ^ 8 }
    ensures { result ≡ option_map unserved_as (first_unserved case.now.tables case.now.group start (choices_of 0 case.now.group.leaves picks.now)) }
{
    let group = case.group();
    first_unserved(
        case.tables(),
        group,
        start.get(),
        0,
        group.leaves.as_slice(),
        picks,
    )
}

/// Whether each chosen resource serves its leaf.
fn all_serve(case: &Case<'_>, start: Minute, picks: &[Option<ResourceId>]) -> bool
    requires rise { KeysRise case.now.tables }
    requires few { length case.now.group.leaves < 2 ^ 8 }
    ensures { IsTrue result ↔ IsTrue (list_all (serves case.now.tables case.now.group start) (choices_of 0 case.now.group.leaves picks.now)) }
{
    match unserved(case, start, picks) {
        None => true,
        Some(_) => false,
    }
}

/// Whether each part-of-same is kept.
fn same_kept(case: &Case<'_>, start: Minute, picks: &[Option<ResourceId>]) -> bool
    ensures { IsTrue result ↔ first_broken_same case.now.tables start case.now.group.nodes case.now.group.leaves picks.now ≡ None }
{
    case.same_ok(start, picks).is_ok()
}

/// Whether the position is live as far as it hangs on no booking.
fn is_in_place(
    case: &Case<'_>,
    options: &Options,
    start: Minute,
    picks: &[Option<ResourceId>],
) -> bool
    requires { IsReady case.now }
    ensures { IsTrue result ↔ IsInPlace case.now.tables case.now.group options.now start picks.now }
{
    is_on_grid(case.group(), start.get())
        && is_from(options.from, start)
        && is_below(options.to, start)
        && begin_pattern(case, picks)
        && all_serve(case, start, picks)
        && same_kept(case, start, picks)
}

/// Whether a position is live, whatever it is. The view leaves out the bookings of the case's group, and is as before. A step for
/// each chosen leaf at most.
pub fn live<L: Ledger>(
    alloc: Global,
    view: &mut FreeView<'_>,
    case: &Case<'_>,
    options: &Options,
    position: &Position,
    steps: &mut Steps<L>,
) -> Result<bool, NoMemory>
    requires ready { IsReady case.now }
    requires tables { view.old.tables ≡ case.now.tables }
    requires without { view.old.without ≡ Some case.now.group.id }
    requires nothing { view.old.overlay ≡ [] }
    ensures view { view.new ≡ view.old }
    ensures live { IfOk result (λ live. IsTrue live ↔ IsLive case.now.tables case.now.group options.now position.now) }
    ensures steps { steps.new ≤ steps.old + length case.now.group.leaves }
{
    let picks = position.picks.as_slice();
    if !is_in_place(case, options, position.start, picks) {
        return Ok(false);
    }
    // Read so that its range is known: no served leaf ends after it.
    let _end = case.group().to.get();
    let asks = new_asks(alloc, position.start, case.group().leaves.as_slice(), picks)?;
    let fit = do_fit(view, asks.as_slice(), steps)?;
    Ok(fit)
}
