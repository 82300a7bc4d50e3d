//! The verdict on a row, for a search.
ghost use Rattle.std.specs.Prelude.{◌≡◌, ◌++◌, ◌+◌, ◌≤◌, length, Some, None, [], Contains, IfOk};
ghost use Rattle.desk_base.specs.rules.Sound.{AreWellFormed};
ghost use Rattle.desk_base.specs.meaning.Load.{Fits};
ghost use Rattle.desk_base.specs.meaning.Picks.{first_broken_same};
ghost use Rattle.desk_base.specs.search.Listing.{other_asks};
ghost use Rattle.desk_base.specs.search.Verdicts.{IsServed, IsVerdict};

use crate::asks::new_asks;
use crate::fitting::do_fit;
use crate::points::first_broken;
use desk_base::{Found, GroupRow, Minute, NoMemory, ResourceId, Steps, Verdict};
use desk_load::FreeView;
use desk_need::Case;
use std::alloc::Global;
use std::sync::ledger::Ledger;

/// Whether picks that keep each other point fit.
fn fitting_verdict<L: Ledger>(
    alloc: Global,
    view: &mut FreeView<'_>,
    group: &GroupRow,
    start: Minute,
    picks: &[Option<ResourceId>],
    steps: &mut Steps<L>,
) -> Result<Verdict, NoMemory>
    requires without { view.old.without ≡ Some group.now.id }
    requires nothing { view.old.overlay ≡ [] }
    requires fits { Fits view.old.tables (other_asks view.old.tables group.now) }
    requires served { IsServed view.old.tables group.now start picks.now }
    requires same { first_broken_same view.old.tables start group.now.nodes group.now.leaves picks.now ≡ None }
    ensures view { view.new ≡ view.old }
    ensures verdict { IfOk result (IsVerdict view.old.tables group.now start picks.now) }
    ensures steps { steps.new ≤ steps.old + length group.now.leaves }
{
    // Read so that its range is known: no served leaf ends after it.
    let _end = group.to.get();
    let asks = new_asks(alloc, start, group.leaves.as_slice(), picks)?;
    if do_fit(view, asks.as_slice(), steps)? {
        Ok(Verdict::Feasible)
    } else {
        Ok(Verdict::Unfit)
    }
}

/// Whether a row is feasible, or the first point that it breaks. The view leaves out the bookings of the case's group, and is as
/// before. A step for each chosen leaf at most.
pub fn feasible<L: Ledger>(
    alloc: Global,
    view: &mut FreeView<'_>,
    case: &Case<'_>,
    found: &Found,
    steps: &mut Steps<L>,
) -> Result<Verdict, NoMemory>
    requires tables { case.now.tables ≡ view.old.tables }
    requires formed { AreWellFormed case.now.tables }
    requires there { Contains case.now.tables.groups case.now.group }
    requires without { view.old.without ≡ Some case.now.group.id }
    requires nothing { view.old.overlay ≡ [] }
    requires fits { Fits case.now.tables (other_asks case.now.tables case.now.group) }
    ensures view { view.new ≡ view.old }
    ensures verdict { IfOk result (IsVerdict case.now.tables case.now.group found.now.start found.now.picks) }
    ensures steps { steps.new ≤ steps.old + length case.now.group.leaves }
{
    let picks = found.picks.as_slice();
    if let Some(broken) = first_broken(case.tables(), case.group(), found.start.get(), picks) {
        return Ok(broken.verdict());
    }
    match case.same_ok(found.start, picks) {
        Err(node) => Ok(Verdict::NotSame(node)),
        Ok(()) => fitting_verdict(alloc, view, case.group(), found.start, picks, steps),
    }
}
