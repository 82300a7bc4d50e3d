//! A page of a search.
ghost use Rattle.std.specs.Prelude.{◌≡◌, ◌≤◌, ◌+◌, ◌*◌, List, [], length, Some, IfOk, option_copied};
ghost use Rattle.desk_base.specs.declared.search.results.Position.{Position};
ghost use Rattle.desk_base.specs.rules.Limits.{passed_limit};
ghost use Rattle.desk_base.specs.search.Page.{ArePending, IsPage, IsAskable, due_of, passed_of};
ghost use Rattle.desk_feasible.specs.Live.{IsReady};

use crate::space::Space;
use desk_base::{NoMemory, Options, Page, Position, Steps};
use desk_load::FreeView;
use desk_need::Case;
use desk_pruned::page as page_over;
use std::alloc::Global;
use std::sync::ledger::Ledger;

/// A page of a search: at most `limit` rows (1 to 500) of those that come after a position, live or not, or of all. Where each
/// start shows its first rows alone (`per`, 1 to 500), `shown` says how many of the position's start were shown before. A page
/// passes at most 4,096 live positions, so that it may have fewer rows, or none, though more are to come. The next page is asked
/// for with `next` and `shown`; where `end` is true there is none.
///
/// The view is over the case's tables, leaves out the bookings of its group, and has nothing laid on top; it is as before. A page
/// takes at most `(n + leaves + 2) * (resources + 1)` steps, where n is how many positions it passes.
pub fn page<L: Ledger>(
    alloc: Global,
    case: &Case<'_>,
    view: &mut FreeView<'_>,
    options: &Options,
    after: Option<&Position>,
    shown: u16,
    limit: u16,
    steps: &mut Steps<L>,
) -> Result<Page, NoMemory>
    requires ready { IsReady case.now }
    requires tables { view.old.tables ≡ case.now.tables }
    requires without { view.old.without ≡ Some case.now.group.id }
    requires nothing { view.old.overlay ≡ [] }
    requires askable { IsAskable options.now limit }
    ensures view { view.new ≡ view.old }
    ensures page { IfOk result (IsPage case.now.tables case.now.group options.now (record { after = option_copied after.entry; shown = shown }) limit) }
    ensures steps { IfOk result (λ _. (ps : List Position) → ArePending case.now.tables case.now.group options.now (option_copied after.entry) ps
        → steps.new ≤ steps.old + (length (passed_of (length case.now.group.leaves) limit passed_limit (due_of (length case.now.group.leaves) options.now.per (record { after = option_copied after.entry; shown = shown }) ps)) + length case.now.group.leaves + 2) * (length case.now.tables.resources + 1)) }
{
    let space = Space::build(alloc, case, options)?;
    let page = page_over(alloc, &space, view, options.per, after, shown, limit, steps)?;
    Ok(page)
}
