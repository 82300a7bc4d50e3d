//! Pages of a search over a sound schedule.
ghost use Rattle.std.specs.Prelude.{◌≡◌, ◌<◌, [], Some, Contains, IfOk, option_copied};
ghost use Rattle.desk_base.specs.rules.Sound.{IsSound};
ghost use Rattle.desk_base.specs.search.Page.{IsPage, IsAskable};
ghost use Rattle.desk_feasible.specs.Live.{IsReady};
ghost use Rattle.desk_load.specs.Index.{IsIndexOf};

use crate::view::View;
use desk_base::{GroupRow, NoMemory, Options, Page, Position, Steps};
use desk_load::FreeView;
use desk_need::Case;
use desk_pages::page;
use std::alloc::Global;
use std::marker::Brand;
use std::sync::ledger::{Blank, Ledger};

/// The page of a case over what is free. Nobody counts its steps.
fn page_over<L: Ledger>(
    alloc: Global,
    case: &Case<'_>,
    view: &mut FreeView<'_>,
    options: &Options,
    after: Option<&Position>,
    shown: u16,
    limit: u16,
    blank: Blank,
) -> Result<Page, NoMemory>
    requires name { blank.name ≡ L.name }
    requires parts { (blank.parts ≡ L.parts) × (0 < blank.parts) }
    requires ready { IsReady case.now }
    requires tables { view.old.tables ≡ case.now.tables }
    requires without { view.old.without ≡ Some case.now.group.id }
    requires nothing { view.old.overlay ≡ [] }
    requires askable { IsAskable options.now limit }
    ensures { IfOk result (IsPage case.now.tables case.now.group options.now (record { after = option_copied after.entry; shown = shown }) limit) }
{
    let mut steps = Steps::<L>::new(blank);
    let page = page(alloc, case, view, options, after, shown, limit, &mut steps)?;
    Ok(page)
}

/// The page of a group of a sound schedule, over what is free without the group's own bookings.
pub(crate) fn searched(
    alloc: Global,
    view: &View,
    group: &GroupRow,
    options: &Options,
    after: Option<&Position>,
    shown: u16,
    limit: u16,
) -> Result<Page, NoMemory>
    requires sound { IsSound view.now.tables }
    requires index { IsIndexOf view.now.tables view.now.index }
    requires there { Contains view.now.tables.groups group.now }
    requires askable { IsAskable options.now limit }
    ensures { IfOk result (IsPage view.now.tables group.now options.now (record { after = option_copied after.entry; shown = shown }) limit) }
{
    let case = Case::build(alloc, &view.tables, group)?;
    let mut free = FreeView::build(alloc, &view.index, &view.tables, Some(group.id))?;
    let page = page_over::<Brand>(
        alloc,
        &case,
        &mut free,
        options,
        after,
        shown,
        limit,
        Blank::new(1),
    )?;
    Ok(page)
}
