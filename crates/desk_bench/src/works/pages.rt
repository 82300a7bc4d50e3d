//! A page of a search. Nobody counts its steps.
ghost use Rattle.std.specs.Prelude.{◌≡◌, ◌<◌, ◌≤◌, Some, []};
ghost use Rattle.desk_base.specs.rules.Limits.{page_limit};
ghost use Rattle.desk_feasible.specs.Live.{IsReady};
ghost use Rattle.desk_load.specs.Index.{IsIndexOf};

use desk_base::{NoMemory, Options, Page, Position, Steps};
use desk_load::{FreeView, LoadIndex};
use desk_need::Case;
use desk_pages::page;
use std::alloc::Global;
use std::marker::Brand;
use std::sync::ledger::{Blank, Ledger};

/// All starts, and all rows of each.
const ALL: Options = Options {
    from: None,
    to: None,
    per: None,
};

fn page_over<L: Ledger>(
    alloc: Global,
    case: &Case<'_>,
    view: &mut FreeView<'_>,
    after: Option<&Position>,
    limit: u16,
    blank: Blank,
) -> Result<Page, NoMemory>
    requires name { blank.name ≡ L.name }
    requires parts { (blank.parts ≡ L.parts) × (0 < blank.parts) }
    requires ready { IsReady case.now }
    requires tables { view.old.tables ≡ case.now.tables }
    requires without { view.old.without ≡ Some case.now.group.id }
    requires nothing { view.old.overlay ≡ [] }
    requires low { 1 ≤ limit }
    requires high { limit ≤ page_limit }
{
    let mut steps = Steps::<L>::new(blank);
    let page = page(alloc, case, view, &ALL, after, 0, limit, &mut steps)?;
    Ok(page)
}

/// The page of a case that comes after a position, if one is given.
pub(crate) fn page_after(
    alloc: Global,
    index: &LoadIndex,
    case: &Case<'_>,
    after: Option<&Position>,
    limit: u16,
) -> Result<Page, NoMemory>
    requires ready { IsReady case.now }
    requires index { IsIndexOf case.now.tables index.now }
    requires low { 1 ≤ limit }
    requires high { limit ≤ page_limit }
{
    let group = Some(case.group().id);
    let mut view = FreeView::build(alloc, index, case.tables(), group)?;
    let page = page_over::<Brand>(alloc, case, &mut view, after, limit, Blank::new(1))?;
    Ok(page)
}
