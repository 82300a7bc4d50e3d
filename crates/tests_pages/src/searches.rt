//! Pages of a group of tables, which are judged at run time to be fit for a search.
ghost use Rattle.std.specs.Prelude.{◌≡◌, ◌+◌, ◌<◌, [], map, Some, Contains, IsTrue, IfOk, option_copied};
ghost use Rattle.desk_base.specs.meaning.Load.{Fits, ask_of};
ghost use Rattle.desk_base.specs.rules.Sound.{AreWellFormed};
ghost use Rattle.desk_base.specs.search.Page.{IsAskable};
ghost use Rattle.desk_feasible.specs.Live.{IsReady};
ghost use Rattle.desk_load.specs.Index.{IsIndexOf, resource_numbers};
ghost use Rattle.tests_pages.specs.Counts.{TakesAtMost};

use crate::rows::group_id;
use desk_base::{GroupId, GroupRow, NoMemory, Options, Page, Position, ResourceId, Steps, Tables};
use desk_load::{FreeView, LoadIndex, clash_standing};
use desk_need::Case;
use desk_pages::page;
use desk_rules::are_formed;
use std::alloc::Global;
use std::marker::Brand;
use std::sync::ledger::{Blank, Ledger};
use std::test::Fail;

/// Where a page begins, and how many rows it has at most.
#[derive(Clone, Copy)]
pub(crate) struct Point<'a> {
    pub after: Option<&'a Position>,
    pub shown: u16,
    pub limit: u16,
}

fn is_askable(options: &Options, limit: u16) -> bool
    ensures { IsTrue result → IsAskable options.now limit }
{
    let of_start = match options.per {
        Some(per) => 1 <= per && per <= 500,
        None => true,
    };
    of_start && 1 <= limit && limit <= 500
}

/// All resources of the tables.
fn all_resources(alloc: Global, tables: &Tables) -> Result<Vec<ResourceId>, NoMemory>
    ensures { IfOk result (λ v. v.items ≡ resource_numbers tables.now) }
{
    Ok(
        tables
            .resources
            .as_slice()
            .iter()
            .map(|x| x.id)
            .collect(alloc)?,
    )
}

/// Whether the standing bookings fit.
fn do_fit(alloc: Global, index: &LoadIndex, tables: &Tables) -> Result<bool, NoMemory>
    requires well_formed { AreWellFormed tables.now }
    requires index { IsIndexOf tables.now index.now }
    ensures { IfOk result (λ fit. IsTrue fit → Fits tables.now (map ask_of tables.now.bookings)) }
{
    let suspects = all_resources(alloc, tables)?;
    match clash_standing(alloc, index, tables, suspects.as_slice()) {
        Some(_) => Ok(false),
        None => Ok(true),
    }
}

/// The page of a case over what is free. Its steps are counted in proofs alone: of 100 resources, a page that passes 4 positions
/// of 4 leaves takes at most 1,010, and one that passes 12 or 11 positions of 12 leaves at most 2,626 or 2,525.
fn counted<L: Ledger>(
    alloc: Global,
    case: &Case<'_>,
    view: &mut FreeView<'_>,
    options: &Options,
    after: Option<&Position>,
    shown: u16,
    limit: u16,
    steps: &mut Steps<L>,
) -> Result<Page, NoMemory>
    requires ready { IsReady case.now }
    requires tables { view.old.tables ≡ case.now.tables }
    requires without { view.old.without ≡ Some case.now.group.id }
    requires nothing { view.old.overlay ≡ [] }
    requires askable { IsAskable options.now limit }
    ensures four { IfOk result (λ _. TakesAtMost (record { asked = case.now; options = options.now; point = record { after = option_copied after.entry; shown = shown }; limit = limit }) (record { leaves = 4; passed = 4; most = steps.old + 1010 }) steps.new) }
    ensures twelve { IfOk result (λ _. TakesAtMost (record { asked = case.now; options = options.now; point = record { after = option_copied after.entry; shown = shown }; limit = limit }) (record { leaves = 12; passed = 12; most = steps.old + 2626 }) steps.new) }
    ensures eleven { IfOk result (λ _. TakesAtMost (record { asked = case.now; options = options.now; point = record { after = option_copied after.entry; shown = shown }; limit = limit }) (record { leaves = 12; passed = 11; most = steps.old + 2525 }) steps.new) }
{
    let page = page(alloc, case, view, options, after, shown, limit, steps)?;
    Ok(page)
}

fn page_over<L: Ledger>(
    alloc: Global,
    case: &Case<'_>,
    view: &mut FreeView<'_>,
    options: &Options,
    point: Point<'_>,
    blank: Blank,
) -> Result<Page, NoMemory>
    requires name { blank.name ≡ L.name }
    requires parts { (blank.parts ≡ L.parts) × (0 < blank.parts) }
    requires ready { IsReady case.now }
    requires tables { view.old.tables ≡ case.now.tables }
    requires without { view.old.without ≡ Some case.now.group.id }
    requires nothing { view.old.overlay ≡ [] }
    requires askable { IsAskable options.now point.limit }
{
    let mut steps = Steps::<L>::new(blank);
    counted(
        alloc,
        case,
        view,
        options,
        point.after,
        point.shown,
        point.limit,
        &mut steps,
    )
}

fn searched(
    alloc: Global,
    index: &LoadIndex,
    tables: &Tables,
    group: &GroupRow,
    options: &Options,
    point: Point<'_>,
) -> Result<Page, NoMemory>
    requires well_formed { AreWellFormed tables.now }
    requires index { IsIndexOf tables.now index.now }
    requires fits { Fits tables.now (map ask_of tables.now.bookings) }
    requires there { Contains tables.now.groups group.now }
    requires askable { IsAskable options.now point.limit }
{
    let case = Case::build(alloc, tables, group)?;
    let mut view = FreeView::build(alloc, index, tables, Some(group.id))?;
    page_over::<Brand>(alloc, &case, &mut view, options, point, Blank::new(1))
}

/// The page of a group of well-formed tables.
fn page_in(
    alloc: Global,
    tables: &Tables,
    group: GroupId,
    options: &Options,
    point: Point<'_>,
) -> Result<Page, Fail>
    requires well_formed { AreWellFormed tables.now }
    requires askable { IsAskable options.now point.limit }
{
    let index = LoadIndex::build(alloc, tables)?;
    if !do_fit(alloc, &index, tables)? {
        return Err("the bookings do not fit".into());
    }
    match tables.group(group) {
        Some(row) => {
            let page = searched(alloc, &index, tables, row, options, point)?;
            Ok(page)
        }
        None => Err("no such group".into()),
    }
}

/// The page of a group of tables that are fit for a search, or why they are not.
pub(crate) fn page_of(
    alloc: Global,
    tables: &Tables,
    group: u32,
    options: &Options,
    point: Point<'_>,
) -> Result<Page, Fail> {
    if !is_askable(options, point.limit) {
        return Err("a page that cannot be asked for".into());
    }
    if !are_formed(alloc, tables)? {
        return Err("the tables are not well formed".into());
    }
    page_in(alloc, tables, group_id(group)?, options, point)
}
