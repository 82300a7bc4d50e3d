//! Searches, page by page.
ghost use Rattle.std.specs.Prelude.{◌≤◌, map};
ghost use Rattle.desk_base.specs.meaning.Load.{Fits, ask_of};
ghost use Rattle.desk_base.specs.rules.Limits.{page_limit};
ghost use Rattle.desk_base.specs.rules.Sound.{AreWellFormed};
ghost use Rattle.desk_feasible.specs.Live.{IsReady};
ghost use Rattle.desk_load.specs.Index.{IsIndexOf};

use crate::stop::Stop;
use crate::works::cases::ready_case;
use crate::works::groups::group_of;
use crate::works::pages::page_after;
use desk_base::{NoMemory, Page, Position, Tables};
use desk_load::LoadIndex;
use desk_need::Case;
use std::alloc::Global;

/// Rows of a page.
const FIFTY: u16 = 50;

/// A search is not followed over more pages than these.
const MOST_PAGES: usize = 100_000;

/// How many rows the page after a position has.
fn rows_after(
    alloc: Global,
    index: &LoadIndex,
    case: &Case<'_>,
    after: Option<&Position>,
    limit: u16,
) -> Result<usize, NoMemory>
    requires ready { IsReady case.now }
    requires index { IsIndexOf case.now.tables index.now }
    requires low { 1 ≤ limit }
    requires high { limit ≤ page_limit }
{
    let page = page_after(alloc, index, case, after, limit)?;
    Ok(page.rows.len())
}

/// The same, in all rounds.
fn all_rows(
    alloc: Global,
    index: &LoadIndex,
    case: &Case<'_>,
    after: Option<&Position>,
    limit: u16,
    rounds: u32,
) -> Result<usize, NoMemory>
    requires ready { IsReady case.now }
    requires index { IsIndexOf case.now.tables index.now }
    requires low { 1 ≤ limit }
    requires high { limit ≤ page_limit }
{
    let mut found = 0usize;
    for _ in 0..rounds {
        let rows = rows_after(alloc, index, case, after, limit)?;
        found = found.wrapping_add(rows);
    }
    Ok(found)
}

/// How many rows the first page of the group of a number has, in all rounds.
pub(crate) fn first_pages(
    alloc: Global,
    index: &LoadIndex,
    tables: &Tables,
    number: u32,
    limit: u16,
    rounds: u32,
) -> Result<usize, Stop>
    requires formed { AreWellFormed tables.now }
    requires index { IsIndexOf tables.now index.now }
    requires fits { Fits tables.now (map ask_of tables.now.bookings) }
    requires low { 1 ≤ limit }
    requires high { limit ≤ page_limit }
{
    let group = group_of(tables, number)?;
    let case = ready_case(alloc, tables, group)?;
    let rows = all_rows(alloc, index, &case, None, limit, rounds)?;
    Ok(rows)
}

/// How many rows the second page of group 1 has, in all rounds.
pub(crate) fn second_pages(
    alloc: Global,
    index: &LoadIndex,
    tables: &Tables,
    rounds: u32,
) -> Result<usize, Stop>
    requires formed { AreWellFormed tables.now }
    requires index { IsIndexOf tables.now index.now }
    requires fits { Fits tables.now (map ask_of tables.now.bookings) }
{
    let group = group_of(tables, 1)?;
    let case = ready_case(alloc, tables, group)?;
    let first = page_after(alloc, index, &case, None, FIFTY)?;
    let rows = all_rows(alloc, index, &case, first.next.as_ref(), FIFTY, rounds)?;
    Ok(rows)
}

/// How many pages a search has.
fn pages_of(alloc: Global, index: &LoadIndex, case: &Case<'_>) -> Result<usize, NoMemory>
    requires ready { IsReady case.now }
    requires index { IsIndexOf case.now.tables index.now }
{
    let mut after: Option<Position> = None;
    for before in 0..MOST_PAGES {
        let page = page_after(alloc, index, case, after.as_ref(), FIFTY)?;
        if page.end {
            return Ok(before + 1);
        }
        after = next_of(page);
    }
    Ok(MOST_PAGES)
}

/// Where the page after this one goes on.
fn next_of(page: Page) -> Option<Position> {
    page.next
}

/// The same, in all rounds.
fn all_pages(
    alloc: Global,
    index: &LoadIndex,
    case: &Case<'_>,
    rounds: u32,
) -> Result<usize, NoMemory>
    requires ready { IsReady case.now }
    requires index { IsIndexOf case.now.tables index.now }
{
    let mut found = 0usize;
    for _ in 0..rounds {
        let pages = pages_of(alloc, index, case)?;
        found = found.wrapping_add(pages);
    }
    Ok(found)
}

/// How many pages the search of group 1 has, in all rounds.
pub(crate) fn whole(
    alloc: Global,
    index: &LoadIndex,
    tables: &Tables,
    rounds: u32,
) -> Result<usize, Stop>
    requires formed { AreWellFormed tables.now }
    requires index { IsIndexOf tables.now index.now }
    requires fits { Fits tables.now (map ask_of tables.now.bookings) }
{
    let group = group_of(tables, 1)?;
    let case = ready_case(alloc, tables, group)?;
    let pages = all_pages(alloc, index, &case, rounds)?;
    Ok(pages)
}
