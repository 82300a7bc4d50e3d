//! What a page is asked with and what it gives, written as rows.
use crate::fixtures::Wanted;
use crate::rows::{minute, tables_with};
use crate::searches::{Point, page_of};
use desk_base::{Items, Minute, NoMemory, Options, Page, Picks, Position, ResourceId, Tables};
use std::alloc::Global;
use std::process::Abort;
use std::test::Fail;

/// A start and its picks, with 0 for a leaf that is left out.
pub(crate) type Row<'a> = (u32, &'a [u32]);

/// From which start on, and before which.
pub(crate) type Between = (Option<u32>, Option<u32>);

/// Any start.
pub(crate) const ANY: Between = (None, None);

/// What a page is asked with: between which starts, how many rows of each start it shows, the position that it goes on after, how
/// many rows of that start were shown, and how many rows it may have.
pub(crate) type Asked<'a> = (Between, Option<u32>, Option<Row<'a>>, u16, u16);

/// What it gives: its rows, where the next page goes on, how many rows of that start were shown, and whether none is left.
pub(crate) type Given<'a> = (&'a [Row<'a>], Option<Row<'a>>, Option<u16>, bool);

fn picks_of(alloc: Global, numbers: &[u32]) -> Result<Picks, NoMemory> {
    let mut picks = Items::new(alloc);
    for number in numbers {
        picks.push(ResourceId::of(*number))?;
    }
    Ok(picks)
}

fn position_of(alloc: Global, row: Row) -> Result<Position, Fail> {
    Ok(Position {
        start: minute(row.0)?,
        picks: picks_of(alloc, row.1)?,
    })
}

fn after_of(alloc: Global, row: Option<Row>) -> Result<Option<Position>, Fail> {
    match row {
        Some(row) => {
            let position = position_of(alloc, row)?;
            Ok(Some(position))
        }
        None => Ok(None),
    }
}

fn minute_of(number: Option<u32>) -> Result<Option<Minute>, Fail> {
    match number {
        Some(number) => {
            let minute = minute(number)?;
            Ok(Some(minute))
        }
        None => Ok(None),
    }
}

fn options_of(between: Between, per: Option<u32>) -> Result<Options, Fail> {
    Ok(Options {
        from: minute_of(between.0)?,
        to: minute_of(between.1)?,
        per,
    })
}

/// The page of a group of the tables.
fn asked_page(alloc: Global, tables: &Tables, group: u32, asked: Asked) -> Result<Page, Fail> {
    let (between, per, after, shown, limit) = asked;
    let options = options_of(between, per)?;
    let after = after_of(alloc, after)?;
    let point = Point {
        after: after.as_ref(),
        shown,
        limit,
    };
    let page = page_of(alloc, tables, group, &options, point)?;
    Ok(page)
}

fn is_pick(pick: &Option<ResourceId>, number: u32) -> bool {
    match pick {
        Some(id) => id.get() == number,
        None => number == 0,
    }
}

fn are_picks(picks: &Picks, numbers: &[u32]) -> bool {
    picks.len() == numbers.len()
        && picks
            .as_slice()
            .iter()
            .zip(numbers.iter())
            .all(|(pick, number)| is_pick(pick, *number))
}

fn is_at(next: &Option<Position>, wanted: Option<Row>) -> bool {
    match (next, wanted) {
        (Some(position), Some(row)) => {
            position.start.get() == row.0 && are_picks(&position.picks, row.1)
        }
        (None, None) => true,
        (Some(_), None) => false,
        (None, Some(_)) => false,
    }
}

fn are_rows(page: &Page, wanted: &[Row]) -> bool {
    page.rows.len() == wanted.len()
        && page.rows.as_slice().iter().zip(wanted.iter()).all(|(found, row)| found.start.get()
            == row.0
            && are_picks(&found.picks, row.1))
}

fn is_given(page: &Page, given: Given) -> bool {
    are_rows(page, given.0)
        && is_at(&page.next, given.1)
        && page.shown == given.2
        && page.end == given.3
}

/// Asks for each page of a table.
fn go_through(
    rt: &impl Abort,
    alloc: Global,
    tables: &Tables,
    group: u32,
    pages: &[(Asked, Given)],
) -> Result<(), Fail> {
    for (asked, given) in pages {
        let page = asked_page(alloc, tables, group, *asked)?;
        assert!(rt; is_given(&page, *given), "{asked:?} gave {page:?}");
    }
    Ok(())
}

/// Asks for each page of a table, of a group of the trial tables with these rows.
pub(crate) fn pages_of(
    rt: &impl Abort,
    alloc: Global,
    rows: &[Wanted],
    group: u32,
    pages: &[(Asked, Given)],
) -> Result<(), Fail> {
    let tables = tables_with(alloc, rows)?;
    go_through(rt, alloc, &tables, group, pages)
}
