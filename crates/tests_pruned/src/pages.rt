//! Pages over written lists, of one row, of two and of all, after live and invented positions, and with the first rows of each start
//! alone. Each says how many questions it asked.
ghost use Rattle.std.specs.Prelude.{◌≡◌, ◌≤◌, ◌<◌, ⊤, [], IsTrue, MatchOption};
ghost use Rattle.desk_base.specs.rules.Limits.{page_limit};
ghost use Rattle.desk_pruned.specs.Ways.{IsSound};
ghost use Rattle.tests_pruned.specs.Listed.{ways_of};

use crate::fixtures::{EIGHT, NINE, Row, TEN, forty_resources, laid, position_of, two_leaves};
use crate::listed::{Laid, Listed};
use crate::sound::is_sound;
use desk_base::{NoMemory, Page, Picks, Position, ResourceId, Steps};
use desk_pruned::page;
use std::alloc::Global;
use std::marker::Brand;
use std::process::Abort;
use std::sync::ledger::{Blank, Ledger};
use std::test::Fail;

/// What a page is asked with: the rows of each start that it shows, the position that it goes on after, how many rows of that
/// start were shown, and how many rows it may have.
type Asked<'a> = (Option<u32>, Option<Row<'a>>, u16, u16);

/// What it gives: its rows, where the next page goes on, how many rows of that start were shown, whether none is left, and how
/// many questions it asked.
type Wanted<'a> = (&'a [Row<'a>], Option<Row<'a>>, Option<u16>, bool, u32);

/// Half past eight.
const HALF: u32 = 28_935_870;

fn is_askable(per: Option<u32>, limit: u16) -> bool
    ensures per { IsTrue result → MatchOption per ⊤ (λ n. (1 ≤ n) × (n ≤ page_limit)) }
    ensures limit { IsTrue result → (1 ≤ limit) × (limit ≤ page_limit) }
{
    let of_start = match per {
        Some(per) => 1 <= per && per <= 500,
        None => true,
    };
    of_start && 1 <= limit && limit <= 500
}

fn page_in<L: Ledger>(
    alloc: Global,
    listed: &Listed,
    view: &mut Laid,
    per: Option<u32>,
    after: Option<&Position>,
    shown: u16,
    limit: u16,
    blank: Blank,
) -> Result<Page, NoMemory>
    requires sound { IsSound (ways_of listed.now) }
    requires per { MatchOption per ⊤ (λ n. (1 ≤ n) × (n ≤ page_limit)) }
    requires limit { (1 ≤ limit) × (limit ≤ page_limit) }
    requires nothing { view.old.picks.items ≡ [] }
    requires name { blank.name ≡ L.name }
    requires parts { (blank.parts ≡ L.parts) × (0 < blank.parts) }
{
    let mut steps = Steps::<L>::new(blank);
    page(alloc, listed, view, per, after, shown, limit, &mut steps)
}

/// The page, and how many questions it asked; none where the list cannot be searched.
fn page_of(alloc: Global, listed: &Listed, asked: Asked) -> Result<Option<(Page, u32)>, NoMemory> {
    let (per, after, shown, limit) = asked;
    let after = match after {
        Some(row) => position_of(alloc, row)?,
        None => None,
    };
    if !is_sound(listed) {
        return Ok(None);
    }
    if !is_askable(per, limit) {
        return Ok(None);
    }
    let mut view = laid(alloc);
    let page = page_in::<Brand>(
        alloc,
        listed,
        &mut view,
        per,
        after.as_ref(),
        shown,
        limit,
        Blank::new(1),
    )?;
    Ok(Some((page, view.asked.get())))
}

fn is_pick(pick: &Option<ResourceId>, number: u32) -> bool {
    match pick {
        Some(id) => id.get() == number,
        None => number == 0,
    }
}

fn are_picks(picks: &Picks, numbers: &[u32]) -> bool {
    picks.len() == numbers.len()
        && picks
            .as_slice()
            .iter()
            .zip(numbers.iter())
            .all(|(pick, number)| is_pick(pick, *number))
}

fn is_at(next: &Option<Position>, wanted: Option<Row>) -> bool {
    match (next, wanted) {
        (Some(position), Some(row)) => {
            position.start.get() == row.0 && are_picks(&position.picks, row.1)
        }
        (None, None) => true,
        (Some(_), None) => false,
        (None, Some(_)) => false,
    }
}

fn are_rows(page: &Page, wanted: &[Row]) -> bool {
    page.rows.len() == wanted.len()
        && page.rows.as_slice().iter().zip(wanted.iter()).all(|(found, row)| found.start.get()
            == row.0
            && are_picks(&found.picks, row.1))
}

fn is_wanted(page: &Page, asked: u32, wanted: Wanted) -> bool {
    are_rows(page, wanted.0)
        && is_at(&page.next, wanted.1)
        && page.shown == wanted.2
        && page.end == wanted.3
        && asked == wanted.4
}

/// Asks for each page of a table.
fn go_through(
    rt: &impl Abort,
    alloc: Global,
    listed: &Listed,
    table: &[(Asked, Wanted)],
) -> Result<(), Fail> {
    for (asked, wanted) in table {
        match page_of(alloc, listed, *asked)? {
            Some((page, count)) => assert!(rt; is_wanted(&page, count, *wanted)),
            None => panic!(rt; "the list cannot be searched"),
        }
    }
    Ok(())
}

const FIRST: Row = (EIGHT, &[1, 2]);

const SECOND: Row = (EIGHT, &[1, 3]);

const THIRD: Row = (EIGHT, &[2, 0]);

const FOURTH: Row = (NINE, &[2, 3]);

const FIFTH: Row = (TEN, &[0, 1]);

const ALL: [Row; 5] = [FIRST, SECOND, THIRD, FOURTH, FIFTH];

const FROM_THE_BEGINNING: [(Asked, Wanted); 3] = [
    ((None, None, 0, 1), (&[FIRST], Some(FIRST), None, false, 4)),
    (
        (None, None, 0, 2),
        (&[FIRST, SECOND], Some(SECOND), None, false, 5),
    ),
    ((None, None, 0, 50), (&ALL, Some(FIFTH), None, true, 21)),
];

const AFTER_LIVE_ONES: [(Asked, Wanted); 2] = [
    (
        (None, Some(FIRST), 0, 1),
        (&[SECOND], Some(SECOND), None, false, 4),
    ),
    ((None, Some(FIFTH), 0, 1), (&[], Some(FIFTH), None, true, 5)),
];

/// After picks that are not live, after a start that has none and a resource that is no choice, and after a start without picks.
const AFTER_INVENTED_ONES: [(Asked, Wanted); 3] = [
    (
        (None, Some((EIGHT, &[1, 1])), 0, 1),
        (&[FIRST], Some(FIRST), None, false, 4),
    ),
    (
        (None, Some((HALF, &[3])), 0, 1),
        (&[FOURTH], Some(FOURTH), None, false, 10),
    ),
    (
        (None, Some((NINE, &[])), 0, 1),
        (&[FOURTH], Some(FOURTH), None, false, 10),
    ),
];

const FIRST_ROWS: [(Asked, Wanted); 4] = [
    (
        (Some(1), None, 0, 50),
        (&[FIRST, FOURTH, FIFTH], Some(FIFTH), Some(1), true, 14),
    ),
    (
        (Some(2), None, 0, 3),
        (&[FIRST, SECOND, FOURTH], Some(FOURTH), Some(1), false, 14),
    ),
    (
        (Some(2), Some(FOURTH), 1, 3),
        (&[FIFTH], Some(FIFTH), Some(1), true, 7),
    ),
    (
        (Some(1), Some(FIRST), 9, 1),
        (&[FOURTH], Some(FOURTH), Some(1), false, 10),
    ),
];

const OF_FORTY: [(Asked, Wanted); 2] = [
    (
        (None, None, 0, 2),
        (
            &[(EIGHT, &[1]), (EIGHT, &[2])],
            Some((EIGHT, &[2])),
            None,
            false,
            3,
        ),
    ),
    (
        (None, Some((EIGHT, &[2])), 0, 2),
        (
            &[(EIGHT, &[3]), (EIGHT, &[4])],
            Some((EIGHT, &[4])),
            None,
            false,
            4,
        ),
    ),
];

#[test]
fn pages_of_one_two_and_all_rows(rt: HostRuntime) -> Result<(), Fail> {
    let listed = two_leaves(rt.alloc())?;
    go_through(&rt, rt.alloc(), &listed, &FROM_THE_BEGINNING)
}

#[test]
fn pages_go_on_after_live_positions(rt: HostRuntime) -> Result<(), Fail> {
    let listed = two_leaves(rt.alloc())?;
    go_through(&rt, rt.alloc(), &listed, &AFTER_LIVE_ONES)
}

#[test]
fn pages_go_on_after_invented_positions(rt: HostRuntime) -> Result<(), Fail> {
    let listed = two_leaves(rt.alloc())?;
    go_through(&rt, rt.alloc(), &listed, &AFTER_INVENTED_ONES)
}

#[test]
fn each_start_shows_its_first_rows(rt: HostRuntime) -> Result<(), Fail> {
    let listed = two_leaves(rt.alloc())?;
    go_through(&rt, rt.alloc(), &listed, &FIRST_ROWS)
}

#[test]
fn a_page_within_one_start_asks_few_of_forty(rt: HostRuntime) -> Result<(), Fail> {
    let listed = forty_resources(rt.alloc())?;
    go_through(&rt, rt.alloc(), &listed, &OF_FORTY)
}
