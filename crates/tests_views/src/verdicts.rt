//! Why picks of a group cannot be booked, and what a search is told of them.
ghost use Rattle.std.specs.Prelude.{◌≡◌, ◌<◌, Contains, Some, None, [], length};
ghost use Rattle.desk_base.specs.meaning.Load.{Fits};
ghost use Rattle.desk_base.specs.rules.Sound.{AreWellFormed};
ghost use Rattle.desk_base.specs.search.Listing.{other_asks};
ghost use Rattle.desk_load.specs.Index.{IsIndexOf};

use crate::acts::Booking;
use crate::books::{EIGHT, HALF_PAST_EIGHT, NINE, book_with};
use desk_base::laws::{sound_tables_are_well_formed, standing_bookings_fit};
use desk_base::{
    Clash, Found, GroupId, GroupRow, Items, LeafRule, Minute, Picks, Refusal, ResourceId, Shown,
    Steps, Tables, Verdict,
};
use desk_core::Book;
use desk_feasible::{feasible, place_refusal};
use desk_load::{FreeView, LoadIndex};
use desk_need::Case;
use std::alloc::Global;
use std::marker::Brand;
use std::process::Abort;
use std::sync::ledger::{Blank, Ledger};
use std::test::Fail;

/// Why picks cannot be booked.
#[derive(Clone, Copy, Debug, PartialEq, Eq)]
enum Why {
    Nothing,
    OffGrid(u32),
    BadShape(u8),
    NotEligible(u8, u32, LeafRule),
    /// The resource, the minute, its capacity, what stands, what is asked, and the booking that is shown, or 0.
    Conflict(u32, u32, u64, u64, u64, u32),
    Unfit,
    Other,
}

fn why_of_clash(clash: &Clash) -> Why {
    let booking = match &clash.shown {
        Shown::Booking(id) => id.get(),
        Shown::Gap => 0,
    };
    Why::Conflict(
        clash.resource.get(),
        clash.minute.get(),
        clash.capacity,
        clash.standing,
        clash.asked,
        booking,
    )
}

fn why_of(refusal: &Refusal) -> Why {
    match refusal {
        Refusal::OffGrid(minute) => Why::OffGrid(minute.get()),
        Refusal::BadShape(leaf) => Why::BadShape(*leaf),
        Refusal::NotEligible(leaf, resource, rule) => {
            Why::NotEligible(*leaf, resource.get(), *rule)
        }
        _ => Why::Other,
    }
}

fn told_of(verdict: &Verdict) -> Why {
    match verdict {
        Verdict::Feasible => Why::Nothing,
        Verdict::OffGrid => Why::OffGrid(0),
        Verdict::BadShape(leaf) => Why::BadShape(*leaf),
        Verdict::NotEligible(leaf, resource, rule) => {
            Why::NotEligible(*leaf, resource.get(), *rule)
        }
        Verdict::NotSame(_) => Why::Other,
        Verdict::Unfit => Why::Unfit,
    }
}

/// Picks of one leaf or of two.
#[derive(Clone, Copy, Debug)]
enum Picked {
    LeftOut,
    One(u32),
    Two(u32, u32),
}

fn pick_of(id: u32) -> Option<ResourceId> {
    ResourceId::of(id)
}

fn picks_of(alloc: Global, picked: Picked) -> Result<Picks, Fail> {
    let picks = match picked {
        Picked::LeftOut => Items::from_slice(alloc, &[None])?,
        Picked::One(id) => Items::from_slice(alloc, &[pick_of(id)])?,
        Picked::Two(id, other) => Items::from_slice(alloc, &[pick_of(id), pick_of(other)])?,
    };
    Ok(picks)
}

/// A start, picks, why they cannot be booked, and what a search is told of them.
type Row = (u32, Picked, Why, Why);

/// Of group 2 on 1, from 08:00 to 09:00.
const ONE_HOUR: [Booking; 1] = [(2, 1, EIGHT, 60, 1)];

/// Of group 1, which asks for an hour of anyone, at a full hour from 08:00 to 12:00.
const ROWS: [Row; 8] = [
    (NINE, Picked::One(1), Why::Nothing, Why::Nothing),
    (EIGHT, Picked::One(2), Why::Nothing, Why::Nothing),
    (
        EIGHT,
        Picked::One(1),
        Why::Conflict(1, EIGHT, 1, 1, 1, 1),
        Why::Unfit,
    ),
    (
        NINE,
        Picked::One(3),
        Why::Conflict(3, NINE, 0, 0, 1, 0),
        Why::Unfit,
    ),
    (
        HALF_PAST_EIGHT,
        Picked::One(1),
        Why::OffGrid(HALF_PAST_EIGHT),
        Why::OffGrid(0),
    ),
    (EIGHT, Picked::LeftOut, Why::BadShape(0), Why::BadShape(0)),
    (EIGHT, Picked::Two(1, 2), Why::BadShape(1), Why::BadShape(1)),
    (
        NINE,
        Picked::One(99),
        Why::NotEligible(0, 99, LeafRule::Kind),
        Why::NotEligible(0, 99, LeafRule::Kind),
    ),
];

fn refused(
    alloc: Global,
    index: &LoadIndex,
    tables: &Tables,
    group: &GroupRow,
    row: &Row,
) -> Result<Why, Fail>
    requires formed { AreWellFormed tables.now }
    requires index { IsIndexOf tables.now index.now }
    requires fits { Fits tables.now (other_asks tables.now group.now) }
    requires there { Contains tables.now.groups group.now }
{
    // Named, so that the checker knows what a refusal may hold.
    let _gap = Shown::Gap;
    let picks = picks_of(alloc, row.1)?;
    let start = Minute::of(row.0).ok_or("no minute")?;
    match place_refusal(alloc, index, tables, group, start, picks.as_slice())? {
        Some(Refusal::Conflict(clash)) => Ok(why_of_clash(&clash)),
        Some(refusal) => Ok(why_of(&refusal)),
        None => Ok(Why::Nothing),
    }
}

fn verdict<L: Ledger>(
    alloc: Global,
    view: &mut FreeView<'_>,
    case: &Case<'_>,
    found: &Found,
    blank: Blank,
) -> Result<Why, Fail>
    requires name { blank.name ≡ L.name }
    requires parts { (blank.parts ≡ L.parts) × (0 < blank.parts) }
    requires tables { case.now.tables ≡ view.old.tables }
    requires formed { AreWellFormed case.now.tables }
    requires there { Contains case.now.tables.groups case.now.group }
    requires without { view.old.without ≡ Some case.now.group.id }
    requires nothing { view.old.overlay ≡ [] }
    requires fits { Fits case.now.tables (other_asks case.now.tables case.now.group) }
{
    let mut steps = Steps::<L>::new(blank);
    let verdict = feasible(alloc, view, case, found, &mut steps)?;
    Ok(told_of(&verdict))
}

fn told(
    alloc: Global,
    index: &LoadIndex,
    tables: &Tables,
    group: &GroupRow,
    row: &Row,
) -> Result<Why, Fail>
    requires formed { AreWellFormed tables.now }
    requires index { IsIndexOf tables.now index.now }
    requires fits { Fits tables.now (other_asks tables.now group.now) }
    requires there { Contains tables.now.groups group.now }
{
    let found = Found {
        start: Minute::of(row.0).ok_or("no minute")?,
        picks: picks_of(alloc, row.1)?,
    };
    let case = Case::build(alloc, tables, group)?;
    let mut view = FreeView::build(alloc, index, tables, Some(group.id))?;
    verdict::<Brand>(alloc, &mut view, &case, &found, Blank::new(1))
}

fn ask_rows(
    rt: &impl Abort,
    alloc: Global,
    index: &LoadIndex,
    tables: &Tables,
    group: &GroupRow,
    rows: &[Row],
) -> Result<(), Fail>
    requires formed { AreWellFormed tables.now }
    requires index { IsIndexOf tables.now index.now }
    requires fits { Fits tables.now (other_asks tables.now group.now) }
    requires there { Contains tables.now.groups group.now }
{
    for row in rows {
        let why = refused(alloc, index, tables, group, row)?;
        assert_eq!(rt; why, row.2);
        let verdict = told(alloc, index, tables, group, row)?;
        assert_eq!(rt; verdict, row.3);
    }
    Ok(())
}

fn ask_visit(rt: &impl Abort, alloc: Global, book: &Book) -> Result<(), Fail> {
    sound_tables_are_well_formed();
    standing_bookings_fit();
    let tables = book.tables();
    let index = LoadIndex::build(alloc, tables)?;
    let id = GroupId::of(1).ok_or("no number")?;
    match tables.group(id) {
        Some(group) => ask_rows(rt, alloc, &index, tables, group, &ROWS),
        None => no_group(),
    }
}

fn no_group() -> Result<(), Fail> {
    let nothing: Option<()> = None;
    nothing.ok_or("there is no group 1")?;
    Ok(())
}

#[test]
fn each_point_is_judged_in_turn(rt: HostRuntime) -> Result<(), Fail> {
    let alloc = rt.alloc();
    let book = book_with(alloc, &[], &ONE_HOUR)?;
    ask_visit(&rt, alloc, &book)
}
