//! The trial tables with a crew, a pool and a time off, and bookings that stand whether or not there is room for them.
ghost use Rattle.std.specs.Prelude.{◌≡◌, ◌≤◌, ◌∷◌, [], IfOk, IfSome, IsTrue};
ghost use Rattle.desk_base.specs.rows.Lookups.{KeysRise};
ghost use Rattle.desk_base.specs.rules.Sound.{AreWellFormed};
ghost use Rattle.desk_base.specs.declared.rows.tables.AnyRow.TheVariants.{Booking};
ghost use Rattle.tests_load.specs.Placed.{IsPlaced};
ghost use Rattle.tests_load.specs.Teams.{team, early_member, off_late, teams};

use crate::schedules::{EIGHT, ELEVEN, NOON, TEN, trial};
use desk_base::limits::EFFORT_LIMIT;
use desk_base::{
    AnyRow, AnyRows, BookingId, BookingRow, Change, GroupId, Items, Keys, Kind, MemberRow, Minute,
    Name, NoMemory, OffRow, ResourceId, ResourceRow, SiteId, Tables, UnitId,
};
use std::alloc::Global;

/// A booking of effort 1: its resource, from and to.
pub type Booking = (u32, u32, u32);

fn team(alloc: Global, id: u32, kind: Kind) -> Result<AnyRow, NoMemory>
    requires some { 1 ≤ id }
    requires few { id ≤ 99 }
    ensures { IfOk result (λ row. row ≡ team id kind) }
{
    let row = ResourceRow {
        id: ResourceId::of(id).unwrap(),
        name: Name::of(alloc, "X")?,
        kind,
        calendar: None,
        unit: UnitId::of(1).unwrap(),
        site: SiteId::of(1).unwrap(),
    };
    Ok(AnyRow::Resource(row))
}

fn early_member(group: u32, member: u32) -> AnyRow
    requires group { 1 ≤ group }
    requires groups { group ≤ 99 }
    requires member { 1 ≤ member }
    requires members { member ≤ 99 }
    ensures { result ≡ early_member group member }
{
    AnyRow::Member(MemberRow {
        group: ResourceId::of(group).unwrap(),
        member: ResourceId::of(member).unwrap(),
        from: Minute::of(EIGHT).unwrap(),
        to: Minute::of(TEN).unwrap(),
    })
}

fn off_late() -> AnyRow
    ensures { result ≡ off_late }
{
    AnyRow::Off(OffRow {
        resource: ResourceId::of(1).unwrap(),
        from: Minute::of(ELEVEN).unwrap(),
        to: Minute::of(NOON).unwrap(),
    })
}

fn team_rows(alloc: Global) -> Result<AnyRows, NoMemory>
    ensures { IfOk result (λ rows. rows ≡ teams) }
{
    let mut rows = Items::new(alloc);
    rows.push(team(alloc, 10, Kind::Crew)?)?;
    rows.push(team(alloc, 20, Kind::Pool)?)?;
    rows.push(early_member(10, 2))?;
    rows.push(early_member(20, 1))?;
    rows.push(off_late())?;
    Ok(rows)
}

/// The trial tables with crew 10, in which is 2 from 08:00 to 10:00, and pool 20, in which is 1 in the same time. 1 is off from 11:00
/// to 12:00.
pub fn with_teams(alloc: Global) -> Result<Tables, NoMemory>
    ensures { IfOk result AreWellFormed }
{
    let change = Change {
        puts: team_rows(alloc)?,
        removes: Keys::new(alloc),
        revision: 0,
        last_booking: 0,
    };
    let tables = trial(alloc)?;
    match tables.prepare(change) {
        Ok(prepared) => Ok(prepared.apply()),
        Err(_tables) => Err(NoMemory),
    }
}

/// Whether the booking can stand among those of the tables, were there room.
fn is_placed(tables: &Tables, row: &BookingRow) -> bool
    requires { KeysRise tables.now }
    ensures { IsTrue result → IsPlaced tables.now row.now }
{
    tables.group(row.group).is_some()
        && tables.resource(row.resource).is_some()
        && row.from.get() < row.to.get()
        && 1 <= row.effort
        && row.effort <= EFFORT_LIMIT
        && tables.bookings.len() < 1000
}

fn puts_of(alloc: Global, row: BookingRow) -> Result<AnyRows, NoMemory>
    ensures { IfOk result (λ rows. rows ≡ Booking row ∷ []) }
{
    let mut rows = Items::new(alloc);
    rows.push(AnyRow::Booking(row))?;
    Ok(rows)
}

/// The tables with one booking more.
#[tactic(auto, using(desk_member::proofs::MemberRows::keys_rise))]
fn with_booking(alloc: Global, tables: Tables, row: BookingRow) -> Result<Tables, NoMemory>
    requires well_formed { AreWellFormed tables }
    requires placed { IsPlaced tables row }
    ensures { IfOk result AreWellFormed }
{
    let change = Change {
        puts: puts_of(alloc, row)?,
        removes: Keys::new(alloc),
        revision: tables.revision,
        last_booking: tables.last_booking,
    };
    match tables.prepare(change) {
        Ok(prepared) => Ok(prepared.apply()),
        Err(_tables) => Err(NoMemory),
    }
}

fn row_of(id: u32, booking: Booking) -> Option<BookingRow> {
    Some(BookingRow {
        id: BookingId::of(id)?,
        group: GroupId::of(1)?,
        leaf: 0,
        resource: ResourceId::of(booking.0)?,
        from: Minute::of(booking.1)?,
        to: Minute::of(booking.2)?,
        effort: 1,
    })
}

/// The tables with one booking more, of a number.
#[tactic(auto, using(desk_member::proofs::MemberRows::keys_rise))]
fn with_one(alloc: Global, tables: Tables, id: u32, booking: Booking) -> Option<Tables>
    requires { AreWellFormed tables }
    ensures { IfSome result AreWellFormed }
{
    let row = row_of(id, booking)?;
    if !is_placed(&tables, &row) {
        return None;
    }
    with_booking(alloc, tables, row).ok()
}

/// The tables with teams, with these bookings, which have the numbers from 1 on.
pub fn with_bookings(alloc: Global, bookings: &[Booking]) -> Option<Tables>
    ensures { IfSome result AreWellFormed }
{
    let mut tables = with_teams(alloc).ok()?;
    let mut id = 1;
    for booking in bookings {
        tables = with_one(alloc, tables, id, *booking)?;
        id = id.saturating_add(1);
    }
    Some(tables)
}
