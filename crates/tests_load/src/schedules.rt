//! The trial tables, and rows that are put among theirs.
ghost use Rattle.std.specs.Prelude.{◌≡◌, IfOk, IfSome};
ghost use Rattle.desk_base.specs.rows.Lookups.{KeysRise};
ghost use Rattle.desk_base.specs.rows.Trial.{trial};
ghost use Rattle.desk_base.specs.rules.Sound.{AreWellFormed};

use desk_base::laws::{sound_tables_are_well_formed, trial_is_sound};
use desk_base::{
    AnyRow, AnyRows, CalendarId, CalendarRow, Change, Items, Keys, Kind, MemberRow, Minute, Name,
    NoMemory, OffRow, ResourceId, ResourceRow, SiteId, Tables, UnitId, Window, WorkRow, ZoneId,
    ZoneRow,
};
use std::alloc::Global;

/// Monday 2025-01-06 at 08:00.
pub const EIGHT: u32 = 28_935_840;

pub const HALF_PAST_EIGHT: u32 = 28_935_870;

pub const NINE: u32 = 28_935_900;

pub const TEN: u32 = 28_935_960;

pub const ELEVEN: u32 = 28_936_020;

pub const NOON: u32 = 28_936_080;

/// The trial tables: 1 and 2 work on Monday from 08:00 to 12:00, and 3 from 10:00.
#[tactic(auto, using(desk_member::proofs::MemberRows::keys_rise))]
pub fn trial(alloc: Global) -> Result<Tables, NoMemory>
    ensures same { IfOk result (λ t. t ≡ trial) }
    ensures well_formed { IfOk result AreWellFormed }
    ensures rise { IfOk result KeysRise }
{
    trial_is_sound();
    sound_tables_are_well_formed();
    let tables = Tables::trial(alloc)?;
    Ok(tables)
}

/// The tables with these rows.
pub fn with_rows(alloc: Global, tables: Tables, puts: AnyRows) -> Option<Tables>
    requires { KeysRise tables }
    ensures { IfSome result KeysRise }
{
    let change = Change {
        puts,
        removes: Keys::new(alloc),
        revision: 1,
        last_booking: 0,
    };
    match tables.prepare(change) {
        Ok(prepared) => Some(prepared.apply()),
        Err(_) => None,
    }
}

pub fn window(from: u32, to: u32) -> Option<Window>
    ensures begin { IfSome result (λ w. w.from ≡ from) }
    ensures end { IfSome result (λ w. w.to ≡ to) }
{
    Some(Window {
        from: Minute::of(from)?,
        to: Minute::of(to)?,
    })
}

/// Adds a plain resource on a calendar, or, with calendar 0, a crew or a pool.
pub fn add_resource(
    alloc: Global,
    rows: &mut AnyRows,
    id: u32,
    kind: Kind,
    calendar: u32,
) -> Option<()> {
    let row = ResourceRow {
        id: ResourceId::of(id)?,
        name: Name::of(alloc, "X").ok()?,
        kind,
        calendar: CalendarId::of(calendar),
        unit: UnitId::of(1)?,
        site: SiteId::of(1)?,
    };
    rows.push(AnyRow::Resource(row)).ok()
}

pub fn add_member(rows: &mut AnyRows, group: u32, member: u32, from: u32, to: u32) -> Option<()> {
    let row = MemberRow {
        group: ResourceId::of(group)?,
        member: ResourceId::of(member)?,
        from: Minute::of(from)?,
        to: Minute::of(to)?,
    };
    rows.push(AnyRow::Member(row)).ok()
}

pub fn add_off(rows: &mut AnyRows, resource: u32, from: u32, to: u32) -> Option<()> {
    let row = OffRow {
        resource: ResourceId::of(resource)?,
        from: Minute::of(from)?,
        to: Minute::of(to)?,
    };
    rows.push(AnyRow::Off(row)).ok()
}

pub fn add_zone(alloc: Global, rows: &mut AnyRows, id: u32, shifts: &[(u32, i32)]) -> Option<()> {
    let row = ZoneRow {
        id: ZoneId::of(id)?,
        name: Name::of(alloc, "X").ok()?,
        shifts: Items::from_slice(alloc, shifts).ok()?,
    };
    rows.push(AnyRow::Zone(row)).ok()
}

pub fn add_calendar(alloc: Global, rows: &mut AnyRows, id: u32, zone: u32) -> Option<()> {
    let row = CalendarRow {
        id: CalendarId::of(id)?,
        name: Name::of(alloc, "X").ok()?,
        zone: ZoneId::of(zone)?,
    };
    rows.push(AnyRow::Calendar(row)).ok()
}

/// Adds work of a calendar on a weekday, with a capacity.
pub fn add_work(
    rows: &mut AnyRows,
    calendar: u32,
    weekday: u8,
    time: (u16, u16),
    capacity: u16,
) -> Option<()> {
    let row = WorkRow {
        calendar: CalendarId::of(calendar)?,
        weekday,
        from: time.0,
        to: time.1,
        capacity,
    };
    rows.push(AnyRow::Work(row)).ok()
}
