//! The tables as bodies have them: for each, its key, its row, and the names of their fields.
ghost use Rattle.std.specs.Prelude.{◌≡◌, map};
ghost use Rattle.serde_json.specs.View.{view};
ghost use Rattle.desk_base.specs.rows.Lookups.{named_in, has_in};
ghost use Rattle.desk_json.specs.Faults.{IsRead};
ghost use Rattle.desk_json.specs.Tables.{key_of_one, key_of_two, id_form, number_form, week_form, date_form, off_form, has_form, member_form, nature_form, place_form, zone_table, calendar_table, work_table, break_table, day_table, off_table, named_table, resource_table, has_table, rated_table, member_table, described, row_form, keyed, key_form};

use crate::faults::{BodyError, BodyRule};
use crate::fields::{day_at, name_at, value_at};
use crate::lists::list_at;
use desk_base::{
    AnyRow, BreakRow, CalendarId, CalendarRow, DayRow, Field, HasRow, Key, Kind, MemberRow, Minute,
    Name, NamedRow, OffRow, ResourceId, ResourceRow, SiteId, Table, UnitId, WorkRow, ZoneId,
    ZoneRow,
};
use serde_json::Value;
use std::alloc::Global;

// ---- keys

#[tactic(auto, unfolding(crate::specs::Tables::week_form))]
fn read_week(body: &Value) -> Result<(CalendarId, u8, u16), BodyError>
    ensures { result ≡ week_form.read (view body.now) }
{
    let calendar = value_at(body, Field::Calendar)?;
    let weekday = value_at(body, Field::Weekday)?;
    let from = value_at(body, Field::From)?;
    Ok((calendar, weekday, from))
}

#[tactic(auto, unfolding(crate::specs::Tables::date_form))]
fn read_date(body: &Value) -> Result<(CalendarId, u32, u16), BodyError>
    ensures { result ≡ date_form.read (view body.now) }
{
    let calendar = value_at(body, Field::Calendar)?;
    let day = day_at(body, Field::Day)?;
    let from = value_at(body, Field::From)?;
    Ok((calendar, day, from))
}

#[tactic(auto, unfolding(crate::specs::Tables::off_form))]
fn read_off_start(body: &Value) -> Result<(ResourceId, Minute), BodyError>
    ensures { result ≡ off_form.read (view body.now) }
{
    let resource = value_at(body, Field::Resource)?;
    let from = value_at(body, Field::From)?;
    Ok((resource, from))
}

#[tactic(auto, unfolding(crate::specs::Tables::has_form))]
fn read_had(body: &Value) -> Result<(ResourceId, u32), BodyError>
    ensures { result ≡ has_form.read (view body.now) }
{
    let resource = value_at(body, Field::Resource)?;
    let what = value_at(body, Field::What)?;
    Ok((resource, what))
}

#[tactic(auto, unfolding(crate::specs::Tables::member_form))]
fn read_membership(body: &Value) -> Result<(ResourceId, ResourceId, Minute), BodyError>
    ensures { result ≡ member_form.read (view body.now) }
{
    let group = value_at(body, Field::Group)?;
    let member = value_at(body, Field::Member)?;
    let from = value_at(body, Field::From)?;
    Ok((group, member, from))
}

fn id_key(table: Table, body: &Value) -> Result<Key, BodyError>
    ensures { result ≡ (keyed table (key_of_one id_form)).read (view body.now) }
{
    let id: ZoneId = value_at(body, Field::Id)?;
    Ok(Key::of_id(table, id.get()))
}

fn number_key(table: Table, body: &Value) -> Result<Key, BodyError>
    ensures { result ≡ (keyed table (key_of_one number_form)).read (view body.now) }
{
    let id = value_at(body, Field::Id)?;
    Ok(Key::of_id(table, id))
}

fn week_key(table: Table, body: &Value) -> Result<Key, BodyError>
    ensures { result ≡ (keyed table week_form).read (view body.now) }
{
    let (calendar, weekday, from) = read_week(body)?;
    Ok(Key {
        table,
        a: calendar.get(),
        b: u32::from(weekday),
        c: u32::from(from),
    })
}

fn date_key(table: Table, body: &Value) -> Result<Key, BodyError>
    ensures { result ≡ (keyed table date_form).read (view body.now) }
{
    let (calendar, day, from) = read_date(body)?;
    Ok(Key {
        table,
        a: calendar.get(),
        b: day,
        c: u32::from(from),
    })
}

fn off_key(table: Table, body: &Value) -> Result<Key, BodyError>
    ensures { result ≡ (keyed table (key_of_two off_form)).read (view body.now) }
{
    let (resource, from) = read_off_start(body)?;
    Ok(Key {
        table,
        a: resource.get(),
        b: from.get(),
        c: 0,
    })
}

fn has_key(table: Table, body: &Value) -> Result<Key, BodyError>
    ensures { result ≡ (keyed table (key_of_two has_form)).read (view body.now) }
{
    let (resource, what) = read_had(body)?;
    Ok(Key {
        table,
        a: resource.get(),
        b: what,
        c: 0,
    })
}

fn member_key(table: Table, body: &Value) -> Result<Key, BodyError>
    ensures { result ≡ (keyed table member_form).read (view body.now) }
{
    let (group, member, from) = read_membership(body)?;
    Ok(Key {
        table,
        a: group.get(),
        b: member.get(),
        c: from.get(),
    })
}

// ---- rows

#[tactic(auto, unfolding(crate::specs::Tables::zone_table))]
fn read_zone(alloc: Global, body: &Value) -> Result<AnyRow, BodyError>
    ensures { IsRead ((row_form zone_table).read (view body.now)) result }
{
    let id = value_at(body, Field::Id)?;
    let name = name_at(alloc, body, Field::Name)?;
    let shifts = list_at(alloc, body, Field::Shifts)?;
    Ok(AnyRow::Zone(ZoneRow { id, name, shifts }))
}

#[tactic(auto, unfolding(crate::specs::Tables::calendar_table))]
fn read_calendar(alloc: Global, body: &Value) -> Result<AnyRow, BodyError>
    ensures { IsRead ((row_form calendar_table).read (view body.now)) result }
{
    let id = value_at(body, Field::Id)?;
    let name = name_at(alloc, body, Field::Name)?;
    let zone = value_at(body, Field::Zone)?;
    Ok(AnyRow::Calendar(CalendarRow { id, name, zone }))
}

#[tactic(auto, unfolding(crate::specs::Tables::work_table))]
fn read_work(body: &Value) -> Result<AnyRow, BodyError>
    ensures { result ≡ (row_form work_table).read (view body.now) }
{
    let (calendar, weekday, from) = read_week(body)?;
    let to = value_at(body, Field::To)?;
    let capacity = value_at(body, Field::Capacity)?;
    Ok(AnyRow::Work(WorkRow {
        calendar,
        weekday,
        from,
        to,
        capacity,
    }))
}

#[tactic(auto, unfolding(crate::specs::Tables::break_table))]
fn read_break(body: &Value) -> Result<AnyRow, BodyError>
    ensures { result ≡ (row_form break_table).read (view body.now) }
{
    let (calendar, weekday, from) = read_week(body)?;
    let to = value_at(body, Field::To)?;
    Ok(AnyRow::Break(BreakRow {
        calendar,
        weekday,
        from,
        to,
    }))
}

#[tactic(auto, unfolding(crate::specs::Tables::day_table))]
fn read_day(body: &Value) -> Result<AnyRow, BodyError>
    ensures { result ≡ (row_form day_table).read (view body.now) }
{
    let (calendar, day, from) = read_date(body)?;
    let to = value_at(body, Field::To)?;
    let capacity = value_at(body, Field::Capacity)?;
    Ok(AnyRow::Day(DayRow {
        calendar,
        day,
        from,
        to,
        capacity,
    }))
}

#[tactic(auto, unfolding(crate::specs::Tables::off_table))]
fn read_off(body: &Value) -> Result<AnyRow, BodyError>
    ensures { result ≡ (row_form off_table).read (view body.now) }
{
    let (resource, from) = read_off_start(body)?;
    let to = value_at(body, Field::To)?;
    Ok(AnyRow::Off(OffRow { resource, from, to }))
}

/// A named row as one of a table.
fn named_in(table: Table, row: NamedRow) -> AnyRow
    ensures { result ≡ named_in table row }
{
    match table {
        Table::Site => AnyRow::Site(row),
        Table::Role => AnyRow::Role(row),
        Table::Characteristic => AnyRow::Characteristic(row),
        Table::Territory => AnyRow::Territory(row),
        _ => AnyRow::Unit(row),
    }
}

#[tactic(auto, unfolding(crate::specs::Tables::named_table))]
fn read_named(alloc: Global, table: Table, body: &Value) -> Result<AnyRow, BodyError>
    ensures { IsRead ((row_form (named_table table)).read (view body.now)) result }
{
    let id = value_at(body, Field::Id)?;
    let name = name_at(alloc, body, Field::Name)?;
    Ok(named_in(table, NamedRow { id, name }))
}

#[tactic(auto, unfolding(crate::specs::Tables::nature_form))]
fn read_nature(alloc: Global, body: &Value) -> Result<(Name, Kind, Option<CalendarId>), BodyError>
    ensures { IsRead (nature_form.read (view body.now)) result }
{
    let name = name_at(alloc, body, Field::Name)?;
    let kind = value_at(body, Field::Kind)?;
    let calendar = value_at(body, Field::Calendar)?;
    Ok((name, kind, calendar))
}

#[tactic(auto, unfolding(crate::specs::Tables::place_form))]
fn read_place(body: &Value) -> Result<(UnitId, SiteId), BodyError>
    ensures { result ≡ place_form.read (view body.now) }
{
    let unit = value_at(body, Field::Unit)?;
    let site = value_at(body, Field::Site)?;
    Ok((unit, site))
}

#[tactic(auto, unfolding(crate::specs::Tables::resource_table))]
fn read_resource(alloc: Global, body: &Value) -> Result<AnyRow, BodyError>
    ensures { IsRead ((row_form resource_table).read (view body.now)) result }
{
    let id = value_at(body, Field::Id)?;
    let (name, kind, calendar) = read_nature(alloc, body)?;
    let (unit, site) = read_place(body)?;
    Ok(AnyRow::Resource(ResourceRow {
        id,
        name,
        kind,
        calendar,
        unit,
        site,
    }))
}

/// What a resource has, as a row of a table.
fn has_in(table: Table, row: HasRow) -> AnyRow
    ensures { result ≡ has_in table row }
{
    match table {
        Table::HasCharacteristic => AnyRow::HasCharacteristic(row),
        Table::HasTerritory => AnyRow::HasTerritory(row),
        _ => AnyRow::HasRole(row),
    }
}

#[tactic(auto, unfolding(crate::specs::Tables::has_table))]
fn read_has(table: Table, body: &Value) -> Result<AnyRow, BodyError>
    ensures { result ≡ (row_form (has_table table)).read (view body.now) }
{
    let (resource, what) = read_had(body)?;
    let row = HasRow {
        resource,
        what,
        rating: 0,
    };
    Ok(has_in(table, row))
}

#[tactic(auto, unfolding(crate::specs::Tables::rated_table))]
fn read_rated(body: &Value) -> Result<AnyRow, BodyError>
    ensures { result ≡ (row_form rated_table).read (view body.now) }
{
    let (resource, what) = read_had(body)?;
    let rating = value_at(body, Field::Rating)?;
    Ok(AnyRow::HasCharacteristic(HasRow {
        resource,
        what,
        rating,
    }))
}

#[tactic(auto, unfolding(crate::specs::Tables::member_table))]
fn read_member(body: &Value) -> Result<AnyRow, BodyError>
    ensures { result ≡ (row_form member_table).read (view body.now) }
{
    let (group, member, from) = read_membership(body)?;
    let to = value_at(body, Field::To)?;
    Ok(AnyRow::Member(MemberRow {
        group,
        member,
        from,
        to,
    }))
}

// ---- tables

/// The fault of a table whose rows no body puts one by one.
fn no_such_act() -> BodyError
    ensures { result ≡ BodyError.Bad BodyRule.Range Field.Act }
{
    BodyError::Bad(BodyRule::Range, Field::Act)
}

/// The row of a table.
#[tactic(auto, unfolding(crate::specs::Tables::no_table))]
pub fn read_row(alloc: Global, table: Table, body: &Value) -> Result<AnyRow, BodyError>
    ensures { IsRead ((row_form (described table)).read (view body.now)) result }
{
    match table {
        Table::Zone => read_zone(alloc, body),
        Table::Calendar => read_calendar(alloc, body),
        Table::Work => read_work(body),
        Table::Break => read_break(body),
        Table::Day => read_day(body),
        Table::Off => read_off(body),
        Table::Unit => read_named(alloc, Table::Unit, body),
        Table::Site => read_named(alloc, Table::Site, body),
        Table::Role => read_named(alloc, Table::Role, body),
        Table::Characteristic => read_named(alloc, Table::Characteristic, body),
        Table::Territory => read_named(alloc, Table::Territory, body),
        Table::Resource => read_resource(alloc, body),
        Table::HasRole => read_has(Table::HasRole, body),
        Table::HasCharacteristic => read_rated(body),
        Table::HasTerritory => read_has(Table::HasTerritory, body),
        Table::Member => read_member(body),
        Table::Group => Err(no_such_act()),
        Table::Booking => Err(no_such_act()),
        Table::Caller => Err(no_such_act()),
        Table::BookingNumbers => Err(no_such_act()),
    }
}

/// The key of a row of a table.
#[tactic(auto, unfolding(crate::specs::Tables::zone_table, crate::specs::Tables::calendar_table, crate::specs::Tables::work_table, crate::specs::Tables::break_table, crate::specs::Tables::day_table, crate::specs::Tables::off_table, crate::specs::Tables::named_table, crate::specs::Tables::resource_table, crate::specs::Tables::has_table, crate::specs::Tables::rated_table, crate::specs::Tables::member_table, crate::specs::Tables::no_table))]
pub(crate) fn read_key(table: Table, body: &Value) -> Result<Key, BodyError>
    ensures { result ≡ (key_form table).read (view body.now) }
{
    match table {
        Table::Zone => id_key(Table::Zone, body),
        Table::Calendar => id_key(Table::Calendar, body),
        Table::Work => week_key(Table::Work, body),
        Table::Break => week_key(Table::Break, body),
        Table::Day => date_key(Table::Day, body),
        Table::Off => off_key(Table::Off, body),
        Table::Unit => number_key(Table::Unit, body),
        Table::Site => number_key(Table::Site, body),
        Table::Role => number_key(Table::Role, body),
        Table::Characteristic => number_key(Table::Characteristic, body),
        Table::Territory => number_key(Table::Territory, body),
        Table::Resource => id_key(Table::Resource, body),
        Table::HasRole => has_key(Table::HasRole, body),
        Table::HasCharacteristic => has_key(Table::HasCharacteristic, body),
        Table::HasTerritory => has_key(Table::HasTerritory, body),
        Table::Member => member_key(Table::Member, body),
        Table::Group => Err(no_such_act()),
        Table::Booking => Err(no_such_act()),
        Table::Caller => Err(no_such_act()),
        Table::BookingNumbers => Err(no_such_act()),
    }
}

/// The names of a table's fields: those of its key, and the others.
#[derive(Clone, Copy)]
pub struct Columns {
    pub key: &'static [&'static str],
    pub others: &'static [&'static str],
}

/// The names of the fields of a table.
#[tactic(auto, unfolding(crate::specs::Tables::week_form, crate::specs::Tables::date_form, crate::specs::Tables::off_form, crate::specs::Tables::has_form, crate::specs::Tables::member_form, crate::specs::Tables::nature_form, crate::specs::Tables::place_form, crate::specs::Tables::zone_table, crate::specs::Tables::calendar_table, crate::specs::Tables::work_table, crate::specs::Tables::break_table, crate::specs::Tables::day_table, crate::specs::Tables::off_table, crate::specs::Tables::named_table, crate::specs::Tables::resource_table, crate::specs::Tables::has_table, crate::specs::Tables::rated_table, crate::specs::Tables::member_table, crate::specs::Tables::no_table))]
pub fn columns_of(table: Table) -> Columns
    ensures key { map (λ known. known.now) result.key.now ≡ (described table).key.names }
    ensures others { map (λ known. known.now) result.others.now ≡ (described table).rest.names }
{
    let (key, others): (&'static [&'static str], &'static [&'static str]) = match table {
        Table::Zone => (&["id"], &["name", "shifts"]),
        Table::Calendar => (&["id"], &["name", "zone"]),
        Table::Work => (&["calendar", "weekday", "from"], &["to", "capacity"]),
        Table::Break => (&["calendar", "weekday", "from"], &["to"]),
        Table::Day => (&["calendar", "day", "from"], &["to", "capacity"]),
        Table::Off => (&["resource", "from"], &["to"]),
        Table::Unit => (&["id"], &["name"]),
        Table::Site => (&["id"], &["name"]),
        Table::Role => (&["id"], &["name"]),
        Table::Characteristic => (&["id"], &["name"]),
        Table::Territory => (&["id"], &["name"]),
        Table::Resource => (&["id"], &["name", "kind", "calendar", "unit", "site"]),
        Table::HasRole => (&["resource", "what"], &[]),
        Table::HasCharacteristic => (&["resource", "what"], &["rating"]),
        Table::HasTerritory => (&["resource", "what"], &[]),
        Table::Member => (&["group", "member", "from"], &["to"]),
        Table::Group => (&[], &[]),
        Table::Booking => (&[], &[]),
        Table::Caller => (&[], &[]),
        Table::BookingNumbers => (&[], &[]),
    };
    Columns { key, others }
}
