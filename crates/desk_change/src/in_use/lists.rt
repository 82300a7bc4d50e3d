//! The first row of a table that names a key, by its own key. Where the keys of the table begin with the number that is named, or
//! the index lists the rows by it, only those rows are looked at.
ghost use Rattle.std.specs.Prelude.{◌≡◌, find, map, option_map, true};
ghost use Rattle.std.specs.Option.{option_copied};
ghost use Rattle.desk_base.specs.asked.Refusing.{cites};
ghost use Rattle.desk_base.specs.declared.rows.tables.Table.TheVariants.{Booking, Break, Calendar, Day, Group, HasCharacteristic, HasRole, HasTerritory, Member, Off, Resource, Work};
ghost use Rattle.desk_base.specs.rows.Rows.{key_of};
ghost use Rattle.desk_base.specs.rules.Sound.{IsSound};
ghost use Rattle.desk_change.specs.Citing.{citing_in, lesser};
ghost use Rattle.desk_change.specs.Served.{is_master};
ghost use Rattle.desk_load.specs.Index.{IsIndexOf};

use crate::in_use::cites::Citing;
use crate::in_use::ranges::{
    bookings_on, breaks_of, characteristics_of, days_of, members_of, memberships_of, offs_of,
    roles_of, territories_of, works_of,
};
use desk_base::{Key, Table, Tables};
use desk_load::LoadIndex;
use std::cmp::Ordering;

/// The first of the rows that names the key.
fn citing<'a, R: Citing>(rows: &'a [R], table: Table, key: &Key) -> Option<&'a R>
    ensures { option_copied result ≡ find (λ row. cites key.now (R.any table row)) rows.now }
{
    rows.iter().find(|row| row.cites(table, key))
}

/// The key of the row that was found, if one was.
fn key_of_found<R: Citing>(found: Option<&R>, table: Table) -> Option<Key>
    ensures { result ≡ option_map (λ row. key_of (R.any table row)) (option_copied found.entry) }
{
    match found {
        Some(row) => Some(row.own_key(table)),
        None => None,
    }
}

/// The first of the rows that names the key, by its own key.
fn first_citing<R: Citing>(rows: &[R], table: Table, key: &Key) -> Option<Key>
    ensures { result ≡ option_map key_of (find (cites key.now) (map (R.any table) rows.now)) }
{
    let found = citing(rows, table, key);
    key_of_found(found, table)
}

pub(crate) fn citing_calendar(tables: &Tables, key: &Key) -> Option<Key>
    ensures { result ≡ citing_in tables.now key.now Calendar }
{
    first_citing(tables.calendars.as_slice(), Table::Calendar, key)
}

pub(crate) fn citing_work(tables: &Tables, key: &Key) -> Option<Key>
    requires { IsSound tables.now }
    ensures { result ≡ citing_in tables.now key.now Work }
{
    first_citing(works_of(tables, key.a), Table::Work, key)
}

pub(crate) fn citing_break(tables: &Tables, key: &Key) -> Option<Key>
    requires { IsSound tables.now }
    ensures { result ≡ citing_in tables.now key.now Break }
{
    first_citing(breaks_of(tables, key.a), Table::Break, key)
}

pub(crate) fn citing_day(tables: &Tables, key: &Key) -> Option<Key>
    requires { IsSound tables.now }
    ensures { result ≡ citing_in tables.now key.now Day }
{
    first_citing(days_of(tables, key.a), Table::Day, key)
}

pub(crate) fn citing_off(tables: &Tables, key: &Key) -> Option<Key>
    requires { IsSound tables.now }
    ensures { result ≡ citing_in tables.now key.now Off }
{
    first_citing(offs_of(tables, key.a), Table::Off, key)
}

pub(crate) fn citing_resource(tables: &Tables, key: &Key) -> Option<Key>
    ensures { result ≡ citing_in tables.now key.now Resource }
{
    first_citing(tables.resources.as_slice(), Table::Resource, key)
}

/// The first role of a resource that names the key: among those of one resource, where the key is that of a resource.
pub(crate) fn citing_role(tables: &Tables, key: &Key) -> Option<Key>
    requires { IsSound tables.now }
    ensures { result ≡ citing_in tables.now key.now HasRole }
{
    match key.table {
        Table::Resource => first_citing(roles_of(tables, key.a), Table::HasRole, key),
        _ => first_citing(tables.has_roles.as_slice(), Table::HasRole, key),
    }
}

/// The first characteristic of a resource that names the key.
pub(crate) fn citing_characteristic(tables: &Tables, key: &Key) -> Option<Key>
    requires { IsSound tables.now }
    ensures { result ≡ citing_in tables.now key.now HasCharacteristic }
{
    match key.table {
        Table::Resource => first_citing(
            characteristics_of(tables, key.a),
            Table::HasCharacteristic,
            key,
        ),
        _ => first_citing(
            tables.has_characteristics.as_slice(),
            Table::HasCharacteristic,
            key,
        ),
    }
}

/// The first territory of a resource that names the key.
pub(crate) fn citing_territory(tables: &Tables, key: &Key) -> Option<Key>
    requires { IsSound tables.now }
    ensures { result ≡ citing_in tables.now key.now HasTerritory }
{
    match key.table {
        Table::Resource => { first_citing(territories_of(tables, key.a), Table::HasTerritory, key) }
        _ => first_citing(tables.has_territories.as_slice(), Table::HasTerritory, key),
    }
}

/// The lesser of two keys, or the one that there is.
fn lesser(one: Option<Key>, other: Option<Key>) -> Option<Key>
    ensures { result ≡ lesser one other }
{
    match one {
        None => other,
        Some(first) => match other {
            None => Some(first),
            Some(second) => match second.compare(&first) {
                Ordering::Less => Some(second),
                Ordering::Equal => Some(first),
                Ordering::Greater => Some(first),
            },
        },
    }
}

/// The first membership that names the key: as its crew or pool, or as its member.
pub(crate) fn citing_member(tables: &Tables, index: &LoadIndex, key: &Key) -> Option<Key>
    requires sound { IsSound tables.now }
    requires index { IsIndexOf tables.now index.now }
    ensures { result ≡ citing_in tables.now key.now Member }
{
    let as_group = first_citing(members_of(tables, key.a), Table::Member, key);
    let as_member = first_citing(memberships_of(tables, index, key.a), Table::Member, key);
    lesser(as_group, as_member)
}

pub(crate) fn citing_group(tables: &Tables, key: &Key) -> Option<Key>
    ensures { result ≡ citing_in tables.now key.now Group }
{
    first_citing(tables.groups.as_slice(), Table::Group, key)
}

/// The first booking that names the key, which is not that of a group.
pub(crate) fn citing_booking(tables: &Tables, index: &LoadIndex, key: &Key) -> Option<Key>
    requires sound { IsSound tables.now }
    requires index { IsIndexOf tables.now index.now }
    requires master { is_master key.now.table ≡ true }
    ensures { result ≡ citing_in tables.now key.now Booking }
{
    first_citing(bookings_on(tables, index, key.a), Table::Booking, key)
}
