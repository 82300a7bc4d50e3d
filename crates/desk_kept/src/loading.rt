//! The tables that kept rows are read as.
ghost use Rattle.std.specs.Prelude.{◌≡◌, ◌⊎◌, ◌++◌, true, false, fold, IfOk, IfErr, OnOk, option_to_list};
ghost use Rattle.desk_base.specs.rows.Trial.{no_rows};
ghost use Rattle.desk_kept.specs.Stored.{row_kept, is_good, with_last, bad_body, place_of, tables_held, tables_kept, kept_anew, IsStored};

use crate::headers::header_of;
use crate::stored::{KeptError, KeptRow, Place};
use crate::versions::{Version, read_version};
use crate::writing::write_tables;
use desk_base::{AnyRow, Items, NoMemory, Tables};
use desk_json::BodyError;
use std::alloc::Global;

/// The row that a kept row is read as.
#[tactic(auto, unfolding(crate::specs::Stored::row_kept))]
fn read_kept_row(
    alloc: Global,
    version: Version,
    kept: &KeptRow,
) -> Result<Option<AnyRow>, NoMemory>
    ensures { IfOk result (λ row. row ≡ row_kept version kept.now) }
{
    let Some(key) = kept.key() else {
        return Ok(None);
    };
    match read_version(alloc, version, &key, kept.body.as_slice()) {
        Ok(row) => Ok(Some(row)),
        Err(BodyError::NoMemory) => Err(NoMemory),
        Err(BodyError::Bad(_, _)) => Ok(None),
    }
}

/// Adds a row at the end of its table.
fn put_last(tables: &mut Tables, row: AnyRow) -> Result<(), NoMemory>
    ensures { OnOk result (tables.new ≡ with_last tables.old row) }
{
    match row {
        AnyRow::Zone(row) => tables.zones.push(row),
        AnyRow::Calendar(row) => tables.calendars.push(row),
        AnyRow::Work(row) => tables.works.push(row),
        AnyRow::Break(row) => tables.breaks.push(row),
        AnyRow::Day(row) => tables.days.push(row),
        AnyRow::Off(row) => tables.offs.push(row),
        AnyRow::Unit(row) => tables.units.push(row),
        AnyRow::Site(row) => tables.sites.push(row),
        AnyRow::Role(row) => tables.roles.push(row),
        AnyRow::Characteristic(row) => tables.characteristics.push(row),
        AnyRow::Territory(row) => tables.territories.push(row),
        AnyRow::Resource(row) => tables.resources.push(row),
        AnyRow::HasRole(row) => tables.has_roles.push(row),
        AnyRow::HasCharacteristic(row) => tables.has_characteristics.push(row),
        AnyRow::HasTerritory(row) => tables.has_territories.push(row),
        AnyRow::Member(row) => tables.members.push(row),
        AnyRow::Group(row) => tables.groups.push(row),
        AnyRow::Booking(row) => tables.bookings.push(row),
        AnyRow::Caller(row) => tables.callers.push(row),
    }
}

/// Adds the row that a kept row holds, where it stands above the one before it.
#[tactic(auto, unfolding(crate::specs::Stored::is_good))]
fn put_kept(
    alloc: Global,
    version: Version,
    before: Option<Place>,
    kept: &KeptRow,
    tables: &mut Tables,
) -> Result<(), KeptError>
    ensures good { OnOk result (is_good version before kept.now ≡ true) }
    ensures tables { OnOk result (tables.new ≡ fold with_last tables.old (option_to_list (row_kept version kept.now))) }
    ensures bad { IfErr result (λ why. ((is_good version before kept.now ≡ false) × (why ≡ bad_body (place_of kept.now))) ⊎ (why ≡ KeptError.NoMemory)) }
{
    let place = kept.place();
    if !place.is_above(before) {
        return Err(place.bad());
    }
    if kept.is_header() {
        return Ok(());
    }
    match read_kept_row(alloc, version, kept)? {
        Some(row) => Ok(put_last(tables, row)?),
        None => Err(place.bad()),
    }
}

/// The tables that kept rows of a version hold.
fn read_rows(alloc: Global, version: Version, rows: &[KeptRow]) -> Result<Tables, KeptError>
    ensures { IsStored (tables_held version rows.now) result }
{
    let mut tables = Tables::empty(alloc);
    let mut before = None;
    for kept in rows {
        put_kept(alloc, version, before, kept, &mut tables)?;
        before = Some(kept.place());
    }
    Ok(tables)
}

/// The tables that kept rows hold. No row at all is the empty tables.
///
/// The error is `BadHeader` where there are rows and none stands at the place of the header, or the first that does cannot be read
/// or names another version than 1 or 2. Else it is `BadBody` of the first row that does not stand above the one before it, that no
/// table can have, or whose body cannot be read in the version of the header.
#[tactic(auto, unfolding(crate::specs::Stored::tables_kept))]
pub fn read_kept(alloc: Global, rows: &[KeptRow]) -> Result<Tables, KeptError>
    ensures { IsStored (tables_kept rows.now) result }
{
    if rows.is_empty() {
        return Ok(Tables::empty(alloc));
    }
    let header = header_of(alloc, rows)?;
    let mut tables = read_rows(alloc, header.version, rows)?;
    tables.revision = header.revision;
    tables.last_booking = header.last_booking;
    Ok(tables)
}

/// The rows of the second version of the tables that kept rows hold, whose version may be the first, with the errors of `read_kept`.
pub fn migrate(alloc: Global, rows: &[KeptRow]) -> Result<Items<KeptRow>, KeptError>
    ensures { IsStored (kept_anew (tables_kept rows.now)) result }
{
    let tables = read_kept(alloc, rows)?;
    Ok(write_tables(alloc, &tables)?)
}
