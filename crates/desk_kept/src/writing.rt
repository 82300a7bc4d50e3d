//! The kept rows of tables.
ghost use Rattle.std.specs.Prelude.{◌≡◌, ◌++◌, All, IfOk, OnOk, map};
ghost use Rattle.desk_base.specs.rows.Rows.{rows_in};
ghost use Rattle.desk_base.specs.declared.rows.tables.Table.{Table};
ghost use Rattle.desk_base.specs.rules.Sound.{IsSound};
ghost use Rattle.desk_kept.specs.Typed.{HasHorizon};
ghost use Rattle.desk_kept.specs.Stored.{kept_row, kept_rows};

use crate::headers::header_row;
use crate::stored::{ALL_TABLES, KeptRow};
use crate::text::row_text;
use crate::written::Written;
use desk_base::{AnyRow, Items, NoMemory, Table, Tables};
use std::alloc::Global;

/// The kept row of a row.
#[tactic(auto, unfolding(crate::specs::Stored::kept_row))]
fn kept_row(alloc: Global, row: &AnyRow) -> Result<KeptRow, NoMemory>
    requires { HasHorizon row.now }
    ensures { IfOk result (λ kept. kept ≡ kept_row row.now) }
{
    let body = row_text(alloc, row)?;
    let key = row.key();
    Ok(KeptRow {
        kind: key.table.number(),
        a: key.a,
        b: key.b,
        c: key.c,
        body,
    })
}

/// Adds the kept rows of rows of a table.
fn put_rows<R: Written>(
    kept: &mut Items<KeptRow>,
    alloc: Global,
    table: Table,
    rows: &[R],
) -> Result<(), NoMemory>
    requires { All HasHorizon (map (R.any table) rows.now) }
    ensures { OnOk result (kept.new ≡ kept.old ++ map kept_row (map (R.any table) rows.now)) }
{
    for row in rows {
        let row = row.copy_in(alloc, table)?;
        kept.push(kept_row(alloc, &row)?)?;
    }
    Ok(())
}

/// Adds the kept rows of a table.
fn put_table(
    kept: &mut Items<KeptRow>,
    alloc: Global,
    tables: &Tables,
    table: Table,
) -> Result<(), NoMemory>
    requires { All HasHorizon (rows_in tables.now table) }
    ensures { OnOk result (kept.new ≡ kept.old ++ map kept_row (rows_in tables.now table)) }
{
    match table {
        Table::Zone => put_rows(kept, alloc, table, tables.zones.as_slice()),
        Table::Calendar => put_rows(kept, alloc, table, tables.calendars.as_slice()),
        Table::Work => put_rows(kept, alloc, table, tables.works.as_slice()),
        Table::Break => put_rows(kept, alloc, table, tables.breaks.as_slice()),
        Table::Day => put_rows(kept, alloc, table, tables.days.as_slice()),
        Table::Off => put_rows(kept, alloc, table, tables.offs.as_slice()),
        Table::Unit => put_rows(kept, alloc, table, tables.units.as_slice()),
        Table::Site => put_rows(kept, alloc, table, tables.sites.as_slice()),
        Table::Role => put_rows(kept, alloc, table, tables.roles.as_slice()),
        Table::Characteristic => put_rows(kept, alloc, table, tables.characteristics.as_slice()),
        Table::Territory => put_rows(kept, alloc, table, tables.territories.as_slice()),
        Table::Resource => put_rows(kept, alloc, table, tables.resources.as_slice()),
        Table::HasRole => put_rows(kept, alloc, table, tables.has_roles.as_slice()),
        Table::HasCharacteristic => put_rows(
            kept,
            alloc,
            table,
            tables.has_characteristics.as_slice(),
        ),
        Table::HasTerritory => put_rows(kept, alloc, table, tables.has_territories.as_slice()),
        Table::Member => put_rows(kept, alloc, table, tables.members.as_slice()),
        Table::Group => put_rows(kept, alloc, table, tables.groups.as_slice()),
        Table::Booking => put_rows(kept, alloc, table, tables.bookings.as_slice()),
        Table::Caller => put_rows(kept, alloc, table, tables.callers.as_slice()),
        Table::BookingNumbers => Ok(()),
    }
}

/// The kept rows of tables whose rows have their days and shifts in the horizon.
#[tactic(auto, unfolding(crate::specs::Stored::kept_rows))]
pub(crate) fn write_tables(alloc: Global, tables: &Tables) -> Result<Items<KeptRow>, NoMemory>
    requires { (table : Table) → All HasHorizon (rows_in tables.now table) }
    ensures { IfOk result (λ kept. kept ≡ kept_rows tables.now) }
{
    let mut kept = Items::new(alloc);
    for table in &ALL_TABLES {
        put_table(&mut kept, alloc, tables, *table)?;
    }
    kept.push(header_row(alloc, tables)?)?;
    Ok(kept)
}

/// The rows of a store that keeps the tables, in the order of their places: those of each table in turn, and last the header. They
/// are of the second version.
pub fn kept_rows(alloc: Global, tables: &Tables) -> Result<Items<KeptRow>, NoMemory>
    requires { IsSound tables.now }
    ensures { IfOk result (λ kept. kept ≡ kept_rows tables.now) }
{
    write_tables(alloc, tables)
}
