//! The JSON of a page of rows.
ghost use Rattle.std.specs.Prelude.{◌≡◌, ◌++◌, map, All, IfOk, OnOk, MatchOption, ⊤};
ghost use Rattle.serde_json.specs.View.{view};
ghost use Rattle.desk_base.specs.search.Positions.{found_of};
ghost use Rattle.desk_json.specs.AnsweredPages.{IsRow, HasPlaces};
ghost use Rattle.desk_json.specs.CursorReading.{IsPick};
ghost use Rattle.desk_json.specs.Values.{number_or_null};
ghost use Rattle.desk_json.specs.Pages.{row_data, rows_data, next_data, page_object, page_data};

use crate::cursors::text_behind;
use crate::moments::moment_value;
use desk_base::{Found, NoMemory, Page, Position, ResourceId};
use serde_json::{Value, json, push};
use std::alloc::{AllocError, Global};

fn pick_value(pick: Option<ResourceId>) -> Value
    ensures value { view result ≡ number_or_null pick }
    ensures pick { IsPick pick }
{
    match pick {
        Some(resource) => Value::from(resource.get()),
        None => Value::Null,
    }
}

fn push_picks(cells: &mut Vec<Value>, picks: &[Option<ResourceId>]) -> Result<(), AllocError>
    ensures cells { OnOk result (map view cells.new.items ≡ map view cells.old.items ++ map number_or_null picks.now) }
    ensures picks { OnOk result (All IsPick picks.now) }
{
    for pick in picks {
        push(cells, pick_value(*pick))?;
    }
    Ok(())
}

fn row_value(alloc: Global, row: &Found) -> Result<Value, AllocError>
    ensures value { IfOk result (λ value. view value ≡ row_data row.now) }
    ensures row { OnOk result (IsRow row.now) }
{
    let start = moment_value(alloc, row.start)?;
    let mut cells = Vec::new(alloc);
    push(&mut cells, start)?;
    push_picks(&mut cells, row.picks.as_slice())?;
    Ok(Value::Array(cells))
}

fn rows_value(alloc: Global, rows: &[Found]) -> Result<Value, AllocError>
    ensures value { IfOk result (λ value. view value ≡ rows_data rows.now) }
    ensures rows { OnOk result (All IsRow rows.now) }
{
    let mut values = Vec::new(alloc);
    for row in rows {
        push(&mut values, row_value(alloc, row)?)?;
    }
    Ok(Value::Array(values))
}

fn next_value(
    alloc: Global,
    revision: u64,
    shown: Option<u16>,
    next: &Option<Position>,
) -> Result<Value, NoMemory>
    ensures value { IfOk result (λ value. view value ≡ next_data revision shown next.now) }
    ensures place { OnOk result (MatchOption next.now ⊤ (λ position. IsRow (found_of position))) }
{
    match next {
        Some(position) => Ok(Value::String(text_behind(alloc, revision, shown, position)?)),
        None => Ok(Value::Null),
    }
}

fn page_object(
    alloc: Global,
    end: bool,
    next: Value,
    revision: u64,
    rows: Value,
) -> Result<Value, AllocError>
    ensures { IfOk result (λ value. view value ≡ page_object end (view next) revision (view rows)) }
{
    json!(in alloc; {"end": end, "next": next, "revision": revision, "rows": rows})
}

/// The object of a page over a revision.
pub(crate) fn page_value(alloc: Global, revision: u64, page: &Page) -> Result<Value, NoMemory>
    ensures value { IfOk result (λ value. view value ≡ page_data revision page.now) }
    ensures places { OnOk result (HasPlaces page.now) }
{
    let next = next_value(alloc, revision, page.shown, &page.next)?;
    let rows = rows_value(alloc, page.rows.as_slice())?;
    Ok(page_object(alloc, page.end, next, revision, rows)?)
}
