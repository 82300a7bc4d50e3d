//! Rows of the tables up to memberships, as values.
ghost use Rattle.std.specs.Prelude.{◌≡◌, IfOk, All};
ghost use Rattle.serde_json.specs.View.{view};
ghost use Rattle.desk_time.specs.Limits.{IsDay};
ghost use Rattle.desk_kept.specs.Values.{IsShift};
ghost use Rattle.desk_kept.specs.Rows.{zone_data, calendar_data, work_data, break_data, day_row_data, off_data, named_data, resource_data, has_data, rated_data, member_data};

use crate::names::kind_name;
use crate::values::{day_value, id_or_null, shifts_value};
use desk_base::{
    BreakRow, CalendarRow, DayRow, HasRow, MemberRow, NamedRow, OffRow, ResourceRow, WorkRow,
    ZoneRow,
};
use desk_json::moment_value;
use serde_json::{Value, json};
use std::alloc::{AllocError, Global};

pub(crate) fn zone_value(alloc: Global, row: &ZoneRow) -> Result<Value, AllocError>
    requires { All IsShift row.now.shifts }
    ensures { IfOk result (λ value. view value ≡ zone_data row.now) }
{
    let id = row.id.get();
    let name = row.name.as_str();
    let shifts = shifts_value(alloc, row.shifts.as_slice())?;
    json!(in alloc; {"id": id, "name": name, "shifts": shifts})
}

pub(crate) fn calendar_value(alloc: Global, row: &CalendarRow) -> Result<Value, AllocError>
    ensures { IfOk result (λ value. view value ≡ calendar_data row.now) }
{
    let id = row.id.get();
    let name = row.name.as_str();
    let zone = row.zone.get();
    json!(in alloc; {"id": id, "name": name, "zone": zone})
}

pub(crate) fn work_value(alloc: Global, row: &WorkRow) -> Result<Value, AllocError>
    ensures { IfOk result (λ value. view value ≡ work_data row.now) }
{
    let row = *row;
    let calendar = row.calendar.get();
    json!(in alloc; {"calendar": calendar, "capacity": row.capacity, "from": row.from, "to": row.to, "weekday": row.weekday})
}

pub(crate) fn break_value(alloc: Global, row: &BreakRow) -> Result<Value, AllocError>
    ensures { IfOk result (λ value. view value ≡ break_data row.now) }
{
    let row = *row;
    let calendar = row.calendar.get();
    json!(in alloc; {"calendar": calendar, "from": row.from, "to": row.to, "weekday": row.weekday})
}

pub(crate) fn day_row_value(alloc: Global, row: &DayRow) -> Result<Value, AllocError>
    requires { IsDay row.now.day }
    ensures { IfOk result (λ value. view value ≡ day_row_data row.now) }
{
    let row = *row;
    let calendar = row.calendar.get();
    let day = day_value(alloc, row.day)?;
    json!(in alloc; {"calendar": calendar, "capacity": row.capacity, "day": day, "from": row.from, "to": row.to})
}

pub(crate) fn off_value(alloc: Global, row: &OffRow) -> Result<Value, AllocError>
    ensures { IfOk result (λ value. view value ≡ off_data row.now) }
{
    let resource = row.resource.get();
    let from = moment_value(alloc, row.from)?;
    let to = moment_value(alloc, row.to)?;
    json!(in alloc; {"from": from, "resource": resource, "to": to})
}

pub(crate) fn named_value(alloc: Global, row: &NamedRow) -> Result<Value, AllocError>
    ensures { IfOk result (λ value. view value ≡ named_data row.now) }
{
    let id = row.id;
    let name = row.name.as_str();
    json!(in alloc; {"id": id, "name": name})
}

pub(crate) fn resource_value(alloc: Global, row: &ResourceRow) -> Result<Value, AllocError>
    ensures { IfOk result (λ value. view value ≡ resource_data row.now) }
{
    let calendar = id_or_null(row.calendar);
    let id = row.id.get();
    let kind = kind_name(row.kind);
    let name = row.name.as_str();
    let site = row.site.get();
    let unit = row.unit.get();
    json!(in alloc; {"calendar": calendar, "id": id, "kind": kind, "name": name, "site": site, "unit": unit})
}

pub(crate) fn has_value(alloc: Global, row: &HasRow) -> Result<Value, AllocError>
    ensures { IfOk result (λ value. view value ≡ has_data row.now) }
{
    let row = *row;
    let resource = row.resource.get();
    json!(in alloc; {"resource": resource, "what": row.what})
}

pub(crate) fn rated_value(alloc: Global, row: &HasRow) -> Result<Value, AllocError>
    ensures { IfOk result (λ value. view value ≡ rated_data row.now) }
{
    let row = *row;
    let resource = row.resource.get();
    json!(in alloc; {"rating": row.rating, "resource": resource, "what": row.what})
}

pub(crate) fn member_value(alloc: Global, row: &MemberRow) -> Result<Value, AllocError>
    ensures { IfOk result (λ value. view value ≡ member_data row.now) }
{
    let group = row.group.get();
    let member = row.member.get();
    let from = moment_value(alloc, row.from)?;
    let to = moment_value(alloc, row.to)?;
    json!(in alloc; {"from": from, "group": group, "member": member, "to": to})
}
