//! The field rules of zones, calendars, work, breaks, days and times off. A work row and a day row are compared with those of
//! their own calendar and day alone.
ghost use Rattle.std.specs.Prelude.{◌≡◌, ◌==◌, ◌&&◌, nat_le, nat_lt, int_le, neg_ℤ, pos, not, map};
ghost use Rattle.std.specs.List.{list_any, list_all};
ghost use Rattle.desk_base.specs.rows.Lookups.{KeysRise};
ghost use Rattle.desk_base.specs.rules.Fields.{overlaps, are_rising, begins_at, are_shifts, is_part_of_day, zone_rules, calendar_rules, work_rules, break_rules, day_rules, off_rules};
ghost use Rattle.desk_base.specs.rules.Limits.{end_of_minutes, minutes_a_day};
ghost use Rattle.desk_base.specs.rules.Rules.{first_broken};

use crate::fields::names::{is_name, is_within_range, overlap};
use desk_base::limits::{
    CAPACITY_LIMIT, END_OF_MINUTES, FIRST_DAY, FIRST_MINUTE, LAST_DAY, MINUTES_A_DAY, SHIFT_LIMIT,
};
use desk_base::{BreakRow, CalendarRow, DayRow, Field, OffRow, Tables, WorkRow, ZoneRow};

fn are_above(minute: u32, shifts: &[(u32, i32)]) -> bool
    ensures { result ≡ list_all (λ y. nat_lt minute y) (map (λ s. s.0) shifts.now) }
{
    match shifts {
        [] => true,
        [first, others @ ..] => minute < first.0 && are_above(minute, others),
    }
}

fn are_rising(shifts: &[(u32, i32)]) -> bool
    ensures { result ≡ are_rising (map (λ s. s.0) shifts.now) }
{
    match shifts {
        [] => true,
        [first, others @ ..] => are_above(first.0, others) && are_rising(others),
    }
}

fn begins_at(minute: u32, shifts: &[(u32, i32)]) -> bool
    ensures { result ≡ begins_at minute shifts.now }
{
    match shifts {
        [] => false,
        [first, ..] => first.0 == minute,
    }
}

/// They lie in the horizon, and shift clocks by a day at most.
fn are_small(shifts: &[(u32, i32)]) -> bool
    ensures { result ≡ list_all (λ s. nat_le s.0 end_of_minutes && int_le (neg_ℤ (pos minutes_a_day)) s.1 && int_le s.1 (pos minutes_a_day)) shifts.now }
{
    shifts.iter().all(|s| s.0 <= END_OF_MINUTES
        && -(MINUTES_A_DAY as i32) <= s.1
        && s.1 <= MINUTES_A_DAY as i32)
}

fn are_shifts(shifts: &[(u32, i32)]) -> bool
    ensures { result ≡ are_shifts shifts.now }
{
    shifts.len() <= SHIFT_LIMIT
        && begins_at(FIRST_MINUTE, shifts)
        && are_rising(shifts)
        && are_small(shifts)
}

/// A zone has a name and shifts: the first of these rules that it breaks.
pub(crate) fn broken_zone(zone: &ZoneRow) -> Option<Field>
    ensures { result ≡ first_broken (zone_rules zone.now) }
{
    if !is_name(&zone.name) {
        Some(Field::Name)
    } else if !are_shifts(zone.shifts.as_slice()) {
        Some(Field::Shifts)
    } else {
        None
    }
}

/// A calendar has a name.
pub(crate) fn broken_calendar(calendar: &CalendarRow) -> Option<Field>
    ensures { result ≡ first_broken (calendar_rules calendar.now) }
{
    if is_name(&calendar.name) {
        None
    } else {
        Some(Field::Name)
    }
}

fn is_part_of_day(from: u16, to: u16) -> bool
    ensures { result ≡ is_part_of_day from to }
{
    from < to && u32::from(to) <= MINUTES_A_DAY
}

/// The work row meets one of another time among these.
fn meets_work(work: &WorkRow, others: &[WorkRow]) -> bool
    ensures { result ≡ list_any (λ x. not (x.from == work.now.from) && overlaps x.from x.to work.now.from work.now.to) others.now }
{
    others.iter().any(|x| {
        x.from != work.from
            && overlap(
                u32::from(x.from),
                u32::from(x.to),
                u32::from(work.from),
                u32::from(work.to),
            )
    })
}

/// The work row meets another of its calendar and weekday.
fn meets_other_work(tables: &Tables, work: &WorkRow) -> bool
    requires { KeysRise tables.now }
    ensures { result ≡ list_any (λ x. (x.calendar == work.now.calendar) && (x.weekday == work.now.weekday) && not (x.from == work.now.from) && overlaps x.from x.to work.now.from work.now.to) tables.now.works }
{
    let others = tables.works_at(work.calendar, u32::from(work.weekday));
    meets_work(work, others)
}

/// The first rule that a work row breaks among these tables.
pub(crate) fn broken_work(tables: &Tables, work: &WorkRow) -> Option<Field>
    requires { KeysRise tables.now }
    ensures { result ≡ first_broken (work_rules tables.now work.now) }
{
    if work.weekday > 6 {
        Some(Field::Weekday)
    } else if !is_part_of_day(work.from, work.to) {
        Some(Field::To)
    } else if !is_within_range(1, u32::from(CAPACITY_LIMIT), u32::from(work.capacity)) {
        Some(Field::Capacity)
    } else if meets_other_work(tables, work) {
        Some(Field::Overlap)
    } else {
        None
    }
}

/// A break lies in a day of the week: the first of these rules that it breaks.
pub(crate) fn broken_break(pause: &BreakRow) -> Option<Field>
    ensures { result ≡ first_broken (break_rules pause.now) }
{
    if pause.weekday > 6 {
        Some(Field::Weekday)
    } else if !is_part_of_day(pause.from, pause.to) {
        Some(Field::To)
    } else {
        None
    }
}

/// The day row meets one of another time among these.
fn meets_day(day: &DayRow, others: &[DayRow]) -> bool
    ensures { result ≡ list_any (λ x. not (x.from == day.now.from) && overlaps x.from x.to day.now.from day.now.to) others.now }
{
    others.iter().any(|x| {
        x.from != day.from
            && overlap(
                u32::from(x.from),
                u32::from(x.to),
                u32::from(day.from),
                u32::from(day.to),
            )
    })
}

/// The day row meets another of its calendar and day.
fn meets_other_day(tables: &Tables, day: &DayRow) -> bool
    requires { KeysRise tables.now }
    ensures { result ≡ list_any (λ x. (x.calendar == day.now.calendar) && (x.day == day.now.day) && not (x.from == day.now.from) && overlaps x.from x.to day.now.from day.now.to) tables.now.days }
{
    let others = tables.days_at(day.calendar, day.day);
    meets_day(day, others)
}

/// The first rule that a day row breaks among these tables.
pub(crate) fn broken_day(tables: &Tables, day: &DayRow) -> Option<Field>
    requires { KeysRise tables.now }
    ensures { result ≡ first_broken (day_rules tables.now day.now) }
{
    if !is_within_range(FIRST_DAY, LAST_DAY, day.day) {
        Some(Field::Day)
    } else if !is_part_of_day(day.from, day.to) {
        Some(Field::To)
    } else if day.capacity > CAPACITY_LIMIT {
        Some(Field::Capacity)
    } else if meets_other_day(tables, day) {
        Some(Field::Overlap)
    } else {
        None
    }
}

/// A time off is not empty.
pub(crate) fn broken_off(off: &OffRow) -> Option<Field>
    ensures { result ≡ first_broken (off_rules off.now) }
{
    if off.from.get() < off.to.get() {
        None
    } else {
        Some(Field::To)
    }
}
