//! `desk_calendar`: capacities that were worked out by hand.
ghost use Rattle.desk_base.specs.rows.Lookups.{KeysRise};

use crate::schedules::{
    EIGHT, HALF_PAST_EIGHT, NINE, NOON, TEN, add_calendar, add_off, add_resource, add_work,
    add_zone, trial, window, with_rows,
};
use desk_base::{AnyRow, AnyRows, BreakRow, CalendarId, DayRow, Items, Kind, ResourceId, Tables};
use desk_calendar::capacity_profile;
use std::alloc::Global;
use std::process::Abort;

/// A resource, a window, and the capacity that it has at each of its minutes.
type Level = (u32, u32, u32, i64);

/// The capacity of a resource over a window, where it is the same at each of its minutes.
fn level(alloc: Global, tables: &Tables, resource: u32, from: u32, to: u32) -> Option<i64>
    requires { KeysRise tables.now }
{
    if to <= from {
        return None;
    }
    let id = ResourceId::of(resource)?;
    let profile = capacity_profile(alloc, tables, id, window(from, to)?).ok()?;
    let stretch = profile.stretch_at(from);
    if stretch.end == to {
        Some(stretch.value)
    } else {
        None
    }
}

fn has_levels(rt: &impl Abort, alloc: Global, tables: &Tables, levels: &[Level])
    requires { KeysRise tables.now }
{
    for (resource, from, to, capacity) in levels {
        let found = level(alloc, tables, *resource, *from, *to);
        assert!(rt; found == Some(*capacity), "of {resource} from {from}");
    }
}

#[test]
fn work_of_a_weekday(rt: HostRuntime) {
    let alloc = rt.alloc();
    let tables = trial(alloc).expect(&rt, "the trial tables");
    let levels = [
        (1, EIGHT - 60, EIGHT, 0),
        (1, EIGHT, NOON, 1),
        (1, NOON, NOON + 60, 0),
        (3, EIGHT, TEN, 0),
        (3, TEN, NOON, 1),
        (3, NOON, NOON + 6 * 1440, 0),
    ];
    has_levels(&rt, alloc, &tables, &levels);
}

fn add_break(rows: &mut AnyRows, calendar: u32, from: u16, to: u16) -> Option<()> {
    let row = BreakRow {
        calendar: CalendarId::of(calendar)?,
        weekday: 0,
        from,
        to,
    };
    rows.push(AnyRow::Break(row)).ok()
}

fn add_day(rows: &mut AnyRows, calendar: u32, from: u16, to: u16, capacity: u16) -> Option<()> {
    let row = DayRow {
        calendar: CalendarId::of(calendar)?,
        day: 20_094,
        from,
        to,
        capacity,
    };
    rows.push(AnyRow::Day(row)).ok()
}

fn with_gaps(alloc: Global) -> Option<AnyRows> {
    let mut rows = Items::new(alloc);
    add_break(&mut rows, 1, 600, 660)?;
    add_off(&mut rows, 1, HALF_PAST_EIGHT, NINE)?;
    add_day(&mut rows, 2, 540, 600, 2)?;
    Some(rows)
}

#[test]
fn a_time_off_a_break_and_a_day_of_its_own(rt: HostRuntime) {
    let alloc = rt.alloc();
    let tables = trial(alloc).expect(&rt, "the trial tables");
    let rows = with_gaps(alloc).expect(&rt, "memory");
    let tables = with_rows(alloc, tables, rows).expect(&rt, "memory");
    let levels = [
        (1, EIGHT, HALF_PAST_EIGHT, 1),
        (1, HALF_PAST_EIGHT, NINE, 0),
        (1, NINE, TEN, 1),
        (1, TEN, TEN + 60, 0),
        (1, TEN + 60, NOON, 1),
        (2, EIGHT, TEN, 1),
        (3, EIGHT, NINE, 0),
        (3, NINE, TEN, 2),
        (3, TEN, NOON, 0),
    ];
    has_levels(&rt, alloc, &tables, &levels);
}

fn at_the_end(alloc: Global) -> Option<AnyRows> {
    let mut rows = Items::new(alloc);
    add_calendar(alloc, &mut rows, 3, 1)?;
    add_work(&mut rows, 3, 3, (1380, 1440), 1)?;
    add_resource(alloc, &mut rows, 4, Kind::Generic, 3)?;
    Some(rows)
}

#[test]
fn work_up_to_the_end_of_the_horizon(rt: HostRuntime) {
    let alloc = rt.alloc();
    let tables = trial(alloc).expect(&rt, "the trial tables");
    let rows = at_the_end(alloc).expect(&rt, "memory");
    let tables = with_rows(alloc, tables, rows).expect(&rt, "memory");
    let levels = [
        (4, 68_373_960, 68_374_020, 0),
        (4, 68_374_020, 68_374_080, 1),
    ];
    has_levels(&rt, alloc, &tables, &levels);
}

fn in_a_zone(alloc: Global) -> Option<AnyRows> {
    let mut rows = Items::new(alloc);
    add_zone(alloc, &mut rows, 2, &[(15_778_080, 60), (29_054_940, 120)])?;
    add_calendar(alloc, &mut rows, 3, 2)?;
    add_work(&mut rows, 3, 0, (480, 720), 1)?;
    add_resource(alloc, &mut rows, 4, Kind::Generic, 3)?;
    add_calendar(alloc, &mut rows, 4, 2)?;
    add_work(&mut rows, 4, 0, (0, 60), 1)?;
    add_work(&mut rows, 4, 6, (0, 1440), 2)?;
    add_resource(alloc, &mut rows, 5, Kind::Generic, 4)?;
    Some(rows)
}

// Clocks go from one hour ahead of UTC to two on Sunday 2025-03-30 at 01:00Z.
#[test]
fn clocks_that_are_set(rt: HostRuntime) {
    let alloc = rt.alloc();
    let tables = trial(alloc).expect(&rt, "the trial tables");
    let rows = in_a_zone(alloc).expect(&rt, "memory");
    let tables = with_rows(alloc, tables, rows).expect(&rt, "memory");
    let levels = [
        (4, 29_056_620, 29_056_680, 0),
        (4, 29_056_680, 29_056_740, 1),
        (5, 29_054_760, 29_054_820, 0),
        (5, 29_054_820, 29_056_200, 2),
        (5, 29_056_200, 29_056_260, 1),
        (5, 29_056_260, 29_056_320, 0),
    ];
    has_levels(&rt, alloc, &tables, &levels);
}
