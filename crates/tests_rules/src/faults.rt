//! The trial tables with more rows, some of which break a rule.
use crate::rows::{EIGHT, booking, childless, crew, member, off, site, work, zone};
use desk_base::{Items, MemberRow, OffRow, ResourceRow, Tables, WorkRow, ZoneRow};
use desk_rules::{BadAt, are_formed, first_bad};
use std::alloc::Global;

/// What stands in the tables beside the trial rows.
#[derive(Clone, Copy, Debug)]
pub(crate) enum More {
    Nothing,
    /// Zones from a number on, and before another.
    Zones(u32, u32),
    /// Work of calendar 1 behind that of calendar 2: from 13:00, and then from 12:30.
    WorkBehind,
    /// Work of calendar 2, whose own ends at noon, from this minute of the day.
    Work(u16),
    /// Work of this calendar.
    WorkOf(u32),
    /// A site whose name has 60 bytes, and then these.
    Site(&'static str),
    /// So many times off of Ann, of a minute each.
    Offs(u32),
    /// Cyd in crew 4 from 09:00 to 11:00, and in crew 5 for two hours from so many hours after 08:00.
    Crews(u32),
    /// A group with one node, which has no child.
    Childless,
    /// A booking of this group.
    Booking(u32),
}

fn add_zones(alloc: Global, zones: &mut Items<ZoneRow>, from: u32, to: u32) -> Option<()> {
    for id in from..to {
        zones.push(zone(alloc, id)?).ok()?;
    }
    Some(())
}

fn add_work(works: &mut Items<WorkRow>, calendar: u32, from: u16) -> Option<()> {
    works
        .push(work(calendar, from, from.saturating_add(60))?)
        .ok()
}

fn add_offs(offs: &mut Items<OffRow>, count: u32) -> Option<()> {
    for at in 0..count.min(200_000) {
        offs.push(off(1, EIGHT + at)?).ok()?;
    }
    Some(())
}

fn add_crews(alloc: Global, resources: &mut Items<ResourceRow>) -> Option<()> {
    resources.push(crew(alloc, 4)?).ok()?;
    resources.push(crew(alloc, 5)?).ok()
}

fn add_members(members: &mut Items<MemberRow>, hour: u32) -> Option<()> {
    members.push(member(4, 3, 1)?).ok()?;
    members.push(member(5, 3, hour)?).ok()
}

fn add(alloc: Global, tables: &mut Tables, more: More) -> Option<()> {
    match more {
        More::Nothing => Some(()),
        More::Zones(from, to) => add_zones(alloc, &mut tables.zones, from, to),
        More::WorkBehind => {
            add_work(&mut tables.works, 1, 780)?;
            add_work(&mut tables.works, 1, 750)
        }
        More::Work(from) => add_work(&mut tables.works, 2, from),
        More::WorkOf(calendar) => add_work(&mut tables.works, calendar, 480),
        More::Site(more) => tables.sites.push(site(alloc, 2, more)?).ok(),
        More::Offs(count) => add_offs(&mut tables.offs, count),
        More::Crews(hour) => {
            add_crews(alloc, &mut tables.resources)?;
            add_members(&mut tables.members, hour)
        }
        More::Childless => tables.groups.push(childless(alloc, 2)?).ok(),
        More::Booking(group) => tables.bookings.push(booking(1, group, 1)?).ok(),
    }
}

/// What is said of the trial tables with more rows: whether they are well formed, and where they are bad first.
pub(crate) fn judged(alloc: Global, more: More) -> Option<(bool, Option<BadAt>)> {
    let mut tables = Tables::trial(alloc).ok()?;
    add(alloc, &mut tables, more)?;
    let formed = are_formed(alloc, &tables).ok()?;
    let bad = first_bad(alloc, &tables).ok()?;
    Some((formed, bad))
}

/// The same of the tables of a new desk.
pub(crate) fn judged_empty(alloc: Global) -> Option<(bool, Option<BadAt>)> {
    let tables = Tables::empty(alloc);
    let formed = are_formed(alloc, &tables).ok()?;
    let bad = first_bad(alloc, &tables).ok()?;
    Some((formed, bad))
}
