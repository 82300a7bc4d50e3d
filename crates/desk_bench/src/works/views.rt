//! Views that are built, and what they are asked. Nobody counts the steps.
ghost use Rattle.std.specs.Prelude.{◌≡◌, ◌<◌};
ghost use Rattle.desk_base.specs.rules.Sound.{AreWellFormed};
ghost use Rattle.desk_load.specs.Index.{IsIndexOf};

use crate::schedule::{DAY, HOUR, MONDAY, free_hour, taken_hour};
use crate::stop::Stop;
use desk_base::{Ask, GroupId, NoMemory, ResourceId, Steps, Tables, Window};
use desk_load::{Demand, FreeView, LoadIndex, Probe, Starts};
use std::alloc::Global;
use std::marker::Brand;
use std::sync::ledger::{Blank, Ledger};

/// One view, built and let go.
fn build_one(
    alloc: Global,
    index: &LoadIndex,
    tables: &Tables,
    group: GroupId,
) -> Result<(), NoMemory>
    requires formed { AreWellFormed tables.now }
    requires index { IsIndexOf tables.now index.now }
{
    let _view = FreeView::build(alloc, index, tables, Some(group))?;
    Ok(())
}

/// How often a view was built.
pub(crate) fn built(
    alloc: Global,
    index: &LoadIndex,
    tables: &Tables,
    rounds: u32,
) -> Result<usize, Stop>
    requires formed { AreWellFormed tables.now }
    requires index { IsIndexOf tables.now index.now }
{
    let group = GroupId::of(1).ok_or(Stop::OutOfRange)?;
    let mut found = 0usize;
    for _ in 0..rounds {
        build_one(alloc, index, tables, group)?;
        found = found.wrapping_add(1);
    }
    Ok(found)
}

fn probe<L: Ledger>(view: &FreeView<'_>, ask: &Ask, blank: Blank) -> Probe
    requires name { blank.name ≡ L.name }
    requires parts { (blank.parts ≡ L.parts) × (0 < blank.parts) }
{
    let mut steps = Steps::<L>::new(blank);
    view.probe(ask, &mut steps)
}

fn is_free(view: &FreeView<'_>, ask: &Ask) -> bool {
    match probe::<Brand>(view, ask, Blank::new(1)) {
        Probe::Free => true,
        Probe::Short { .. } => false,
    }
}

/// An hour of the first resource.
fn ask_of(window: Window) -> Result<Ask, Stop> {
    Ok(Ask {
        resource: ResourceId::of(1).ok_or(Stop::OutOfRange)?,
        window,
        effort: 1,
    })
}

/// How often the one or the other, in turn, is free.
fn free_of(view: &FreeView<'_>, one: &Ask, other: &Ask, rounds: u32) -> usize {
    let mut found = 0usize;
    for round in 0..rounds {
        let ask = if round % 2 == 0 { one } else { other };
        if is_free(view, ask) {
            found = found.wrapping_add(1);
        }
    }
    found
}

/// How often an hour is free that is asked for, in turn one that is and one that is not.
pub(crate) fn probed(
    alloc: Global,
    index: &LoadIndex,
    tables: &Tables,
    rounds: u32,
) -> Result<usize, Stop>
    requires formed { AreWellFormed tables.now }
    requires index { IsIndexOf tables.now index.now }
{
    let free = ask_of(free_hour()?)?;
    let taken = ask_of(taken_hour()?)?;
    let view = FreeView::of_all(alloc, index, tables);
    Ok(free_of(&view, &free, &taken, rounds))
}

/// The first free hour of a resource, among the half hours of five days.
fn first_of<L: Ledger>(view: &FreeView<'_>, resource: ResourceId, blank: Blank) -> Option<u32>
    requires name { blank.name ≡ L.name }
    requires parts { (blank.parts ≡ L.parts) × (0 < blank.parts) }
{
    let demand = Demand {
        resource,
        effort: 1,
    };
    let starts = Starts {
        first: MONDAY,
        last: MONDAY + 5 * DAY - HOUR,
        step: 30,
    };
    let mut steps = Steps::<L>::new(blank);
    view.first_fit(&demand, HOUR, &starts, &mut steps)
}

/// How many minutes after the Monday begins it is.
fn minutes_to(view: &FreeView<'_>, resource: ResourceId) -> usize {
    match first_of::<Brand>(view, resource, Blank::new(1)) {
        Some(start) => start.wrapping_sub(MONDAY) as usize,
        None => 0,
    }
}

/// The same, in all rounds.
fn all_minutes(view: &FreeView<'_>, resource: ResourceId, rounds: u32) -> usize {
    let mut found = 0usize;
    for _ in 0..rounds {
        found = found.wrapping_add(minutes_to(view, resource));
    }
    found
}

/// How many minutes after the Monday begins the last resource is first free, in all rounds.
pub(crate) fn fitted(
    alloc: Global,
    index: &LoadIndex,
    tables: &Tables,
    rounds: u32,
) -> Result<usize, Stop>
    requires formed { AreWellFormed tables.now }
    requires index { IsIndexOf tables.now index.now }
{
    let view = FreeView::of_all(alloc, index, tables);
    match tables.resources.as_slice().last() {
        Some(row) => Ok(all_minutes(&view, row.id, rounds)),
        None => Ok(0),
    }
}
