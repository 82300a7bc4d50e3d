//! The works: each is done so often, and counts what it finds.
mod bookings;
mod cases;
mod groups;
mod indexes;
mod pages;
mod refusals;
mod same;
mod searches;
mod views;

ghost use Rattle.std.specs.Prelude.{map};
ghost use Rattle.desk_base.specs.meaning.Load.{Fits, ask_of};
ghost use Rattle.desk_base.specs.rules.Sound.{AreWellFormed};
ghost use Rattle.desk_load.specs.Index.{IsIndexOf};

use crate::stop::Stop;
use crate::words::Work;
use desk_base::Tables;
use desk_load::LoadIndex;
use std::alloc::Global;

/// What is found by a work of groups.
fn found_in_groups(
    alloc: Global,
    index: &LoadIndex,
    tables: &Tables,
    work: Work,
    rounds: u32,
) -> Result<usize, Stop>
    requires formed { AreWellFormed tables.now }
    requires index { IsIndexOf tables.now index.now }
    requires fits { Fits tables.now (map ask_of tables.now.bookings) }
{
    match work {
        Work::Case => cases::of_group(alloc, tables, 1, rounds),
        Work::Case12 => cases::of_group(alloc, tables, 2, rounds),
        Work::Same => same::of_crew(alloc, tables, rounds),
        Work::Refusal => refusals::of_group(alloc, index, tables, rounds),
        Work::Page => searches::first_pages(alloc, index, tables, 1, 50, rounds),
        Work::Resumed => searches::second_pages(alloc, index, tables, rounds),
        Work::Twelve => searches::first_pages(alloc, index, tables, 2, 1, rounds),
        Work::All => searches::whole(alloc, index, tables, rounds),
        _ => Ok(0),
    }
}

/// What is found by a work.
pub fn found_by(
    alloc: Global,
    index: LoadIndex,
    tables: &Tables,
    work: Work,
    rounds: u32,
) -> Result<usize, Stop>
    requires formed { AreWellFormed tables.now }
    requires index { IsIndexOf tables.now index }
    requires fits { Fits tables.now (map ask_of tables.now.bookings) }
{
    match work {
        Work::Idle => Ok(0),
        Work::Index => indexes::built(alloc, tables, rounds),
        Work::Book => bookings::booked(alloc, index, tables, rounds),
        Work::View => views::built(alloc, &index, tables, rounds),
        Work::Probe => views::probed(alloc, &index, tables, rounds),
        Work::Fit => views::fitted(alloc, &index, tables, rounds),
        _ => found_in_groups(alloc, &index, tables, work, rounds),
    }
}
