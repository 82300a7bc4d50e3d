//! What every work needs: tables that are well formed, their index, and bookings that fit.
ghost use Rattle.std.specs.Prelude.{◌≡◌, map, true, IfOk};
ghost use Rattle.desk_base.specs.meaning.Load.{Fits, ask_of};
ghost use Rattle.desk_base.specs.rules.Sound.{AreWellFormed};
ghost use Rattle.desk_load.specs.Index.{IsIndexOf, resource_numbers};

use crate::stop::Stop;
use crate::words::Work;
use crate::works::found_by;
use desk_base::{Clash, NoMemory, ResourceId, Shown, Tables};
use desk_load::{LoadIndex, clash_standing};
use desk_rules::are_formed;
use std::alloc::Global;

fn all_resources(alloc: Global, tables: &Tables) -> Result<Vec<ResourceId>, NoMemory>
    ensures { IfOk result (λ v. v.items ≡ resource_numbers tables.now) }
{
    Ok(
        tables
            .resources
            .as_slice()
            .iter()
            .map(|x| x.id)
            .collect(alloc)?,
    )
}

/// Whether the standing bookings fit.
fn do_fit(alloc: Global, index: &LoadIndex, tables: &Tables) -> Result<bool, NoMemory>
    requires formed { AreWellFormed tables.now }
    requires index { IsIndexOf tables.now index.now }
    ensures { IfOk result (λ fit. fit ≡ true → Fits tables.now (map ask_of tables.now.bookings)) }
{
    let all = all_resources(alloc, tables)?;
    match clash_standing(alloc, index, tables, all.as_slice()) {
        // The variants are named so that the checker looks for their type.
        Some(
            Clash {
                shown: Shown::Booking(_) | Shown::Gap,
                ..
            },
        ) => Ok(false),
        None => Ok(true),
    }
}

/// What the work finds over tables that are well formed.
fn found_formed(alloc: Global, tables: &Tables, work: Work, rounds: u32) -> Result<usize, Stop>
    requires { AreWellFormed tables.now }
{
    let index = LoadIndex::build(alloc, tables)?;
    let fit = do_fit(alloc, &index, tables)?;
    if fit {
        found_by(alloc, index, tables, work, rounds)
    } else {
        Err(Stop::Unfit)
    }
}

/// What the work finds, in all of its rounds.
pub fn found(alloc: Global, tables: &Tables, work: Work, rounds: u32) -> Result<usize, Stop> {
    let formed = are_formed(alloc, tables)?;
    if formed {
        found_formed(alloc, tables, work, rounds)
    } else {
        Err(Stop::Unformed)
    }
}
