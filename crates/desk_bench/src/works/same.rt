//! Part-of-same, judged of twenty-four picks.
ghost use Rattle.std.specs.Prelude.{Contains};
ghost use Rattle.desk_base.specs.rules.Sound.{AreWellFormed};

use crate::schedule::{CREW, taken_hour};
use crate::stop::Stop;
use crate::works::cases::case_of;
use crate::works::groups::group_of;
use desk_base::{GroupRow, Items, Minute, Picks, ResourceId, Tables};
use desk_need::Case;
use std::alloc::Global;

/// The rounds ask at so many starts in turn, each a minute after the one before, so that none is asked what the last one was.
const STARTS: u32 = 60;

/// The first resources, one for each leaf.
fn picks_of(alloc: Global) -> Result<Picks, Stop> {
    let mut picks = Items::new(alloc);
    for others in 0..CREW {
        picks.push(ResourceId::of(u32::from(others) + 1))?;
    }
    Ok(picks)
}

/// Whether the picks have one crew at the start of the round.
fn is_kept(case: &Case<'_>, first: Minute, round: u32, picks: &[Option<ResourceId>]) -> bool {
    match Minute::of(first.get() + round % STARTS) {
        Some(start) => case.same_ok(start, picks).is_ok(),
        None => false,
    }
}

/// How often the picks have one crew.
fn kept(case: &Case<'_>, first: Minute, picks: &[Option<ResourceId>], rounds: u32) -> usize {
    let mut found = 0usize;
    for round in 0..rounds {
        if is_kept(case, first, round, picks) {
            found = found.wrapping_add(1);
        }
    }
    found
}

fn kept_by(alloc: Global, tables: &Tables, group: &GroupRow, rounds: u32) -> Result<usize, Stop>
    requires formed { AreWellFormed tables.now }
    requires there { Contains tables.now.groups group.now }
{
    let case = case_of(alloc, tables, group)?;
    let picks = picks_of(alloc)?;
    let start = taken_hour()?.from;
    Ok(kept(&case, start, picks.as_slice(), rounds))
}

/// How often the first resources have one crew, as the last group asks.
pub(crate) fn of_crew(alloc: Global, tables: &Tables, rounds: u32) -> Result<usize, Stop>
    requires { AreWellFormed tables.now }
{
    let Some(last) = tables.groups.as_slice().last() else {
        return Err(Stop::NoGroup);
    };
    let group = group_of(tables, last.id.get())?;
    kept_by(alloc, tables, group, rounds)
}
