//! Indexes that are built.
ghost use Rattle.desk_base.specs.rules.Sound.{AreWellFormed};

use crate::stop::Stop;
use desk_base::{GroupId, Tables};
use desk_load::LoadIndex;
use std::alloc::Global;

/// How many bookings the group of the first week of the first resource has, in an index that is built for it.
fn bookings_in(alloc: Global, tables: &Tables) -> Result<usize, Stop>
    requires { AreWellFormed tables.now }
{
    let index = LoadIndex::build(alloc, tables)?;
    let group = GroupId::of(3).ok_or(Stop::OutOfRange)?;
    Ok(index.bookings_of(group).len())
}

/// The same, so often.
pub(crate) fn built(alloc: Global, tables: &Tables, rounds: u32) -> Result<usize, Stop>
    requires { AreWellFormed tables.now }
{
    let mut found = 0usize;
    for _ in 0..rounds {
        let bookings = bookings_in(alloc, tables)?;
        found = found.wrapping_add(bookings);
    }
    Ok(found)
}
