//! The schedule that the works are done on: resources with five roles, two groups to be searched, and a hundred bookings of
//! each resource.
mod bookings;
mod crews;
mod groups;
mod hours;
mod resources;
mod weeks;

use crate::stop::Stop;
pub use bookings::booking;
pub use crews::CREW;
use desk_base::Tables;
pub use hours::{DAY, HOUR, MONDAY, free_hour, taken_hour};
use std::alloc::Global;

/// Adds the rows of so many resources to empty tables, and where it is asked for a crew of them.
pub fn fill(
    alloc: Global,
    tables: &mut Tables,
    resources: u16,
    with_crew: bool,
) -> Result<(), Stop> {
    weeks::add_week(alloc, tables)?;
    resources::add_names(alloc, tables)?;
    resources::add_resources(alloc, tables, resources)?;
    groups::add_groups(alloc, tables, resources)?;
    bookings::add_bookings(tables, resources)?;
    if with_crew {
        crews::add_crew(alloc, tables, resources)?;
    }
    Ok(())
}
