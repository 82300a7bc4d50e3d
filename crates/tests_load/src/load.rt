//! `desk_load`: where the standing bookings are above the room, and what a board shows.
ghost use Rattle.std.specs.Prelude.{◌≡◌, ◌<◌, IfOk};
ghost use Rattle.desk_base.specs.rules.Sound.{AreWellFormed};
ghost use Rattle.desk_load.specs.Index.{IsIndexOf, resource_numbers};

use crate::schedules::{EIGHT, ELEVEN, HALF_PAST_EIGHT, NINE, NOON, TEN, window};
use crate::teams::{Booking, with_bookings};
use desk_base::{Clash, NoMemory, ResourceId, Shown, Tables, Window};
use desk_load::{LoadIndex, clash_standing, room_profile, weight_profile};
use desk_spans::Profile;
use std::alloc::Global;
use std::process::Abort;

/// A resource, a minute, its room there, what stands there, what is asked for there, and the booking that is shown; 0 for none.
type Place = (u32, u32, u64, u64, u64, u32);

fn place_of(clash: &Clash) -> Place {
    let shown = match &clash.shown {
        Shown::Booking(id) => id.get(),
        Shown::Gap => 0,
    };
    (
        clash.resource.get(),
        clash.minute.get(),
        clash.capacity,
        clash.standing,
        clash.asked,
        shown,
    )
}

/// All resources of the tables.
fn all_resources(alloc: Global, tables: &Tables) -> Result<Vec<ResourceId>, NoMemory>
    ensures { IfOk result (λ v. v.items ≡ resource_numbers tables.now) }
{
    Ok(
        tables
            .resources
            .as_slice()
            .iter()
            .map(|x| x.id)
            .collect(alloc)?,
    )
}

/// The first place of all resources at which the standing bookings are above the room.
fn first_place(alloc: Global, tables: &Tables) -> Result<Option<Place>, NoMemory>
    requires { AreWellFormed tables.now }
{
    let index = LoadIndex::build(alloc, tables)?;
    let suspects = all_resources(alloc, tables)?;
    match clash_standing(alloc, &index, tables, suspects.as_slice()) {
        Some(clash) => Ok(Some(place_of(&clash))),
        None => Ok(None),
    }
}

fn has_places(rt: &impl Abort, alloc: Global, rows: &[(&[Booking], Option<Place>)]) {
    for (bookings, place) in rows {
        let tables = with_bookings(alloc, bookings).expect(rt, "tables");
        let found = first_place(alloc, &tables).expect(rt, "memory");
        assert!(rt; found == *place, "of {bookings:?}");
    }
}

#[test]
fn places_above_the_room(rt: HostRuntime) {
    let rows: [(&[Booking], Option<Place>); 10] = [
        (&[], None),
        (&[(1, EIGHT, ELEVEN), (3, TEN, NOON)], None),
        // In a time off.
        (&[(1, TEN, NOON)], Some((1, ELEVEN, 0, 1, 0, 1))),
        // Before its work begins.
        (&[(3, NINE, ELEVEN)], Some((3, NINE, 0, 1, 0, 1))),
        // When the crew has no member any more.
        (&[(10, NINE, ELEVEN)], Some((10, TEN, 0, 1, 0, 1))),
        // When its member has left the pool.
        (&[(20, NINE, ELEVEN)], Some((20, TEN, 0, 1, 0, 1))),
        // Two on one resource.
        (
            &[(2, EIGHT, NINE), (2, HALF_PAST_EIGHT, TEN)],
            Some((2, HALF_PAST_EIGHT, 1, 2, 0, 1)),
        ),
        // The member of a pool has none left for it.
        (
            &[(20, EIGHT, TEN), (1, NINE, TEN)],
            Some((20, NINE, 1, 2, 0, 1)),
        ),
        // The least minute, on a higher resource.
        (
            &[(1, TEN, NOON), (3, NINE, ELEVEN)],
            Some((3, NINE, 0, 1, 0, 2)),
        ),
        // The least resource of a minute.
        (
            &[(20, NINE, ELEVEN), (10, NINE, ELEVEN)],
            Some((10, TEN, 0, 1, 0, 2)),
        ),
    ];
    has_places(&rt, rt.alloc(), &rows);
}

/// The room of a crew, which has no profile.
const NO_BOUND: i64 = -1;

/// A resource, a window, and the weight and the room that it has at each of its minutes.
type Level = (u32, u32, u32, i64, i64);

/// The value of a profile, where it is the same at each of its minutes.
fn level_of(profile: &Profile) -> Option<i64> {
    if profile.to() <= profile.from() {
        return None;
    }
    let stretch = profile.stretch_at(profile.from());
    if stretch.end == profile.to() {
        Some(stretch.value)
    } else {
        None
    }
}

fn weight_level(
    alloc: Global,
    index: &LoadIndex,
    tables: &Tables,
    resource: ResourceId,
    window: &Window,
) -> Option<i64>
    requires well_formed { AreWellFormed tables.now }
    requires index { IsIndexOf tables.now index.now }
    requires window { window.now.from < window.now.to }
{
    match weight_profile(alloc, index, tables, resource, *window) {
        Ok(profile) => level_of(&profile),
        Err(_) => None,
    }
}

fn room_level(
    alloc: Global,
    index: &LoadIndex,
    tables: &Tables,
    resource: ResourceId,
    window: &Window,
) -> Option<i64>
    requires well_formed { AreWellFormed tables.now }
    requires index { IsIndexOf tables.now index.now }
    requires window { window.now.from < window.now.to }
{
    match room_profile(alloc, index, tables, resource, *window) {
        Ok(Some(profile)) => level_of(&profile),
        Ok(None) => Some(NO_BOUND),
        Err(_) => None,
    }
}

/// The weight and the room of a resource over a window, where each is the same at all minutes of it.
fn level(
    alloc: Global,
    index: &LoadIndex,
    tables: &Tables,
    resource: u32,
    from: u32,
    to: u32,
) -> Option<(i64, i64)>
    requires well_formed { AreWellFormed tables.now }
    requires index { IsIndexOf tables.now index.now }
{
    if to <= from {
        return None;
    }
    let id = ResourceId::of(resource)?;
    let window = window(from, to)?;
    let weight = weight_level(alloc, index, tables, id, &window)?;
    let room = room_level(alloc, index, tables, id, &window)?;
    Some((weight, room))
}

fn has_levels(rt: &impl Abort, alloc: Global, tables: &Tables, levels: &[Level])
    requires { AreWellFormed tables.now }
{
    let index = LoadIndex::build(alloc, tables).expect(rt, "memory");
    for (resource, from, to, weight, room) in levels {
        let found = level(alloc, &index, tables, *resource, *from, *to);
        assert!(rt;
            found == Some((*weight, *room)),
            "of {resource} from {from}"
        );
    }
}

#[test]
fn what_a_board_shows(rt: HostRuntime) {
    let alloc = rt.alloc();
    let bookings = [
        (1, EIGHT, NINE),
        (20, HALF_PAST_EIGHT, TEN),
        (10, NINE, ELEVEN),
    ];
    let tables = with_bookings(alloc, &bookings).expect(&rt, "tables");
    let levels = [
        (1, EIGHT, NINE, 1, 1),
        (1, NINE, ELEVEN, 0, 1),
        (1, ELEVEN, NOON, 0, 0),
        (2, EIGHT, NINE, 0, 1),
        (2, NINE, TEN, 1, 1),
        (2, TEN, NOON, 0, 1),
        (20, EIGHT, HALF_PAST_EIGHT, 1, 1),
        (20, HALF_PAST_EIGHT, NINE, 2, 1),
        (20, NINE, TEN, 1, 1),
        (20, TEN, NOON, 0, 0),
        (10, EIGHT, NINE, 0, NO_BOUND),
        (10, NINE, ELEVEN, 1, NO_BOUND),
        (10, ELEVEN, NOON, 0, NO_BOUND),
        (99, EIGHT, NOON, 0, 0),
    ];
    has_levels(&rt, alloc, &tables, &levels);
}
