//! The clash of bookings that are asked for with those that stand.
ghost use Rattle.std.specs.Prelude.{◌≡◌, ◌++◌, ◌≤◌, ◌<◌, ◌^◌, ◌*◌, [], ℕ, not, length, map, filter, Some, None, IfOk, MatchOption, Contains};
ghost use Rattle.std.specs.Option.{option_map_or};
ghost use Rattle.desk_base.specs.declared.asked.refusals.Shown.TheVariants.{Booking, Gap};
ghost use Rattle.desk_base.specs.asked.Steps.{IsConflict};
ghost use Rattle.desk_base.specs.meaning.Load.{Fits, room, weight, ask_of, IsWithinRoom};
ghost use Rattle.desk_base.specs.meaning.Time.{IsMinute};
ghost use Rattle.desk_base.specs.rules.Sound.{AreWellFormed};
ghost use Rattle.desk_load.specs.Clashes.{IsOver};
ghost use Rattle.desk_load.specs.Index.{IsIndexOf};
ghost use Rattle.desk_load.specs.Views.{is_own, other_asks};

use crate::index::LoadIndex;
use crate::view::free::FreeView;
use crate::view::places::Place;
use desk_base::{Ask, BookingId, Clash, GroupId, Minute, NoMemory, ResourceId, Shown, Tables};
use std::alloc::Global;

fn shown_of(found: Option<BookingId>) -> Shown
    ensures { result ≡ option_map_or Booking found Gap }
{
    match found {
        Some(id) => Shown::Booking(id),
        None => Shown::Gap,
    }
}

fn minute_of(minute: u32) -> Minute
    requires { IsMinute minute }
    ensures { result ≡ minute }
{
    Minute::of(minute).unwrap()
}

impl FreeView<'_> {
    /// What the bookings of others weigh at a place.
    fn weight_of_others(&self, place: &Place) -> u64
        requires { IsMinute place.now.minute }
        ensures { result ≡ weight self.now.tables (other_asks self.now.tables self.now.without) place.now.resource place.now.minute }
    {
        let standing = self.standing(place.resource, place.minute);
        let own = self.weight_of(self.own.as_slice(), place.resource, place.minute);
        (standing.value - own.value) as u64
    }

    /// What a few bookings weigh at a place.
    fn weight_at(&self, asks: &[Ask], place: &Place) -> u64
        requires few { length asks.now ≤ 24 }
        requires minute { IsMinute place.now.minute }
        ensures { result ≡ weight self.now.tables asks.now place.now.resource place.now.minute }
    {
        self.weight_of(asks, place.resource, place.minute).value as u64
    }

    /// The room at a place where it is bounded.
    fn room_at(&self, place: &Place) -> u64
        requires minute { IsMinute place.now.minute }
        requires bounded { room self.now.tables place.now.resource place.now.minute ≡ None → ⊥ }
        ensures { room self.now.tables place.now.resource place.now.minute ≡ Some result }
    {
        match self.room(place.resource, place.minute).bound {
            Some(bound) => bound as u64,
            None => 0,
        }
    }

    /// The clash at the first place where what is asked for is above the room together with the bookings of others.
    fn clash_at(&self, asks: &[Ask], place: &Place) -> Clash
        requires few { length asks.now ≤ 24 }
        requires over { IsOver self.now.tables (other_asks self.now.tables self.now.without ++ asks.now) place.now }
        ensures { IsConflict self.now.tables (filter (λ b. not (is_own self.now.without b)) self.now.tables.bookings) asks.now result }
    {
        Clash {
            resource: place.resource,
            minute: minute_of(place.minute),
            capacity: self.room_at(place),
            standing: self.weight_of_others(place),
            asked: self.weight_at(asks, place),
            shown: shown_of(self.first_at(place)),
        }
    }
}

/// The clash of bookings that are asked for with the standing ones but those of one group: the least minute, and there the least
/// resource, at which they are together above the room. `None` exactly where all fit. The bookings of others fit. It looks at the
/// time of the bookings that are asked for, and at the resources on which they count.
pub fn clash(
    alloc: Global,
    index: &LoadIndex,
    tables: &Tables,
    asks: &[Ask],
    without: Option<GroupId>,
) -> Result<Option<Clash>, NoMemory>
    requires well_formed { AreWellFormed tables.now }
    requires index { IsIndexOf tables.now index.now }
    requires fits { Fits tables.now (other_asks tables.now without) }
    requires few { length asks.now ≤ 24 }
    ensures { IfOk result (λ c. MatchOption c (Fits tables.now (other_asks tables.now without ++ asks.now)) (λ c. IsConflict tables.now (filter (λ b. not (is_own without b)) tables.now.bookings) asks.now c)) }
{
    let mut view = FreeView::build(alloc, index, tables, without)?;
    match view.lay_all(asks)? {
        Some(place) => Ok(Some(view.clash_at(asks, &place))),
        None => Ok(None),
    }
}

/// The clash of the standing bookings themselves, where each resource that is not named is within its room: the least minute, and
/// there the least resource, at which they are above the room. `None` exactly where they fit. It judges tables after a change of
/// rows that say when resources have room: the resources named are those that the change touches. It looks at each of them
/// while something stands on it, and no further than the first minute that was found.
pub fn clash_standing(
    alloc: Global,
    index: &LoadIndex,
    tables: &Tables,
    suspects: &[ResourceId],
) -> Option<Clash>
    requires well_formed { AreWellFormed tables.now }
    requires index { IsIndexOf tables.now index.now }
    requires others { (r m : ℕ) → IsMinute m → (Contains suspects.now r → ⊥) → IsWithinRoom tables.now (map ask_of tables.now.bookings) r m }
    ensures { MatchOption result (Fits tables.now (map ask_of tables.now.bookings)) (λ c. IsConflict tables.now tables.now.bookings [] c) }
{
    let view = FreeView::of_all(alloc, index, tables);
    match view.first_over(suspects) {
        Some(place) => Some(view.clash_at(&[], &place)),
        None => None,
    }
}
