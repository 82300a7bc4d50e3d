//! The weight and the room of a resource over a window, as a dispatcher's board shows them.
ghost use Rattle.std.specs.Prelude.{◌≡◌, ◌<◌, ◌≤◌, ◌^◌, map, pos, unwrap_or, IfOk, IfSome, MatchOption};
ghost use Rattle.desk_base.specs.meaning.Load.{crew, is_crew, sort_of, weight, ask_of};
ghost use Rattle.desk_base.specs.rules.Limits.{first_minute, end_of_minutes};
ghost use Rattle.desk_base.specs.rules.Sound.{AreWellFormed};
ghost use Rattle.desk_spans.specs.Minutes.{EachMinute};
ghost use Rattle.desk_spans.specs.Timeline.{end_of, value_at};
ghost use Rattle.desk_load.specs.Boards.{measured, IsRoomOver};
ghost use Rattle.desk_load.specs.Index.{IsIndexOf};
ghost use Rattle.desk_load.specs.Steady.{Stays};

use crate::index::LoadIndex;
use crate::view::free::FreeView;
use crate::view::sorts::Sort;
use crate::view::steady::{Room, Steady};
use desk_base::{NoMemory, ResourceId, Tables, Window};
use desk_spans::Profile;
use std::alloc::Global;

/// What a board shows of a resource.
#[derive(Clone, Copy, Debug)]
pub enum Measure {
    Weight,
    Room,
}

/// Room as a number; 0 where it is without bound.
fn bound_of(room: Room) -> Steady
    ensures value { result.value ≡ unwrap_or room.bound 0 }
    ensures until { result.until ≡ room.until }
{
    Steady {
        value: match room.bound {
            Some(bound) => bound,
            None => 0,
        },
        until: room.until,
    }
}

impl FreeView<'_> {
    /// Whether a resource is a crew, whose room may be without bound.
    fn is_crew(&self, resource: ResourceId) -> bool
        ensures { result ≡ is_crew (sort_of self.now.tables resource) }
    {
        match self.sort_of(resource) {
            Sort::Crew => true,
            Sort::Plain => false,
            Sort::Pool => false,
            Sort::Unknown => false,
        }
    }

    /// What is measured of a resource, and the minute before which it stays the same.
    fn measure(&self, measure: Measure, resource: ResourceId, minute: u32) -> Steady
        requires first { first_minute ≤ minute }
        requires end { minute < end_of_minutes }
        ensures value { Stays (measured measure self.now.tables resource) minute result.value result.until }
        ensures small { result.value < 2 ^ 63 }
    {
        match measure {
            Measure::Weight => self.standing(resource, minute),
            Measure::Room => bound_of(self.room(resource, minute)),
        }
    }

    /// What is measured of a resource at each minute of a window.
    fn profile(
        &self,
        alloc: Global,
        measure: Measure,
        resource: ResourceId,
        window: Window,
    ) -> Result<Profile, NoMemory>
        requires window { window.from < window.to }
        ensures window_from { IfOk result (λ p. p.from ≡ window.from) }
        ensures window_end { IfOk result (λ p. end_of p ≡ window.to) }
        ensures values { IfOk result (λ p. EachMinute window.from window.to (λ m. value_at p m ≡ pos (measured measure self.now.tables resource m))) }
    {
        let from = window.from.get();
        let to = window.to.get();
        let Ok(mut profile) = Profile::begun_at(alloc, from, 0) else {
            return Err(NoMemory);
        };
        let mut minute = from;
        while minute < to {
            let steady = self.measure(measure, resource, minute);
            let until = steady.until.min(to);
            let Ok(()) = profile.lay(until, steady.value as i64) else {
                return Err(NoMemory);
            };
            minute = until;
        }
        Ok(profile)
    }
}

/// At each minute of the window the weight of the standing bookings on the resource.
pub fn weight_profile(
    alloc: Global,
    index: &LoadIndex,
    tables: &Tables,
    resource: ResourceId,
    window: Window,
) -> Result<Profile, NoMemory>
    requires well_formed { AreWellFormed tables.now }
    requires index { IsIndexOf tables.now index.now }
    requires window { window.from < window.to }
    ensures window_from { IfOk result (λ p. p.from ≡ window.from) }
    ensures window_end { IfOk result (λ p. end_of p ≡ window.to) }
    ensures values { IfOk result (λ p. EachMinute window.from window.to (λ m. value_at p m ≡ pos (weight tables.now (map ask_of tables.now.bookings) resource m))) }
{
    let view = FreeView::of_all(alloc, index, tables);
    view.profile(alloc, Measure::Weight, resource, window)
}

/// At each minute of the window the room of the resource: of a plain one its capacity, of a pool that of its members together.
/// `None` for a crew, whose room has no bound while it has a member.
pub fn room_profile(
    alloc: Global,
    index: &LoadIndex,
    tables: &Tables,
    resource: ResourceId,
    window: Window,
) -> Result<Option<Profile>, NoMemory>
    requires well_formed { AreWellFormed tables.now }
    requires index { IsIndexOf tables.now index.now }
    requires window { window.from < window.to }
    ensures { IfOk result (λ o. MatchOption o (sort_of tables.now resource ≡ crew) (IsRoomOver tables.now resource window)) }
{
    let view = FreeView::of_all(alloc, index, tables);
    if view.is_crew(resource) {
        return Ok(None);
    }
    let profile = view.profile(alloc, Measure::Room, resource, window)?;
    Ok(Some(profile))
}
