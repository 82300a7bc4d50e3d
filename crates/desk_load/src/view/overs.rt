//! Where the standing bookings are above the room.
ghost use Rattle.std.specs.Prelude.{◌≡◌, ◌≤◌, ◌<◌, ◌++◌, ◌∷◌, [], List, ℕ, true, false, IfSome, IfNone};
ghost use Rattle.desk_base.specs.meaning.Time.{IsMinute};
ghost use Rattle.desk_base.specs.rules.Limits.{first_minute, end_of_minutes};
ghost use Rattle.desk_spans.specs.Minutes.{EachMinute};
ghost use Rattle.desk_load.specs.Overs.{BearsStanding, IsFirstAmong, end_of_search};

use crate::view::free::FreeView;
use crate::view::places::{Place, earlier};
use crate::view::steady::Held;
use desk_base::ResourceId;
use desk_base::limits::{END_OF_MINUTES, FIRST_MINUTE};

/// The minute before which another place may still be the first one.
fn end_of_search(found: &Option<Place>) -> u32
    requires { IfSome found.now (λ p. IsMinute p.minute) }
    ensures { result ≡ end_of_search found.now }
{
    match found {
        Some(place) => place.minute + 1,
        None => END_OF_MINUTES,
    }
}

impl FreeView<'_> {
    /// Whether the standing bookings are within the room of a resource. Where they weigh nothing its room is not looked up.
    fn bears_standing(&self, resource: ResourceId, minute: u32) -> Held
        requires first { first_minute ≤ minute }
        requires end { minute < end_of_minutes }
        ensures later { minute < result.until }
        ensures inside { result.until ≤ end_of_minutes }
        ensures within { result.holds ≡ true → EachMinute minute result.until (λ k. BearsStanding self.now.tables resource k) }
        ensures over { result.holds ≡ false → EachMinute minute result.until (λ k. BearsStanding self.now.tables resource k → ⊥) }
    {
        let standing = self.standing(resource, minute);
        if standing.value == 0 {
            return Held {
                holds: true,
                until: standing.until,
            };
        }
        let room = self.room(resource, minute);
        let until = standing.until.min(room.until);
        let Some(bound) = room.bound else {
            return Held { holds: true, until };
        };
        Held {
            holds: standing.value <= bound,
            until,
        }
    }

    /// The first minute of a resource, before a given one, at which the standing bookings are above its room. It goes from each
    /// stretch in which nothing changes to the next.
    fn over_on(&self, resource: ResourceId, end: u32) -> Option<u32>
        requires { end ≤ end_of_minutes }
        ensures none { IfNone result (EachMinute first_minute end (λ k. BearsStanding self.now.tables resource k)) }
        ensures low { IfSome result (λ m. first_minute ≤ m) }
        ensures high { IfSome result (λ m. m < end) }
        ensures over { IfSome result (λ m. BearsStanding self.now.tables resource m → ⊥) }
        ensures before { IfSome result (λ m. EachMinute first_minute m (λ k. BearsStanding self.now.tables resource k)) }
    {
        let mut minute = FIRST_MINUTE;
        while minute < end {
            let standing = self.bears_standing(resource, minute);
            if !standing.holds {
                return Some(minute);
            }
            minute = standing.until;
        }
        None
    }

    /// The first place that is known with one resource more.
    fn over_with(&self, resource: ResourceId, found: Option<Place>) -> Option<Place>
        requires { IfSome found (λ p. IsMinute p.minute) }
        ensures { (seen : List ℕ) → IsFirstAmong self.now.tables seen found → IsFirstAmong self.now.tables (seen ++ resource ∷ []) result }
    {
        match self.over_on(resource, end_of_search(&found)) {
            Some(minute) => Some(earlier(found, Place { resource, minute })),
            None => found,
        }
    }

    /// The first place on these resources at which the standing bookings are above the room.
    pub(crate) fn first_over(&self, suspects: &[ResourceId]) -> Option<Place>
        ensures { IsFirstAmong self.now.tables suspects.now result }
    {
        let mut found = None;
        for resource in suspects {
            found = self.over_with(*resource, found);
        }
        found
    }
}
