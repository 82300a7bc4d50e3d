//! Whether a booking has room on one resource at a minute.
ghost use Rattle.std.specs.Prelude.{◌≡◌, ◌<◌, ◌≤◌, ◌+◌, ◌^◌, ◌≤ℤ◌, pos, true, false, map, nat_le};
ghost use Rattle.desk_base.specs.meaning.Load.{weight, ask_of};
ghost use Rattle.desk_base.specs.rules.Limits.{first_minute, end_of_minutes};
ghost use Rattle.desk_spans.specs.Minutes.{EachMinute};
ghost use Rattle.desk_load.specs.Steady.{Stays};
ghost use Rattle.desk_load.specs.Views.{HasRoomOn, standing, demand_at};

use crate::view::demand::Demand;
use crate::view::free::FreeView;
use crate::view::steady::{Held, Steady, always};
use desk_base::ResourceId;

/// A value that is not negative, as a count.
fn count_of(value: i64) -> u128
    requires { pos 0 ≤ℤ value }
    ensures value { pos result ≡ value }
    ensures small { result < 2 ^ 63 }
{
    u128::from(value as u64)
}

/// Whether so much room is enough for what stands without a group's own, for what is laid on top, and for what is taken.
fn is_enough(room: u128, standing: u128, own: u128, laid: u128, taken: u128) -> bool
    requires room { room ≤ 2 ^ 47 }
    requires standing { standing < 2 ^ 63 }
    requires own { own ≤ 2 ^ 70 }
    requires laid { laid ≤ 2 ^ 70 }
    requires taken { taken ≤ 2 ^ 48 }
    ensures { result ≡ nat_le (standing + laid + taken) (room + own) }
{
    standing + laid + taken <= room + own
}

impl FreeView<'_> {
    /// What the standing bookings weigh on a resource, those of the group that is left out among them.
    pub(crate) fn standing(&self, resource: ResourceId, minute: u32) -> Steady
        requires first { first_minute ≤ minute }
        requires end { minute < end_of_minutes }
        ensures weight { Stays (weight self.now.tables (map ask_of self.now.tables.bookings) resource) minute result.value result.until }
        ensures small { result.value < 2 ^ 63 }
    {
        match self.index.weight_of(resource) {
            Some(entry) => {
                let stretch = entry.weight.stretch_at(minute);
                Steady {
                    value: count_of(stretch.value),
                    until: stretch.end,
                }
            }
            None => always(0),
        }
    }

    /// Whether within so much room there is still room for what is taken.
    fn has_room_within(&self, bound: u128, taken: u128, resource: ResourceId, minute: u32) -> Held
        requires bound { bound ≤ 2 ^ 47 }
        requires taken { taken ≤ 2 ^ 48 }
        requires first { first_minute ≤ minute }
        requires end { minute < end_of_minutes }
        ensures { Stays (λ k. nat_le (weight self.now.tables (standing self.now) resource k + taken) bound) minute result.holds result.until }
    {
        let standing = self.standing(resource, minute);
        let own = self.weight_of(self.own.as_slice(), resource, minute);
        let laid = self.weight_of(self.overlay.as_slice(), resource, minute);
        Held {
            holds: is_enough(bound, standing.value, own.value, laid.value, taken),
            until: standing.until.min(own.until).min(laid.until),
        }
    }

    /// Whether a booking has room on one resource, where it counts there.
    pub(crate) fn has_room_on(&self, demand: &Demand, resource: ResourceId, minute: u32) -> Held
        requires first { first_minute ≤ minute }
        requires end { minute < end_of_minutes }
        ensures later { minute < result.until }
        ensures inside { result.until ≤ end_of_minutes }
        ensures room { result.holds ≡ true → EachMinute minute result.until (λ k. HasRoomOn self.now (demand_at demand.now k) k resource) }
        ensures short { result.holds ≡ false → EachMinute minute result.until (λ k. HasRoomOn self.now (demand_at demand.now k) k resource → ⊥) }
    {
        let taken = self.use_of(demand, resource, minute);
        if taken.value == 0 {
            return Held {
                holds: true,
                until: taken.until,
            };
        }
        let room = self.room(resource, minute);
        let Some(bound) = room.bound else {
            return Held {
                holds: true,
                until: taken.until.min(room.until),
            };
        };
        let within = self.has_room_within(bound, taken.value, resource, minute);
        Held {
            holds: within.holds,
            until: within.until.min(taken.until).min(room.until),
        }
    }
}
