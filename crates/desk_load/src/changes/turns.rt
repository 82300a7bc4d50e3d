//! One booking that comes or goes.
ghost use Rattle.std.specs.Prelude.{◌≡◌, ◌<◌, ◌≤◌, ℕ, take, IfOk, OnOk, IsSome, pos, ◌+ℤ◌, ◌≤ℤ◌, if◌then◌else◌, ◌==◌, ◌&&◌};
ghost use Rattle.std.specs.List.{AllByRecursion};
ghost use Rattle.desk_base.specs.rules.Limits.{first_minute, end_of_minutes};
ghost use Rattle.desk_base.specs.rules.Sound.{AreWellFormed};
ghost use Rattle.desk_base.specs.meaning.Capacity.{resource_of};
ghost use Rattle.desk_base.specs.meaning.Time.{covers};
ghost use Rattle.desk_base.specs.meaning.Load.{load, ask_of};
ghost use Rattle.desk_spans.specs.Minutes.{EachMinute};
ghost use Rattle.desk_spans.specs.Timeline.{IsBounded};
ghost use Rattle.desk_member.specs.Memberships.{AreMemberships};
ghost use Rattle.desk_member.specs.Pieces.{item_at, taken};
ghost use Rattle.desk_load.specs.declared.changes.opened.Former.TheVariants.{Standing, Booked};
ghost use Rattle.desk_load.specs.Changed.{IsOrdered, parts_of, before_of};
ghost use Rattle.desk_load.specs.Turns.{turned, value_under, AreWhole, AreRaised, listed, relisted, IsTurned};

use crate::by_number::ByNumber;
use crate::changes::opened::{OpenIndex, place_of};
use crate::lists::BookingList;
use crate::parts::ask_of;
use crate::weights::Weight;
use desk_base::{BookingRow, NoMemory, Tables};
use desk_member::{Item, load_pieces};
use std::alloc::Global;

/// Whether a booking comes or goes.
#[derive(Clone, Copy)]
pub(crate) enum Turn {
    Comes,
    Goes,
}

/// What a booking of this effort adds.
fn turned(turn: Turn, effort: u32) -> i64
    ensures { result ≡ turned turn effort }
{
    match turn {
        Turn::Comes => i64::from(effort),
        Turn::Goes => -i64::from(effort),
    }
}

/// The bookings with the one that comes, or without the one that goes.
fn listed(
    alloc: Global,
    bookings: &ByNumber,
    turn: Turn,
    booking: &BookingRow,
) -> Result<ByNumber, NoMemory>
    ensures { IfOk result (λ b. b ≡ listed turn booking.now bookings.now) }
{
    match turn {
        Turn::Comes => bookings.with(alloc, booking),
        Turn::Goes => bookings.without(alloc, booking),
    }
}

impl OpenIndex {
    /// Adds what a piece of a booking takes to the weight of its resource. Each resource of a piece has one.
    fn add_item(&mut self, alloc: Global, turn: Turn, item: &Item) -> Result<(), NoMemory>
        requires order { IsOrdered (parts_of self.old) }
        requires whole { AreWhole self.old.weights.items }
        requires bounds { EachMinute first_minute end_of_minutes (λ m. IsBounded (value_under item.now.resource m self.old.weights.items +ℤ turned turn (item_at item.now.resource m item.now))) }
        ensures weights { OnOk result (AreRaised (λ r m. turned turn (item_at r m item.now)) self.old.weights.items self.new.weights.items) }
        ensures standing { OnOk result (self.new.standing.items ≡ self.old.standing.items) }
        ensures booked { OnOk result (self.new.booked.items ≡ self.old.booked.items) }
        ensures members { OnOk result (self.new.members ≡ self.old.members) }
        ensures before { before_of self.new ≡ before_of self.old }
    {
        if item.to.get() <= item.from.get() {
            return Ok(());
        }
        let Some(at) = place_of(self.weights.as_slice(), item.resource.get()) else {
            return Err(NoMemory);
        };
        let Ok(mut weight) = self.weights[at].weight.copy(alloc) else {
            return Err(NoMemory);
        };
        let Ok(()) = weight.add(item.from.get(), item.to.get(), turned(turn, item.effort)) else {
            return Err(NoMemory);
        };
        let resource = item.resource;
        self.put_weight(at, Weight { resource, weight })?;
        Ok(())
    }

    /// Adds what the pieces of a booking take to the weights of their resources.
    fn add_items(&mut self, alloc: Global, turn: Turn, items: &[Item]) -> Result<(), NoMemory>
        requires order { IsOrdered (parts_of self.old) }
        requires whole { AreWhole self.old.weights.items }
        requires bounds { (count r : ℕ) → EachMinute first_minute end_of_minutes (λ m. IsBounded (value_under r m self.old.weights.items +ℤ turned turn (taken (take count items.now) r m))) }
        ensures weights { OnOk result (AreRaised (λ r m. turned turn (taken items.now r m)) self.old.weights.items self.new.weights.items) }
        ensures standing { OnOk result (self.new.standing.items ≡ self.old.standing.items) }
        ensures booked { OnOk result (self.new.booked.items ≡ self.old.booked.items) }
        ensures members { OnOk result (self.new.members ≡ self.old.members) }
        ensures before { before_of self.new ≡ before_of self.old }
    {
        for item in items {
            self.add_item(alloc, turn, item)?;
        }
        Ok(())
    }

    /// Puts the booking that comes into the list of its resource, or takes the one that goes out of it.
    fn relist_standing(
        &mut self,
        alloc: Global,
        turn: Turn,
        booking: &BookingRow,
    ) -> Result<(), NoMemory>
        requires { IsOrdered (parts_of self.old) }
        ensures weights { OnOk result (self.new.weights.items ≡ self.old.weights.items) }
        ensures standing { OnOk result (self.new.standing.items ≡ relisted turn booking.now.resource booking.now self.old.standing.items) }
        ensures booked { OnOk result (self.new.booked.items ≡ self.old.booked.items) }
        ensures members { OnOk result (self.new.members ≡ self.old.members) }
        ensures before { before_of self.new ≡ before_of self.old }
    {
        let number = booking.resource.get();
        let Some(at) = place_of(self.standing.as_slice(), number) else {
            return Err(NoMemory);
        };
        let bookings = listed(alloc, &self.standing[at].bookings, turn, booking)?;
        self.put_standing(at, BookingList { number, bookings })?;
        Ok(())
    }

    /// Puts the booking that comes into the list of its group, or takes the one that goes out of it.
    fn relist_booked(
        &mut self,
        alloc: Global,
        turn: Turn,
        booking: &BookingRow,
    ) -> Result<(), NoMemory>
        requires { IsOrdered (parts_of self.old) }
        ensures weights { OnOk result (self.new.weights.items ≡ self.old.weights.items) }
        ensures standing { OnOk result (self.new.standing.items ≡ self.old.standing.items) }
        ensures booked { OnOk result (self.new.booked.items ≡ relisted turn booking.now.group booking.now self.old.booked.items) }
        ensures members { OnOk result (self.new.members ≡ self.old.members) }
        ensures before { before_of self.new ≡ before_of self.old }
    {
        let number = booking.group.get();
        let Some(at) = place_of(self.booked.as_slice(), number) else {
            return Err(NoMemory);
        };
        let bookings = listed(alloc, &self.booked[at].bookings, turn, booking)?;
        self.put_booked(at, BookingList { number, bookings })?;
        Ok(())
    }

    /// Brings a booking in, or takes it out.
    pub(crate) fn turn(
        &mut self,
        alloc: Global,
        tables: &Tables,
        turn: Turn,
        booking: &BookingRow,
    ) -> Result<(), NoMemory>
        requires well_formed { AreWellFormed tables.now }
        requires memberships { AreMemberships tables.now self.old.members }
        requires there { IsSome (resource_of tables.now booking.now.resource) }
        requires not_empty { booking.now.from < booking.now.to }
        requires order { IsOrdered (parts_of self.old) }
        requires whole { AreWhole self.old.weights.items }
        requires bounds { (n r : ℕ) → EachMinute first_minute end_of_minutes (λ m. n ≤ load tables.now r m (ask_of booking.now) → IsBounded (value_under r m self.old.weights.items +ℤ turned turn n)) }
        ensures turned { OnOk result (IsTurned tables.now turn booking.now (parts_of self.old) (parts_of self.new)) }
        ensures before { before_of self.new ≡ before_of self.old }
    {
        let items = load_pieces(alloc, tables, &self.members, &ask_of(booking))?;
        self.add_items(alloc, turn, items.as_slice())?;
        self.relist_standing(alloc, turn, booking)?;
        self.relist_booked(alloc, turn, booking)?;
        Ok(())
    }
}
