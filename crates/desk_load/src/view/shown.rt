//! The least booking that counts where there is no room.
ghost use Rattle.std.specs.Prelude.{◌≡◌, ◌≤◌, ◌<◌, ◌++◌, ◌∷◌, [], List, ℕ, nat_lt};
ghost use Rattle.desk_base.specs.rules.Limits.{first_minute, end_of_minutes};
ghost use Rattle.desk_base.specs.meaning.Load.{counts, ask_of};
ghost use Rattle.desk_member.specs.Memberships.{of_member};
ghost use Rattle.desk_member.specs.Spans.{rows_of_group};
ghost use Rattle.desk_load.specs.Scans.{groups_at, plain_and_groups, members_and_groups};
ghost use Rattle.desk_load.specs.Shown.{least, counts_at, first_of, first_on, bearing_on};
ghost use Rattle.desk_load.specs.Views.{is_own};

use crate::parts::ask_of;
use crate::view::free::FreeView;
use crate::view::memberships::is_covered;
use crate::view::places::Place;
use crate::view::sorts::Sort;
use desk_base::{BookingId, BookingRow, GroupId, MemberRow, ResourceId};

/// The lesser of two bookings, of which one or both may be missing.
fn least(found: Option<BookingId>, other: Option<BookingId>) -> Option<BookingId>
    ensures { result ≡ least found other }
{
    match (found, other) {
        (None, _) => other,
        (Some(_), None) => found,
        (Some(id), Some(new)) => { if new.get() < id.get() { other } else { found } }
    }
}

fn is_own(without: &Option<GroupId>, booking: &BookingRow) -> bool
    ensures { result ≡ is_own without.now booking.now }
{
    match without {
        Some(group) => booking.group.get() == group.get(),
        None => false,
    }
}

impl FreeView<'_> {
    /// Whether the booking is none of the group that is left out, and counts at the place.
    fn counts_at(&self, booking: &BookingRow, place: &Place) -> bool
        requires { place.now.minute < end_of_minutes }
        ensures { result ≡ counts_at self.now place.now booking.now }
    {
        let taken = self.load_of(&ask_of(booking), place.resource, place.minute);
        !is_own(&self.without, booking) && 0 < taken.value
    }

    /// The first of the bookings that counts at the place.
    fn first_of(&self, bookings: &[BookingRow], place: &Place) -> Option<BookingId>
        requires { place.now.minute < end_of_minutes }
        ensures { result ≡ first_of self.now place.now bookings.now }
    {
        for booking in bookings {
            if self.counts_at(booking, place) {
                return Some(booking.id);
            }
        }
        None
    }

    /// What is known with the bookings of one resource more.
    fn first_with(
        &self,
        resource: ResourceId,
        place: &Place,
        found: Option<BookingId>,
    ) -> Option<BookingId>
        requires { place.now.minute < end_of_minutes }
        ensures { (seen : List ℕ) → found ≡ first_on self.now place.now seen → result ≡ first_on self.now place.now (seen ++ resource ∷ []) }
    {
        let _ = &self.index;
        least(found, self.first_of(self.standing_on(resource), place))
    }

    /// The same with the crew or the pool of one membership, where that lasts.
    fn first_with_group(
        &self,
        row: &MemberRow,
        place: &Place,
        found: Option<BookingId>,
    ) -> Option<BookingId>
        requires { place.now.minute < end_of_minutes }
        ensures { (seen : List ℕ) → found ≡ first_on self.now place.now seen → result ≡ first_on self.now place.now (seen ++ groups_at (row.now ∷ []) place.now.minute) }
    {
        let covered = is_covered(row.from, row.to, place.minute);
        if !covered.holds {
            return found;
        }
        self.first_with(row.group, place, found)
    }

    /// The same with the crews and pools that a resource is in.
    fn first_with_groups(
        &self,
        member: ResourceId,
        place: &Place,
        found: Option<BookingId>,
    ) -> Option<BookingId>
        requires { place.now.minute < end_of_minutes }
        ensures { (seen : List ℕ) → found ≡ first_on self.now place.now seen → result ≡ first_on self.now place.now (seen ++ groups_at (of_member member self.now.tables.members) place.now.minute) }
    {
        let mut least = found;
        for row in self.rows_with(member) {
            least = self.first_with_group(row, place, least);
        }
        least
    }

    /// The same with a plain resource, and the crews and pools that it is in.
    fn first_with_plain(
        &self,
        resource: ResourceId,
        place: &Place,
        found: Option<BookingId>,
    ) -> Option<BookingId>
        requires { place.now.minute < end_of_minutes }
        ensures { (seen : List ℕ) → found ≡ first_on self.now place.now seen → result ≡ first_on self.now place.now (seen ++ plain_and_groups self.now.tables resource place.now.minute) }
    {
        let next = self.first_with(resource, place, found);
        self.first_with_groups(resource, place, next)
    }

    /// The same with the member of one membership and its crew and pool, where the membership lasts.
    fn first_with_member(
        &self,
        row: &MemberRow,
        place: &Place,
        found: Option<BookingId>,
    ) -> Option<BookingId>
        requires { place.now.minute < end_of_minutes }
        ensures { (seen : List ℕ) → found ≡ first_on self.now place.now seen → result ≡ first_on self.now place.now (seen ++ members_and_groups self.now.tables (row.now ∷ []) place.now.minute) }
    {
        let covered = is_covered(row.from, row.to, place.minute);
        if !covered.holds {
            return found;
        }
        self.first_with_plain(row.member, place, found)
    }

    /// The same with the members of a pool, and the crews and pools that they are in.
    fn first_with_members(
        &self,
        pool: ResourceId,
        place: &Place,
        found: Option<BookingId>,
    ) -> Option<BookingId>
        requires { place.now.minute < end_of_minutes }
        ensures { (seen : List ℕ) → found ≡ first_on self.now place.now seen → result ≡ first_on self.now place.now (seen ++ members_and_groups self.now.tables (rows_of_group self.now.tables pool) place.now.minute) }
    {
        let mut least = found;
        for row in self.rows_of(pool) {
            least = self.first_with_member(row, place, least);
        }
        least
    }

    /// The first booking that counts at the place.
    pub(crate) fn first_at(&self, place: &Place) -> Option<BookingId>
        requires { place.now.minute < end_of_minutes }
        ensures { result ≡ first_of self.now place.now self.now.tables.bookings }
    {
        let _ = &self.index;
        let resource = place.resource;
        match self.sort_of(resource) {
            Sort::Plain => self.first_with_plain(resource, place, None),
            Sort::Crew => self.first_with(resource, place, None),
            Sort::Pool => {
                let found = self.first_with(resource, place, None);
                self.first_with_members(resource, place, found)
            }
            Sort::Unknown => None,
        }
    }
}
