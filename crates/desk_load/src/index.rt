//! The index of what stands.
ghost use Rattle.std.specs.Prelude.{◌≡◌, [], find, filter, map};
ghost use Rattle.std.specs.Option.{option_copied};
ghost use Rattle.std.specs.Ordering.{nat_cmp};
ghost use Rattle.std.specs.List.Sorted.{IsStrictlySortedBy};
ghost use Rattle.desk_base.specs.declared.rows.tables.Tables.{Tables};
ghost use Rattle.desk_base.specs.rules.Sound.{AreWellFormed};
ghost use Rattle.desk_base.specs.rows.Ranges.{owns};
ghost use Rattle.desk_member.specs.Memberships.{of_member};
ghost use Rattle.desk_load.specs.Index.{IsIndexOf};
ghost use Rattle.desk_load.specs.Lists.{list_under};

use crate::lists::BookingList;
use crate::weights::Weight;
use desk_base::{BookingRow, GroupId, MemberRow, ResourceId, row_of};
use desk_member::ByMember;
use std::alloc::Global;
use std::marker::Model;

/// What the standing bookings of some tables weigh, and which they are: for each resource and for each group.
#[derive(Drop)]
pub struct LoadIndex {
    pub(crate) weights: Vec<Weight>,
    pub(crate) standing: Vec<BookingList>,
    pub(crate) booked: Vec<BookingList>,
    pub(crate) members: ByMember,
}

impl Model for LoadIndex {
    ghost use Rattle.desk_load.specs.Parted.{IndexParts};
    ghost use Rattle.std.specs.Prelude.{map};
    ghost use Rattle.std.specs.Ordering.{nat_cmp};
    ghost use Rattle.std.specs.List.Sorted.{IsStrictlySortedBy};

    ghost Value = { IndexParts };

    ghost view = { λ s. record { weights = s.weights.items; standing = s.standing.items; booked = s.booked.items; members = s.members } };

    ghost invariant = { λ s. IsStrictlySortedBy nat_cmp (map (λ w. w.resource) s.weights.items) × IsStrictlySortedBy nat_cmp (map (λ l. l.number) s.standing.items) × IsStrictlySortedBy nat_cmp (map (λ l. l.number) s.booked.items) };
}

impl LoadIndex {
    /// The index of no tables: it has nothing. It takes no memory.
    pub fn empty(alloc: Global) -> LoadIndex
        ensures { result ≡ record { weights = []; standing = []; booked = []; members = [] } }
    {
        LoadIndex {
            weights: Vec::new(alloc),
            standing: Vec::new(alloc),
            booked: Vec::new(alloc),
            members: ByMember::empty(alloc),
        }
    }

    /// The weight of a resource, found by halving.
    #[tactic(auto, using(crate::proofs::Numbers::rise_strict))]
    pub fn weight_of(&self, resource: ResourceId) -> Option<&Weight>
        ensures { option_copied result ≡ find (owns (λ w. w.resource) resource) self.now.weights }
    {
        row_of(self.weights.as_slice(), resource.get())
    }

    /// The bookings that stand on a resource itself, rising by number. They are found by halving.
    #[tactic(auto, using(crate::proofs::Reading::standing_under))]
    pub fn standing_on(&self, resource: ResourceId) -> &[BookingRow]
        ensures { (t : Tables) → AreWellFormed t → IsIndexOf t self.now → result.now ≡ filter (owns (λ b. b.resource) resource) t.bookings }
    {
        list_under(self.standing.as_slice(), resource.get())
    }

    /// The memberships of a resource, by crew or pool and then by minute. They are found by halving.
    pub fn memberships_of(&self, member: ResourceId) -> &[MemberRow]
        ensures { (t : Tables) → IsIndexOf t self.now → result.now ≡ of_member member t.members }
    {
        self.members.of_member(member)
    }

    /// The bookings of a group, rising by number. They are found by halving.
    #[tactic(auto, using(crate::proofs::Reading::booked_under))]
    pub fn bookings_of(&self, group: GroupId) -> &[BookingRow]
        ensures { (t : Tables) → AreWellFormed t → IsIndexOf t self.now → result.now ≡ filter (owns (λ b. b.group) group) t.bookings }
    {
        list_under(self.booked.as_slice(), group.get())
    }
}

/// The list of a number, or none.
#[tactic(auto, using(crate::proofs::Numbers::rise_strict))]
pub(crate) fn list_under(lists: &[BookingList], number: u32) -> &[BookingRow]
    requires { IsStrictlySortedBy nat_cmp (map (λ l. l.number) lists.now) }
    ensures { result.now ≡ list_under number lists.now }
{
    match row_of(lists, number) {
        Some(list) => list.bookings.as_slice(),
        None => &[],
    }
}
