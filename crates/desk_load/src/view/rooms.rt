//! What a resource has to give at a minute.
ghost use Rattle.std.specs.Prelude.{◌≡◌, ◌<◌, ◌≤◌, ◌^◌, sum_by, pos, Some, None, IfSome, if◌then◌else◌};
ghost use Rattle.desk_base.specs.meaning.Capacity.{capacity};
ghost use Rattle.desk_base.specs.meaning.Load.{members, room, room_of_crew};
ghost use Rattle.desk_base.specs.rules.Limits.{end_of_minutes};
ghost use Rattle.desk_load.specs.Steady.{Stays};
ghost use Rattle.desk_load.specs.Uses.{capacity_through};

use crate::view::free::FreeView;
use crate::view::memberships::{any_covers, is_covered};
use crate::view::sorts::Sort;
use crate::view::steady::{Room, Steady, always, together};
use desk_base::limits::END_OF_MINUTES;
use desk_base::{MemberRow, ResourceId, next_bound};
use desk_calendar::steady_at;

/// A number as a bound.
fn bounded(room: Steady) -> Room
    ensures bound { result.bound ≡ Some room.value }
    ensures until { result.until ≡ room.until }
{
    Room {
        bound: Some(room.value),
        until: room.until,
    }
}

/// The room of a crew, by whether it has a member.
fn bound_of_crew(has_member: bool) -> Option<u128>
    ensures { result ≡ (if has_member then None else Some 0) }
{
    if has_member { None } else { Some(0) }
}

impl FreeView<'_> {
    /// What a plain resource can do.
    #[tactic(auto, using(desk_member::proofs::MemberRows::keys_rise))]
    fn capacity(&self, resource: ResourceId, minute: u32) -> Steady
        requires { minute < end_of_minutes }
        ensures room { Stays (capacity self.now.tables resource) minute result.value result.until }
        ensures small { result.value < 2 ^ 32 }
    {
        let steady = steady_at(self.tables, resource, minute);
        Steady {
            value: u128::from(steady.capacity),
            until: steady.until,
        }
    }

    /// What the member of a membership can do, while that lasts.
    fn capacity_share(&self, row: &MemberRow, minute: u32) -> Steady
        requires { minute < end_of_minutes }
        ensures room { Stays (capacity_through self.now.tables row.now) minute result.value result.until }
        ensures small { result.value < 2 ^ 32 }
    {
        let covered = is_covered(row.from, row.to, minute);
        if !covered.holds {
            return Steady {
                value: 0,
                until: covered.until,
            };
        }
        let steady = self.capacity(row.member, minute);
        Steady {
            value: steady.value,
            until: steady.until.min(covered.until),
        }
    }

    /// What the members of a pool can do together.
    fn pool_room(&self, pool: ResourceId, minute: u32) -> Steady
        requires { minute < end_of_minutes }
        ensures room { Stays (λ k. sum_by (λ x. capacity self.now.tables x k) (members self.now.tables pool k)) minute result.value result.until }
        ensures small { result.value ≤ 2 ^ 47 }
    {
        let mut sum = always(0);
        for row in self.rows_of(pool) {
            sum = together(sum, self.capacity_share(row, minute));
        }
        sum
    }

    /// The room of a crew: none without a member, and without bound with one.
    fn crew_room(&self, crew: ResourceId, minute: u32) -> Room
        requires { minute < end_of_minutes }
        ensures room { Stays (λ k. room_of_crew (members self.now.tables crew k)) minute result.bound result.until }
        ensures small { IfSome result.bound (λ n. n ≤ 2 ^ 47) }
    {
        let rows = self.rows_of(crew);
        Room {
            bound: bound_of_crew(any_covers(rows, minute)),
            until: next_bound(rows, minute, END_OF_MINUTES),
        }
    }

    /// What a resource has to give.
    #[tactic(auto, unfolding(desk_base::specs::meaning::Load::room))]
    pub(crate) fn room(&self, resource: ResourceId, minute: u32) -> Room
        requires { minute < end_of_minutes }
        ensures room { Stays (room self.now.tables resource) minute result.bound result.until }
        ensures small { IfSome result.bound (λ n. n ≤ 2 ^ 47) }
    {
        match self.sort_of(resource) {
            Sort::Plain => bounded(self.capacity(resource, minute)),
            Sort::Crew => self.crew_room(resource, minute),
            Sort::Pool => bounded(self.pool_room(resource, minute)),
            Sort::Unknown => bounded(always(0)),
        }
    }
}
