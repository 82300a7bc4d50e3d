//! What a booking takes of a resource at a minute.
ghost use Rattle.std.specs.Prelude.{◌≡◌, ℕ, ◌<◌, ◌≤◌, ◌^◌, ◌*◌, length, sum_by, if◌then◌else◌};
ghost use Rattle.desk_base.specs.meaning.Load.{members, loads, own_load, plain_load, load, weight};
ghost use Rattle.desk_base.specs.rules.Limits.{end_of_minutes};
ghost use Rattle.desk_load.specs.declared.limits.TheConstants.{MOST_LAID};
ghost use Rattle.desk_load.specs.Steady.{Stays};
ghost use Rattle.desk_load.specs.Uses.{share_through};
ghost use Rattle.desk_load.specs.Views.{demand_at};

use crate::view::demand::{Demand, demand_of};
use crate::view::free::FreeView;
use crate::view::memberships::{is_covered, is_member};
use crate::view::sorts::Sort;
use crate::view::steady::{Held, Steady, always, together};
use desk_base::limits::END_OF_MINUTES;
use desk_base::{Ask, MemberRow, ResourceId};

/// A number where something holds, and 0 where it does not.
fn where_held(held: Held, value: u32) -> Steady
    ensures value { result.value ≡ (if held.holds then value else 0) }
    ensures until { result.until ≡ held.until }
{
    Steady {
        value: if held.holds { u128::from(value) } else { 0 },
        until: held.until,
    }
}

/// What a booking takes of the resource that it stands on.
#[tactic(auto, unfolding(desk_base::specs::meaning::Load::own_load))]
fn own_use(demand: &Demand, resource: ResourceId) -> Steady
    ensures taken { (m : ℕ) → m < end_of_minutes → Stays (λ k. own_load resource k (demand_at demand.now k)) m result.value result.until }
    ensures small { result.value < 2 ^ 32 }
{
    if demand.resource.get() == resource.get() {
        always(u128::from(demand.effort))
    } else {
        always(0)
    }
}

impl FreeView<'_> {
    /// Whether a booking on one resource loads another, which is plain: it is the same, or a crew that it is in.
    fn loads(&self, on: ResourceId, resource: ResourceId, minute: u32) -> Held
        requires { minute < end_of_minutes }
        ensures { Stays (λ k. loads self.now.tables on resource k) minute result.holds result.until }
    {
        if on.get() == resource.get() {
            return Held {
                holds: true,
                until: END_OF_MINUTES,
            };
        }
        let index = self.index;
        match self.sort_of(on) {
            Sort::Crew => is_member(&index.members, on, resource, minute),
            Sort::Plain | Sort::Pool | Sort::Unknown => Held {
                holds: false,
                until: END_OF_MINUTES,
            },
        }
    }

    /// What a booking takes of a plain resource.
    fn plain_use(&self, demand: &Demand, resource: ResourceId, minute: u32) -> Steady
        requires { minute < end_of_minutes }
        ensures taken { Stays (λ k. plain_load self.now.tables resource k (demand_at demand.now k)) minute result.value result.until }
        ensures small { result.value < 2 ^ 32 }
    {
        where_held(self.loads(demand.resource, resource, minute), demand.effort)
    }

    /// What a booking takes of the member of a membership, while that lasts.
    fn share(&self, demand: &Demand, row: &MemberRow, minute: u32) -> Steady
        requires { minute < end_of_minutes }
        ensures taken { Stays (share_through self.now.tables demand.now row.now) minute result.value result.until }
        ensures small { result.value < 2 ^ 32 }
    {
        let covered = is_covered(row.from, row.to, minute);
        if !covered.holds {
            return Steady {
                value: 0,
                until: covered.until,
            };
        }
        let taken = self.plain_use(demand, row.member, minute);
        Steady {
            value: taken.value,
            until: taken.until.min(covered.until),
        }
    }

    /// What a booking takes of the members of a pool together.
    fn members_use(&self, demand: &Demand, pool: ResourceId, minute: u32) -> Steady
        requires { minute < end_of_minutes }
        ensures taken { Stays (λ k. sum_by (λ x. plain_load self.now.tables x k (demand_at demand.now k)) (members self.now.tables pool k)) minute result.value result.until }
        ensures small { result.value ≤ 2 ^ 47 }
    {
        let mut sum = always(0);
        for row in self.rows_of(pool) {
            sum = together(sum, self.share(demand, row, minute));
        }
        sum
    }

    /// What a booking takes of a resource, if it has the minute.
    pub(crate) fn use_of(&self, demand: &Demand, resource: ResourceId, minute: u32) -> Steady
        requires { minute < end_of_minutes }
        ensures taken { Stays (λ k. load self.now.tables resource k (demand_at demand.now k)) minute result.value result.until }
        ensures small { result.value ≤ 2 ^ 48 }
    {
        match self.sort_of(resource) {
            Sort::Plain => self.plain_use(demand, resource, minute),
            Sort::Crew => own_use(demand, resource),
            Sort::Pool => together(
                own_use(demand, resource),
                self.members_use(demand, resource, minute),
            ),
            Sort::Unknown => always(0),
        }
    }

    /// What an ask takes of a resource.
    pub(crate) fn load_of(&self, ask: &Ask, resource: ResourceId, minute: u32) -> Steady
        requires { minute < end_of_minutes }
        ensures taken { Stays (λ k. load self.now.tables resource k ask.now) minute result.value result.until }
        ensures small { result.value ≤ 2 ^ 48 }
    {
        let covered = is_covered(ask.window.from, ask.window.to, minute);
        if !covered.holds {
            return Steady {
                value: 0,
                until: covered.until,
            };
        }
        let taken = self.use_of(&demand_of(ask), resource, minute);
        Steady {
            value: taken.value,
            until: taken.until.min(covered.until),
        }
    }

    /// What asks take of a resource together.
    pub(crate) fn weight_of(&self, asks: &[Ask], resource: ResourceId, minute: u32) -> Steady
        requires minute { minute < end_of_minutes }
        requires few { length asks.now ≤ MOST_LAID }
        ensures taken { Stays (weight self.now.tables asks.now resource) minute result.value result.until }
        ensures small { result.value ≤ length asks.now * 2 ^ 48 }
    {
        let mut sum = always(0);
        for ask in asks {
            sum = together(sum, self.load_of(ask, resource, minute));
        }
        sum
    }
}
