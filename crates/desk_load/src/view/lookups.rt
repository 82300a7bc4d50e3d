//! What a view looks up in its tables and in its index.
ghost use Rattle.std.specs.Prelude.{◌≡◌, ◌≤◌, length, filter};
ghost use Rattle.desk_base.specs.declared.rows.tables.Table.TheVariants.{Member as MemberTable};
ghost use Rattle.desk_base.specs.rows.Ranges.{owns};
ghost use Rattle.desk_base.specs.rules.TableLimits.{limit_of};
ghost use Rattle.desk_base.specs.meaning.Load.{sort_of};
ghost use Rattle.desk_member.specs.Memberships.{of_member};
ghost use Rattle.desk_member.specs.Spans.{rows_of_group};
ghost use Rattle.desk_load.specs.Sorts.{Names};

use crate::view::free::FreeView;
use crate::view::sorts::{Sort, sort_of};
use desk_base::{BookingRow, MemberRow, ResourceId};

impl FreeView<'_> {
    /// How a resource takes load.
    #[tactic(auto, using(desk_member::proofs::MemberRows::keys_rise))]
    pub(crate) fn sort_of(&self, resource: ResourceId) -> Sort
        ensures { Names result (sort_of self.now.tables resource) }
    {
        sort_of(self.tables, resource)
    }

    /// The memberships of a crew or a pool, rising by member.
    #[tactic(auto, using(desk_member::proofs::MemberRows::keys_rise))]
    pub(crate) fn rows_of(&self, group: ResourceId) -> &[MemberRow]
        ensures rows { result.now ≡ rows_of_group self.now.tables group }
        ensures few { length result.now ≤ limit_of MemberTable }
    {
        self.tables.memberships_of(group)
    }

    /// The memberships of a resource, by crew or pool and then by minute.
    pub(crate) fn rows_with(&self, member: ResourceId) -> &[MemberRow]
        ensures { result.now ≡ of_member member self.now.tables.members }
    {
        self.index.memberships_of(member)
    }

    /// The bookings that stand on a resource itself, rising by number.
    pub(crate) fn standing_on(&self, resource: ResourceId) -> &[BookingRow]
        ensures { result.now ≡ filter (owns (λ b. b.resource) resource) self.now.tables.bookings }
    {
        self.index.standing_on(resource)
    }
}
