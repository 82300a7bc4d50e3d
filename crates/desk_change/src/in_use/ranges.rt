//! The rows that belong to a calendar or a resource, by its number. They are found by halving.
ghost use Rattle.std.specs.Prelude.{◌≡◌, ◌==◌, filter, find};
ghost use Rattle.std.specs.Option.{option_copied};
ghost use Rattle.desk_base.specs.rules.Sound.{IsSound};
ghost use Rattle.desk_load.specs.Index.{IsIndexOf};

use desk_base::{
    BookingRow, BreakRow, DayRow, HasRow, MemberRow, OffRow, ResourceRow, Tables, WorkRow, row_of,
    rows_of,
};
use desk_load::LoadIndex;

#[tactic(auto, using(desk_base::proofs::tables::Rising::works_rise, crate::proofs::Ready::rise))]
pub(crate) fn works_of(tables: &Tables, calendar: u32) -> &[WorkRow]
    requires { IsSound tables.now }
    ensures { result.now ≡ filter (λ x. x.calendar == calendar) tables.now.works }
{
    rows_of(tables.works.as_slice(), calendar)
}

#[tactic(auto, using(desk_base::proofs::tables::Rising::breaks_rise, crate::proofs::Ready::rise))]
pub(crate) fn breaks_of(tables: &Tables, calendar: u32) -> &[BreakRow]
    requires { IsSound tables.now }
    ensures { result.now ≡ filter (λ x. x.calendar == calendar) tables.now.breaks }
{
    rows_of(tables.breaks.as_slice(), calendar)
}

#[tactic(auto, using(desk_base::proofs::tables::Rising::days_rise, crate::proofs::Ready::rise))]
pub(crate) fn days_of(tables: &Tables, calendar: u32) -> &[DayRow]
    requires { IsSound tables.now }
    ensures { result.now ≡ filter (λ x. x.calendar == calendar) tables.now.days }
{
    rows_of(tables.days.as_slice(), calendar)
}

#[tactic(auto, using(desk_base::proofs::tables::Rising::offs_rise, crate::proofs::Ready::rise))]
pub(crate) fn offs_of(tables: &Tables, resource: u32) -> &[OffRow]
    requires { IsSound tables.now }
    ensures { result.now ≡ filter (λ x. x.resource == resource) tables.now.offs }
{
    rows_of(tables.offs.as_slice(), resource)
}

#[tactic(auto, using(desk_base::proofs::tables::Rising::has_roles_rise, crate::proofs::Ready::rise))]
pub(crate) fn roles_of(tables: &Tables, resource: u32) -> &[HasRow]
    requires { IsSound tables.now }
    ensures { result.now ≡ filter (λ x. x.resource == resource) tables.now.has_roles }
{
    rows_of(tables.has_roles.as_slice(), resource)
}

#[tactic(auto, using(desk_base::proofs::tables::Rising::has_characteristics_rise, crate::proofs::Ready::rise))]
pub(crate) fn characteristics_of(tables: &Tables, resource: u32) -> &[HasRow]
    requires { IsSound tables.now }
    ensures { result.now ≡ filter (λ x. x.resource == resource) tables.now.has_characteristics }
{
    rows_of(tables.has_characteristics.as_slice(), resource)
}

#[tactic(auto, using(desk_base::proofs::tables::Rising::has_territories_rise, crate::proofs::Ready::rise))]
pub(crate) fn territories_of(tables: &Tables, resource: u32) -> &[HasRow]
    requires { IsSound tables.now }
    ensures { result.now ≡ filter (λ x. x.resource == resource) tables.now.has_territories }
{
    rows_of(tables.has_territories.as_slice(), resource)
}

/// The memberships of a crew or a pool.
#[tactic(auto, using(desk_base::proofs::tables::Rising::members_rise, crate::proofs::Ready::rise))]
pub(crate) fn members_of(tables: &Tables, group: u32) -> &[MemberRow]
    requires { IsSound tables.now }
    ensures { result.now ≡ filter (λ x. x.group == group) tables.now.members }
{
    rows_of(tables.members.as_slice(), group)
}

#[tactic(auto, using(desk_base::proofs::tables::Rising::resources_rise, crate::proofs::Ready::rise))]
fn resource_of(tables: &Tables, resource: u32) -> Option<&ResourceRow>
    requires { IsSound tables.now }
    ensures { option_copied result ≡ find (λ x. x.id == resource) tables.now.resources }
{
    row_of(tables.resources.as_slice(), resource)
}

/// The memberships that a resource has in crews and pools.
pub(crate) fn memberships_of<'a>(
    tables: &Tables,
    index: &'a LoadIndex,
    resource: u32,
) -> &'a [MemberRow]
    requires sound { IsSound tables.now }
    requires index { IsIndexOf tables.now index.now }
    ensures { result.now ≡ filter (λ x. x.member == resource) tables.now.members }
{
    match resource_of(tables, resource) {
        Some(row) => index.memberships_of(row.id),
        None => &[],
    }
}

/// The bookings that stand on a resource itself.
pub(crate) fn bookings_on<'a>(
    tables: &Tables,
    index: &'a LoadIndex,
    resource: u32,
) -> &'a [BookingRow]
    requires sound { IsSound tables.now }
    requires index { IsIndexOf tables.now index.now }
    ensures { result.now ≡ filter (λ x. x.resource == resource) tables.now.bookings }
{
    match resource_of(tables, resource) {
        Some(row) => index.standing_on(row.id),
        None => &[],
    }
}
