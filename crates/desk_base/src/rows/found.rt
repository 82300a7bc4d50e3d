//! Rows by the ids that they stand under: each is found by halving, and no other row is looked at.
ghost use Rattle.std.specs.Prelude.{◌≡◌, ◌==◌, ◌&&◌, filter, find, option_and_then};
ghost use Rattle.std.specs.Option.{option_copied};
ghost use Rattle.desk_base.specs.asked.Groups.{group_of};
ghost use Rattle.desk_base.specs.meaning.Capacity.{resource_of};
ghost use Rattle.desk_base.specs.rows.Lookups.{KeysRise};

use crate::rows::bookings::{BookingRow, CallerRow};
use crate::rows::calendars::{BreakRow, CalendarRow, DayRow, OffRow, WorkRow, ZoneRow};
use crate::rows::groups::GroupRow;
use crate::rows::ranges::{row_of, rows_at, rows_of};
use crate::rows::resources::{HasRow, MemberRow, ResourceRow};
use crate::rows::tables::Tables;
use crate::values::ids::{CalendarId, CallerId, GroupId, ResourceId};
use crate::values::serials::BookingId;

impl Tables {
    /// The resource of this id, if there is one.
    #[tactic(auto, using(crate::proofs::tables::Rising::resources_rise))]
    pub fn resource(&self, id: ResourceId) -> Option<&ResourceRow>
        requires { KeysRise self.now }
        ensures { option_copied result ≡ resource_of self.now id }
    {
        row_of(self.resources.as_slice(), id.get())
    }

    /// The requirement group of this id, if there is one.
    #[tactic(auto, using(crate::proofs::tables::Rising::groups_rise))]
    pub fn group(&self, id: GroupId) -> Option<&GroupRow>
        requires { KeysRise self.now }
        ensures { option_copied result ≡ group_of self.now id }
    {
        row_of(self.groups.as_slice(), id.get())
    }

    /// The calendar of this id, if there is one.
    #[tactic(auto, using(crate::proofs::tables::Rising::calendars_rise))]
    pub fn calendar(&self, id: CalendarId) -> Option<&CalendarRow>
        requires { KeysRise self.now }
        ensures { option_copied result ≡ find (λ x. x.id == id) self.now.calendars }
    {
        row_of(self.calendars.as_slice(), id.get())
    }

    /// The booking of this number, if it stands.
    #[tactic(auto, using(crate::proofs::tables::Rising::bookings_rise))]
    pub fn booking(&self, id: BookingId) -> Option<&BookingRow>
        requires { KeysRise self.now }
        ensures { option_copied result ≡ find (λ x. x.id == id) self.now.bookings }
    {
        row_of(self.bookings.as_slice(), id.get())
    }

    /// The row of a caller, if one is kept.
    #[tactic(auto, using(crate::proofs::tables::Rising::callers_rise))]
    pub fn caller(&self, id: CallerId) -> Option<&CallerRow>
        requires { KeysRise self.now }
        ensures { option_copied result ≡ find (λ x. x.caller == id) self.now.callers }
    {
        row_of(self.callers.as_slice(), id.get())
    }

    /// The zone of a calendar, if both are there.
    #[tactic(auto, using(crate::proofs::tables::Rising::zones_rise))]
    pub fn zone_of(&self, calendar: CalendarId) -> Option<&ZoneRow>
        requires { KeysRise self.now }
        ensures { option_copied result ≡ option_and_then (λ x. find (λ z. z.id == x.zone) self.now.zones) (find (λ x. x.id == calendar) self.now.calendars) }
    {
        match self.calendar(calendar) {
            Some(row) => row_of(self.zones.as_slice(), row.zone.get()),
            None => None,
        }
    }

    /// The work rows of a calendar on a weekday, rising.
    #[tactic(auto, using(crate::proofs::tables::Rising::works_rise))]
    pub fn works_at(&self, calendar: CalendarId, weekday: u32) -> &[WorkRow]
        requires { KeysRise self.now }
        ensures { result.now ≡ filter (λ w. (w.calendar == calendar) && (w.weekday == weekday)) self.now.works }
    {
        rows_at(self.works.as_slice(), calendar.get(), weekday)
    }

    /// The breaks of a calendar on a weekday, rising.
    #[tactic(auto, using(crate::proofs::tables::Rising::breaks_rise))]
    pub fn breaks_at(&self, calendar: CalendarId, weekday: u32) -> &[BreakRow]
        requires { KeysRise self.now }
        ensures { result.now ≡ filter (λ b. (b.calendar == calendar) && (b.weekday == weekday)) self.now.breaks }
    {
        rows_at(self.breaks.as_slice(), calendar.get(), weekday)
    }

    /// The day rows of a calendar on a day, rising.
    #[tactic(auto, using(crate::proofs::tables::Rising::days_rise))]
    pub fn days_at(&self, calendar: CalendarId, day: u32) -> &[DayRow]
        requires { KeysRise self.now }
        ensures { result.now ≡ filter (λ d. (d.calendar == calendar) && (d.day == day)) self.now.days }
    {
        rows_at(self.days.as_slice(), calendar.get(), day)
    }

    /// The times off of a resource, rising.
    #[tactic(auto, using(crate::proofs::tables::Rising::offs_rise))]
    pub fn offs_of(&self, resource: ResourceId) -> &[OffRow]
        requires { KeysRise self.now }
        ensures { result.now ≡ filter (λ o. o.resource == resource) self.now.offs }
    {
        rows_of(self.offs.as_slice(), resource.get())
    }

    /// The roles that a resource has, rising.
    #[tactic(auto, using(crate::proofs::tables::Rising::has_roles_rise))]
    pub fn roles_of(&self, resource: ResourceId) -> &[HasRow]
        requires { KeysRise self.now }
        ensures { result.now ≡ filter (λ h. h.resource == resource) self.now.has_roles }
    {
        rows_of(self.has_roles.as_slice(), resource.get())
    }

    /// The characteristics that a resource has, rising.
    #[tactic(auto, using(crate::proofs::tables::Rising::has_characteristics_rise))]
    pub fn characteristics_of(&self, resource: ResourceId) -> &[HasRow]
        requires { KeysRise self.now }
        ensures { result.now ≡ filter (λ h. h.resource == resource) self.now.has_characteristics }
    {
        rows_of(self.has_characteristics.as_slice(), resource.get())
    }

    /// The territories that a resource has, rising.
    #[tactic(auto, using(crate::proofs::tables::Rising::has_territories_rise))]
    pub fn territories_of(&self, resource: ResourceId) -> &[HasRow]
        requires { KeysRise self.now }
        ensures { result.now ≡ filter (λ h. h.resource == resource) self.now.has_territories }
    {
        rows_of(self.has_territories.as_slice(), resource.get())
    }

    /// The memberships of a crew or a pool, rising by member.
    #[tactic(auto, using(crate::proofs::tables::Rising::members_rise))]
    pub fn memberships_of(&self, group: ResourceId) -> &[MemberRow]
        requires { KeysRise self.now }
        ensures { result.now ≡ filter (λ x. x.group == group) self.now.members }
    {
        rows_of(self.members.as_slice(), group.get())
    }
}
