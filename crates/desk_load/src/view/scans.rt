//! On which resources a booking counts at a minute, and whether it has room there.
ghost use Rattle.std.specs.Prelude.{◌≡◌, ℕ, ◌<◌, ◌≤◌, true, false, min, Some, List, ◌++◌, ◌∷◌, []};
ghost use Rattle.desk_base.specs.rules.Limits.{first_minute, end_of_minutes};
ghost use Rattle.desk_spans.specs.Minutes.{EachMinute};
ghost use Rattle.desk_member.specs.Memberships.{of_member};
ghost use Rattle.desk_member.specs.Spans.{rows_of_group};
ghost use Rattle.desk_load.specs.Scans.{IsScan, IsShortAt, groups_at, plain_and_groups, members_and_groups, counted_on, lesser};

use crate::view::demand::Demand;
use crate::view::free::FreeView;
use crate::view::memberships::is_covered;
use crate::view::sorts::Sort;
use crate::view::steady::Held;
use desk_base::limits::END_OF_MINUTES;
use desk_base::{MemberRow, ResourceId};

/// The least resource seen so far on which a booking has no room, and the minute before which that stays so.
#[derive(Clone, Copy, Debug)]
pub struct Scan {
    pub short: Option<ResourceId>,
    pub until: u32,
}

/// The lesser of a resource that is short, and of the one that was found before.
fn lesser(found: Option<ResourceId>, resource: ResourceId) -> ResourceId
    ensures { result ≡ lesser found resource }
{
    match found {
        Some(least) => {
            if least.get() < resource.get() {
                least
            } else {
                resource
            }
        }
        None => resource,
    }
}

/// What is known with one resource more, by whether there is room on it.
fn noted(scan: Scan, resource: ResourceId, room: Held) -> Scan
    ensures kept { room.holds ≡ true → result.short ≡ scan.short }
    ensures short { room.holds ≡ false → result.short ≡ Some (lesser scan.short resource) }
    ensures until { result.until ≡ min scan.until room.until }
{
    Scan {
        short: if room.holds {
            scan.short
        } else {
            Some(lesser(scan.short, resource))
        },
        until: scan.until.min(room.until),
    }
}

/// The same for fewer minutes.
fn narrowed(scan: Scan, until: u32) -> Scan
    ensures short { result.short ≡ scan.short }
    ensures until { result.until ≡ min scan.until until }
{
    Scan {
        short: scan.short,
        until: scan.until.min(until),
    }
}

impl FreeView<'_> {
    /// Looks at one resource more.
    fn look_at(&self, demand: &Demand, resource: ResourceId, minute: u32, scan: Scan) -> Scan
        requires first { first_minute ≤ minute }
        requires end { minute < end_of_minutes }
        ensures { (seen : ℕ → List ℕ) → IsScan self.now demand.now seen minute scan.short scan.until → IsScan self.now demand.now (λ k. seen k ++ resource ∷ []) minute result.short result.until }
    {
        noted(scan, resource, self.has_room_on(demand, resource, minute))
    }

    /// Looks at the crew or the pool of one membership more, while that lasts.
    fn look_at_group(&self, demand: &Demand, row: &MemberRow, minute: u32, scan: Scan) -> Scan
        requires first { first_minute ≤ minute }
        requires end { minute < end_of_minutes }
        ensures { (seen : ℕ → List ℕ) → IsScan self.now demand.now seen minute scan.short scan.until → IsScan self.now demand.now (λ k. seen k ++ groups_at (row.now ∷ []) k) minute result.short result.until }
    {
        let covered = is_covered(row.from, row.to, minute);
        if !covered.holds {
            return narrowed(scan, covered.until);
        }
        let next = self.look_at(demand, row.group, minute, scan);
        narrowed(next, covered.until)
    }

    /// Looks at the crews and pools that a resource is in.
    fn look_at_groups(&self, demand: &Demand, member: ResourceId, minute: u32, scan: Scan) -> Scan
        requires first { first_minute ≤ minute }
        requires end { minute < end_of_minutes }
        ensures { (seen : ℕ → List ℕ) → IsScan self.now demand.now seen minute scan.short scan.until → IsScan self.now demand.now (λ k. seen k ++ groups_at (of_member member self.now.tables.members) k) minute result.short result.until }
    {
        let mut found = scan;
        for row in self.rows_with(member) {
            found = self.look_at_group(demand, row, minute, found);
        }
        found
    }

    /// Looks at a plain resource, and at the crews and pools that it is in.
    fn look_at_plain(&self, demand: &Demand, resource: ResourceId, minute: u32, scan: Scan) -> Scan
        requires first { first_minute ≤ minute }
        requires end { minute < end_of_minutes }
        ensures { (seen : ℕ → List ℕ) → IsScan self.now demand.now seen minute scan.short scan.until → IsScan self.now demand.now (λ k. seen k ++ plain_and_groups self.now.tables resource k) minute result.short result.until }
    {
        let next = self.look_at(demand, resource, minute, scan);
        self.look_at_groups(demand, resource, minute, next)
    }

    /// Looks at the member of one membership more and at its crew and pool, while the membership lasts.
    fn look_at_member(&self, demand: &Demand, row: &MemberRow, minute: u32, scan: Scan) -> Scan
        requires first { first_minute ≤ minute }
        requires end { minute < end_of_minutes }
        ensures { (seen : ℕ → List ℕ) → IsScan self.now demand.now seen minute scan.short scan.until → IsScan self.now demand.now (λ k. seen k ++ members_and_groups self.now.tables (row.now ∷ []) k) minute result.short result.until }
    {
        let covered = is_covered(row.from, row.to, minute);
        if !covered.holds {
            return narrowed(scan, covered.until);
        }
        let next = self.look_at_plain(demand, row.member, minute, scan);
        narrowed(next, covered.until)
    }

    /// Looks at the members of a crew, and at the crews and pools that they are in.
    fn look_at_members(&self, demand: &Demand, crew: ResourceId, minute: u32, scan: Scan) -> Scan
        requires first { first_minute ≤ minute }
        requires end { minute < end_of_minutes }
        ensures { (seen : ℕ → List ℕ) → IsScan self.now demand.now seen minute scan.short scan.until → IsScan self.now demand.now (λ k. seen k ++ members_and_groups self.now.tables (rows_of_group self.now.tables crew) k) minute result.short result.until }
    {
        let mut found = scan;
        for row in self.rows_of(crew) {
            found = self.look_at_member(demand, row, minute, found);
        }
        found
    }

    /// Looks at each resource on which a booking may count.
    fn look_at_all(&self, demand: &Demand, minute: u32, scan: Scan) -> Scan
        requires first { first_minute ≤ minute }
        requires end { minute < end_of_minutes }
        ensures { (seen : ℕ → List ℕ) → IsScan self.now demand.now seen minute scan.short scan.until → IsScan self.now demand.now (λ k. seen k ++ counted_on self.now.tables demand.now.resource k) minute result.short result.until }
    {
        let resource = demand.resource;
        match self.sort_of(resource) {
            Sort::Plain => self.look_at_plain(demand, resource, minute, scan),
            Sort::Crew => {
                let next = self.look_at(demand, resource, minute, scan);
                self.look_at_members(demand, resource, minute, next)
            }
            Sort::Pool => self.look_at(demand, resource, minute, scan),
            Sort::Unknown => scan,
        }
    }

    /// The least resource on which a booking has no room, and the minute before which that stays so.
    pub(crate) fn short_at(&self, demand: &Demand, minute: u32) -> Scan
        requires first { first_minute ≤ minute }
        requires end { minute < end_of_minutes }
        ensures later { minute < result.until }
        ensures inside { result.until ≤ end_of_minutes }
        ensures short { EachMinute minute result.until (λ k. IsShortAt self.now demand.now k result.short) }
    {
        let _ = &self.index;
        let nothing = Scan {
            short: None,
            until: END_OF_MINUTES,
        };
        self.look_at_all(demand, minute, nothing)
    }
}
