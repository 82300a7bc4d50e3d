//! Who is a member of what at a minute.
ghost use Rattle.std.specs.Prelude.{◌≡◌, ◌<◌, ◌==◌, ◌&&◌};
ghost use Rattle.std.specs.List.{list_any};
ghost use Rattle.desk_base.specs.declared.rows.tables.Tables.{Tables};
ghost use Rattle.desk_base.specs.meaning.Load.{members};
ghost use Rattle.desk_base.specs.meaning.Time.{covers};
ghost use Rattle.desk_base.specs.rules.Limits.{end_of_minutes};
ghost use Rattle.desk_member.specs.Memberships.{AreMemberships};
ghost use Rattle.desk_load.specs.Steady.{Stays};

use crate::view::steady::Held;
use desk_base::limits::END_OF_MINUTES;
use desk_base::{MemberRow, Minute, ResourceId, nearer, next_bound};
use desk_member::ByMember;

/// Whether a time covers the minute, and until when that stays so.
pub fn is_covered(from: Minute, to: Minute, minute: u32) -> Held
    requires { minute < end_of_minutes }
    ensures { Stays (λ k. covers from to k) minute result.holds result.until }
{
    let from = from.get();
    let to = to.get();
    Held {
        holds: from <= minute && minute < to,
        until: nearer(minute, nearer(minute, END_OF_MINUTES, from), to),
    }
}

/// Whether one of the memberships is in the crew or the pool, and covers the minute.
fn any_joins(rows: &[MemberRow], group: ResourceId, minute: u32) -> bool
    ensures { result ≡ list_any (λ x. (x.group == group) && covers x.from x.to minute) rows.now }
{
    rows.iter().any(|row| {
        row.group.get() == group.get() && row.from.get() <= minute && minute < row.to.get()
    })
}

/// Whether one of the memberships covers the minute.
pub fn any_covers(rows: &[MemberRow], minute: u32) -> bool
    ensures { result ≡ list_any (λ x. covers x.from x.to minute) rows.now }
{
    rows.iter()
        .any(|row| row.from.get() <= minute && minute < row.to.get())
}

/// Whether the resource is a member of the crew or the pool.
pub fn is_member(by_member: &ByMember, group: ResourceId, resource: ResourceId, minute: u32) -> Held
    requires { minute < end_of_minutes }
    ensures { (t : Tables) → AreMemberships t by_member.now → Stays (λ k. list_any (λ x. x == resource) (members t group k)) minute result.holds result.until }
{
    let rows = by_member.of_member(resource);
    Held {
        holds: any_joins(rows, group, minute),
        until: next_bound(rows, minute, END_OF_MINUTES),
    }
}
