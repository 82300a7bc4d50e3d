//! Whether a resource is in a crew throughout a time, by the spans of its memberships.
ghost use Rattle.std.specs.Prelude.{◌≡◌, ◌-◌, ◌==◌, ◌&&◌, ◌<◌, ◌^◌, ◌+◌, min, max, filter};
ghost use Rattle.std.specs.List.{list_any, list_all, range_with_len};
ghost use Rattle.desk_base.specs.meaning.Load.{members};
ghost use Rattle.desk_base.specs.meaning.Picks.{is_member_throughout};
ghost use Rattle.desk_base.specs.meaning.Time.{leaf_time};
ghost use Rattle.desk_base.specs.rows.Lookups.{KeysRise};
ghost use Rattle.desk_need.specs.Covers.{are_covered};

use desk_base::limits::{END_OF_MINUTES, FIRST_MINUTE};
use desk_base::{Leaf, MemberRow, ResourceId, Tables, rows_at};

fn later(a: u64, b: u64) -> u64
    ensures { result ≡ max a b }
{
    if a < b { b } else { a }
}

fn earlier(a: u64, b: u64) -> u64
    ensures { result ≡ min a b }
{
    if a < b { a } else { b }
}

/// Whether each minute from one on and below another is in one of the spans. Where the spans rise, those behind a gap are not
/// looked at.
fn are_covered(rows: &[MemberRow], from: u64, to: u64) -> bool
    ensures { result ≡ are_covered rows.now from to }
{
    match rows {
        [] => to <= from,
        [row, others @ ..] => {
            if to <= from {
                true
            } else {
                let before = earlier(to, u64::from(row.from.get()));
                let after = later(from, u64::from(row.to.get()));
                are_covered(others, from, before) && are_covered(others, after, to)
            }
        }
    }
}

/// The memberships of a resource in a crew.
#[tactic(auto, using(desk_base::proofs::tables::Rising::members_rise))]
fn memberships(tables: &Tables, crew: ResourceId, member: ResourceId) -> &[MemberRow]
    requires { KeysRise tables.now }
    ensures { result.now ≡ filter (λ x. (x.group == crew) && (x.member == member)) tables.now.members }
{
    rows_at(tables.members.as_slice(), crew.get(), member.get())
}

/// Whether the resource is a member of the crew at each minute from one on and below another.
fn is_member_from(tables: &Tables, crew: ResourceId, member: ResourceId, from: u64, to: u64) -> bool
    requires { KeysRise tables.now }
    ensures { result ≡ list_all (λ m. list_any (λ x. x == member) (members tables.now crew m)) (range_with_len from (to - from)) }
{
    let rows = memberships(tables, crew, member);
    are_covered(rows, from, to)
}

/// When the leaf begins where its group starts at this minute.
pub(crate) fn begin_of(leaf: &Leaf, start: u32) -> u64
    ensures value { result ≡ start + leaf.now.offset }
    ensures small { result < 2 ^ 33 }
{
    u64::from(start) + u64::from(leaf.offset)
}

/// Whether the resource is a member of the crew at every minute of the leaf that is in the horizon.
pub(crate) fn is_member_throughout(
    tables: &Tables,
    start: u32,
    crew: ResourceId,
    leaf: &Leaf,
    member: ResourceId,
) -> bool
    requires { KeysRise tables.now }
    ensures { result ≡ is_member_throughout tables.now crew member (leaf_time leaf.now start) }
{
    let begin = begin_of(leaf, start);
    let from = later(u64::from(FIRST_MINUTE), begin);
    let to = earlier(begin + u64::from(leaf.duration), u64::from(END_OF_MINUTES));
    is_member_from(tables, crew, member, from, to)
}
