//! The field rules of memberships. A membership is compared with those of its own member alone.
ghost use Rattle.std.specs.Prelude.{◌≡◌, ◌==◌, ◌&&◌, not};
ghost use Rattle.std.specs.List.{list_any};
ghost use Rattle.desk_base.specs.meaning.Load.{sort_of};
ghost use Rattle.desk_base.specs.rows.Lookups.{KeysRise};
ghost use Rattle.desk_base.specs.rules.Fields.{are_of_one_kind, is_group, is_plain, is_same_membership, member_rules, overlaps};
ghost use Rattle.desk_base.specs.rules.Rules.{first_broken};
ghost use Rattle.desk_member.specs.Memberships.{of_member};

use crate::fields::names::overlap;
use desk_base::{Field, MemberRow, ResourceId, Tables};

/// Whether it is a crew or a pool.
fn is_group(tables: &Tables, id: ResourceId) -> bool
    requires { KeysRise tables.now }
    ensures { result ≡ is_group (sort_of tables.now id) }
{
    match tables.resource(id) {
        Some(row) => !row.kind.is_plain(),
        None => false,
    }
}

/// Whether it is a resource, and neither a crew nor a pool.
fn is_plain(tables: &Tables, id: ResourceId) -> bool
    requires { KeysRise tables.now }
    ensures { result ≡ is_plain (sort_of tables.now id) }
{
    match tables.resource(id) {
        Some(row) => row.kind.is_plain(),
        None => false,
    }
}

/// Whether both are resources, and of one kind.
fn are_of_one_kind(tables: &Tables, one: ResourceId, other: ResourceId) -> bool
    requires { KeysRise tables.now }
    ensures { result ≡ are_of_one_kind tables.now one other }
{
    match tables.resource(one) {
        Some(first) => match tables.resource(other) {
            Some(second) => first.kind.number() == second.kind.number(),
            None => false,
        },
        None => false,
    }
}

fn is_same(one: &MemberRow, other: &MemberRow) -> bool
    ensures { result ≡ is_same_membership one.now other.now }
{
    one.group.get() == other.group.get()
        && one.member.get() == other.member.get()
        && one.from.get() == other.from.get()
}

/// The membership meets another in a group of the same kind.
fn meets(tables: &Tables, other: &MemberRow, row: &MemberRow) -> bool
    requires { KeysRise tables.now }
    ensures { result ≡ (not (is_same_membership other.now row.now) && are_of_one_kind tables.now other.now.group row.now.group && overlaps other.now.from other.now.to row.now.from row.now.to) }
{
    !is_same(other, row)
        && overlap(
            other.from.get(),
            other.to.get(),
            row.from.get(),
            row.to.get(),
        )
        && are_of_one_kind(tables, other.group, row.group)
}

/// The membership meets one of these in a group of the same kind.
fn meets_one(tables: &Tables, others: &[MemberRow], row: &MemberRow) -> bool
    requires { KeysRise tables.now }
    ensures { result ≡ list_any (λ y. not (is_same_membership y row.now) && are_of_one_kind tables.now y.group row.now.group && overlaps y.from y.to row.now.from row.now.to) others.now }
{
    others.iter().any(|other| meets(tables, other, row))
}

/// The membership meets another of its member in a group of the same kind. `own` are the memberships of its member.
fn meets_another(tables: &Tables, own: &[MemberRow], row: &MemberRow) -> bool
    requires rise { KeysRise tables.now }
    requires own { own.now ≡ of_member row.now.member tables.now.members }
    ensures { result ≡ list_any (λ y. (y.member == row.now.member) && not (is_same_membership y row.now) && are_of_one_kind tables.now y.group row.now.group && overlaps y.from y.to row.now.from row.now.to) tables.now.members }
{
    meets_one(tables, own, row)
}

/// The first rule that a membership breaks among these tables. `own` are the memberships of its member.
pub(crate) fn broken_member(tables: &Tables, own: &[MemberRow], row: &MemberRow) -> Option<Field>
    requires rise { KeysRise tables.now }
    requires own { own.now ≡ of_member row.now.member tables.now.members }
    ensures { result ≡ first_broken (member_rules tables.now row.now) }
{
    if !is_group(tables, row.group) {
        Some(Field::Group)
    } else if !is_plain(tables, row.member) {
        Some(Field::Member)
    } else if row.from.get() >= row.to.get() {
        Some(Field::To)
    } else if meets_another(tables, own, row) {
        Some(Field::Overlap)
    } else {
        None
    }
}
