//! Memberships by member.
ghost use Rattle.std.specs.Prelude.{◌≡◌, ℕ, ◌==◌, nat_lt, [], false, filter, IfOk};
ghost use Rattle.std.specs.List.{AllByRecursion};
ghost use Rattle.desk_base.specs.rows.Ranges.{Rise};
ghost use Rattle.desk_base.specs.declared.rows.tables.AnyRow.TheVariants.{Member};
ghost use Rattle.desk_base.specs.rows.Rows.{key_of};
ghost use Rattle.desk_base.specs.changes.Changes.{with_one, without_one};
ghost use Rattle.desk_member.specs.Memberships.{AreMemberships, of_member, comes_before};

use desk_base::{MemberRow, NoMemory, ResourceId, Tables};
use std::alloc::Global;
use std::marker::Model;

/// The memberships of some tables, rising by member, then by crew or pool, then by minute.
#[derive(Debug, Drop)]
pub struct ByMember {
    rows: Vec<MemberRow>,
}

impl Model for ByMember {
    ghost use Rattle.std.specs.Prelude.{List};
    ghost use Rattle.desk_base.specs.rows.Ranges.{Rise};
    ghost use Rattle.desk_base.specs.declared.rows.resources.MemberRow.{MemberRow};

    ghost Value = { List MemberRow };

    ghost view = { λ b. b.rows.items };

    ghost invariant = { λ b. Rise (λ x. x.member) (λ x. 0) b.rows.items };
}

/// Whether a membership stands before another.
fn comes_before(a: &MemberRow, b: &MemberRow) -> bool
    ensures { result ≡ comes_before a.now b.now }
{
    a.member.get() < b.member.get()
        || (a.member.get() == b.member.get()
            && (a.group.get() < b.group.get()
                || (a.group.get() == b.group.get() && a.from.get() < b.from.get())))
}

/// The memberships that stand before this one.
fn lower(alloc: Global, rows: &[MemberRow], row: &MemberRow) -> Result<Vec<MemberRow>, NoMemory>
    ensures { IfOk result (λ v. v.items ≡ filter (λ y. comes_before y row.now) rows.now) }
{
    Ok(
        rows.iter()
            .filter(|y| comes_before(y, row))
            .map(|y| *y)
            .collect(alloc)?,
    )
}

/// The memberships before which this one stands.
fn upper(alloc: Global, rows: &[MemberRow], row: &MemberRow) -> Result<Vec<MemberRow>, NoMemory>
    ensures { IfOk result (λ v. v.items ≡ filter (λ y. comes_before row.now y) rows.now) }
{
    Ok(
        rows.iter()
            .filter(|y| comes_before(row, y))
            .map(|y| *y)
            .collect(alloc)?,
    )
}

/// The memberships of the members below this one. They are found by halving.
fn below(rows: &[MemberRow], member: u32) -> &[MemberRow]
    requires { Rise (λ x. x.member) (λ x. 0) rows.now }
    ensures { result.now ≡ filter (λ x. nat_lt x.member member) rows.now }
{
    let count = rows.partition_point(|row| row.member.get() < member);
    &rows[..count]
}

/// The memberships of the members above this one. They are found by halving.
fn above(rows: &[MemberRow], member: u32) -> &[MemberRow]
    requires { Rise (λ x. x.member) (λ x. 0) rows.now }
    ensures { result.now ≡ filter (λ x. nat_lt member x.member) rows.now }
{
    let first = rows.partition_point(|row| row.member.get() <= member);
    &rows[first..]
}

impl ByMember {
    /// No memberships. It takes no memory.
    pub fn empty(alloc: Global) -> ByMember
        ensures { result ≡ [] }
    {
        ByMember {
            rows: Vec::new(alloc),
        }
    }

    /// The memberships of the tables. In time n log n, for n memberships.
    pub fn of(alloc: Global, tables: &Tables) -> Result<ByMember, NoMemory>
        ensures { IfOk result (λ b. AreMemberships tables.now b) }
    {
        let mut rows = Vec::from_slice(alloc, tables.members.as_slice())?;
        rows.sort_by_key(|row| row.member.get())?;
        Ok(ByMember { rows })
    }

    /// The memberships of a resource, by crew or pool and then by minute. They are found by halving.
    pub fn of_member(&self, resource: ResourceId) -> &[MemberRow]
        ensures { result.now ≡ of_member resource self.now }
    {
        let member = resource.get();
        let first = self.rows.partition_point(|row| row.member.get() < member);
        let rest = &self.rows[first..];
        let count = rest.partition_point(|row| row.member.get() == member);
        &rest[..count]
    }

    /// The memberships with these in the place of those of a member. The others are copied as they stand, into memory that is taken
    /// once.
    fn around(
        &self,
        alloc: Global,
        member: ResourceId,
        own: &[MemberRow],
    ) -> Result<ByMember, NoMemory>
        requires { AllByRecursion (λ x. x.member ≡ member) own.now }
        ensures own { IfOk result (λ b. of_member member b ≡ own.now) }
        ensures others { IfOk result (λ b. (r : ℕ) → (member == r) ≡ false → of_member r b ≡ of_member r self.now) }
    {
        let all = self.rows.as_slice();
        let mut rows = Vec::with_capacity(alloc, all.len() + own.len())?;
        rows.extend_from_slice(below(all, member.get()))?;
        rows.extend_from_slice(own)?;
        rows.extend_from_slice(above(all, member.get()))?;
        Ok(ByMember { rows })
    }

    /// The memberships with one more, in the place of the one of its crew or pool, member and first minute, if that stands.
    pub fn with(&self, alloc: Global, row: &MemberRow) -> Result<ByMember, NoMemory>
        ensures own { IfOk result (λ b. of_member row.now.member b ≡ with_one (λ y. key_of (Member y)) row.now (of_member row.now.member self.now)) }
        ensures others { IfOk result (λ b. (r : ℕ) → (row.now.member == r) ≡ false → of_member r b ≡ of_member r self.now) }
    {
        let own = self.of_member(row.member);
        let mut rows = lower(alloc, own, row)?;
        let Ok(()) = rows.push(*row) else {
            return Err(NoMemory);
        };
        rows.extend_from_slice(upper(alloc, own, row)?.as_slice())?;
        let list = self.around(alloc, row.member, rows.as_slice())?;
        Ok(list)
    }

    /// The memberships without the one of this crew or pool, member and first minute.
    pub fn without(&self, alloc: Global, row: &MemberRow) -> Result<ByMember, NoMemory>
        ensures own { IfOk result (λ b. of_member row.now.member b ≡ without_one (λ y. key_of (Member y)) (key_of (Member row.now)) (of_member row.now.member self.now)) }
        ensures others { IfOk result (λ b. (r : ℕ) → (row.now.member == r) ≡ false → of_member r b ≡ of_member r self.now) }
    {
        let own = self.of_member(row.member);
        let mut rows = lower(alloc, own, row)?;
        rows.extend_from_slice(upper(alloc, own, row)?.as_slice())?;
        let list = self.around(alloc, row.member, rows.as_slice())?;
        Ok(list)
    }
}
