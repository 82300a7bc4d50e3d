//! A membership that is put or taken out: what comes through it is added to weights, or taken away.
ghost use Rattle.std.specs.Prelude.{◌≡◌, ◌==◌, ◌&&◌, ℕ, find, OnOk, Contains};
ghost use Rattle.std.specs.List.{list_any};
ghost use Rattle.std.specs.Option.{option_copied};
ghost use Rattle.desk_base.specs.declared.rows.tables.Tables.{Tables};
ghost use Rattle.desk_base.specs.declared.rows.tables.AnyRow.TheVariants.{Member};
ghost use Rattle.desk_base.specs.declared.rows.tables.Table.TheVariants.{Member as MemberTable};
ghost use Rattle.desk_base.specs.rows.Rows.{key_of};
ghost use Rattle.desk_base.specs.rules.Sound.{AreWellFormed};
ghost use Rattle.desk_base.specs.changes.Changes.{with_row, without_row, without_one};
ghost use Rattle.desk_load.specs.Changed.{IsOrdered, parts_of, before_of};
ghost use Rattle.desk_load.specs.Index.{IsIndexOf};
ghost use Rattle.desk_load.specs.Links.{AreLinks, meets, DifferAtMember};
ghost use Rattle.desk_load.specs.Stages.{IsStage, key_of_member};
ghost use Rattle.desk_load.specs.Turns.{AreWhole};

use crate::changes::follow::Stop;
use crate::changes::links::{Links, links_of};
use crate::changes::opened::OpenIndex;
use crate::changes::turns::Turn;
use desk_base::{MemberRow, NoMemory, ResourceId, Tables};
use std::alloc::Global;

/// The numbers of a membership: its crew or pool, its member and its first minute.
#[derive(Clone, Copy)]
pub(crate) struct MemberKey {
    pub(crate) group: u32,
    pub(crate) member: u32,
    pub(crate) from: u32,
}

/// The numbers of a membership.
fn key_of(row: &MemberRow) -> MemberKey
    ensures { key_of_member result ≡ key_of (Member row.now) }
{
    MemberKey {
        group: row.group.get(),
        member: row.member.get(),
        from: row.from.get(),
    }
}

/// The membership of a crew or pool and a first minute among some.
fn among(rows: &[MemberRow], group: u32, from: u32) -> Option<&MemberRow>
    ensures { option_copied result ≡ find (λ y. (y.group == group) && (y.from == from)) rows.now }
{
    rows.iter()
        .find(|y| y.group.get() == group && y.from.get() == from)
}

/// Whether one of the memberships is of the same crew or pool, and has a minute in common with this one.
fn any_meets(rows: &[MemberRow], row: &MemberRow) -> bool
    ensures { result ≡ list_any (λ y. meets row.now y) rows.now }
{
    let group = row.group.get();
    let from = row.from.get();
    let to = row.to.get();
    rows.iter().any(|y| { y.group.get() == group && y.from.get() < to && from < y.to.get() })
}

impl OpenIndex {
    /// Takes a membership out, which stands.
    fn without_member(&mut self, alloc: Global, row: &MemberRow, links: &Links) -> Result<(), Stop>
        requires order { IsOrdered (parts_of self.old) }
        requires whole { AreWhole self.old.weights.items }
        ensures index { OnOk result ((t s : Tables) → AreLinks t row.now links.now → DifferAtMember t s (key_of (Member row.now)) → Contains s.members row.now → IsIndexOf s (parts_of self.old) → IsIndexOf (without_row s MemberTable (key_of (Member row.now))) (parts_of self.new)) }
        ensures order { OnOk result (IsOrdered (parts_of self.new)) }
        ensures before { before_of self.new ≡ before_of self.old }
    {
        let Ok(members) = self.members.without(alloc, row) else {
            return Err(Stop::NoMemory);
        };
        if any_meets(members.of_member(row.member), row) {
            return Err(Stop::Unfollowed);
        }
        let Ok(()) = self.add_links(alloc, Turn::Goes, links.source, links.items.as_slice()) else {
            return Err(Stop::NoMemory);
        };
        let Ok(()) = self.put_members(members) else {
            return Err(Stop::NoMemory);
        };
        Ok(())
    }

    /// Puts a membership, where none of its key stands.
    fn with_member(&mut self, alloc: Global, row: &MemberRow, links: &Links) -> Result<(), Stop>
        requires order { IsOrdered (parts_of self.old) }
        requires whole { AreWhole self.old.weights.items }
        ensures index { OnOk result ((t s : Tables) → AreLinks t row.now links.now → DifferAtMember t s (key_of (Member row.now)) → without_one (λ y. key_of (Member y)) (key_of (Member row.now)) s.members ≡ s.members → IsIndexOf s (parts_of self.old) → IsIndexOf (with_row s (Member row.now)) (parts_of self.new)) }
        ensures order { OnOk result (IsOrdered (parts_of self.new)) }
        ensures before { before_of self.new ≡ before_of self.old }
    {
        if any_meets(self.members.of_member(row.member), row) {
            return Err(Stop::Unfollowed);
        }
        let Ok(members) = self.members.with(alloc, row) else {
            return Err(Stop::NoMemory);
        };
        let Ok(()) = self.add_links(alloc, Turn::Comes, links.source, links.items.as_slice()) else {
            return Err(Stop::NoMemory);
        };
        let Ok(()) = self.put_members(members) else {
            return Err(Stop::NoMemory);
        };
        Ok(())
    }

    /// Takes a membership out before any booking is put, where it stands.
    pub(crate) fn take_out_member(
        &mut self,
        alloc: Global,
        tables: &Tables,
        key: MemberKey,
    ) -> Result<(), Stop>
        requires well_formed { AreWellFormed tables.now }
        requires stage { (s : Tables) × ((more : ℕ) × IsStage tables.now s 0 more (parts_of self.old)) }
        ensures index { OnOk result ((s : Tables) (more : ℕ) → IsStage tables.now s 0 more (parts_of self.old) → IsIndexOf (without_row s MemberTable (key_of_member key)) (parts_of self.new)) }
        ensures order { OnOk result (IsOrdered (parts_of self.new)) }
        ensures before { before_of self.new ≡ before_of self.old }
    {
        let Some(member) = ResourceId::of(key.member) else {
            return Err(Stop::Unfollowed);
        };
        let Some(found) = among(self.members.of_member(member), key.group, key.from) else {
            return Ok(());
        };
        let row = *found;
        let links = links_of(alloc, tables, &self.members, &row)?;
        self.without_member(alloc, &row, &links)?;
        Ok(())
    }

    /// Puts a membership before any booking, in the place of the one of its key if that stands.
    pub(crate) fn put_member(
        &mut self,
        alloc: Global,
        tables: &Tables,
        row: &MemberRow,
    ) -> Result<(), Stop>
        requires well_formed { AreWellFormed tables.now }
        requires stage { (s : Tables) × ((more : ℕ) × IsStage tables.now s 0 more (parts_of self.old)) }
        ensures index { OnOk result ((s : Tables) (more : ℕ) → IsStage tables.now s 0 more (parts_of self.old) → IsIndexOf (with_row s (Member row.now)) (parts_of self.new)) }
        ensures order { OnOk result (IsOrdered (parts_of self.new)) }
        ensures before { before_of self.new ≡ before_of self.old }
    {
        let links = links_of(alloc, tables, &self.members, row)?;
        self.take_out_member(alloc, tables, key_of(row))?;
        self.with_member(alloc, row, &links)?;
        Ok(())
    }
}
