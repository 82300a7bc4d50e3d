//! Changes that an index follows row by row: bookings that are taken out and put, groups that are put before them, and at last a
//! group that is taken out, or a resource or a membership that is put or taken out. Nothing else of it is touched.
ghost use Rattle.std.specs.Prelude.{◌≡◌, ◌==◌, ℕ, suc, true, ◌≤◌, length, find, IfOk, OnOk, IfSome};
ghost use Rattle.std.specs.Option.{option_copied};
ghost use Rattle.desk_base.specs.declared.rows.tables.Tables.{Tables};
ghost use Rattle.desk_base.specs.declared.rows.tables.Table.TheVariants.{Booking as BookingTable};
ghost use Rattle.desk_base.specs.declared.rows.tables.AnyRow.TheVariants.{Booking};
ghost use Rattle.desk_base.specs.rows.Keys.{id_key};
ghost use Rattle.desk_base.specs.rows.Lookups.{KeysRise};
ghost use Rattle.desk_base.specs.rules.Sound.{AreWellFormed};
ghost use Rattle.desk_base.specs.changes.Changes.{with_row, without_row, without_key, with_rows, without_keys, with_change};
ghost use Rattle.desk_load.specs.Index.{IsIndexOf};
ghost use Rattle.desk_load.specs.Changed.{IsOrdered, parts_of, before_of};
ghost use Rattle.desk_load.specs.Stages.{IsUsable, IsStage, IsPhase, key_of_named};

use crate::changes::memberships::MemberKey;
use crate::changes::opened::OpenIndex;
use crate::changes::turns::Turn;
use crate::effects::is_indexed;
use crate::index::list_under;
use crate::limits::MOST_BOOKINGS;
use desk_base::limits::EFFORT_LIMIT;
use desk_base::{AnyRow, BookingId, BookingRow, Change, Key, NoMemory, Table, Tables};
use std::alloc::Global;

/// Why an index does not follow a change.
pub(crate) enum Stop {
    /// Memory was not found.
    NoMemory,
    /// It changes what a resource is, takes out a resource on which something stands, puts bookings in another order than that of
    /// their numbers, or changes something behind a row that must be the last: a group that is taken out, a resource or a
    /// membership. So of two resources or two memberships in one change the second is not followed; no act of the desk has two.
    Unfollowed,
}

/// How far a change was followed.
#[derive(Clone, Copy)]
pub(crate) enum Phase {
    /// Bookings may be put, from this number on. While it is 0, other rows may be too.
    Open(u32),
    /// Only rows that are not indexed may follow.
    Closed,
}

/// A booking, a group, a resource or a membership that may stand under a key.
#[derive(Clone, Copy)]
enum Named {
    Booking(BookingId),
    Group(u32),
    Resource(u32),
    Member(MemberKey),
}

/// What may stand under a key; `None` for the key of another table, and where nothing may.
fn named_by(key: &Key) -> Option<Named>
    ensures { IfSome result (λ n. key.now ≡ key_of_named n) }
{
    if let Table::Member = key.table {
        return Some(Named::Member(MemberKey {
            group: key.a,
            member: key.b,
            from: key.c,
        }));
    }
    if key.b != 0 || key.c != 0 {
        return None;
    }
    match key.table {
        Table::Booking => match BookingId::of(key.a) {
            Some(id) => Some(Named::Booking(id)),
            None => None,
        },
        Table::Group => Some(Named::Group(key.a)),
        Table::Resource => Some(Named::Resource(key.a)),
        _ => None,
    }
}

/// Whether a booking is of a resource that is there, not empty, and of an effort that may be.
fn is_usable(tables: &Tables, booking: &BookingRow) -> bool
    requires { KeysRise tables.now }
    ensures { result ≡ true → IsUsable tables.now booking.now }
{
    tables.resource(booking.resource).is_some()
        && booking.from.get() < booking.to.get()
        && booking.effort <= EFFORT_LIMIT
}

/// The booking of a number among some.
fn among(rows: &[BookingRow], id: BookingId) -> Option<&BookingRow>
    ensures { option_copied result ≡ find (λ b. b.id == id) rows.now }
{
    let number = id.get();
    rows.iter().find(|b| b.id.get() == number)
}

impl OpenIndex {
    /// Takes the booking of a number out, where it stands.
    #[tactic(auto, using(crate::proofs::Numbers::keys_climb))]
    fn take_out(
        &mut self,
        alloc: Global,
        tables: &Tables,
        next: u32,
        id: BookingId,
    ) -> Result<(), NoMemory>
        requires well_formed { AreWellFormed tables.now }
        requires stage { (s : Tables) × ((more : ℕ) × IsStage tables.now s next more (parts_of self.old)) }
        requires later { next ≤ id }
        ensures out { OnOk result ((s : Tables) (more : ℕ) → IsStage tables.now s next more (parts_of self.old) → IsStage tables.now (without_row s BookingTable (id_key BookingTable id)) next more (parts_of self.new)) }
        ensures before { before_of self.new ≡ before_of self.old }
    {
        let Some(former) = tables.booking(id) else {
            return Ok(());
        };
        let rows = list_under(self.standing.as_slice(), former.resource.get());
        match among(rows, id) {
            Some(found) => {
                let booking = *found;
                self.turn(alloc, tables, Turn::Goes, &booking)?;
                Ok(())
            }
            None => Ok(()),
        }
    }

    /// Puts a booking, in the place of the one of its number if that stands.
    fn put_in(
        &mut self,
        alloc: Global,
        tables: &Tables,
        next: u32,
        booking: &BookingRow,
    ) -> Result<(), NoMemory>
        requires well_formed { AreWellFormed tables.now }
        requires stage { (s : Tables) × ((more : ℕ) × IsStage tables.now s next (suc more) (parts_of self.old)) }
        requires later { next ≤ booking.now.id }
        requires usable { IsUsable tables.now booking.now }
        ensures came { OnOk result ((s : Tables) (more : ℕ) → IsStage tables.now s next (suc more) (parts_of self.old) → IsStage tables.now (with_row s (Booking booking.now)) (suc booking.now.id) more (parts_of self.new)) }
        ensures before { before_of self.new ≡ before_of self.old }
    {
        self.take_out(alloc, tables, next, booking.id)?;
        self.turn(alloc, tables, Turn::Comes, booking)?;
        Ok(())
    }

    /// Takes a booking, a group, a resource or a membership out, where it stands.
    fn take_out_named(
        &mut self,
        alloc: Global,
        tables: &Tables,
        named: Named,
    ) -> Result<Phase, Stop>
        requires well_formed { AreWellFormed tables.now }
        requires stage { (s : Tables) × ((more : ℕ) × IsStage tables.now s 0 more (parts_of self.old)) }
        ensures out { IfOk result (λ p. (s : Tables) (more : ℕ) → IsStage tables.now s 0 more (parts_of self.old) → IsPhase tables.now (without_key s (key_of_named named)) p more (parts_of self.new)) }
        ensures before { before_of self.new ≡ before_of self.old }
    {
        match named {
            Named::Booking(id) => match self.take_out(alloc, tables, 0, id) {
                Ok(()) => Ok(Phase::Open(0)),
                Err(NoMemory) => Err(Stop::NoMemory),
            },
            Named::Group(number) => match self.take_out_group(alloc, number) {
                Ok(()) => Ok(Phase::Closed),
                Err(NoMemory) => Err(Stop::NoMemory),
            },
            Named::Resource(number) => {
                self.take_out_resource(alloc, tables, number)?;
                Ok(Phase::Closed)
            }
            Named::Member(key) => {
                self.take_out_member(alloc, tables, key)?;
                Ok(Phase::Closed)
            }
        }
    }

    /// Takes the row of a key out, where that is a booking, a group, a resource, a membership or not indexed.
    fn take_out_key(
        &mut self,
        alloc: Global,
        tables: &Tables,
        phase: Phase,
        key: &Key,
    ) -> Result<Phase, Stop>
        requires well_formed { AreWellFormed tables.now }
        requires stage { (s : Tables) × ((more : ℕ) × IsPhase tables.now s phase more (parts_of self.old)) }
        ensures out { IfOk result (λ p. (s : Tables) (more : ℕ) → IsPhase tables.now s phase more (parts_of self.old) → IsPhase tables.now (without_key s key.now) p more (parts_of self.new)) }
        ensures before { before_of self.new ≡ before_of self.old }
    {
        if !is_indexed(key.table) {
            return Ok(phase);
        }
        let Phase::Open(0) = phase else {
            return Err(Stop::Unfollowed);
        };
        let Some(named) = named_by(key) else {
            return Err(Stop::Unfollowed);
        };
        self.take_out_named(alloc, tables, named)
    }

    /// Puts a row that is a group, a resource, a membership, a booking, or not indexed.
    #[tactic(auto, using(crate::proofs::Numbers::keys_climb))]
    fn put_open(
        &mut self,
        alloc: Global,
        tables: &Tables,
        next: u32,
        row: &AnyRow,
    ) -> Result<Phase, Stop>
        requires well_formed { AreWellFormed tables.now }
        requires stage { (s : Tables) × ((more : ℕ) × IsStage tables.now s next (suc more) (parts_of self.old)) }
        ensures put { IfOk result (λ p. (s : Tables) (more : ℕ) → IsStage tables.now s next (suc more) (parts_of self.old) → IsPhase tables.now (with_row s row.now) p more (parts_of self.new)) }
        ensures before { before_of self.new ≡ before_of self.old }
    {
        match row {
            AnyRow::Booking(booking) => {
                if booking.id.get() < next || !is_usable(tables, booking) {
                    return Err(Stop::Unfollowed);
                }
                match self.put_in(alloc, tables, next, booking) {
                    Ok(()) => Ok(Phase::Open(booking.id.get() + 1)),
                    Err(NoMemory) => Err(Stop::NoMemory),
                }
            }
            AnyRow::Group(group) => {
                if next != 0 {
                    return Err(Stop::Unfollowed);
                }
                match self.put_group(alloc, tables, group) {
                    Ok(()) => Ok(Phase::Open(0)),
                    Err(NoMemory) => Err(Stop::NoMemory),
                }
            }
            AnyRow::Resource(resource) => {
                if next != 0 {
                    return Err(Stop::Unfollowed);
                }
                self.put_resource(alloc, tables, resource)?;
                Ok(Phase::Closed)
            }
            AnyRow::Member(member) => {
                if next != 0 {
                    return Err(Stop::Unfollowed);
                }
                self.put_member(alloc, tables, member)?;
                Ok(Phase::Closed)
            }
            _ => {
                if is_indexed(row.key().table) {
                    Err(Stop::Unfollowed)
                } else {
                    Ok(Phase::Open(next))
                }
            }
        }
    }

    /// Puts a row that may follow.
    fn put_row(
        &mut self,
        alloc: Global,
        tables: &Tables,
        phase: Phase,
        row: &AnyRow,
    ) -> Result<Phase, Stop>
        requires well_formed { AreWellFormed tables.now }
        requires stage { (s : Tables) × ((more : ℕ) × IsPhase tables.now s phase (suc more) (parts_of self.old)) }
        ensures put { IfOk result (λ p. (s : Tables) (more : ℕ) → IsPhase tables.now s phase (suc more) (parts_of self.old) → IsPhase tables.now (with_row s row.now) p more (parts_of self.new)) }
        ensures before { before_of self.new ≡ before_of self.old }
    {
        match phase {
            Phase::Open(next) => self.put_open(alloc, tables, next, row),
            Phase::Closed => {
                if is_indexed(row.key().table) {
                    Err(Stop::Unfollowed)
                } else {
                    Ok(Phase::Closed)
                }
            }
        }
    }

    /// Takes out the rows of the keys of a change.
    fn take_out_all(
        &mut self,
        alloc: Global,
        tables: &Tables,
        change: &Change,
    ) -> Result<Phase, Stop>
        requires well_formed { AreWellFormed tables.now }
        requires stage { IsStage tables.now tables.now 0 (length change.now.puts) (parts_of self.old) }
        ensures out { IfOk result (λ p. IsPhase tables.now (without_keys tables.now change.now.removes) p (length change.now.puts) (parts_of self.new)) }
        ensures before { before_of self.new ≡ before_of self.old }
    {
        let mut phase = Phase::Open(0);
        for key in change.removes.as_slice() {
            phase = self.take_out_key(alloc, tables, phase, key)?;
        }
        Ok(phase)
    }

    /// Puts the rows of a change.
    fn put_all(
        &mut self,
        alloc: Global,
        tables: &Tables,
        phase: Phase,
        change: &Change,
    ) -> Result<(), Stop>
        requires well_formed { AreWellFormed tables.now }
        requires stage { IsPhase tables.now (without_keys tables.now change.now.removes) phase (length change.now.puts) (parts_of self.old) }
        ensures index { OnOk result (IsIndexOf (with_rows (without_keys tables.now change.now.removes) change.now.puts) (parts_of self.new)) }
        ensures order { OnOk result (IsOrdered (parts_of self.new)) }
        ensures before { before_of self.new ≡ before_of self.old }
    {
        let mut phase = phase;
        for row in change.puts.as_slice() {
            phase = self.put_row(alloc, tables, phase, row)?;
        }
        Ok(())
    }

    /// Follows a change whose indexed rows are bookings, put in the order of their numbers, groups that are put before them, and at
    /// last a group that is taken out, a resource or a membership.
    pub(crate) fn follow(
        &mut self,
        alloc: Global,
        tables: &Tables,
        change: &Change,
    ) -> Result<(), Stop>
        requires well_formed { AreWellFormed tables.now }
        requires index { IsIndexOf tables.now (parts_of self.old) }
        requires order { IsOrdered (parts_of self.old) }
        ensures index { OnOk result (IsIndexOf (with_change tables.now change.now) (parts_of self.new)) }
        ensures order { OnOk result (IsOrdered (parts_of self.new)) }
        ensures before { before_of self.new ≡ before_of self.old }
    {
        let standing = tables.bookings.len();
        if MOST_BOOKINGS < standing || MOST_BOOKINGS - standing < change.puts.len() {
            return Err(Stop::Unfollowed);
        }
        let phase = self.take_out_all(alloc, tables, change)?;
        self.put_all(alloc, tables, phase, change)?;
        Ok(())
    }
}
