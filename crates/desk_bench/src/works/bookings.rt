//! A booking that is prepared, and not made.
ghost use Rattle.std.specs.Prelude.{◌≡◌, true, IfOk};
ghost use Rattle.desk_base.specs.changes.Changes.{with_change};
ghost use Rattle.desk_base.specs.rules.Sound.{AreWellFormed};
ghost use Rattle.desk_load.specs.Index.{IsIndexOf};

use crate::schedule::{booking, free_hour};
use crate::stop::Stop;
use desk_base::{
    AnyRow, AnyRows, BookingId, BookingRow, Change, Duplicate, Items, Keys, NoMemory, Prepared,
    Tables,
};
use desk_load::LoadIndex;
use desk_rules::are_formed;
use std::alloc::Global;

/// One more booking of the first resource, with the next number.
fn next_booking(tables: &Tables) -> Result<BookingRow, Stop> {
    let row = booking(0, 0, free_hour()?)?;
    let next = tables.last_booking.saturating_add(1);
    Ok(BookingRow {
        id: BookingId::of(next).ok_or(Stop::OutOfRange)?,
        ..row
    })
}

fn puts_of(alloc: Global, row: BookingRow) -> Result<AnyRows, NoMemory> {
    let mut puts = Items::new(alloc);
    puts.push(AnyRow::Booking(row))?;
    Ok(puts)
}

/// The change that makes the booking.
fn change_of(alloc: Global, tables: &Tables, row: BookingRow) -> Result<Change, NoMemory> {
    Ok(Change {
        puts: puts_of(alloc, row)?,
        removes: Keys::new(alloc),
        revision: tables.revision,
        last_booking: row.id.get(),
    })
}

/// A copy of the tables, prepared for a change.
#[tactic(auto, using(desk_member::proofs::MemberRows::keys_rise))]
fn prepared_copy(alloc: Global, tables: &Tables, change: &Change) -> Result<Prepared, NoMemory>
    requires { AreWellFormed tables.now }
    ensures { IfOk result (λ p. with_change p.tables p.change ≡ with_change tables.now change.now) }
{
    let change = change.copy(alloc)?;
    let copy = tables.copy(alloc)?;
    match copy.prepare(change) {
        Ok(prepared) => Ok(prepared),
        Err(_) => Err(NoMemory),
    }
}

/// The changed tables.
fn changed(alloc: Global, tables: &Tables, change: &Change) -> Result<Tables, NoMemory>
    requires { AreWellFormed tables.now }
    ensures { IfOk result (λ t. t ≡ with_change tables.now change.now) }
{
    let prepared = prepared_copy(alloc, tables, change)?;
    Ok(prepared.apply())
}

/// Whether the changed tables are well formed.
fn stay_formed(alloc: Global, tables: &Tables, change: &Change) -> Result<bool, NoMemory>
    requires { AreWellFormed tables.now }
    ensures { IfOk result (λ formed. formed ≡ true → AreWellFormed (with_change tables.now change.now)) }
{
    let changed = changed(alloc, tables, change)?;
    let formed = are_formed(alloc, &changed)?;
    Ok(formed)
}

/// The index, after it was prepared for the change and given back.
fn given_back(
    alloc: Global,
    index: LoadIndex,
    tables: &Tables,
    change: &Change,
) -> Result<LoadIndex, NoMemory>
    requires formed { AreWellFormed tables.now }
    requires changed { AreWellFormed (with_change tables.now change.now) }
    requires index { IsIndexOf tables.now index }
    ensures { IfOk result (IsIndexOf tables.now) }
{
    match index.prepare(alloc, tables, change) {
        Ok(prepared) => Ok(prepared.give_back()),
        Err(_) => Err(NoMemory),
    }
}

/// How often the change was prepared.
fn prepared(
    alloc: Global,
    index: LoadIndex,
    tables: &Tables,
    change: &Change,
    rounds: u32,
) -> Result<usize, Stop>
    requires formed { AreWellFormed tables.now }
    requires changed { AreWellFormed (with_change tables.now change.now) }
    requires index { IsIndexOf tables.now index }
{
    let mut index = index;
    let mut found = 0usize;
    for _ in 0..rounds {
        index = given_back(alloc, index, tables, change)?;
        found = found.wrapping_add(1);
    }
    Ok(found)
}

/// How often a booking was prepared and given back.
pub(crate) fn booked(
    alloc: Global,
    index: LoadIndex,
    tables: &Tables,
    rounds: u32,
) -> Result<usize, Stop>
    requires formed { AreWellFormed tables.now }
    requires index { IsIndexOf tables.now index }
{
    let row = next_booking(tables)?;
    let change = change_of(alloc, tables, row)?;
    let formed = stay_formed(alloc, tables, &change)?;
    if formed {
        prepared(alloc, index, tables, &change, rounds)
    } else {
        Err(Stop::Unformed)
    }
}
