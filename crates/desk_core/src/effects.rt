//! What an accepted act comes to: the rows that it puts, the keys of those that it takes out, and what it gives.
ghost use Rattle.std.specs.Prelude.{◌≡◌, ◌+◌, ◌≤◌, ◌∷◌, [], map, length, Contains, IfOk};
ghost use Rattle.desk_base.specs.asked.Acts.{booked_keys, booked_receipt, bookings_from, made_by, new_bookings};
ghost use Rattle.desk_base.specs.asked.Groups.{booked_for, effort_minutes, group_of};
ghost use Rattle.desk_base.specs.rows.Keys.{id_key};
ghost use Rattle.desk_base.specs.rules.Limits.{serial_limit, node_limit};
ghost use Rattle.desk_base.specs.search.Listing.{IsFeasible};
ghost use Rattle.desk_base.specs.meaning.Picks.{choices_of};
ghost use Rattle.desk_base.specs.rules.Sound.{IsSound};
ghost use Rattle.desk_base.specs.declared.rows.bookings.Receipt.TheVariants.{Cancelled, Put, Removed};
ghost use Rattle.desk_base.specs.declared.asked.acts.Act.TheVariants.{BookGroup, CancelGroup, MoveGroup};
ghost use Rattle.desk_base.specs.declared.rows.tables.AnyRow.TheVariants.{Booking as BookingOf};
ghost use Rattle.desk_base.specs.declared.rows.tables.Table.TheVariants.{Booking};
ghost use Rattle.desk_load.specs.Index.{IsIndexOf};
ghost use Rattle.desk_core.specs.Effects.{effect_of, effect_of_made, IsFeasibleOf, IsPlaced};

use crate::group_bookings::effort_minutes;
use crate::new_bookings::new_bookings;
use desk_base::{
    Act, AnyRow, AnyRows, BookingId, BookingRow, Duplicate, GroupId, GroupRow, Items, Key, Keys,
    Minute, NoMemory, Receipt, ResourceId, Table, Tables,
};
use desk_load::LoadIndex;
use std::alloc::{AllocError, Global};

/// What an accepted act comes to: rows that are put, keys of rows that are taken out, how many bookings are made, and what it
/// gives.
#[derive(Drop)]
pub(crate) struct Effect {
    pub(crate) puts: AnyRows,
    pub(crate) removes: Keys,
    pub(crate) made: u32,
    pub(crate) receipt: Receipt,
}

/// A row that is put.
fn effect_of_row(alloc: Global, row: AnyRow) -> Result<Effect, NoMemory>
    ensures { IfOk result (λ e. e ≡ record { puts = row ∷ []; removes = []; made = 0; receipt = Put }) }
{
    let mut puts = Items::new(alloc);
    puts.push(row)?;
    Ok(Effect {
        puts,
        removes: Items::new(alloc),
        made: 0,
        receipt: Receipt::Put,
    })
}

/// A row that is taken out.
fn effect_of_key(alloc: Global, key: Key) -> Result<Effect, NoMemory>
    ensures { IfOk result (λ e. e ≡ record { puts = []; removes = key ∷ []; made = 0; receipt = Removed }) }
{
    let mut removes = Items::new(alloc);
    removes.push(key)?;
    Ok(Effect {
        puts: Items::new(alloc),
        removes,
        made: 0,
        receipt: Receipt::Removed,
    })
}

fn rows_of(alloc: Global, bookings: &[BookingRow]) -> Result<Vec<AnyRow>, AllocError>
    ensures { IfOk result (λ v. v.items ≡ map BookingOf bookings.now) }
{
    bookings.iter().map(|b| AnyRow::Booking(*b)).collect(alloc)
}

fn keys_of(alloc: Global, bookings: &[BookingRow]) -> Result<Vec<Key>, AllocError>
    ensures { IfOk result (λ v. v.items ≡ map (λ b. id_key Booking b.id) bookings.now) }
{
    bookings
        .iter()
        .map(|b| Key::of_id(Table::Booking, b.id.get()))
        .collect(alloc)
}

fn booked_receipt(first: u32, made: &[BookingRow]) -> Receipt
    requires low { 1 ≤ first }
    requires high { first ≤ serial_limit }
    requires few { length made.now ≤ node_limit }
    ensures { result ≡ booked_receipt first made.now }
{
    Receipt::Booked {
        first: BookingId::of(first).unwrap(),
        count: made.len() as u8,
        effort_minutes: effort_minutes(made),
    }
}

/// Bookings that are made, where those of the keys are taken out before.
fn effect_of_made(
    alloc: Global,
    tables: &Tables,
    removes: Keys,
    made: &[BookingRow],
) -> Result<Effect, NoMemory>
    requires numbers { tables.now.last_booking + length made.now ≤ serial_limit }
    requires some { 1 ≤ length made.now }
    requires few { length made.now ≤ node_limit }
    ensures { IfOk result (λ e. e ≡ effect_of_made tables.now removes made.now) }
{
    Ok(Effect {
        puts: Items::from_vec(rows_of(alloc, made)?),
        removes,
        made: made.len() as u32,
        receipt: booked_receipt(tables.last_booking + 1, made),
    })
}

/// A group that is booked for picks that are feasible.
fn effect_of_booking(
    alloc: Global,
    tables: &Tables,
    removes: Keys,
    group: &GroupRow,
    start: Minute,
    picks: &[Option<ResourceId>],
) -> Result<Effect, NoMemory>
    requires sound { IsSound tables.now }
    requires there { Contains tables.now.groups group.now }
    requires feasible { IsFeasible tables.now group.now start picks.now }
    requires numbers { tables.now.last_booking + length (choices_of 0 group.now.leaves picks.now) ≤ serial_limit }
    ensures { IfOk result (λ e. e ≡ effect_of_made tables.now removes (bookings_from (tables.now.last_booking + 1) group.now start (choices_of 0 group.now.leaves picks.now))) }
{
    // Read so that its range is known: no served leaf ends after it.
    let _end = group.to.get();
    let made = new_bookings(alloc, tables.last_booking + 1, group, start, picks)?;
    effect_of_made(alloc, tables, removes, made.as_slice())
}

/// The group of this number is booked, where the bookings of the keys are taken out before.
fn effect_of_group(
    alloc: Global,
    tables: &Tables,
    removes: Keys,
    group: GroupId,
    start: Minute,
    picks: &[Option<ResourceId>],
) -> Result<Effect, NoMemory>
    requires sound { IsSound tables.now }
    requires placed { IsFeasibleOf tables.now (group_of tables.now group) start picks.now }
    requires numbers { tables.now.last_booking + length (new_bookings tables.now group start picks.now) ≤ serial_limit }
    ensures { IfOk result (λ e. e ≡ effect_of_made tables.now removes (new_bookings tables.now group start picks.now)) }
{
    match tables.group(group) {
        Some(row) => effect_of_booking(alloc, tables, removes, row, start, picks),
        None => unreachable!(),
    }
}

/// The group's standing bookings.
fn booked_for<'a>(tables: &Tables, index: &'a LoadIndex, group: GroupId) -> &'a [BookingRow]
    requires sound { IsSound tables.now }
    requires index { IsIndexOf tables.now index.now }
    ensures { result.now ≡ booked_for tables.now group }
{
    index.bookings_of(group)
}

/// The keys of the group's standing bookings.
fn booked_keys(
    alloc: Global,
    tables: &Tables,
    index: &LoadIndex,
    group: GroupId,
) -> Result<Keys, NoMemory>
    requires sound { IsSound tables.now }
    requires index { IsIndexOf tables.now index.now }
    ensures { IfOk result (λ keys. keys ≡ booked_keys tables.now group) }
{
    Ok(Items::from_vec(keys_of(alloc, booked_for(tables, index, group))?))
}

/// The group of this number is moved: its bookings are taken out, and it is booked.
fn effect_of_move(
    alloc: Global,
    tables: &Tables,
    index: &LoadIndex,
    group: GroupId,
    start: Minute,
    picks: &[Option<ResourceId>],
) -> Result<Effect, NoMemory>
    requires sound { IsSound tables.now }
    requires index { IsIndexOf tables.now index.now }
    requires placed { IsFeasibleOf tables.now (group_of tables.now group) start picks.now }
    requires numbers { tables.now.last_booking + length (new_bookings tables.now group start picks.now) ≤ serial_limit }
    ensures { IfOk result (λ e. e ≡ effect_of tables.now (MoveGroup group start picks.now)) }
{
    let removes = booked_keys(alloc, tables, index, group)?;
    effect_of_group(alloc, tables, removes, group, start, picks)
}

fn cancelled_receipt(gone: &[BookingRow]) -> Receipt
    requires { length gone.now ≤ node_limit }
    ensures { result ≡ Cancelled (length gone.now) (effort_minutes gone.now) }
{
    Receipt::Cancelled {
        count: gone.len() as u8,
        effort_minutes: effort_minutes(gone),
    }
}

/// The bookings of the group of this number are taken out.
fn effect_of_cancel(
    alloc: Global,
    tables: &Tables,
    index: &LoadIndex,
    group: GroupId,
) -> Result<Effect, NoMemory>
    requires sound { IsSound tables.now }
    requires index { IsIndexOf tables.now index.now }
    ensures { IfOk result (λ e. e ≡ effect_of tables.now (CancelGroup group)) }
{
    let gone = booked_for(tables, index, group);
    Ok(Effect {
        puts: Items::new(alloc),
        removes: Items::from_vec(keys_of(alloc, gone)?),
        made: 0,
        receipt: cancelled_receipt(gone),
    })
}

/// What an act comes to.
pub(crate) fn effect_of(
    alloc: Global,
    tables: &Tables,
    index: &LoadIndex,
    act: &Act,
) -> Result<Effect, NoMemory>
    requires sound { IsSound tables.now }
    requires index { IsIndexOf tables.now index.now }
    requires placed { IsPlaced tables.now act.now }
    requires numbers { tables.now.last_booking + length (made_by tables.now act.now) ≤ serial_limit }
    ensures { IfOk result (λ e. e ≡ effect_of tables.now act.now) }
{
    match act {
        Act::Put(row) => effect_of_row(alloc, row.copy(alloc)?),
        Act::Remove(key) => effect_of_key(alloc, *key),
        Act::PutGroup(group) => effect_of_row(alloc, AnyRow::Group(group.copy(alloc)?)),
        Act::DropGroup(group) => effect_of_key(alloc, Key::of_id(Table::Group, group.get())),
        Act::BookGroup {
            group,
            start,
            picks,
        } => effect_of_group(
            alloc,
            tables,
            Items::new(alloc),
            *group,
            *start,
            picks.as_slice(),
        ),
        Act::MoveGroup {
            group,
            start,
            picks,
        } => effect_of_move(alloc, tables, index, *group, *start, picks.as_slice()),
        Act::CancelGroup(group) => effect_of_cancel(alloc, tables, index, *group),
    }
}
