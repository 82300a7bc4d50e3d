//! Why a table has no place for the rows of a change: the first table that would pass its limit.
ghost use Rattle.std.specs.Prelude.{◌≡◌, ◌+◌, ◌-◌, ◌<◌, ◌≤◌, ◌^◌, ◌∷◌, [], length, nat_le, option_map};
ghost use Rattle.desk_base.specs.rows.Keys.{id_key};
ghost use Rattle.desk_base.specs.asked.Refusing.{booking_places, has_place, picked, refused_place, with_caller_place};
ghost use Rattle.desk_base.specs.rules.Rules.{first_broken};
ghost use Rattle.desk_base.specs.rules.Sound.{IsSound};
ghost use Rattle.desk_base.specs.rules.TableLimits.{limit_of};
ghost use Rattle.desk_base.specs.declared.asked.refusals.Refusal.TheVariants.{Full};
ghost use Rattle.desk_base.specs.declared.rows.tables.Table.TheVariants.{Booking, BookingNumbers, Caller};
ghost use Rattle.desk_base.specs.asked.Groups.{booked_for};
ghost use Rattle.desk_load.specs.Index.{IsIndexOf};

use crate::standing::booked_len;
use desk_base::{Act, Call, CallerId, GroupId, Key, Refusal, ResourceId, Table, Tables};
use desk_load::LoadIndex;

/// Whether a row of this key has a place in its table: that of the row that stands under it, or one more.
#[tactic(auto, using(crate::proofs::Ready::rise))]
fn has_place(tables: &Tables, key: &Key) -> bool
    requires { IsSound tables.now }
    ensures { result ≡ has_place tables.now key.now }
{
    tables.contains(key) || tables.len_of(key.table) < key.table.limit()
}

/// Why there is no place for the caller's row.
fn refused_caller(tables: &Tables, caller: CallerId) -> Option<Refusal>
    requires { IsSound tables.now }
    ensures { result ≡ option_map Full (first_broken ((has_place tables.now (id_key Caller caller), Caller) ∷ [])) }
{
    if has_place(tables, &Key::of_id(Table::Caller, caller.get())) {
        None
    } else {
        Some(Refusal::Full(Table::Caller))
    }
}

/// Why there is no place for a row of this key, or for the caller's.
fn refused_row(tables: &Tables, caller: CallerId, key: &Key) -> Option<Refusal>
    requires { IsSound tables.now }
    ensures { result ≡ option_map Full (first_broken ((has_place tables.now key.now, key.now.table) ∷ (has_place tables.now (id_key Caller caller), Caller) ∷ [])) }
{
    if has_place(tables, key) {
        refused_caller(tables, caller)
    } else {
        Some(Refusal::Full(key.table))
    }
}

/// How many resources are picked.
fn picked_len(picks: &[Option<ResourceId>]) -> usize
    ensures count { result ≡ length (picked picks.now) }
    ensures within { result < 2 ^ 63 }
{
    picks.iter().filter(|pick| pick.is_some()).count()
}

/// Whether so many new bookings have a place beside so many that stand.
fn has_booking_places(tables: &Tables, standing: usize, new: usize) -> bool
    requires sound { IsSound tables.now }
    requires among { standing ≤ length tables.now.bookings }
    requires within { new < 2 ^ 63 }
    ensures { result ≡ nat_le (standing + new) (limit_of Booking) }
{
    standing + new <= Table::Booking.limit()
}

/// Whether so many new bookings have numbers.
fn has_booking_numbers(tables: &Tables, new: usize) -> bool
    requires { new < 2 ^ 63 }
    ensures { result ≡ nat_le (tables.now.last_booking + new) (limit_of BookingNumbers) }
{
    tables.last_booking as usize + new <= Table::BookingNumbers.limit()
}

/// Why there is no place for a booking of each picked resource among so many that stand, for the caller's row, or for the numbers
/// of the bookings.
fn refused_bookings(
    tables: &Tables,
    caller: CallerId,
    standing: usize,
    picks: &[Option<ResourceId>],
) -> Option<Refusal>
    requires sound { IsSound tables.now }
    requires among { standing ≤ length tables.now.bookings }
    ensures { result ≡ option_map Full (first_broken (with_caller_place (has_place tables.now (id_key Caller caller), Caller) (booking_places tables.now standing (length (picked picks.now))))) }
{
    let new = picked_len(picks);
    if !has_booking_places(tables, standing, new) {
        return Some(Refusal::Full(Table::Booking));
    }
    if !has_place(tables, &Key::of_id(Table::Caller, caller.get())) {
        return Some(Refusal::Full(Table::Caller));
    }
    if !has_booking_numbers(tables, new) {
        return Some(Refusal::Full(Table::BookingNumbers));
    }
    None
}

/// How many bookings stand that are not of the group.
fn other_bookings(tables: &Tables, index: &LoadIndex, group: GroupId) -> usize
    requires sound { IsSound tables.now }
    requires index { IsIndexOf tables.now index.now }
    ensures count { result ≡ length tables.now.bookings - length (booked_for tables.now group) }
    ensures among { result ≤ length tables.now.bookings }
{
    tables.bookings.len() - booked_len(tables, index, group)
}

/// Why a table has no place for what the act puts and for the caller's row.
pub(crate) fn refused_place(
    tables: &Tables,
    index: &LoadIndex,
    call: &Call,
    act: &Act,
) -> Option<Refusal>
    requires sound { IsSound tables.now }
    requires index { IsIndexOf tables.now index.now }
    ensures { result ≡ refused_place tables.now call.now act.now }
{
    let caller = call.caller;
    match act {
        Act::Put(row) => refused_row(tables, caller, &row.key()),
        Act::PutGroup(group) => {
            refused_row(tables, caller, &Key::of_id(Table::Group, group.id.get()))
        }
        Act::BookGroup { picks, .. } => {
            refused_bookings(tables, caller, tables.bookings.len(), picks.as_slice())
        }
        Act::MoveGroup { group, picks, .. } => {
            let standing = other_bookings(tables, index, *group);
            refused_bookings(tables, caller, standing, picks.as_slice())
        }
        Act::Remove(_) => refused_caller(tables, caller),
        Act::DropGroup(_) => refused_caller(tables, caller),
        Act::CancelGroup(_) => refused_caller(tables, caller),
    }
}
