//! Bookings by what they belong to: a list for each of some numbers.
ghost use Rattle.std.specs.Prelude.{◌≡◌, ℕ, map, filter, IfOk};
ghost use Rattle.desk_base.specs.rows.Ranges.{Rise, owns};
ghost use Rattle.desk_load.specs.Lists.{owned, owned_bookings};

use crate::by_number::ByNumber;
use desk_base::{BookingRow, NoMemory, Placed, rows_of};
use std::alloc::Global;

/// The bookings of a resource or of a group, rising by number, and the number of the resource or the group.
#[derive(Drop)]
pub struct BookingList {
    pub number: u32,
    pub bookings: ByNumber,
}

impl Placed for BookingList {
    ghost owner = { λ x. x.number };

    ghost rank = { λ x. 0 };

    fn owner_number(&self) -> u32 {
        self.number
    }

    fn rank_number(&self) -> u32 {
        0
    }
}

/// A booking, and the number of what it belongs to.
#[derive(Clone, Copy)]
pub struct Owned {
    pub owner: u32,
    pub booking: BookingRow,
}

impl Placed for Owned {
    ghost owner = { λ x. x.owner };

    ghost rank = { λ x. 0 };

    fn owner_number(&self) -> u32 {
        self.owner
    }

    fn rank_number(&self) -> u32 {
        0
    }
}

/// The bookings, each with the number of its resource.
pub fn by_resource(alloc: Global, bookings: &[BookingRow]) -> Result<Vec<Owned>, NoMemory>
    ensures { IfOk result (λ v. v.items ≡ map (owned (λ b. b.resource)) bookings.now) }
{
    Ok(
        bookings
            .iter()
            .map(|b| Owned {
                owner: b.resource.get(),
                booking: *b,
            })
            .collect(alloc)?,
    )
}

/// The bookings, each with the number of its group.
pub fn by_group(alloc: Global, bookings: &[BookingRow]) -> Result<Vec<Owned>, NoMemory>
    ensures { IfOk result (λ v. v.items ≡ map (owned (λ b. b.group)) bookings.now) }
{
    Ok(
        bookings
            .iter()
            .map(|b| Owned {
                owner: b.group.get(),
                booking: *b,
            })
            .collect(alloc)?,
    )
}

/// The bookings in the order of the numbers, those of one number in the order that they had.
fn in_order(owned: Vec<Owned>) -> Result<Vec<Owned>, NoMemory>
    ensures same { IfOk result (λ v. (n : ℕ) → filter (owns (λ o. o.owner) n) v.items ≡ filter (owns (λ o. o.owner) n) owned.items) }
    ensures rise { IfOk result (λ v. Rise (λ o. o.owner) (λ _. 0) v.items) }
{
    let mut rows = owned;
    rows.sort_by_key(|o| o.owner)?;
    Ok(rows)
}

fn bookings_in(alloc: Global, rows: &[Owned]) -> Result<Vec<BookingRow>, NoMemory>
    ensures { IfOk result (λ v. v.items ≡ map (λ o. o.booking) rows.now) }
{
    Ok(rows.iter().map(|o| o.booking).collect(alloc)?)
}

/// For each number the bookings that belong to it.
pub fn lists_of(
    alloc: Global,
    numbers: &[u32],
    owned: Vec<Owned>,
) -> Result<Vec<BookingList>, NoMemory>
    requires { Rise (λ o. o.booking.id) (λ _. 0) owned.items }
    ensures { IfOk result (λ v. v.items ≡ map (owned_bookings owned.items) numbers.now) }
{
    let rows = in_order(owned)?;
    let mut lists = Vec::with_capacity(alloc, numbers.len())?;
    for number in numbers {
        let bookings = bookings_in(alloc, rows_of(rows.as_slice(), *number))?;
        let list = BookingList {
            number: *number,
            bookings: ByNumber::of(bookings),
        };
        let Ok(()) = lists.push(list) else {
            return Err(NoMemory);
        };
    }
    Ok(lists)
}
