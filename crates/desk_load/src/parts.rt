//! What bookings take of resources, piece by piece.
ghost use Rattle.std.specs.Prelude.{◌≡◌, ℕ, ◌++◌, map, sum_by, IfOk, OnOk};
ghost use Rattle.std.specs.List.{AllByRecursion};
ghost use Rattle.std.specs.List.Sorted.{IsPermutation};
ghost use Rattle.desk_base.specs.meaning.Load.{weight, ask_of};
ghost use Rattle.desk_base.specs.rules.Sound.{AreWellFormed};
ghost use Rattle.desk_base.specs.rows.Ranges.{Rise};
ghost use Rattle.desk_member.specs.Memberships.{AreMemberships};
ghost use Rattle.desk_load.specs.Parts.{part_of, part_at, IsAskable};

use desk_base::{Ask, BookingRow, Minute, NoMemory, Placed, ResourceId, Tables, Window};
use desk_member::{ByMember, Item, load_pieces};
use std::alloc::Global;

/// A resource, and an effort that is taken of it from one minute on and before another.
#[derive(Clone, Copy)]
pub struct Part {
    pub resource: ResourceId,
    pub from: Minute,
    pub to: Minute,
    pub effort: u32,
}

impl Placed for Part {
    ghost owner = { λ x. x.resource };

    ghost rank = { λ x. 0 };

    fn owner_number(&self) -> u32 {
        self.resource.get()
    }

    fn rank_number(&self) -> u32 {
        0
    }
}

/// A booking, as an ask of its resource.
pub fn ask_of(booking: &BookingRow) -> Ask
    ensures { result ≡ ask_of booking.now }
{
    Ask {
        resource: booking.resource,
        window: Window {
            from: booking.from,
            to: booking.to,
        },
        effort: booking.effort,
    }
}

fn add_parts(parts: &mut Vec<Part>, items: &[Item]) -> Result<(), NoMemory>
    ensures { OnOk result (parts.new.items ≡ parts.old.items ++ map part_of items.now) }
{
    for item in items {
        let part = Part {
            resource: item.resource,
            from: item.from,
            to: item.to,
            effort: item.effort,
        };
        let Ok(()) = parts.push(part) else {
            return Err(NoMemory);
        };
    }
    Ok(())
}

/// What the bookings take, in the order of the bookings.
fn parts_in_order(
    alloc: Global,
    tables: &Tables,
    members: &ByMember,
    bookings: &[BookingRow],
) -> Result<Vec<Part>, NoMemory>
    requires well_formed { AreWellFormed tables.now }
    requires memberships { AreMemberships tables.now members.now }
    requires askable { AllByRecursion (IsAskable tables.now) bookings.now }
    ensures { IfOk result (λ v. (r m : ℕ) → sum_by (part_at r m) v.items ≡ weight tables.now (map ask_of bookings.now) r m) }
{
    let mut parts = Vec::new(alloc);
    for booking in bookings {
        let items = load_pieces(alloc, tables, members, &ask_of(booking))?;
        add_parts(&mut parts, items.as_slice())?;
    }
    Ok(parts)
}

/// What the bookings take, in the order of the resources.
pub fn parts_of(
    alloc: Global,
    tables: &Tables,
    members: &ByMember,
    bookings: &[BookingRow],
) -> Result<Vec<Part>, NoMemory>
    requires well_formed { AreWellFormed tables.now }
    requires memberships { AreMemberships tables.now members.now }
    requires askable { AllByRecursion (IsAskable tables.now) bookings.now }
    ensures sums { IfOk result (λ v. (r m : ℕ) → sum_by (part_at r m) v.items ≡ weight tables.now (map ask_of bookings.now) r m) }
    ensures rise { IfOk result (λ v. Rise (λ p. p.resource) (λ _. 0) v.items) }
{
    let parts = parts_in_order(alloc, tables, members, bookings)?;
    by_resource(parts)
}

/// The parts in the order of their resources.
fn by_resource(parts: Vec<Part>) -> Result<Vec<Part>, NoMemory>
    ensures same { IfOk result (λ v. IsPermutation parts.items v.items) }
    ensures rise { IfOk result (λ v. Rise (λ p. p.resource) (λ _. 0) v.items) }
{
    let mut rows = parts;
    rows.sort_by_key(|p| p.resource.get())?;
    Ok(rows)
}
