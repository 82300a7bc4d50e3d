//! Bookings by number.
ghost use Rattle.std.specs.Prelude.{◌≡◌, [], ◌++◌, nat_lt, filter, IfOk};
ghost use Rattle.std.specs.List.{AllByRecursion};
ghost use Rattle.desk_base.specs.declared.rows.tables.AnyRow.TheVariants.{Booking};
ghost use Rattle.desk_base.specs.rows.Rows.{key_of};
ghost use Rattle.desk_base.specs.rows.Ranges.{Rise};
ghost use Rattle.desk_base.specs.changes.Changes.{with_one, without_one};

use desk_base::{BookingRow, NoMemory};
use std::alloc::Global;
use std::marker::Model;

/// Some bookings, rising by number.
#[derive(Drop)]
pub struct ByNumber {
    rows: Vec<BookingRow>,
}

impl Model for ByNumber {
    ghost use Rattle.std.specs.Prelude.{List};
    ghost use Rattle.desk_base.specs.rows.Ranges.{Rise};
    ghost use Rattle.desk_base.specs.declared.rows.bookings.BookingRow.{BookingRow};

    ghost Value = { List BookingRow };

    ghost view = { λ b. b.rows.items };

    ghost invariant = { λ b. Rise (λ x. x.id) (λ x. 0) b.rows.items };
}

/// The bookings whose numbers are below this one. They are found by halving.
fn below(rows: &[BookingRow], number: u32) -> &[BookingRow]
    requires { Rise (λ x. x.id) (λ x. 0) rows.now }
    ensures { result.now ≡ filter (λ x. nat_lt x.id number) rows.now }
{
    let count = rows.partition_point(|row| row.id.get() < number);
    &rows[..count]
}

/// The bookings whose numbers are above this one. They are found by halving.
fn above(rows: &[BookingRow], number: u32) -> &[BookingRow]
    requires { Rise (λ x. x.id) (λ x. 0) rows.now }
    ensures { result.now ≡ filter (λ x. nat_lt number x.id) rows.now }
{
    let first = rows.partition_point(|row| row.id.get() <= number);
    &rows[first..]
}

impl ByNumber {
    /// No bookings. It takes no memory.
    pub(crate) fn empty(alloc: Global) -> ByNumber
        ensures { result ≡ [] }
    {
        ByNumber {
            rows: Vec::new(alloc),
        }
    }

    /// These bookings, which rise.
    pub(crate) fn of(rows: Vec<BookingRow>) -> ByNumber
        requires { Rise (λ x. x.id) (λ x. 0) rows.items }
        ensures { result ≡ rows.items }
    {
        ByNumber { rows }
    }

    /// The bookings, in order.
    pub(crate) fn as_slice(&self) -> &[BookingRow]
        ensures { result.now ≡ self.now }
    {
        self.rows.as_slice()
    }

    /// The bookings with these in the place of the one of a number. The others are copied as they stand, into memory that is taken
    /// once.
    fn around(&self, alloc: Global, number: u32, own: &[BookingRow]) -> Result<ByNumber, NoMemory>
        requires { AllByRecursion (λ x. x.id ≡ number) own.now }
        ensures { IfOk result (λ b. b ≡ (filter (λ x. nat_lt x.id number) self.now ++ own.now) ++ filter (λ x. nat_lt number x.id) self.now) }
    {
        let all = self.rows.as_slice();
        let mut rows = Vec::with_capacity(alloc, all.len() + own.len())?;
        rows.extend_from_slice(below(all, number))?;
        rows.extend_from_slice(own)?;
        rows.extend_from_slice(above(all, number))?;
        Ok(ByNumber { rows })
    }

    /// The bookings with one more, in the place of the one of its number, if that stands.
    pub(crate) fn with(&self, alloc: Global, booking: &BookingRow) -> Result<ByNumber, NoMemory>
        ensures { IfOk result (λ b. b ≡ with_one (λ y. key_of (Booking y)) booking.now self.now) }
    {
        let list = self.around(alloc, booking.id.get(), &[*booking])?;
        Ok(list)
    }

    /// The bookings without the one of the number of this one.
    pub(crate) fn without(&self, alloc: Global, booking: &BookingRow) -> Result<ByNumber, NoMemory>
        ensures { IfOk result (λ b. b ≡ without_one (λ y. key_of (Booking y)) (key_of (Booking booking.now)) self.now) }
    {
        let list = self.around(alloc, booking.id.get(), &[])?;
        Ok(list)
    }
}
