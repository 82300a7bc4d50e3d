//! Numbers that are given in turn: of bookings, and of a caller's changes.
ghost use Rattle.std.specs.Prelude.{◌≡◌, ◌≤◌, SomeIff};
ghost use Rattle.desk_base.specs.rules.Limits.{serial_limit};

use crate::limits::SERIAL_LIMIT;
use std::marker::{Model, PhantomData};

/// Marks the numbers of bookings.
#[derive(Clone, Copy, Debug, PartialEq, Eq, PartialOrd, Ord)]
pub struct BookingMark;

/// Marks the numbers that a caller gives its changes.
#[derive(Clone, Copy, Debug, PartialEq, Eq, PartialOrd, Ord)]
pub struct CallMark;

/// A number from 1 to 4,000,000,000 that is given in turn and never again.
#[derive(Clone, Copy, Debug, PartialEq, Eq, PartialOrd, Ord)]
pub struct Serial<K> {
    number: u32,
    kind: PhantomData<K>,
}

impl<K> Model for Serial<K> {
    ghost use Rattle.std.specs.Prelude.{ℕ, ◌≤◌};
    ghost use Rattle.desk_base.specs.rules.Limits.{serial_limit};

    ghost Value = { ℕ };

    ghost view = { λ s. s.number };

    ghost invariant = { λ s. (1 ≤ s.number) × (s.number ≤ serial_limit) };

    ghost inverse = { λ n. record { number = n; kind = record {} } };
}

impl<K> Serial<K> {
    /// The serial of this number; `None` exactly where the number is out of range.
    pub fn of(number: u32) -> Option<Serial<K>>
        ensures { SomeIff result ((1 ≤ number) × (number ≤ serial_limit)) number }
    {
        if 1 <= number && number <= SERIAL_LIMIT {
            Some(Serial {
                number,
                kind: PhantomData,
            })
        } else {
            None
        }
    }

    /// The number.
    pub fn get(&self) -> u32
        ensures value { result ≡ self.now }
        ensures low { 1 ≤ result }
        ensures high { result ≤ serial_limit }
    {
        self.number
    }
}

/// The number of a booking.
pub type BookingId = Serial<BookingMark>;

/// The number that a caller gives a change: one more than that of its last accepted change, or the same to ask for it again.
pub type CallNumber = Serial<CallMark>;
