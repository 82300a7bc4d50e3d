//! Minutes of the horizon, and windows of them.
ghost use Rattle.std.specs.Prelude.{◌≡◌, ◌≤◌, SomeIff};
ghost use Rattle.desk_base.specs.rules.Limits.{first_minute, end_of_minutes};

use crate::limits::{END_OF_MINUTES, FIRST_MINUTE};
use std::marker::Model;

/// A whole minute since 1970-01-01T00:00Z, from 2000-01-01T00:00Z to 2100-01-01T00:00Z. The last is only an end.
#[derive(Clone, Copy, Debug, PartialEq, Eq, PartialOrd, Ord)]
pub struct Minute {
    number: u32,
}

impl Model for Minute {
    ghost use Rattle.std.specs.Prelude.{ℕ, ◌≤◌};
    ghost use Rattle.desk_base.specs.rules.Limits.{first_minute, end_of_minutes};

    ghost Value = { ℕ };

    ghost view = { λ s. s.number };

    ghost invariant = { λ s. (first_minute ≤ s.number) × (s.number ≤ end_of_minutes) };

    ghost inverse = { λ n. record { number = n } };
}

impl Minute {
    /// The minute of this number; `None` exactly where it is outside of the horizon and not its end.
    pub fn of(number: u32) -> Option<Self>
        ensures { SomeIff result ((first_minute ≤ number) × (number ≤ end_of_minutes)) number }
    {
        if FIRST_MINUTE <= number && number <= END_OF_MINUTES {
            Some(Minute { number })
        } else {
            None
        }
    }

    /// The number.
    pub fn get(&self) -> u32
        ensures value { result ≡ self.now }
        ensures low { first_minute ≤ result }
        ensures high { result ≤ end_of_minutes }
    {
        self.number
    }
}

/// The minutes from `from` on and below `to`; none where `to` is not above `from`.
#[derive(Clone, Copy, Debug, PartialEq, Eq)]
pub struct Window {
    pub from: Minute,
    pub to: Minute,
}
