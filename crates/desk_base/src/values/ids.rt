//! The numbers of rows, each kind of row with a type of its own.
ghost use Rattle.std.specs.Prelude.{◌≡◌, ◌≤◌, SomeIff};
ghost use Rattle.desk_base.specs.rules.Limits.{id_limit};

use crate::limits::ID_LIMIT;
use std::marker::{Model, PhantomData};

/// Marks the numbers of zones.
#[derive(Clone, Copy, Debug, PartialEq, Eq, PartialOrd, Ord)]
pub struct ZoneMark;

/// Marks the numbers of calendars.
#[derive(Clone, Copy, Debug, PartialEq, Eq, PartialOrd, Ord)]
pub struct CalendarMark;

/// Marks the numbers of units.
#[derive(Clone, Copy, Debug, PartialEq, Eq, PartialOrd, Ord)]
pub struct UnitMark;

/// Marks the numbers of sites.
#[derive(Clone, Copy, Debug, PartialEq, Eq, PartialOrd, Ord)]
pub struct SiteMark;

/// Marks the numbers of roles.
#[derive(Clone, Copy, Debug, PartialEq, Eq, PartialOrd, Ord)]
pub struct RoleMark;

/// Marks the numbers of characteristics.
#[derive(Clone, Copy, Debug, PartialEq, Eq, PartialOrd, Ord)]
pub struct CharacteristicMark;

/// Marks the numbers of territories.
#[derive(Clone, Copy, Debug, PartialEq, Eq, PartialOrd, Ord)]
pub struct TerritoryMark;

/// Marks the numbers of resources.
#[derive(Clone, Copy, Debug, PartialEq, Eq, PartialOrd, Ord)]
pub struct ResourceMark;

/// Marks the numbers of requirement groups.
#[derive(Clone, Copy, Debug, PartialEq, Eq, PartialOrd, Ord)]
pub struct GroupMark;

/// Marks the numbers of callers.
#[derive(Clone, Copy, Debug, PartialEq, Eq, PartialOrd, Ord)]
pub struct CallerMark;

/// A number from 1 to 999,999,999 that names a row of one kind. The kind `K` has no bytes at run time.
#[derive(Clone, Copy, Debug, PartialEq, Eq, PartialOrd, Ord)]
pub struct Id<K> {
    number: u32,
    kind: PhantomData<K>,
}

impl<K> Model for Id<K> {
    ghost use Rattle.std.specs.Prelude.{ℕ, ◌≤◌};
    ghost use Rattle.desk_base.specs.rules.Limits.{id_limit};

    ghost Value = { ℕ };

    ghost view = { λ s. s.number };

    ghost invariant = { λ s. (1 ≤ s.number) × (s.number ≤ id_limit) };

    ghost inverse = { λ n. record { number = n; kind = record {} } };
}

impl<K> Id<K> {
    /// The id of this number; `None` exactly where the number is out of range.
    pub fn of(number: u32) -> Option<Id<K>>
        ensures { SomeIff result ((1 ≤ number) × (number ≤ id_limit)) number }
    {
        if 1 <= number && number <= ID_LIMIT {
            Some(Id {
                number,
                kind: PhantomData,
            })
        } else {
            None
        }
    }

    /// The number.
    pub fn get(&self) -> u32
        ensures value { result ≡ self.now }
        ensures low { 1 ≤ result }
        ensures high { result ≤ id_limit }
    {
        self.number
    }
}

/// The number of a zone.
pub type ZoneId = Id<ZoneMark>;

/// The number of a calendar.
pub type CalendarId = Id<CalendarMark>;

/// The number of a unit.
pub type UnitId = Id<UnitMark>;

/// The number of a site.
pub type SiteId = Id<SiteMark>;

/// The number of a role.
pub type RoleId = Id<RoleMark>;

/// The number of a characteristic.
pub type CharacteristicId = Id<CharacteristicMark>;

/// The number of a territory.
pub type TerritoryId = Id<TerritoryMark>;

/// The number of a resource, crews and pools included.
pub type ResourceId = Id<ResourceMark>;

/// The number of a requirement group.
pub type GroupId = Id<GroupMark>;

/// The number of a caller.
pub type CallerId = Id<CallerMark>;
