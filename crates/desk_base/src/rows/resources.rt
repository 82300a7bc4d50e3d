//! Rows that say who works: resources, what they have, and who is in which crew or pool.
ghost use Rattle.std.specs.Prelude.{◌≡◌};
ghost use Rattle.desk_base.specs.meaning.Eligible.{kind_number};
ghost use Rattle.desk_base.specs.meaning.Load.{sort_of_kind};
ghost use Rattle.desk_base.specs.rules.Fields.{is_plain};

use crate::values::ids::{CalendarId, ResourceId, SiteId, UnitId};
use crate::values::minutes::Minute;
use crate::values::names::Name;

/// What a resource is. Crews and pools have members; every other kind is plain, and has a calendar.
#[derive(Clone, Copy, Debug, PartialEq, Eq)]
pub enum Kind {
    Generic,
    Contact,
    User,
    Equipment,
    Account,
    Facility,
    Crew,
    Pool,
}

impl Kind {
    /// Its place in the list of kinds, from 0.
    pub fn number(self) -> u8
        ensures { result ≡ kind_number self }
    {
        match self {
            Kind::Generic => 0,
            Kind::Contact => 1,
            Kind::User => 2,
            Kind::Equipment => 3,
            Kind::Account => 4,
            Kind::Facility => 5,
            Kind::Crew => 6,
            Kind::Pool => 7,
        }
    }

    /// Whether it is neither Crew nor Pool.
    pub fn is_plain(self) -> bool
        ensures { result ≡ is_plain (sort_of_kind self) }
    {
        match self {
            Kind::Crew => false,
            Kind::Pool => false,
            Kind::Generic => true,
            Kind::Contact => true,
            Kind::User => true,
            Kind::Equipment => true,
            Kind::Account => true,
            Kind::Facility => true,
        }
    }
}

/// A unit, site, role, characteristic or territory.
#[derive(Debug, Drop)]
pub struct NamedRow {
    pub id: u32,
    pub name: Name,
}

/// A resource. It has a calendar exactly where it is plain.
#[derive(Debug, Drop)]
pub struct ResourceRow {
    pub id: ResourceId,
    pub name: Name,
    pub kind: Kind,
    pub calendar: Option<CalendarId>,
    pub unit: UnitId,
    pub site: SiteId,
}

/// A role, characteristic or territory that a resource has. The rating is from 1 to 10 for a characteristic, else 0.
#[derive(Clone, Copy, Debug)]
pub struct HasRow {
    pub resource: ResourceId,
    pub what: u32,
    pub rating: u8,
}

/// A plain resource that is a member of a crew or a pool for some time.
#[derive(Clone, Copy, Debug)]
pub struct MemberRow {
    pub group: ResourceId,
    pub member: ResourceId,
    pub from: Minute,
    pub to: Minute,
}
