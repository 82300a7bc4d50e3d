//! The rows of a store: each has a place, by which they are ordered, and a body.
ghost use Rattle.std.specs.Prelude.{◌≡◌, ◌==◌, find};
ghost use Rattle.desk_base.specs.rows.Keys.{table_number};
ghost use Rattle.desk_kept.specs.Stored.{place_of, place_cmp, is_above, is_header, table_of, key_kept, bad_body};

use desk_base::{Bytes, Key, NoMemory, Table};
use std::cmp::Ordering;

/// A row as a store keeps it: the number of its table, the numbers of its key, and the text of its fields (JSON, RFC 8259). The
/// header stands under the number 20 and the key 0, 0, 0.
#[derive(Debug, Drop)]
pub struct KeptRow {
    pub kind: u8,
    pub a: u32,
    pub b: u32,
    pub c: u32,
    pub body: Bytes,
}

/// Why kept rows are no tables.
#[derive(Clone, Copy, Debug, PartialEq, Eq)]
pub enum KeptError {
    /// There is no header, or the first cannot be read, or names a version that is not known.
    BadHeader,
    /// The first row that does not stand above the one before it, that no table can have, or whose body cannot be read.
    BadBody(u8, u32, u32, u32),
    NoMemory,
}

impl From<NoMemory> for KeptError {
    ghost use Rattle.std.specs.Prelude.{◌≡◌};
    ghost use Rattle.desk_kept.specs.declared.stored.KeptError.TheVariants as error;

    ghost from_gives = { λ _ e. e ≡ error.NoMemory };

    fn from(_error: NoMemory) -> KeptError {
        KeptError::NoMemory
    }
}

/// Where a kept row stands: the number of its table, and the numbers of its key.
#[derive(Clone, Copy, Debug, PartialEq, Eq)]
pub struct Place {
    pub kind: u8,
    pub a: u32,
    pub b: u32,
    pub c: u32,
}

/// The number of the header's place.
pub(crate) const HEADER_KIND: u8 = 20;

/// The tables that have rows, in the order of their numbers.
pub(crate) const ALL_TABLES: [Table; 19] = [
    Table::Zone,
    Table::Calendar,
    Table::Work,
    Table::Break,
    Table::Day,
    Table::Off,
    Table::Unit,
    Table::Site,
    Table::Role,
    Table::Characteristic,
    Table::Territory,
    Table::Resource,
    Table::HasRole,
    Table::HasCharacteristic,
    Table::HasTerritory,
    Table::Member,
    Table::Group,
    Table::Booking,
    Table::Caller,
];

impl Place {
    /// By the number of the table, then by the numbers of the key in turn.
    fn compare(&self, other: &Place) -> Ordering
        ensures { result ≡ place_cmp self.now other.now }
    {
        self.kind
            .cmp(&other.kind)
            .then(self.a.cmp(&other.a))
            .then(self.b.cmp(&other.b))
            .then(self.c.cmp(&other.c))
    }

    /// Whether it is above the place before it, if there is one.
    pub(crate) fn is_above(&self, before: Option<Place>) -> bool
        ensures { result ≡ is_above before self.now }
    {
        match before {
            Some(place) => place.compare(self) == Ordering::Less,
            None => true,
        }
    }

    /// The error of the row that stands here.
    pub(crate) fn bad(&self) -> KeptError
        ensures { result ≡ bad_body self.now }
    {
        KeptError::BadBody(self.kind, self.a, self.b, self.c)
    }
}

/// The first of these tables that has the number.
fn numbered(tables: &[Table], number: u8) -> Option<Table>
    ensures { result ≡ find (λ table. table_number table == number) tables.now }
{
    for table in tables {
        if table.number() == number {
            return Some(*table);
        }
    }
    None
}

/// The table of a number, where it has rows.
#[tactic(auto, unfolding(crate::specs::Stored::table_of))]
fn table_of(kind: u8) -> Option<Table>
    ensures { result ≡ table_of kind }
{
    numbered(&ALL_TABLES, kind)
}

impl KeptRow {
    /// The place of the row.
    pub(crate) fn place(&self) -> Place
        ensures { result ≡ place_of self.now }
    {
        Place {
            kind: self.kind,
            a: self.a,
            b: self.b,
            c: self.c,
        }
    }

    /// Whether the row is the header.
    pub(crate) fn is_header(&self) -> bool
        ensures { result ≡ is_header self.now }
    {
        self.kind == HEADER_KIND && self.a == 0 && self.b == 0 && self.c == 0
    }

    /// The key under which a table would have the row.
    pub(crate) fn key(&self) -> Option<Key>
        ensures { result ≡ key_kept self.now }
    {
        match table_of(self.kind) {
            Some(table) => Some(Key {
                table,
                a: self.a,
                b: self.b,
                c: self.c,
            }),
            None => None,
        }
    }
}
