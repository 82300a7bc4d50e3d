//! Keys: their order, and the key of a row of any table.
ghost use Rattle.std.specs.Prelude.{◌≡◌};
ghost use Rattle.std.specs.Ordering.{nat_cmp, is_eq};
ghost use Rattle.desk_base.specs.rows.Keys.{table_number, key_cmp, id_key};
ghost use Rattle.desk_base.specs.rows.Rows.{key_of};
ghost use Rattle.desk_base.specs.rules.TableLimits.{limit_of};

use crate::limits::SERIAL_LIMIT;
use crate::rows::row::Row;
use crate::rows::tables::{AnyRow, Key, Table};
use std::cmp::Ordering;

impl Table {
    /// The number of the table, by which keys are ordered first.
    pub fn number(self) -> u8
        ensures { result ≡ table_number self }
    {
        self as u8 + 1
    }

    /// How many rows the table may have, and how many booking numbers there are.
    pub fn limit(self) -> usize
        ensures { result ≡ limit_of self }
    {
        match self {
            Table::Zone => 64,
            Table::Calendar => 2_000,
            Table::Work => 40_000,
            Table::Break => 40_000,
            Table::Day => 100_000,
            Table::Off => 100_000,
            Table::Unit => 2_000,
            Table::Site => 2_000,
            Table::Role => 2_000,
            Table::Characteristic => 2_000,
            Table::Territory => 2_000,
            Table::Resource => 4_000,
            Table::HasRole => 40_000,
            Table::HasCharacteristic => 40_000,
            Table::HasTerritory => 40_000,
            Table::Member => 20_000,
            Table::Group => 50_000,
            Table::Booking => 400_000,
            Table::Caller => 10_000,
            Table::BookingNumbers => SERIAL_LIMIT as usize,
        }
    }
}

impl Key {
    /// The key of a row that is known by one number.
    pub fn of_id(table: Table, id: u32) -> Key
        ensures { result ≡ id_key table id }
    {
        Key {
            table,
            a: id,
            b: 0,
            c: 0,
        }
    }

    /// By table, then by the numbers in turn.
    pub fn compare(&self, other: &Key) -> Ordering
        ensures { result ≡ key_cmp self.now other.now }
    {
        self.table
            .number()
            .cmp(&other.table.number())
            .then(self.a.cmp(&other.a))
            .then(self.b.cmp(&other.b))
            .then(self.c.cmp(&other.c))
    }
}

impl AnyRow {
    /// The key of the row.
    pub fn key(&self) -> Key
        ensures { result ≡ key_of self.now }
    {
        match self {
            AnyRow::Zone(row) => row.key_in(Table::Zone),
            AnyRow::Calendar(row) => row.key_in(Table::Calendar),
            AnyRow::Work(row) => row.key_in(Table::Work),
            AnyRow::Break(row) => row.key_in(Table::Break),
            AnyRow::Day(row) => row.key_in(Table::Day),
            AnyRow::Off(row) => row.key_in(Table::Off),
            AnyRow::Unit(row) => row.key_in(Table::Unit),
            AnyRow::Site(row) => row.key_in(Table::Site),
            AnyRow::Role(row) => row.key_in(Table::Role),
            AnyRow::Characteristic(row) => row.key_in(Table::Characteristic),
            AnyRow::Territory(row) => row.key_in(Table::Territory),
            AnyRow::Resource(row) => row.key_in(Table::Resource),
            AnyRow::HasRole(row) => row.key_in(Table::HasRole),
            AnyRow::HasCharacteristic(row) => row.key_in(Table::HasCharacteristic),
            AnyRow::HasTerritory(row) => row.key_in(Table::HasTerritory),
            AnyRow::Member(row) => row.key_in(Table::Member),
            AnyRow::Group(row) => row.key_in(Table::Group),
            AnyRow::Booking(row) => row.key_in(Table::Booking),
            AnyRow::Caller(row) => row.key_in(Table::Caller),
        }
    }
}
