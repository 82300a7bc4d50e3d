//! Rows of one table by their keys: searches, and lists with a row more or fewer.
ghost use Rattle.std.specs.Prelude.{◌≡◌, ◌+◌, ◌-◌, ◌<◌, ◌≤◌, false, IfOk, IfErr, map, vec_len, vec_capacity, length};
ghost use Rattle.std.specs.List.{list_any};
ghost use Rattle.std.specs.List.Sorted.{IsStrictlySortedBy};
ghost use Rattle.desk_base.specs.rows.Keys.{key_cmp};
ghost use Rattle.desk_base.specs.rows.Rows.{key_of, rows_in};
ghost use Rattle.desk_base.specs.asked.Refusing.{is_key, is_there};
ghost use Rattle.desk_base.specs.changes.Changes.{with_one, without_one};
ghost use Rattle.desk_base.specs.rows.Lookups.{keys_by, KeysRise, StandsAt, BelongsAt};
ghost use Rattle.desk_base.specs.changes.Formers.{former_in};

use crate::changes::formers::Former;
use crate::rows::row::Row;
use crate::rows::tables::{Key, Table, Tables};
use std::cmp::Ordering;
use std::mem;

/// Where a key stands among the rows of a table (`Ok`), or where a row of it belongs (`Err`).
fn find<T: Row>(rows: &[T], table: Table, key: &Key) -> Result<usize, usize>
    requires { IsStrictlySortedBy key_cmp (keys_by (T.any table) rows.now) }
    ensures stands { IfOk result (StandsAt (T.any table) key.now rows.now) }
    ensures belongs { IfErr result (BelongsAt (T.any table) key.now rows.now) }
{
    rows.binary_search_by(
        |row: &T| -> Ordering
            ensures { result ≡ key_cmp (key_of (T.any table row.now)) key.entry.now }
        { row.key_in(table).compare(key) },
    )
}

/// Whether a row has the key.
fn has_key<T: Row>(rows: &[T], table: Table, key: &Key) -> bool
    requires { IsStrictlySortedBy key_cmp (keys_by (T.any table) rows.now) }
    ensures { result ≡ list_any (is_key key.now) (keys_by (T.any table) rows.now) }
{
    match find(rows, table, key) {
        Ok(_) => true,
        Err(_) => false,
    }
}

/// Puts a row in the place of the row of its key, or adds it where its key belongs, and gives what stood there. It takes no
/// memory: where no row has the key, there is room for one more.
pub(crate) fn put_in<T: Row>(rows: &mut Vec<T>, table: Table, row: T) -> Former
    requires rise { IsStrictlySortedBy key_cmp (keys_by (T.any table) rows.old.items) }
    requires room { list_any (is_key (key_of (T.any table row))) (keys_by (T.any table) rows.old.items) ≡ false → vec_len rows.old < vec_capacity rows.old }
    ensures items { rows.new.items ≡ with_one (λ y. key_of (T.any table y)) row rows.old.items }
    ensures former { result ≡ former_in (key_of (T.any table row)) (map (T.any table) rows.old.items) }
    ensures room { vec_capacity rows.old - vec_len rows.old ≤ vec_capacity rows.new - vec_len rows.new + 1 }
{
    let key = row.key_in(table);
    match find(rows.as_slice(), table, &key) {
        Ok(at) => Former::Row(mem::replace(&mut rows[at], row).into_any(table)),
        Err(at) => {
            rows.insert(at, row).unwrap();
            Former::Nothing(key)
        }
    }
}

/// Takes out the row of a key, if there is one.
pub(crate) fn take_out<T: Row>(rows: &mut Vec<T>, table: Table, key: &Key)
    requires { IsStrictlySortedBy key_cmp (keys_by (T.any table) rows.old.items) }
    ensures items { rows.new.items ≡ without_one (λ y. key_of (T.any table y)) key.now rows.old.items }
    ensures room { vec_capacity rows.old - vec_len rows.old ≤ vec_capacity rows.new - vec_len rows.new }
{
    if let Ok(at) = find(rows.as_slice(), table, key) {
        let _row = rows.remove(at);
    }
}

impl Tables {
    /// Whether a row stands under the key. It is found by a binary search.
    pub fn contains(&self, key: &Key) -> bool
        requires { KeysRise self.now }
        ensures { result ≡ is_there self.now key.now }
    {
        match key.table {
            Table::Zone => has_key(self.zones.as_slice(), Table::Zone, key),
            Table::Calendar => has_key(self.calendars.as_slice(), Table::Calendar, key),
            Table::Work => has_key(self.works.as_slice(), Table::Work, key),
            Table::Break => has_key(self.breaks.as_slice(), Table::Break, key),
            Table::Day => has_key(self.days.as_slice(), Table::Day, key),
            Table::Off => has_key(self.offs.as_slice(), Table::Off, key),
            Table::Unit => has_key(self.units.as_slice(), Table::Unit, key),
            Table::Site => has_key(self.sites.as_slice(), Table::Site, key),
            Table::Role => has_key(self.roles.as_slice(), Table::Role, key),
            Table::Characteristic => has_key(
                self.characteristics.as_slice(),
                Table::Characteristic,
                key,
            ),
            Table::Territory => has_key(self.territories.as_slice(), Table::Territory, key),
            Table::Resource => has_key(self.resources.as_slice(), Table::Resource, key),
            Table::HasRole => has_key(self.has_roles.as_slice(), Table::HasRole, key),
            Table::HasCharacteristic => has_key(
                self.has_characteristics.as_slice(),
                Table::HasCharacteristic,
                key,
            ),
            Table::HasTerritory => has_key(
                self.has_territories.as_slice(),
                Table::HasTerritory,
                key,
            ),
            Table::Member => has_key(self.members.as_slice(), Table::Member, key),
            Table::Group => has_key(self.groups.as_slice(), Table::Group, key),
            Table::Booking => has_key(self.bookings.as_slice(), Table::Booking, key),
            Table::Caller => has_key(self.callers.as_slice(), Table::Caller, key),
            Table::BookingNumbers => false,
        }
    }

    /// How many rows a table has. Booking numbers are no rows.
    pub fn len_of(&self, table: Table) -> usize
        ensures { result ≡ length (rows_in self.now table) }
    {
        match table {
            Table::Zone => self.zones.len(),
            Table::Calendar => self.calendars.len(),
            Table::Work => self.works.len(),
            Table::Break => self.breaks.len(),
            Table::Day => self.days.len(),
            Table::Off => self.offs.len(),
            Table::Unit => self.units.len(),
            Table::Site => self.sites.len(),
            Table::Role => self.roles.len(),
            Table::Characteristic => self.characteristics.len(),
            Table::Territory => self.territories.len(),
            Table::Resource => self.resources.len(),
            Table::HasRole => self.has_roles.len(),
            Table::HasCharacteristic => self.has_characteristics.len(),
            Table::HasTerritory => self.has_territories.len(),
            Table::Member => self.members.len(),
            Table::Group => self.groups.len(),
            Table::Booking => self.bookings.len(),
            Table::Caller => self.callers.len(),
            Table::BookingNumbers => 0,
        }
    }
}
