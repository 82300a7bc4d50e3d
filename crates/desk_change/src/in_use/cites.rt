//! Whether a row names a key.
ghost use Rattle.std.specs.Prelude.{◌≡◌, ◌==◌, flat_map, map};
ghost use Rattle.std.specs.List.{list_any};
ghost use Rattle.desk_base.specs.asked.Refusing.{cites, is_key};
ghost use Rattle.desk_base.specs.declared.rows.tables.Table.TheVariants.{Characteristic};
ghost use Rattle.desk_base.specs.rows.Keys.{id_key, table_number};
ghost use Rattle.desk_base.specs.rows.Rows.{key_of, leaf_citations};

use desk_base::{
    AnyRow, BookingRow, BreakRow, CalendarRow, CharacteristicId, DayRow, GroupRow, HasRow, Id, Key,
    Leaf, MemberRow, OffRow, ResourceRow, Table, WorkRow,
};
use std::cmp::Ordering;

/// A row that may name another.
pub(crate) trait Citing {
    ghost use Rattle.desk_base.specs.declared.rows.tables.Table.{Table};
    ghost use Rattle.desk_base.specs.declared.rows.tables.AnyRow.{AnyRow};

    /// The row as one of a table. Where the table holds no rows of this kind, it is one of the first table that does.
    ghost any: { Table → Self → AnyRow };

    /// The key of the row in the table.
    fn own_key(&self, table: Table) -> Key
        ensures { result ≡ key_of (any table self.now) };

    /// Whether the row names the key.
    fn cites(&self, table: Table, key: &Key) -> bool
        ensures { result ≡ cites key.now (any table self.now) };
}

/// Whether two keys are one.
fn is_key(key: &Key, other: &Key) -> bool
    ensures { result ≡ is_key key.now other.now }
{
    match key.compare(other) {
        Ordering::Equal => true,
        Ordering::Less => false,
        Ordering::Greater => false,
    }
}

/// Whether the key is one of these.
fn is_among(key: &Key, keys: &[Key]) -> bool
    ensures { result ≡ list_any (is_key key.now) keys.now }
{
    match keys {
        [] => false,
        [first, others @ ..] => is_key(key, first) || is_among(key, others),
    }
}

/// Whether the key is of the table.
fn is_of_table(key: &Key, table: Table) -> bool
    ensures { result ≡ (table_number key.now.table == table_number table) }
{
    key.table.number() == table.number()
}

/// Whether the key is that of one of these numbers.
fn is_of_ids<K>(key: &Key, table: Table, ids: &[Id<K>]) -> bool
    ensures { result ≡ list_any (is_key key.now) (map (id_key table) ids.now) }
{
    match ids {
        [] => false,
        [first, others @ ..] => {
            is_key(key, &Key::of_id(table, first.get())) || is_of_ids(key, table, others)
        }
    }
}

/// The same, where a key of another table is told apart at once.
#[tactic(auto, using(crate::proofs::Naming::other_ids))]
fn is_listed<K>(key: &Key, table: Table, ids: &[Id<K>]) -> bool
    ensures { result ≡ list_any (is_key key.now) (map (id_key table) ids.now) }
{
    is_of_table(key, table) && is_of_ids(key, table, ids)
}

fn is_of_ratings(key: &Key, ratings: &[(CharacteristicId, u8)]) -> bool
    ensures { result ≡ list_any (is_key key.now) (map (λ c. id_key Characteristic c.0) ratings.now) }
{
    match ratings {
        [] => false,
        [first, others @ ..] => {
            is_key(key, &Key::of_id(Table::Characteristic, first.0.get()))
                || is_of_ratings(key, others)
        }
    }
}

/// The same, where a key of another table is told apart at once.
fn is_rated(key: &Key, ratings: &[(CharacteristicId, u8)]) -> bool
    ensures { result ≡ list_any (is_key key.now) (map (λ c. id_key Characteristic c.0) ratings.now) }
{
    is_of_table(key, Table::Characteristic) && is_of_ratings(key, ratings)
}

/// Whether the leaf lists the key.
#[tactic(auto, using(crate::proofs::Naming::any_of_leaf))]
fn is_of_leaf(key: &Key, leaf: &Leaf) -> bool
    ensures { result ≡ list_any (is_key key.now) (leaf_citations leaf.now) }
{
    is_listed(key, Table::Role, leaf.roles.as_slice())
        || is_rated(key, leaf.characteristics.as_slice())
        || is_listed(key, Table::Territory, leaf.territories.as_slice())
        || is_listed(key, Table::Unit, leaf.units.as_slice())
        || is_listed(key, Table::Resource, leaf.required.as_slice())
        || is_listed(key, Table::Resource, leaf.restricted.as_slice())
}

fn is_of_some_leaf(key: &Key, leaves: &[Leaf]) -> bool
    ensures { result ≡ list_any (λ leaf. list_any (is_key key.now) (leaf_citations leaf)) leaves.now }
{
    leaves.iter().any(|leaf| is_of_leaf(key, leaf))
}

/// Whether one of the leaves lists the key.
fn is_of_leaves(key: &Key, leaves: &[Leaf]) -> bool
    ensures { result ≡ list_any (is_key key.now) (flat_map leaf_citations leaves.now) }
{
    is_of_some_leaf(key, leaves)
}

impl Citing for CalendarRow {
    ghost use Rattle.desk_base.specs.declared.rows.tables.AnyRow.TheVariants.{Calendar};

    ghost any = { λ _ x. Calendar x };

    fn own_key(&self, _table: Table) -> Key {
        Key::of_id(Table::Calendar, self.id.get())
    }

    fn cites(&self, _table: Table, key: &Key) -> bool {
        is_among(key, &[Key::of_id(Table::Zone, self.zone.get())])
    }
}

impl Citing for WorkRow {
    ghost use Rattle.desk_base.specs.declared.rows.tables.AnyRow.TheVariants.{Work};

    ghost any = { λ _ x. Work x };

    fn own_key(&self, _table: Table) -> Key {
        AnyRow::Work(*self).key()
    }

    fn cites(&self, _table: Table, key: &Key) -> bool {
        is_among(key, &[Key::of_id(Table::Calendar, self.calendar.get())])
    }
}

impl Citing for BreakRow {
    ghost use Rattle.desk_base.specs.declared.rows.tables.AnyRow.TheVariants.{Break};

    ghost any = { λ _ x. Break x };

    fn own_key(&self, _table: Table) -> Key {
        AnyRow::Break(*self).key()
    }

    fn cites(&self, _table: Table, key: &Key) -> bool {
        is_among(key, &[Key::of_id(Table::Calendar, self.calendar.get())])
    }
}

impl Citing for DayRow {
    ghost use Rattle.desk_base.specs.declared.rows.tables.AnyRow.TheVariants.{Day};

    ghost any = { λ _ x. Day x };

    fn own_key(&self, _table: Table) -> Key {
        AnyRow::Day(*self).key()
    }

    fn cites(&self, _table: Table, key: &Key) -> bool {
        is_among(key, &[Key::of_id(Table::Calendar, self.calendar.get())])
    }
}

impl Citing for OffRow {
    ghost use Rattle.desk_base.specs.declared.rows.tables.AnyRow.TheVariants.{Off};

    ghost any = { λ _ x. Off x };

    fn own_key(&self, _table: Table) -> Key {
        AnyRow::Off(*self).key()
    }

    fn cites(&self, _table: Table, key: &Key) -> bool {
        is_among(key, &[Key::of_id(Table::Resource, self.resource.get())])
    }
}

impl Citing for ResourceRow {
    ghost use Rattle.desk_base.specs.declared.rows.tables.AnyRow.TheVariants.{Resource};

    ghost any = { λ _ x. Resource x };

    fn own_key(&self, _table: Table) -> Key {
        Key::of_id(Table::Resource, self.id.get())
    }

    fn cites(&self, _table: Table, key: &Key) -> bool {
        let unit = Key::of_id(Table::Unit, self.unit.get());
        let site = Key::of_id(Table::Site, self.site.get());
        match self.calendar {
            Some(id) => is_among(key, &[Key::of_id(Table::Calendar, id.get()), unit, site]),
            None => is_among(key, &[unit, site]),
        }
    }
}

impl Citing for HasRow {
    ghost use Rattle.desk_base.specs.rows.Lookups.{has_in};

    ghost any = { has_in };

    fn own_key(&self, table: Table) -> Key {
        match table {
            Table::HasCharacteristic => AnyRow::HasCharacteristic(*self).key(),
            Table::HasTerritory => AnyRow::HasTerritory(*self).key(),
            _ => AnyRow::HasRole(*self).key(),
        }
    }

    fn cites(&self, table: Table, key: &Key) -> bool {
        let resource = Key::of_id(Table::Resource, self.resource.get());
        match table {
            Table::HasCharacteristic => is_among(
                key,
                &[resource, Key::of_id(Table::Characteristic, self.what)],
            ),
            Table::HasTerritory => is_among(
                key,
                &[resource, Key::of_id(Table::Territory, self.what)],
            ),
            _ => is_among(key, &[resource, Key::of_id(Table::Role, self.what)]),
        }
    }
}

impl Citing for MemberRow {
    ghost use Rattle.desk_base.specs.declared.rows.tables.AnyRow.TheVariants.{Member};

    ghost any = { λ _ x. Member x };

    fn own_key(&self, _table: Table) -> Key {
        AnyRow::Member(*self).key()
    }

    fn cites(&self, _table: Table, key: &Key) -> bool {
        let group = Key::of_id(Table::Resource, self.group.get());
        let member = Key::of_id(Table::Resource, self.member.get());
        is_among(key, &[group, member])
    }
}

impl Citing for GroupRow {
    ghost use Rattle.desk_base.specs.declared.rows.tables.AnyRow.TheVariants.{Group};

    ghost any = { λ _ x. Group x };

    fn own_key(&self, _table: Table) -> Key {
        Key::of_id(Table::Group, self.id.get())
    }

    fn cites(&self, _table: Table, key: &Key) -> bool {
        is_of_leaves(key, self.leaves.as_slice())
    }
}

impl Citing for BookingRow {
    ghost use Rattle.desk_base.specs.declared.rows.tables.AnyRow.TheVariants.{Booking};

    ghost any = { λ _ x. Booking x };

    fn own_key(&self, _table: Table) -> Key {
        AnyRow::Booking(*self).key()
    }

    fn cites(&self, _table: Table, key: &Key) -> bool {
        let group = Key::of_id(Table::Group, self.group.get());
        let resource = Key::of_id(Table::Resource, self.resource.get());
        is_among(key, &[group, resource])
    }
}
