//! What rows name that is not there: the first key of each row, in the order of its fields. Each key is found by halving.
ghost use Rattle.std.specs.Prelude.{◌≡◌, ◌∷◌, [], flat_map, map};
ghost use Rattle.desk_base.specs.declared.rows.tables.AnyRow.TheVariants.{Booking as BookingOf, Calendar as CalendarOf, Group as GroupOf, Member as MemberOf, Resource as ResourceOf};
ghost use Rattle.desk_base.specs.declared.rows.tables.Table.TheVariants.{Calendar, Characteristic, Resource};
ghost use Rattle.desk_base.specs.rows.Keys.{id_key};
ghost use Rattle.desk_base.specs.rows.Lookups.{KeysRise};
ghost use Rattle.desk_base.specs.rows.Rows.{citations_of, leaf_citations};
ghost use Rattle.desk_rules.specs.Missing.{choice_keys, demand_keys, missing};

use desk_base::{
    BookingRow, CalendarId, CalendarRow, CharacteristicId, GroupRow, HasRow, Id, Key, Leaf,
    MemberRow, ResourceId, ResourceRow, Table, Tables,
};

/// The first of the keys under which no row stands.
fn missing_among(tables: &Tables, keys: &[Key]) -> Option<Key>
    requires { KeysRise tables.now }
    ensures { result ≡ missing tables.now keys.now }
{
    match keys {
        [] => None,
        [first, others @ ..] => {
            if tables.contains(first) {
                missing_among(tables, others)
            } else {
                Some(*first)
            }
        }
    }
}

/// The key of the calendar, where it is not there.
pub(crate) fn of_own_calendar(tables: &Tables, id: CalendarId) -> Option<Key>
    requires { KeysRise tables.now }
    ensures { result ≡ missing tables.now (id_key Calendar id ∷ []) }
{
    missing_among(tables, &[Key::of_id(Table::Calendar, id.get())])
}

/// The key of the resource, where it is not there.
pub(crate) fn of_own_resource(tables: &Tables, id: ResourceId) -> Option<Key>
    requires { KeysRise tables.now }
    ensures { result ≡ missing tables.now (id_key Resource id ∷ []) }
{
    missing_among(tables, &[Key::of_id(Table::Resource, id.get())])
}

/// The key of the zone of a calendar, where it is not there.
pub(crate) fn of_calendar(tables: &Tables, row: &CalendarRow) -> Option<Key>
    requires { KeysRise tables.now }
    ensures { result ≡ missing tables.now (citations_of (CalendarOf row.now)) }
{
    missing_among(tables, &[Key::of_id(Table::Zone, row.zone.get())])
}

/// The first of the calendar, the unit and the site of a resource that is not there.
pub(crate) fn of_resource(tables: &Tables, row: &ResourceRow) -> Option<Key>
    requires { KeysRise tables.now }
    ensures { result ≡ missing tables.now (citations_of (ResourceOf row.now)) }
{
    let unit = Key::of_id(Table::Unit, row.unit.get());
    let site = Key::of_id(Table::Site, row.site.get());
    match row.calendar {
        Some(calendar) => {
            let calendar = Key::of_id(Table::Calendar, calendar.get());
            missing_among(tables, &[calendar, unit, site])
        }
        None => missing_among(tables, &[unit, site]),
    }
}

/// The first of a resource and what it has of this table that is not there.
pub(crate) fn of_has(tables: &Tables, table: Table, row: &HasRow) -> Option<Key>
    requires { KeysRise tables.now }
    ensures { result ≡ missing tables.now (id_key Resource row.now.resource ∷ id_key table row.now.what ∷ []) }
{
    let resource = Key::of_id(Table::Resource, row.resource.get());
    missing_among(tables, &[resource, Key::of_id(table, row.what)])
}

/// The first of the group and the member of a membership that is not there.
pub(crate) fn of_member(tables: &Tables, row: &MemberRow) -> Option<Key>
    requires { KeysRise tables.now }
    ensures { result ≡ missing tables.now (citations_of (MemberOf row.now)) }
{
    let group = Key::of_id(Table::Resource, row.group.get());
    let member = Key::of_id(Table::Resource, row.member.get());
    missing_among(tables, &[group, member])
}

/// The first of the group and the resource of a booking that is not there.
pub(crate) fn of_booking(tables: &Tables, row: &BookingRow) -> Option<Key>
    requires { KeysRise tables.now }
    ensures { result ≡ missing tables.now (citations_of (BookingOf row.now)) }
{
    let group = Key::of_id(Table::Group, row.group.get());
    let resource = Key::of_id(Table::Resource, row.resource.get());
    missing_among(tables, &[group, resource])
}

/// The first of these numbers under whose key no row stands.
fn of_ids<K>(tables: &Tables, table: Table, ids: &[Id<K>]) -> Option<Key>
    requires { KeysRise tables.now }
    ensures { result ≡ missing tables.now (map (id_key table) ids.now) }
{
    match ids {
        [] => None,
        [first, others @ ..] => {
            let key = Key::of_id(table, first.get());
            if tables.contains(&key) {
                of_ids(tables, table, others)
            } else {
                Some(key)
            }
        }
    }
}

fn of_ratings(tables: &Tables, ratings: &[(CharacteristicId, u8)]) -> Option<Key>
    requires { KeysRise tables.now }
    ensures { result ≡ missing tables.now (map (λ c. id_key Characteristic c.0) ratings.now) }
{
    match ratings {
        [] => None,
        [first, others @ ..] => {
            let key = Key::of_id(Table::Characteristic, first.0.get());
            if tables.contains(&key) {
                of_ratings(tables, others)
            } else {
                Some(key)
            }
        }
    }
}

/// The first of the roles, characteristics and territories of a leaf that is not there.
#[tactic(auto, using(crate::proofs::Missing::missing_three))]
fn of_demands(tables: &Tables, leaf: &Leaf) -> Option<Key>
    requires { KeysRise tables.now }
    ensures { result ≡ missing tables.now (demand_keys leaf.now) }
{
    match of_ids(tables, Table::Role, leaf.roles.as_slice()) {
        Some(key) => Some(key),
        None => match of_ratings(tables, leaf.characteristics.as_slice()) {
            Some(key) => Some(key),
            None => of_ids(tables, Table::Territory, leaf.territories.as_slice()),
        },
    }
}

/// The first of the units and resources that a leaf lists that is not there.
#[tactic(auto, using(crate::proofs::Missing::missing_three))]
fn of_choices(tables: &Tables, leaf: &Leaf) -> Option<Key>
    requires { KeysRise tables.now }
    ensures { result ≡ missing tables.now (choice_keys leaf.now) }
{
    match of_ids(tables, Table::Unit, leaf.units.as_slice()) {
        Some(key) => Some(key),
        None => match of_ids(tables, Table::Resource, leaf.required.as_slice()) {
            Some(key) => Some(key),
            None => of_ids(tables, Table::Resource, leaf.restricted.as_slice()),
        },
    }
}

/// The first that a leaf lists that is not there.
#[tactic(auto, using(crate::proofs::Missing::leaf_parts))]
fn of_leaf(tables: &Tables, leaf: &Leaf) -> Option<Key>
    requires { KeysRise tables.now }
    ensures { result ≡ missing tables.now (leaf_citations leaf.now) }
{
    match of_demands(tables, leaf) {
        Some(key) => Some(key),
        None => of_choices(tables, leaf),
    }
}

/// The first that the leaves list that is not there.
#[tactic(auto, using(crate::proofs::Missing::missing_append))]
fn of_leaves(tables: &Tables, leaves: &[Leaf]) -> Option<Key>
    requires { KeysRise tables.now }
    ensures { result ≡ missing tables.now (flat_map leaf_citations leaves.now) }
{
    match leaves {
        [] => None,
        [first, others @ ..] => match of_leaf(tables, first) {
            Some(key) => Some(key),
            None => of_leaves(tables, others),
        },
    }
}

/// The first that the leaves of a group list that is not there.
pub(crate) fn of_group(tables: &Tables, row: &GroupRow) -> Option<Key>
    requires { KeysRise tables.now }
    ensures { result ≡ missing tables.now (citations_of (GroupOf row.now)) }
{
    of_leaves(tables, row.leaves.as_slice())
}
