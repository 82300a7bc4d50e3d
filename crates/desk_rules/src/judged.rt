//! Rows as they are judged: under which key each stands, whether it keeps its own rules, and what it names that is not there.
ghost use Rattle.std.specs.Prelude.{◌≡◌, option_map};
ghost use Rattle.std.specs.Option.{option_copied};
ghost use Rattle.desk_base.specs.rows.Lookups.{KeysRise};
ghost use Rattle.desk_base.specs.rows.Rows.{citations_of, key_of};
ghost use Rattle.desk_base.specs.rules.Sound.{keeps_fields};
ghost use Rattle.desk_member.specs.Memberships.{AreMemberships};
ghost use Rattle.desk_rules.specs.Missing.{missing};

use crate::citations;
use crate::fields::bookings::broken_booking;
use crate::fields::calendars::{
    broken_break, broken_calendar, broken_day, broken_off, broken_work, broken_zone,
};
use crate::fields::groups::broken_group;
use crate::fields::members::broken_member;
use crate::fields::resources::{broken_named, broken_rated, broken_resource, broken_unrated};
use crate::trees::is_tree;
use desk_base::{
    BookingRow, BreakRow, CalendarRow, CallerRow, DayRow, GroupRow, HasRow, Key, MemberRow,
    NamedRow, OffRow, ResourceRow, Table, Tables, WorkRow, ZoneRow,
};
use desk_member::ByMember;

/// A row that is judged as one of a table.
pub(crate) trait Judged {
    ghost use Rattle.desk_base.specs.declared.rows.tables.Table.{Table};
    ghost use Rattle.desk_base.specs.declared.rows.tables.AnyRow.{AnyRow};

    /// The row as one of a table. Where the table holds no rows of this kind, it is one of the first table that does.
    ghost any: { Table → Self → AnyRow };

    /// The key of the row in the table.
    fn key_in(&self, table: Table) -> Key
        ensures { result ≡ key_of (any table self.now) };

    /// Whether it breaks no field rule and no tree rule.
    fn keeps_fields(&self, tables: &Tables, members: &ByMember, table: Table) -> bool
        requires rise { KeysRise tables.now }
        requires memberships { AreMemberships tables.now members.now }
        ensures { result ≡ keeps_fields tables.now (any table self.now) };

    /// The first key that it names under which no row stands.
    fn first_missing(&self, tables: &Tables, table: Table) -> Option<Key>
        requires { KeysRise tables.now }
        ensures { result ≡ missing tables.now (citations_of (any table self.now)) };
}

/// The key of the row that was found, if one was.
pub(crate) fn key_of_found<R: Judged>(found: Option<&R>, table: Table) -> Option<Key>
    ensures { result ≡ option_map (λ row. key_of (R.any table row)) (option_copied found.entry) }
{
    match found {
        Some(row) => Some(row.key_in(table)),
        None => None,
    }
}

impl Judged for ZoneRow {
    ghost use Rattle.desk_base.specs.declared.rows.tables.AnyRow.TheVariants.{Zone};

    ghost any = { λ _ x. Zone x };

    fn key_in(&self, _table: Table) -> Key {
        Key::of_id(Table::Zone, self.id.get())
    }

    fn keeps_fields(&self, _tables: &Tables, _members: &ByMember, _table: Table) -> bool {
        broken_zone(self).is_none()
    }

    fn first_missing(&self, _tables: &Tables, _table: Table) -> Option<Key> {
        None
    }
}

impl Judged for CalendarRow {
    ghost use Rattle.desk_base.specs.declared.rows.tables.AnyRow.TheVariants.{Calendar};

    ghost any = { λ _ x. Calendar x };

    fn key_in(&self, _table: Table) -> Key {
        Key::of_id(Table::Calendar, self.id.get())
    }

    fn keeps_fields(&self, _tables: &Tables, _members: &ByMember, _table: Table) -> bool {
        broken_calendar(self).is_none()
    }

    fn first_missing(&self, tables: &Tables, _table: Table) -> Option<Key> {
        citations::of_calendar(tables, self)
    }
}

impl Judged for WorkRow {
    ghost use Rattle.desk_base.specs.declared.rows.tables.AnyRow.TheVariants.{Work};

    ghost any = { λ _ x. Work x };

    fn key_in(&self, _table: Table) -> Key {
        Key {
            table: Table::Work,
            a: self.calendar.get(),
            b: self.weekday as u32,
            c: self.from as u32,
        }
    }

    fn keeps_fields(&self, tables: &Tables, _members: &ByMember, _table: Table) -> bool {
        broken_work(tables, self).is_none()
    }

    fn first_missing(&self, tables: &Tables, _table: Table) -> Option<Key> {
        citations::of_own_calendar(tables, self.calendar)
    }
}

impl Judged for BreakRow {
    ghost use Rattle.desk_base.specs.declared.rows.tables.AnyRow.TheVariants.{Break};

    ghost any = { λ _ x. Break x };

    fn key_in(&self, _table: Table) -> Key {
        Key {
            table: Table::Break,
            a: self.calendar.get(),
            b: self.weekday as u32,
            c: self.from as u32,
        }
    }

    fn keeps_fields(&self, _tables: &Tables, _members: &ByMember, _table: Table) -> bool {
        broken_break(self).is_none()
    }

    fn first_missing(&self, tables: &Tables, _table: Table) -> Option<Key> {
        citations::of_own_calendar(tables, self.calendar)
    }
}

impl Judged for DayRow {
    ghost use Rattle.desk_base.specs.declared.rows.tables.AnyRow.TheVariants.{Day};

    ghost any = { λ _ x. Day x };

    fn key_in(&self, _table: Table) -> Key {
        Key {
            table: Table::Day,
            a: self.calendar.get(),
            b: self.day,
            c: self.from as u32,
        }
    }

    fn keeps_fields(&self, tables: &Tables, _members: &ByMember, _table: Table) -> bool {
        broken_day(tables, self).is_none()
    }

    fn first_missing(&self, tables: &Tables, _table: Table) -> Option<Key> {
        citations::of_own_calendar(tables, self.calendar)
    }
}

impl Judged for OffRow {
    ghost use Rattle.desk_base.specs.declared.rows.tables.AnyRow.TheVariants.{Off};

    ghost any = { λ _ x. Off x };

    fn key_in(&self, _table: Table) -> Key {
        Key {
            table: Table::Off,
            a: self.resource.get(),
            b: self.from.get(),
            c: 0,
        }
    }

    fn keeps_fields(&self, _tables: &Tables, _members: &ByMember, _table: Table) -> bool {
        broken_off(self).is_none()
    }

    fn first_missing(&self, tables: &Tables, _table: Table) -> Option<Key> {
        citations::of_own_resource(tables, self.resource)
    }
}

impl Judged for NamedRow {
    ghost use Rattle.desk_base.specs.rows.Lookups.{named_in};

    ghost any = { named_in };

    fn key_in(&self, table: Table) -> Key {
        match table {
            Table::Site => Key::of_id(Table::Site, self.id),
            Table::Role => Key::of_id(Table::Role, self.id),
            Table::Characteristic => Key::of_id(Table::Characteristic, self.id),
            Table::Territory => Key::of_id(Table::Territory, self.id),
            _ => Key::of_id(Table::Unit, self.id),
        }
    }

    #[tactic(auto, using(crate::proofs::RowLemmas::named_keeps))]
    fn keeps_fields(&self, _tables: &Tables, _members: &ByMember, _table: Table) -> bool {
        broken_named(self).is_none()
    }

    #[tactic(auto, using(crate::proofs::RowLemmas::named_missing))]
    fn first_missing(&self, _tables: &Tables, _table: Table) -> Option<Key> {
        None
    }
}

impl Judged for ResourceRow {
    ghost use Rattle.desk_base.specs.declared.rows.tables.AnyRow.TheVariants.{Resource};

    ghost any = { λ _ x. Resource x };

    fn key_in(&self, _table: Table) -> Key {
        Key::of_id(Table::Resource, self.id.get())
    }

    fn keeps_fields(&self, tables: &Tables, _members: &ByMember, _table: Table) -> bool {
        broken_resource(tables, self).is_none()
    }

    fn first_missing(&self, tables: &Tables, _table: Table) -> Option<Key> {
        citations::of_resource(tables, self)
    }
}

impl Judged for HasRow {
    ghost use Rattle.desk_base.specs.rows.Lookups.{has_in};

    ghost any = { has_in };

    fn key_in(&self, table: Table) -> Key {
        let table = match table {
            Table::HasCharacteristic => Table::HasCharacteristic,
            Table::HasTerritory => Table::HasTerritory,
            _ => Table::HasRole,
        };
        Key {
            table,
            a: self.resource.get(),
            b: self.what,
            c: 0,
        }
    }

    fn keeps_fields(&self, _tables: &Tables, _members: &ByMember, table: Table) -> bool {
        match table {
            Table::HasCharacteristic => broken_rated(self).is_none(),
            _ => broken_unrated(self).is_none(),
        }
    }

    fn first_missing(&self, tables: &Tables, table: Table) -> Option<Key> {
        match table {
            Table::HasCharacteristic => citations::of_has(tables, Table::Characteristic, self),
            Table::HasTerritory => citations::of_has(tables, Table::Territory, self),
            _ => citations::of_has(tables, Table::Role, self),
        }
    }
}

impl Judged for MemberRow {
    ghost use Rattle.desk_base.specs.declared.rows.tables.AnyRow.TheVariants.{Member};

    ghost any = { λ _ x. Member x };

    fn key_in(&self, _table: Table) -> Key {
        Key {
            table: Table::Member,
            a: self.group.get(),
            b: self.member.get(),
            c: self.from.get(),
        }
    }

    fn keeps_fields(&self, tables: &Tables, members: &ByMember, _table: Table) -> bool {
        broken_member(tables, members.of_member(self.member), self).is_none()
    }

    fn first_missing(&self, tables: &Tables, _table: Table) -> Option<Key> {
        citations::of_member(tables, self)
    }
}

impl Judged for GroupRow {
    ghost use Rattle.desk_base.specs.declared.rows.tables.AnyRow.TheVariants.{Group};

    ghost any = { λ _ x. Group x };

    fn key_in(&self, _table: Table) -> Key {
        Key::of_id(Table::Group, self.id.get())
    }

    fn keeps_fields(&self, _tables: &Tables, _members: &ByMember, _table: Table) -> bool {
        broken_group(self).is_none() && is_tree(self.nodes.as_slice(), self.leaves.len())
    }

    fn first_missing(&self, tables: &Tables, _table: Table) -> Option<Key> {
        citations::of_group(tables, self)
    }
}

impl Judged for BookingRow {
    ghost use Rattle.desk_base.specs.declared.rows.tables.AnyRow.TheVariants.{Booking};

    ghost any = { λ _ x. Booking x };

    fn key_in(&self, _table: Table) -> Key {
        Key::of_id(Table::Booking, self.id.get())
    }

    fn keeps_fields(&self, _tables: &Tables, _members: &ByMember, _table: Table) -> bool {
        broken_booking(self).is_none()
    }

    fn first_missing(&self, tables: &Tables, _table: Table) -> Option<Key> {
        citations::of_booking(tables, self)
    }
}

impl Judged for CallerRow {
    ghost use Rattle.desk_base.specs.declared.rows.tables.AnyRow.TheVariants.{Caller};

    ghost any = { λ _ x. Caller x };

    fn key_in(&self, _table: Table) -> Key {
        Key::of_id(Table::Caller, self.caller.get())
    }

    fn keeps_fields(&self, _tables: &Tables, _members: &ByMember, _table: Table) -> bool {
        true
    }

    fn first_missing(&self, _tables: &Tables, _table: Table) -> Option<Key> {
        None
    }
}
