//! Rows: the key of each kind of row, and each kind as rows of any table.
ghost use Rattle.std.specs.Prelude.{◌≡◌};
ghost use Rattle.desk_base.specs.rows.Rows.{key_of};

use crate::rows::bookings::{BookingRow, CallerRow};
use crate::rows::calendars::{BreakRow, CalendarRow, DayRow, OffRow, WorkRow, ZoneRow};
use crate::rows::groups::GroupRow;
use crate::rows::resources::{HasRow, MemberRow, NamedRow, ResourceRow};
use crate::rows::tables::{AnyRow, Key, Table};

/// A row that stands under a key in its table.
pub trait Row: Drop {
    ghost use Rattle.desk_base.specs.rows.Types.{Table, AnyRow};

    /// The row as one of a table. Where the table holds no rows of this kind, it is one of the first table that does.
    ghost any: { Table → Self → AnyRow };

    /// The key of the row in the table.
    fn key_in(&self, table: Table) -> Key
        ensures { result ≡ key_of (any table self.now) };

    /// The row as one of the table.
    fn into_any(self, table: Table) -> AnyRow
        ensures { result ≡ any table self };
}

impl Row for ZoneRow {
    ghost use Rattle.desk_base.specs.declared.rows.tables.AnyRow.TheVariants.{Zone};

    ghost any = { λ _ x. Zone x };

    fn key_in(&self, _table: Table) -> Key {
        Key::of_id(Table::Zone, self.id.get())
    }

    fn into_any(self, _table: Table) -> AnyRow {
        AnyRow::Zone(self)
    }
}

impl Row for CalendarRow {
    ghost use Rattle.desk_base.specs.declared.rows.tables.AnyRow.TheVariants.{Calendar};

    ghost any = { λ _ x. Calendar x };

    fn key_in(&self, _table: Table) -> Key {
        Key::of_id(Table::Calendar, self.id.get())
    }

    fn into_any(self, _table: Table) -> AnyRow {
        AnyRow::Calendar(self)
    }
}

impl Row for WorkRow {
    ghost use Rattle.desk_base.specs.declared.rows.tables.AnyRow.TheVariants.{Work};

    ghost any = { λ _ x. Work x };

    fn key_in(&self, _table: Table) -> Key {
        Key {
            table: Table::Work,
            a: self.calendar.get(),
            b: self.weekday as u32,
            c: self.from as u32,
        }
    }

    fn into_any(self, _table: Table) -> AnyRow {
        AnyRow::Work(self)
    }
}

impl Row for BreakRow {
    ghost use Rattle.desk_base.specs.declared.rows.tables.AnyRow.TheVariants.{Break};

    ghost any = { λ _ x. Break x };

    fn key_in(&self, _table: Table) -> Key {
        Key {
            table: Table::Break,
            a: self.calendar.get(),
            b: self.weekday as u32,
            c: self.from as u32,
        }
    }

    fn into_any(self, _table: Table) -> AnyRow {
        AnyRow::Break(self)
    }
}

impl Row for DayRow {
    ghost use Rattle.desk_base.specs.declared.rows.tables.AnyRow.TheVariants.{Day};

    ghost any = { λ _ x. Day x };

    fn key_in(&self, _table: Table) -> Key {
        Key {
            table: Table::Day,
            a: self.calendar.get(),
            b: self.day,
            c: self.from as u32,
        }
    }

    fn into_any(self, _table: Table) -> AnyRow {
        AnyRow::Day(self)
    }
}

impl Row for OffRow {
    ghost use Rattle.desk_base.specs.declared.rows.tables.AnyRow.TheVariants.{Off};

    ghost any = { λ _ x. Off x };

    fn key_in(&self, _table: Table) -> Key {
        Key {
            table: Table::Off,
            a: self.resource.get(),
            b: self.from.get(),
            c: 0,
        }
    }

    fn into_any(self, _table: Table) -> AnyRow {
        AnyRow::Off(self)
    }
}

impl Row for NamedRow {
    ghost use Rattle.desk_base.specs.rows.Lookups.{named_in};

    ghost any = { named_in };

    fn key_in(&self, table: Table) -> Key {
        match table {
            Table::Site => Key::of_id(Table::Site, self.id),
            Table::Role => Key::of_id(Table::Role, self.id),
            Table::Characteristic => Key::of_id(Table::Characteristic, self.id),
            Table::Territory => Key::of_id(Table::Territory, self.id),
            _ => Key::of_id(Table::Unit, self.id),
        }
    }

    fn into_any(self, table: Table) -> AnyRow {
        match table {
            Table::Site => AnyRow::Site(self),
            Table::Role => AnyRow::Role(self),
            Table::Characteristic => AnyRow::Characteristic(self),
            Table::Territory => AnyRow::Territory(self),
            _ => AnyRow::Unit(self),
        }
    }
}

impl Row for ResourceRow {
    ghost use Rattle.desk_base.specs.declared.rows.tables.AnyRow.TheVariants.{Resource};

    ghost any = { λ _ x. Resource x };

    fn key_in(&self, _table: Table) -> Key {
        Key::of_id(Table::Resource, self.id.get())
    }

    fn into_any(self, _table: Table) -> AnyRow {
        AnyRow::Resource(self)
    }
}

impl Row for HasRow {
    ghost use Rattle.desk_base.specs.rows.Lookups.{has_in};

    ghost any = { has_in };

    fn key_in(&self, table: Table) -> Key {
        let table = match table {
            Table::HasCharacteristic => Table::HasCharacteristic,
            Table::HasTerritory => Table::HasTerritory,
            _ => Table::HasRole,
        };
        Key {
            table,
            a: self.resource.get(),
            b: self.what,
            c: 0,
        }
    }

    fn into_any(self, table: Table) -> AnyRow {
        match table {
            Table::HasCharacteristic => AnyRow::HasCharacteristic(self),
            Table::HasTerritory => AnyRow::HasTerritory(self),
            _ => AnyRow::HasRole(self),
        }
    }
}

impl Row for MemberRow {
    ghost use Rattle.desk_base.specs.declared.rows.tables.AnyRow.TheVariants.{Member};

    ghost any = { λ _ x. Member x };

    fn key_in(&self, _table: Table) -> Key {
        Key {
            table: Table::Member,
            a: self.group.get(),
            b: self.member.get(),
            c: self.from.get(),
        }
    }

    fn into_any(self, _table: Table) -> AnyRow {
        AnyRow::Member(self)
    }
}

impl Row for GroupRow {
    ghost use Rattle.desk_base.specs.declared.rows.tables.AnyRow.TheVariants.{Group};

    ghost any = { λ _ x. Group x };

    fn key_in(&self, _table: Table) -> Key {
        Key::of_id(Table::Group, self.id.get())
    }

    fn into_any(self, _table: Table) -> AnyRow {
        AnyRow::Group(self)
    }
}

impl Row for BookingRow {
    ghost use Rattle.desk_base.specs.declared.rows.tables.AnyRow.TheVariants.{Booking};

    ghost any = { λ _ x. Booking x };

    fn key_in(&self, _table: Table) -> Key {
        Key::of_id(Table::Booking, self.id.get())
    }

    fn into_any(self, _table: Table) -> AnyRow {
        AnyRow::Booking(self)
    }
}

impl Row for CallerRow {
    ghost use Rattle.desk_base.specs.declared.rows.tables.AnyRow.TheVariants.{Caller};

    ghost any = { λ _ x. Caller x };

    fn key_in(&self, _table: Table) -> Key {
        Key::of_id(Table::Caller, self.caller.get())
    }

    fn into_any(self, _table: Table) -> AnyRow {
        AnyRow::Caller(self)
    }
}
