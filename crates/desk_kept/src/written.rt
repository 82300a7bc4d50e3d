//! Rows of each kind as rows of any table.
use desk_base::{
    AnyRow, BookingRow, BreakRow, CalendarRow, CallerRow, DayRow, Duplicate, GroupRow, HasRow,
    MemberRow, NamedRow, NoMemory, OffRow, ResourceRow, Table, WorkRow, ZoneRow,
};
use std::alloc::Global;

/// A row of which a copy can be made as one of a table.
pub trait Written: Drop {
    ghost use Rattle.std.specs.Prelude.{◌≡◌, IfOk};
    ghost use Rattle.desk_base.specs.declared.rows.tables.Table.{Table};
    ghost use Rattle.desk_base.specs.declared.rows.tables.AnyRow.{AnyRow};

    /// The row as one of a table. Where the table holds no rows of this kind, it is one of the first table that does.
    ghost any: { Table → Self → AnyRow };

    /// A copy of the row, as one of the table.
    fn copy_in(&self, alloc: Global, table: Table) -> Result<AnyRow, NoMemory>
        ensures { IfOk result (λ row. row ≡ any table self.now) };
}

impl Written for ZoneRow {
    ghost use Rattle.desk_base.specs.declared.rows.tables.AnyRow.TheVariants.{Zone};

    ghost any = { λ _ x. Zone x };

    fn copy_in(&self, alloc: Global, _table: Table) -> Result<AnyRow, NoMemory> {
        Ok(AnyRow::Zone(self.copy(alloc)?))
    }
}

impl Written for CalendarRow {
    ghost use Rattle.desk_base.specs.declared.rows.tables.AnyRow.TheVariants.{Calendar};

    ghost any = { λ _ x. Calendar x };

    fn copy_in(&self, alloc: Global, _table: Table) -> Result<AnyRow, NoMemory> {
        Ok(AnyRow::Calendar(self.copy(alloc)?))
    }
}

impl Written for WorkRow {
    ghost use Rattle.desk_base.specs.declared.rows.tables.AnyRow.TheVariants.{Work};

    ghost any = { λ _ x. Work x };

    fn copy_in(&self, _alloc: Global, _table: Table) -> Result<AnyRow, NoMemory> {
        Ok(AnyRow::Work(*self))
    }
}

impl Written for BreakRow {
    ghost use Rattle.desk_base.specs.declared.rows.tables.AnyRow.TheVariants.{Break};

    ghost any = { λ _ x. Break x };

    fn copy_in(&self, _alloc: Global, _table: Table) -> Result<AnyRow, NoMemory> {
        Ok(AnyRow::Break(*self))
    }
}

impl Written for DayRow {
    ghost use Rattle.desk_base.specs.declared.rows.tables.AnyRow.TheVariants.{Day};

    ghost any = { λ _ x. Day x };

    fn copy_in(&self, _alloc: Global, _table: Table) -> Result<AnyRow, NoMemory> {
        Ok(AnyRow::Day(*self))
    }
}

impl Written for OffRow {
    ghost use Rattle.desk_base.specs.declared.rows.tables.AnyRow.TheVariants.{Off};

    ghost any = { λ _ x. Off x };

    fn copy_in(&self, _alloc: Global, _table: Table) -> Result<AnyRow, NoMemory> {
        Ok(AnyRow::Off(*self))
    }
}

impl Written for NamedRow {
    ghost use Rattle.desk_base.specs.rows.Lookups.{named_in};

    ghost any = { named_in };

    fn copy_in(&self, alloc: Global, table: Table) -> Result<AnyRow, NoMemory> {
        let row = self.copy(alloc)?;
        match table {
            Table::Site => Ok(AnyRow::Site(row)),
            Table::Role => Ok(AnyRow::Role(row)),
            Table::Characteristic => Ok(AnyRow::Characteristic(row)),
            Table::Territory => Ok(AnyRow::Territory(row)),
            _ => Ok(AnyRow::Unit(row)),
        }
    }
}

impl Written for ResourceRow {
    ghost use Rattle.desk_base.specs.declared.rows.tables.AnyRow.TheVariants.{Resource};

    ghost any = { λ _ x. Resource x };

    fn copy_in(&self, alloc: Global, _table: Table) -> Result<AnyRow, NoMemory> {
        Ok(AnyRow::Resource(self.copy(alloc)?))
    }
}

impl Written for HasRow {
    ghost use Rattle.desk_base.specs.rows.Lookups.{has_in};

    ghost any = { has_in };

    fn copy_in(&self, _alloc: Global, table: Table) -> Result<AnyRow, NoMemory> {
        match table {
            Table::HasCharacteristic => Ok(AnyRow::HasCharacteristic(*self)),
            Table::HasTerritory => Ok(AnyRow::HasTerritory(*self)),
            _ => Ok(AnyRow::HasRole(*self)),
        }
    }
}

impl Written for MemberRow {
    ghost use Rattle.desk_base.specs.declared.rows.tables.AnyRow.TheVariants.{Member};

    ghost any = { λ _ x. Member x };

    fn copy_in(&self, _alloc: Global, _table: Table) -> Result<AnyRow, NoMemory> {
        Ok(AnyRow::Member(*self))
    }
}

impl Written for GroupRow {
    ghost use Rattle.desk_base.specs.declared.rows.tables.AnyRow.TheVariants.{Group};

    ghost any = { λ _ x. Group x };

    fn copy_in(&self, alloc: Global, _table: Table) -> Result<AnyRow, NoMemory> {
        Ok(AnyRow::Group(self.copy(alloc)?))
    }
}

impl Written for BookingRow {
    ghost use Rattle.desk_base.specs.declared.rows.tables.AnyRow.TheVariants.{Booking};

    ghost any = { λ _ x. Booking x };

    fn copy_in(&self, _alloc: Global, _table: Table) -> Result<AnyRow, NoMemory> {
        Ok(AnyRow::Booking(*self))
    }
}

impl Written for CallerRow {
    ghost use Rattle.desk_base.specs.declared.rows.tables.AnyRow.TheVariants.{Caller};

    ghost any = { λ _ x. Caller x };

    fn copy_in(&self, _alloc: Global, _table: Table) -> Result<AnyRow, NoMemory> {
        Ok(AnyRow::Caller(*self))
    }
}
