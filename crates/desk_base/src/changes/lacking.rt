//! Tables that lack a row for a while, so that the removal of the row can be judged before anything changes.
ghost use Rattle.std.specs.Prelude.{◌≡◌, true, IfOk, IfErr, OnOk, OnErr};
ghost use Rattle.std.specs.List.Sorted.{IsStrictlySortedBy};
ghost use Rattle.desk_base.specs.asked.Steps.{bears_on_room};
ghost use Rattle.desk_base.specs.changes.Changes.{without_key, without_one};
ghost use Rattle.desk_base.specs.changes.Lacking.{with_list};
ghost use Rattle.desk_base.specs.rows.Keys.{key_cmp};
ghost use Rattle.desk_base.specs.rows.Lookups.{keys_by, KeysRise};
ghost use Rattle.desk_base.specs.rows.Rows.{key_of};

use crate::changes::lookups::take_out;
use crate::rows::calendars::{BreakRow, CalendarRow, DayRow, OffRow, WorkRow, ZoneRow};
use crate::rows::resources::{MemberRow, ResourceRow};
use crate::rows::row::Row;
use crate::rows::tables::{Key, Table, Tables};
use crate::values::copying::{copy_items, copy_plain};
use crate::values::items::Items;
use crate::values::memory::NoMemory;
use std::alloc::Global;
use std::marker::Model;
use std::mem;

/// The rows of one of the tables that say when resources have room.
#[derive(Debug, Drop)]
pub(crate) enum RoomList {
    Zones(Items<ZoneRow>),
    Calendars(Items<CalendarRow>),
    Works(Items<WorkRow>),
    Breaks(Items<BreakRow>),
    Days(Items<DayRow>),
    Offs(Items<OffRow>),
    Resources(Items<ResourceRow>),
    Members(Items<MemberRow>),
}

/// Tables without the row of a key, and with them the list in which it stands.
#[derive(Debug, Drop)]
pub struct Lacking {
    tables: Tables,
    whole: RoomList,
}

impl Model for Lacking {
    ghost use Rattle.desk_base.specs.changes.Lacking.{LackingRow, with_list};

    ghost Value = { LackingRow };

    ghost view = { λ l. record { before = with_list l.tables l.whole; tables = l.tables } };
}

/// Puts a list without the row of a key in the place of a list, which is given back.
fn put_lacking<T: Row>(rows: &mut Items<T>, copy: Items<T>, table: Table, key: &Key) -> Items<T>
    requires copy { copy ≡ rows.old }
    requires rise { IsStrictlySortedBy key_cmp (keys_by (T.any table) rows.old) }
    ensures whole { result ≡ rows.old }
    ensures lacking { rows.new ≡ without_one (λ y. key_of (T.any table y)) key.now rows.old }
{
    let mut fewer = copy.into_vec();
    take_out(&mut fewer, table, key);
    mem::replace(rows, Items::from_vec(fewer))
}

impl Tables {
    /// Takes the row of a key out of a copy of its list, which then stands in the place of the list.
    fn lack(&mut self, alloc: Global, key: &Key) -> Result<RoomList, NoMemory>
        requires rise { KeysRise self.old }
        requires bears { bears_on_room key.now.table ≡ true }
        ensures lacking { OnOk result (self.new ≡ without_key self.old key.now) }
        ensures whole { IfOk result (λ list. with_list self.new list ≡ self.old) }
        ensures unchanged { OnErr result (self.new ≡ self.old) }
    {
        match key.table {
            Table::Zone => {
                let copy = copy_items(alloc, &self.zones)?;
                Ok(RoomList::Zones(put_lacking(&mut self.zones, copy, Table::Zone, key)))
            }
            Table::Calendar => {
                let copy = copy_items(alloc, &self.calendars)?;
                Ok(RoomList::Calendars(put_lacking(
                    &mut self.calendars,
                    copy,
                    Table::Calendar,
                    key,
                )))
            }
            Table::Work => {
                let copy = copy_plain(alloc, &self.works)?;
                Ok(RoomList::Works(put_lacking(&mut self.works, copy, Table::Work, key)))
            }
            Table::Break => {
                let copy = copy_plain(alloc, &self.breaks)?;
                Ok(RoomList::Breaks(put_lacking(&mut self.breaks, copy, Table::Break, key)))
            }
            Table::Day => {
                let copy = copy_plain(alloc, &self.days)?;
                Ok(RoomList::Days(put_lacking(&mut self.days, copy, Table::Day, key)))
            }
            Table::Off => {
                let copy = copy_plain(alloc, &self.offs)?;
                Ok(RoomList::Offs(put_lacking(&mut self.offs, copy, Table::Off, key)))
            }
            Table::Resource => {
                let copy = copy_items(alloc, &self.resources)?;
                Ok(RoomList::Resources(put_lacking(
                    &mut self.resources,
                    copy,
                    Table::Resource,
                    key,
                )))
            }
            Table::Member => {
                let copy = copy_plain(alloc, &self.members)?;
                Ok(RoomList::Members(put_lacking(&mut self.members, copy, Table::Member, key)))
            }
            _ => unreachable!(),
        }
    }

    /// The tables without the row of a key in one of the tables that say when resources have room. They can be given back as they
    /// were. The memory is that of one list.
    pub fn without(self, alloc: Global, key: &Key) -> Result<Lacking, Tables>
        requires rise { KeysRise self }
        requires bears { bears_on_room key.now.table ≡ true }
        ensures before { IfOk result (λ l. l.before ≡ self) }
        ensures tables { IfOk result (λ l. l.tables ≡ without_key self key.now) }
        ensures unchanged { IfErr result (λ t. t ≡ self) }
    {
        let mut tables = self;
        match tables.lack(alloc, key) {
            Ok(whole) => Ok(Lacking { tables, whole }),
            Err(NoMemory) => Err(tables),
        }
    }
}

impl Lacking {
    /// The tables without the row.
    pub fn tables(&self) -> &Tables
        ensures { result.now ≡ self.now.tables }
    {
        &self.tables
    }

    /// The tables with the row again. It takes no memory.
    pub fn give_back(self) -> Tables
        ensures { result ≡ self.before }
    {
        let Lacking { mut tables, whole } = self;
        match whole {
            RoomList::Zones(rows) => tables.zones = rows,
            RoomList::Calendars(rows) => tables.calendars = rows,
            RoomList::Works(rows) => tables.works = rows,
            RoomList::Breaks(rows) => tables.breaks = rows,
            RoomList::Days(rows) => tables.days = rows,
            RoomList::Offs(rows) => tables.offs = rows,
            RoomList::Resources(rows) => tables.resources = rows,
            RoomList::Members(rows) => tables.members = rows,
        }
        tables
    }
}
