//! Copies of rows of any table, and of changes.
use crate::asked::acts::{Act, Change};
use crate::asked::answers::{Command, Query};
use crate::rows::tables::AnyRow;
use crate::search::results::Cursor;
use crate::values::copying::{Duplicate, copy_items, copy_plain};
use crate::values::memory::NoMemory;
use std::alloc::Global;

impl Duplicate for AnyRow {
    fn copy(&self, alloc: Global) -> Result<AnyRow, NoMemory> {
        Ok(match self {
            AnyRow::Zone(row) => AnyRow::Zone(row.copy(alloc)?),
            AnyRow::Calendar(row) => AnyRow::Calendar(row.copy(alloc)?),
            AnyRow::Work(row) => AnyRow::Work(*row),
            AnyRow::Break(row) => AnyRow::Break(*row),
            AnyRow::Day(row) => AnyRow::Day(*row),
            AnyRow::Off(row) => AnyRow::Off(*row),
            AnyRow::Unit(row) => AnyRow::Unit(row.copy(alloc)?),
            AnyRow::Site(row) => AnyRow::Site(row.copy(alloc)?),
            AnyRow::Role(row) => AnyRow::Role(row.copy(alloc)?),
            AnyRow::Characteristic(row) => AnyRow::Characteristic(row.copy(alloc)?),
            AnyRow::Territory(row) => AnyRow::Territory(row.copy(alloc)?),
            AnyRow::Resource(row) => AnyRow::Resource(row.copy(alloc)?),
            AnyRow::HasRole(row) => AnyRow::HasRole(*row),
            AnyRow::HasCharacteristic(row) => AnyRow::HasCharacteristic(*row),
            AnyRow::HasTerritory(row) => AnyRow::HasTerritory(*row),
            AnyRow::Member(row) => AnyRow::Member(*row),
            AnyRow::Group(row) => AnyRow::Group(row.copy(alloc)?),
            AnyRow::Booking(row) => AnyRow::Booking(*row),
            AnyRow::Caller(row) => AnyRow::Caller(*row),
        })
    }
}

impl Duplicate for Act {
    fn copy(&self, alloc: Global) -> Result<Act, NoMemory> {
        Ok(match self {
            Act::Put(row) => Act::Put(row.copy(alloc)?),
            Act::Remove(key) => Act::Remove(*key),
            Act::PutGroup(group) => Act::PutGroup(group.copy(alloc)?),
            Act::DropGroup(group) => Act::DropGroup(*group),
            Act::BookGroup {
                group,
                start,
                picks,
            } => Act::BookGroup {
                group: *group,
                start: *start,
                picks: copy_plain(alloc, picks)?,
            },
            Act::MoveGroup {
                group,
                start,
                picks,
            } => Act::MoveGroup {
                group: *group,
                start: *start,
                picks: copy_plain(alloc, picks)?,
            },
            Act::CancelGroup(group) => Act::CancelGroup(*group),
        })
    }
}

impl Duplicate for Change {
    fn copy(&self, alloc: Global) -> Result<Change, NoMemory> {
        Ok(Change {
            puts: copy_items(alloc, &self.puts)?,
            removes: copy_plain(alloc, &self.removes)?,
            revision: self.revision,
            last_booking: self.last_booking,
        })
    }
}

impl Duplicate for Cursor {
    fn copy(&self, alloc: Global) -> Result<Cursor, NoMemory> {
        Ok(Cursor {
            revision: self.revision,
            shown: self.shown,
            position: self.position.copy(alloc)?,
        })
    }
}

impl Duplicate for Query {
    fn copy(&self, alloc: Global) -> Result<Query, NoMemory> {
        Ok(match self {
            Query::Rows {
                group,
                options,
                after,
                latest,
                limit,
            } => Query::Rows {
                group: *group,
                options: *options,
                after: match after {
                    Some(cursor) => Some(cursor.copy(alloc)?),
                    None => None,
                },
                latest: *latest,
                limit: *limit,
            },
            Query::Journal { from } => Query::Journal { from: *from },
            Query::Revision => Query::Revision,
        })
    }
}

impl Duplicate for Command {
    fn copy(&self, alloc: Global) -> Result<Command, NoMemory> {
        Ok(match self {
            Command::Change(call, act) => Command::Change(*call, act.copy(alloc)?),
            Command::Ask(query) => Command::Ask(query.copy(alloc)?),
        })
    }
}
