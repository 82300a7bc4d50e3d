//! Why a row cannot be taken out: another names it. That of the least key is answered.
ghost use Rattle.std.specs.Prelude.{◌≡◌, true};
ghost use Rattle.desk_base.specs.asked.Refusing.{refused_removal};
ghost use Rattle.desk_base.specs.rules.Sound.{IsSound};
ghost use Rattle.desk_base.specs.declared.asked.acts.Act.TheVariants.{Remove};
ghost use Rattle.desk_change.specs.Citing.{citers, citing_among, citing_in, citing_row};
ghost use Rattle.desk_change.specs.Served.{IsServed, is_master};
ghost use Rattle.desk_load.specs.Index.{IsIndexOf};

use crate::in_use::lists::{
    citing_booking, citing_break, citing_calendar, citing_characteristic, citing_day, citing_group,
    citing_member, citing_off, citing_resource, citing_role, citing_territory, citing_work,
};
use desk_base::{Act, Key, Refusal, Table, Tables};
use desk_load::LoadIndex;

mod cites;
mod lists;
mod ranges;

/// The first row of a table that names the key.
fn citing_in(tables: &Tables, index: &LoadIndex, key: &Key, table: Table) -> Option<Key>
    requires sound { IsSound tables.now }
    requires index { IsIndexOf tables.now index.now }
    requires master { is_master key.now.table ≡ true }
    ensures { result ≡ citing_in tables.now key.now table }
{
    match table {
        Table::Calendar => citing_calendar(tables, key),
        Table::Work => citing_work(tables, key),
        Table::Break => citing_break(tables, key),
        Table::Day => citing_day(tables, key),
        Table::Off => citing_off(tables, key),
        Table::Resource => citing_resource(tables, key),
        Table::HasRole => citing_role(tables, key),
        Table::HasCharacteristic => citing_characteristic(tables, key),
        Table::HasTerritory => citing_territory(tables, key),
        Table::Member => citing_member(tables, index, key),
        Table::Group => citing_group(tables, key),
        Table::Booking => citing_booking(tables, index, key),
        Table::Zone => None,
        Table::Unit => None,
        Table::Site => None,
        Table::Role => None,
        Table::Characteristic => None,
        Table::Territory => None,
        Table::Caller => None,
        Table::BookingNumbers => None,
    }
}

/// The first row of these tables that names the key.
fn citing_among(tables: &Tables, index: &LoadIndex, key: &Key, all: &[Table]) -> Option<Key>
    requires sound { IsSound tables.now }
    requires index { IsIndexOf tables.now index.now }
    requires master { is_master key.now.table ≡ true }
    ensures { result ≡ citing_among tables.now key.now all.now }
{
    match all {
        [] => None,
        [table, others @ ..] => match citing_in(tables, index, key, *table) {
            Some(by) => Some(by),
            None => citing_among(tables, index, key, others),
        },
    }
}

/// The first row that names the key in the tables whose rows may name rows of its table.
fn citing_among_citers(tables: &Tables, index: &LoadIndex, key: &Key) -> Option<Key>
    requires sound { IsSound tables.now }
    requires index { IsIndexOf tables.now index.now }
    requires master { is_master key.now.table ≡ true }
    ensures { result ≡ citing_among tables.now key.now (citers key.now.table) }
{
    match key.table {
        Table::Zone => citing_among(tables, index, key, &[Table::Calendar]),
        Table::Calendar => citing_among(
            tables,
            index,
            key,
            &[Table::Work, Table::Break, Table::Day, Table::Resource],
        ),
        Table::Unit => citing_among(tables, index, key, &[Table::Resource, Table::Group]),
        Table::Site => citing_among(tables, index, key, &[Table::Resource]),
        Table::Role => citing_among(tables, index, key, &[Table::HasRole, Table::Group]),
        Table::Characteristic => citing_among(
            tables,
            index,
            key,
            &[Table::HasCharacteristic, Table::Group],
        ),
        Table::Territory => citing_among(tables, index, key, &[Table::HasTerritory, Table::Group]),
        Table::Resource => citing_among(
            tables,
            index,
            key,
            &[
                Table::Off,
                Table::HasRole,
                Table::HasCharacteristic,
                Table::HasTerritory,
                Table::Member,
                Table::Group,
                Table::Booking,
            ],
        ),
        Table::Work => None,
        Table::Break => None,
        Table::Day => None,
        Table::Off => None,
        Table::HasRole => None,
        Table::HasCharacteristic => None,
        Table::HasTerritory => None,
        Table::Member => None,
        Table::Group => None,
        Table::Booking => None,
        Table::Caller => None,
        Table::BookingNumbers => None,
    }
}

/// The row of the least key that names this one. Only tables whose rows may name a row of its table are looked at.
fn citing_row(tables: &Tables, index: &LoadIndex, key: &Key) -> Option<Key>
    requires sound { IsSound tables.now }
    requires index { IsIndexOf tables.now index.now }
    requires master { is_master key.now.table ≡ true }
    ensures { result ≡ citing_row tables.now key.now }
{
    citing_among_citers(tables, index, key)
}

/// Why the row of this key cannot be taken out.
fn refused_key(tables: &Tables, index: &LoadIndex, key: &Key) -> Option<Refusal>
    requires sound { IsSound tables.now }
    requires index { IsIndexOf tables.now index.now }
    requires master { is_master key.now.table ≡ true }
    ensures { result ≡ refused_removal tables.now (Remove key.now) }
{
    match citing_row(tables, index, key) {
        Some(by) => Some(Refusal::InUse(*key, by)),
        None => None,
    }
}

/// Why the row that the act takes out cannot be: the row of the least key that names it.
pub(crate) fn refused_removal(tables: &Tables, index: &LoadIndex, act: &Act) -> Option<Refusal>
    requires sound { IsSound tables.now }
    requires index { IsIndexOf tables.now index.now }
    requires served { IsServed act.now }
    ensures { result ≡ refused_removal tables.now act.now }
{
    match act {
        Act::Remove(key) => refused_key(tables, index, key),
        Act::Put(_) => None,
        Act::PutGroup(_) => None,
        Act::DropGroup(_) => None,
        Act::BookGroup { .. } => None,
        Act::MoveGroup { .. } => None,
        Act::CancelGroup(_) => None,
    }
}
