//! Whether the standing bookings fit a change of rows that say when resources have room.
ghost use Rattle.std.specs.Prelude.{◌≡◌, true, map, IfErr, OnOk, OnErr};
ghost use Rattle.desk_base.specs.asked.Steps.{bears_on_room};
ghost use Rattle.desk_base.specs.changes.Changes.{without_key};
ghost use Rattle.desk_base.specs.meaning.Load.{Fits, ask_of};
ghost use Rattle.desk_base.specs.rules.Sound.{AreWellFormed};
ghost use Rattle.desk_load.specs.Differing.{DiffersAt};
ghost use Rattle.desk_load.specs.Index.{IsIndexOf};
ghost use Rattle.desk_core.specs.Entered.{IsClashing, IsFitting};

use crate::entering::NotEntered;
use crate::view::View;
use desk_base::{Key, NoMemory, Refusal, Tables, Tried};
use desk_load::{LoadIndex, PreparedIndex, clash_changed};
use std::alloc::Global;
use std::snapshot::Snapshot;

/// Why the standing bookings, which fitted before, do not fit after the row of a key was put or taken out.
fn judge(
    alloc: Global,
    index: &LoadIndex,
    before: Snapshot<Tables>,
    tables: &Tables,
    key: &Key,
) -> Result<(), NotEntered>
    requires formed { AreWellFormed tables.now }
    requires index { IsIndexOf tables.now index.now }
    requires before { IsFitting before.value }
    requires changed { DiffersAt before.value tables.now key.now }
    ensures fits { OnOk result (Fits tables.now (map ask_of tables.now.bookings)) }
    ensures refused { IfErr result (IsClashing tables.now) }
{
    match clash_changed(alloc, index, before, tables, key) {
        Ok(None) => Ok(()),
        Ok(Some(clash)) => Err(NotEntered::Refused(Refusal::Conflict(clash))),
        Err(NoMemory) => Err(NotEntered::NoMemory),
    }
}

/// Keeps a change that is tried out, with its index, or takes it back where the standing bookings clash.
pub(crate) fn keep_or_take_back(
    alloc: Global,
    before: Snapshot<Tables>,
    tried: Tried,
    index: PreparedIndex,
    key: &Key,
) -> (View, Result<(), NotEntered>)
    requires before { IsFitting before.value }
    requires changed { DiffersAt before.value tried.tables key.now }
    requires formed { AreWellFormed tried.tables }
    requires index { IsIndexOf tried.tables index.after }
    ensures after { OnOk result.1 (result.0 ≡ record { tables = tried.tables; index = index.after }) }
    ensures fits { OnOk result.1 (Fits tried.tables (map ask_of tried.tables.bookings)) }
    ensures refused { IfErr result.1 (IsClashing tried.tables) }
    ensures before { OnErr result.1 (result.0 ≡ record { tables = tried.before; index = index.before }) }
{
    match judge(alloc, index.after(), before, tried.tables(), key) {
        Ok(()) => (
            View {
                tables: tried.keep(),
                index: index.apply(),
            },
            Ok(()),
        ),
        Err(why) => (
            View {
                tables: tried.take_back(),
                index: index.give_back(),
            },
            Err(why),
        ),
    }
}

/// Judges the tables without a row, which is put back. Where no memory is found nothing is judged.
pub(crate) fn judge_without(
    alloc: Global,
    tables: Tables,
    index: &LoadIndex,
    key: &Key,
) -> (Tables, Result<(), NotEntered>)
    requires before { IsFitting tables }
    requires bears { bears_on_room key.now.table ≡ true }
    requires formed { AreWellFormed (without_key tables key.now) }
    requires index { IsIndexOf (without_key tables key.now) index.now }
    ensures tables { result.0 ≡ tables }
    ensures fits { OnOk result.1 (Fits (without_key tables key.now) (map ask_of (without_key tables key.now).bookings)) }
    ensures refused { IfErr result.1 (IsClashing (without_key tables key.now)) }
{
    let before = Snapshot::of(&tables);
    match tables.without(alloc, key) {
        Ok(lacking) => {
            let judged = judge(alloc, index, before, lacking.tables(), key);
            (lacking.give_back(), judged)
        }
        Err(tables) => (tables, Err(NotEntered::NoMemory)),
    }
}
