//! Enters changes: the tables with the change and their index, and the journal with its entry. All memory is taken before anything
//! changes. A change that bears on room is judged on the changed tables, and entered where the standing bookings fit them.
ghost use Rattle.std.specs.Prelude.{◌≡◌, ◌+◌, ◌≤◌, ◌++◌, ◌∷◌, [], map, length, true, IfOk, IfErr, OnOk, OnErr};
ghost use Rattle.desk_base.specs.asked.Acts.{after_act, change_of, made_by, receipt_of};
ghost use Rattle.desk_base.specs.asked.Steps.{bears_on_room, entry_of};
ghost use Rattle.desk_base.specs.changes.Changes.{with_change, without_key};
ghost use Rattle.desk_base.specs.meaning.Load.{Fits, ask_of};
ghost use Rattle.desk_base.specs.rules.Limits.{serial_limit};
ghost use Rattle.desk_base.specs.rules.Sound.{AreWellFormed, IsSound};
ghost use Rattle.desk_load.specs.Differing.{DiffersAt};
ghost use Rattle.desk_load.specs.Index.{IsIndexOf};
ghost use Rattle.desk_core.specs.Effects.{IsPlaced};
ghost use Rattle.desk_core.specs.Entered.{entered_outcome, judged, CanBeEntered, FitIn, IsClashing, IsClashingIn, IsFitting};

use crate::accepting::{Accepted, accept};
use crate::judging::{judge_without, keep_or_take_back};
use crate::view::View;
use desk_base::{
    Act, Call, Change, Entry, Key, NoMemory, Outcome, Receipt, Refusal, Reply, Table, Tables,
};
use desk_load::{LoadIndex, PreparedIndex};
use std::alloc::Global;
use std::mem;
use std::snapshot::Snapshot;

/// Why a change was not entered.
#[derive(Debug, Drop)]
pub(crate) enum NotEntered {
    /// It is refused.
    Refused(Refusal),
    /// Memory was not found.
    NoMemory,
}

/// Rows of the table say when resources have room.
fn bears_on_room(table: Table) -> bool
    ensures { result ≡ bears_on_room table }
{
    match table {
        Table::Zone => true,
        Table::Calendar => true,
        Table::Work => true,
        Table::Break => true,
        Table::Day => true,
        Table::Off => true,
        Table::Resource => true,
        Table::Member => true,
        _ => false,
    }
}

/// The tables with a change and their index, or both as they were for want of memory.
fn applied(tables: Tables, index: PreparedIndex, change: Change) -> (View, Result<(), NotEntered>)
    requires { AreWellFormed tables }
    ensures after { OnOk result.1 (result.0 ≡ record { tables = with_change tables change; index = index.after }) }
    ensures memory { IfErr result.1 (λ e. e ≡ NotEntered.NoMemory) }
    ensures before { OnErr result.1 (result.0 ≡ record { tables = tables; index = index.before }) }
{
    match tables.prepare(change) {
        Ok(prepared) => (
            View {
                tables: prepared.apply(),
                index: index.apply(),
            },
            Ok(()),
        ),
        Err(tables) => (
            View {
                tables,
                index: index.give_back(),
            },
            Err(NotEntered::NoMemory),
        ),
    }
}

/// The tables with a change that puts the row of a key and their index, where the standing bookings fit them, or else both as they
/// were.
fn tried(
    alloc: Global,
    tables: Tables,
    index: PreparedIndex,
    key: &Key,
    change: Change,
) -> (View, Result<(), NotEntered>)
    requires before { IsFitting tables }
    requires no_removes { change.removes ≡ [] }
    requires differs { DiffersAt tables (with_change tables change) key.now }
    requires changed { AreWellFormed (with_change tables change) }
    requires index { IsIndexOf (with_change tables change) index.after }
    ensures after { OnOk result.1 (result.0 ≡ record { tables = with_change tables change; index = index.after }) }
    ensures fits { OnOk result.1 (Fits (with_change tables change) (map ask_of (with_change tables change).bookings)) }
    ensures refused { IfErr result.1 (IsClashing (with_change tables change)) }
    ensures before { OnErr result.1 (result.0 ≡ record { tables = tables; index = index.before }) }
{
    let before = Snapshot::of(&tables);
    match tables.prepare(change) {
        Ok(prepared) => keep_or_take_back(alloc, before, prepared.try_out(), index, key),
        Err(tables) => (
            View {
                tables,
                index: index.give_back(),
            },
            Err(NotEntered::NoMemory),
        ),
    }
}

/// The tables with a change that takes out the row of a key and their index, where the standing bookings fit the tables without the
/// row, or else both as they were.
fn removed(
    alloc: Global,
    tables: Tables,
    index: PreparedIndex,
    key: &Key,
    change: Change,
) -> (View, Result<(), NotEntered>)
    requires before { IsFitting tables }
    requires bears { bears_on_room key.now.table ≡ true }
    requires without { AreWellFormed (without_key tables key.now) }
    requires index { IsIndexOf (without_key tables key.now) index.after }
    ensures after { OnOk result.1 (result.0 ≡ record { tables = with_change tables change; index = index.after }) }
    ensures fits { OnOk result.1 (Fits (without_key tables key.now) (map ask_of (without_key tables key.now).bookings)) }
    ensures refused { IfErr result.1 (IsClashing (without_key tables key.now)) }
    ensures before { OnErr result.1 (result.0 ≡ record { tables = tables; index = index.before }) }
{
    match judge_without(alloc, tables, index.after(), key) {
        (tables, Ok(())) => applied(tables, index, change),
        (tables, Err(why)) => (
            View {
                tables,
                index: index.give_back(),
            },
            Err(why),
        ),
    }
}

/// The tables with the change of an act and their index, or else both as they were.
fn changed(
    alloc: Global,
    tables: Tables,
    index: PreparedIndex,
    act: &Act,
    change: Change,
) -> (View, Result<(), NotEntered>)
    requires can_be_entered { CanBeEntered tables act.now change }
    requires index { IsIndexOf (with_change tables change) index.after }
    ensures after { OnOk result.1 (result.0 ≡ record { tables = with_change tables change; index = index.after }) }
    ensures fits { OnOk result.1 (FitIn (judged tables act.now change)) }
    ensures refused { IfErr result.1 (IsClashingIn (judged tables act.now change)) }
    ensures before { OnErr result.1 (result.0 ≡ record { tables = tables; index = index.before }) }
{
    match act {
        Act::Put(row) => {
            let key = row.key();
            if bears_on_room(key.table) {
                tried(alloc, tables, index, &key, change)
            } else {
                applied(tables, index, change)
            }
        }
        Act::Remove(key) => {
            if bears_on_room(key.table) {
                removed(alloc, tables, index, key, change)
            } else {
                applied(tables, index, change)
            }
        }
        _ => applied(tables, index, change),
    }
}

/// The tables with the change of an act and their index, or else the tables as they were and theirs.
fn followed(
    alloc: Global,
    tables: Tables,
    index: LoadIndex,
    act: &Act,
    change: Change,
) -> (View, Result<(), NotEntered>)
    requires can_be_entered { CanBeEntered tables act.now change }
    requires index { IsIndexOf tables index }
    ensures after { OnOk result.1 (result.0.tables ≡ with_change tables change) }
    ensures index { IsIndexOf result.0.tables result.0.index }
    ensures fits { OnOk result.1 (FitIn (judged tables act.now change)) }
    ensures refused { IfErr result.1 (IsClashingIn (judged tables act.now change)) }
    ensures before { OnErr result.1 (result.0.tables ≡ tables) }
{
    match index.prepare(alloc, &tables, &change) {
        Ok(index) => changed(alloc, tables, index, act, change),
        Err(index) => (View { tables, index }, Err(NotEntered::NoMemory)),
    }
}

/// Sets the view.
fn set(view: &mut View, now: View)
    ensures { view.new ≡ now }
{
    *view = now;
}

/// Makes the view that of the tables with the change of an act, or leaves the tables as they are.
fn change_view(alloc: Global, view: &mut View, act: &Act, change: Change) -> Result<(), NotEntered>
    requires can_be_entered { CanBeEntered view.old.tables act.now change }
    requires index { IsIndexOf view.old.tables view.old.index }
    ensures after { OnOk result (view.new.tables ≡ with_change view.old.tables change) }
    ensures index { IsIndexOf view.new.tables view.new.index }
    ensures fits { OnOk result (FitIn (judged view.old.tables act.now change)) }
    ensures refused { IfErr result (IsClashingIn (judged view.old.tables act.now change)) }
    ensures before { OnErr result (view.new.tables ≡ view.old.tables) }
{
    let View { tables, index } = mem::replace(view, View::none(alloc));
    let (after, outcome) = followed(alloc, tables, index, act, change);
    set(view, after);
    outcome
}

/// Makes the tables those after a change, and adds its entry to the journal, or changes nothing.
pub(crate) fn enter(
    alloc: Global,
    view: &mut View,
    journal: &mut Vec<Entry>,
    pass: u64,
    call: &Call,
    act: &Act,
) -> Result<Receipt, NotEntered>
    requires sound { IsSound view.old.tables }
    requires index { IsIndexOf view.old.tables view.old.index }
    requires can_be_entered { CanBeEntered view.old.tables act.now (change_of view.old.tables call.now act.now) }
    requires placed { IsPlaced view.old.tables act.now }
    requires numbers { view.old.tables.last_booking + length (made_by view.old.tables act.now) ≤ serial_limit }
    ensures receipt { IfOk result (λ receipt. receipt ≡ receipt_of view.old.tables act.now) }
    ensures after { OnOk result (view.new.tables ≡ after_act view.old.tables call.now act.now) }
    ensures index { IsIndexOf view.new.tables view.new.index }
    ensures fits { OnOk result (FitIn (judged view.old.tables act.now (change_of view.old.tables call.now act.now))) }
    ensures entered { OnOk result (journal.new.items ≡ journal.old.items ++ entry_of view.old.tables pass call.now act.now ∷ []) }
    ensures refused { IfErr result (IsClashingIn (judged view.old.tables act.now (change_of view.old.tables call.now act.now))) }
    ensures same_tables { OnErr result (view.new.tables ≡ view.old.tables) }
    ensures same_journal { OnErr result (journal.new.items ≡ journal.old.items) }
{
    let Ok(()) = journal.reserve(1) else {
        return Err(NotEntered::NoMemory);
    };
    let Ok(accepted) = accept(alloc, view, pass, call, act) else {
        return Err(NotEntered::NoMemory);
    };
    let Accepted { change, entry } = accepted;
    let receipt = entry.receipt;
    change_view(alloc, view, act, change)?;
    journal.push_reserved(entry);
    Ok(receipt)
}

/// The outcome of a change.
pub(crate) fn outcome_of(entered: Result<Receipt, NotEntered>) -> Outcome
    ensures { result ≡ entered_outcome entered }
{
    match entered {
        Ok(receipt) => Outcome::Done(Reply::Change(receipt)),
        Err(NotEntered::Refused(why)) => Outcome::Refused(why),
        Err(NotEntered::NoMemory) => Outcome::NoMemory,
    }
}
