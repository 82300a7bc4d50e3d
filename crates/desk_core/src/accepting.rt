//! What an accepted change is kept as: its rows with that of the caller, and its entry in the journal.
ghost use Rattle.std.specs.Prelude.{◌≡◌, ◌+◌, ◌≤◌, ◌++◌, ◌∷◌, [], length, IfOk};
ghost use Rattle.desk_base.specs.asked.Acts.{change_of, made_by};
ghost use Rattle.desk_base.specs.rules.Limits.{serial_limit};
ghost use Rattle.desk_base.specs.rules.Sound.{IsSound};
ghost use Rattle.desk_base.specs.asked.Steps.{entry_of};
ghost use Rattle.desk_base.specs.declared.rows.tables.AnyRow.TheVariants.{Caller};
ghost use Rattle.desk_load.specs.Index.{IsIndexOf};
ghost use Rattle.desk_core.specs.Effects.{IsPlaced};

use crate::effects::{Effect, effect_of};
use crate::view::View;
use desk_base::{
    Act, AnyRow, Call, CallerRow, Change, Duplicate, Entry, NoMemory, Receipt, Tables,
};
use std::alloc::Global;

/// An accepted change: the rows that it comes to, and its entry in the journal.
#[derive(Drop)]
pub(crate) struct Accepted {
    pub(crate) change: Change,
    pub(crate) entry: Entry,
}

/// The rows of an act with that of the caller, and the counters after it.
fn change_of(tables: &Tables, call: &Call, effect: Effect) -> Result<Change, NoMemory>
    requires sound { IsSound tables.now }
    requires numbers { tables.now.last_booking + effect.made ≤ serial_limit }
    ensures { IfOk result (λ change. change ≡ record { puts = effect.puts ++ Caller (record { caller = call.now.caller; last = call.now.number; receipt = effect.receipt }) ∷ []; removes = effect.removes; revision = tables.now.revision + 1; last_booking = tables.now.last_booking + effect.made }) }
{
    let Effect {
        mut puts,
        removes,
        made,
        receipt,
    } = effect;
    puts.push(AnyRow::Caller(CallerRow {
        caller: call.caller,
        last: call.number,
        receipt,
    }))?;
    Ok(Change {
        puts,
        removes,
        revision: tables.revision + 1,
        last_booking: tables.last_booking + made,
    })
}

/// The entry of an act that gives the receipt.
fn entry_of(
    alloc: Global,
    tables: &Tables,
    pass: u64,
    call: &Call,
    act: &Act,
    receipt: Receipt,
) -> Result<Entry, NoMemory>
    requires { IsSound tables.now }
    ensures { IfOk result (λ entry. entry ≡ record { revision = tables.now.revision + 1; pass = pass; call = call.now; act = act.now; receipt = receipt }) }
{
    Ok(Entry {
        revision: tables.revision + 1,
        pass,
        call: *call,
        act: act.copy(alloc)?,
        receipt,
    })
}

/// What a change comes to that nothing refuses.
pub(crate) fn accept(
    alloc: Global,
    view: &View,
    pass: u64,
    call: &Call,
    act: &Act,
) -> Result<Accepted, NoMemory>
    requires sound { IsSound view.now.tables }
    requires index { IsIndexOf view.now.tables view.now.index }
    requires placed { IsPlaced view.now.tables act.now }
    requires numbers { view.now.tables.last_booking + length (made_by view.now.tables act.now) ≤ serial_limit }
    ensures { IfOk result (λ a. a ≡ record { change = change_of view.now.tables call.now act.now; entry = entry_of view.now.tables pass call.now act.now }) }
{
    let effect = effect_of(alloc, &view.tables, &view.index, act)?;
    let entry = entry_of(alloc, &view.tables, pass, call, act, effect.receipt)?;
    let change = change_of(&view.tables, call, effect)?;
    Ok(Accepted { change, entry })
}
