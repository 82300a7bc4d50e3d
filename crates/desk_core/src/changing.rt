//! What a change comes to: it is refused for the first reason that applies, or entered.
ghost use Rattle.std.specs.Prelude.{◌≡◌, ◌++◌, ◌∷◌, [], None, IfOk, IfErr, IsSome, OnOk, OnErr, MatchOption};
ghost use Rattle.desk_base.specs.asked.Acts.{after_act, receipt_of};
ghost use Rattle.desk_base.specs.asked.Groups.{group_of};
ghost use Rattle.desk_base.specs.asked.Refusing.{early_refusal};
ghost use Rattle.desk_base.specs.rules.Sound.{IsSound};
ghost use Rattle.desk_base.specs.asked.Steps.{entry_of, IsAccepted, IsLateRefusal, IsPlaceRefusalOf};
ghost use Rattle.desk_base.specs.declared.asked.acts.Call.{Call};
ghost use Rattle.desk_change.specs.Served.{IsServed};
ghost use Rattle.desk_load.specs.Index.{IsIndexOf};
ghost use Rattle.desk_core.specs.Effects.{IsFeasibleOf, IsKnown, IsPlaced};
ghost use Rattle.desk_core.specs.Entered.{FitAfter, IsHindrance, IsLateHindrance};

use crate::entering::{NotEntered, enter};
use crate::view::View;
use desk_base::{Act, Call, Entry, GroupId, Minute, NoMemory, Receipt, Refusal, ResourceId};
use desk_change::early_refusal;
use desk_feasible::place_refusal;
use std::alloc::Global;

/// Why a group that is there cannot be booked so.
fn refused_booking(
    alloc: Global,
    view: &View,
    group: GroupId,
    start: Minute,
    picks: &[Option<ResourceId>],
) -> Result<Option<Refusal>, NoMemory>
    requires sound { IsSound view.now.tables }
    requires index { IsIndexOf view.now.tables view.now.index }
    requires known { IsSome (group_of view.now.tables group) }
    ensures { IfOk result (λ r. MatchOption r (IsFeasibleOf view.now.tables (group_of view.now.tables group) start picks.now) (λ why. IsPlaceRefusalOf view.now.tables (group_of view.now.tables group) start picks.now why)) }
{
    match view.tables.group(group) {
        Some(row) => place_refusal(alloc, &view.index, &view.tables, row, start, picks),
        None => unreachable!(),
    }
}

/// Why a group cannot be booked so, where the act books or moves one.
fn refused_at_place(alloc: Global, view: &View, act: &Act) -> Result<Option<Refusal>, NoMemory>
    requires sound { IsSound view.now.tables }
    requires index { IsIndexOf view.now.tables view.now.index }
    requires known { IsKnown view.now.tables act.now }
    ensures { IfOk result (λ r. MatchOption r (IsPlaced view.now.tables act.now) (λ why. (call : Call) → IsLateRefusal view.now.tables call act.now why)) }
{
    match act {
        Act::BookGroup {
            group,
            start,
            picks,
        } => refused_booking(alloc, view, *group, *start, picks.as_slice()),
        Act::MoveGroup {
            group,
            start,
            picks,
        } => refused_booking(alloc, view, *group, *start, picks.as_slice()),
        _ => Ok(None),
    }
}

/// Enters a served change that the rows alone do not refuse, unless a later refusal applies.
fn judge_and_enter(
    alloc: Global,
    view: &mut View,
    journal: &mut Vec<Entry>,
    pass: u64,
    call: &Call,
    act: &Act,
) -> Result<Receipt, NotEntered>
    requires sound { IsSound view.old.tables }
    requires index { IsIndexOf view.old.tables view.old.index }
    requires served { IsServed act.now }
    requires early { early_refusal view.old.tables journal.old.items call.now act.now ≡ None }
    ensures receipt { IfOk result (λ receipt. receipt ≡ receipt_of view.old.tables act.now) }
    ensures after { OnOk result (view.new.tables ≡ after_act view.old.tables call.now act.now) }
    ensures index { IsIndexOf view.new.tables view.new.index }
    ensures placed { OnOk result (IsPlaced view.old.tables act.now) }
    ensures fits { OnOk result (FitAfter view.old.tables call.now act.now) }
    ensures entered { OnOk result (journal.new.items ≡ journal.old.items ++ entry_of view.old.tables pass call.now act.now ∷ []) }
    ensures refused { IfErr result (IsLateHindrance view.old.tables call.now act.now) }
    ensures same_tables { OnErr result (view.new.tables ≡ view.old.tables) }
    ensures same_journal { OnErr result (journal.new.items ≡ journal.old.items) }
{
    match refused_at_place(alloc, view, act) {
        Ok(None) => enter(alloc, view, journal, pass, call, act),
        Ok(Some(why)) => Err(NotEntered::Refused(why)),
        Err(NoMemory) => Err(NotEntered::NoMemory),
    }
}

/// Carries out a served change, or says why nothing changed: the first refusal that applies, or want of memory.
pub(crate) fn carry_out(
    alloc: Global,
    view: &mut View,
    journal: &mut Vec<Entry>,
    pass: u64,
    call: &Call,
    act: &Act,
) -> Result<Receipt, NotEntered>
    requires sound { IsSound view.old.tables }
    requires index { IsIndexOf view.old.tables view.old.index }
    requires served { IsServed act.now }
    ensures accepted { OnOk result (IsAccepted view.old.tables journal.old.items call.now act.now) }
    ensures receipt { IfOk result (λ receipt. receipt ≡ receipt_of view.old.tables act.now) }
    ensures after { OnOk result (view.new.tables ≡ after_act view.old.tables call.now act.now) }
    ensures index { IsIndexOf view.new.tables view.new.index }
    ensures entered { OnOk result (journal.new.items ≡ journal.old.items ++ entry_of view.old.tables pass call.now act.now ∷ []) }
    ensures sound { IsSound view.new.tables }
    ensures refused { IfErr result (IsHindrance view.old.tables journal.old.items call.now act.now) }
    ensures same_tables { OnErr result (view.new.tables ≡ view.old.tables) }
    ensures same_journal { OnErr result (journal.new.items ≡ journal.old.items) }
{
    match early_refusal(&view.tables, &view.index, journal.as_slice(), call, act) {
        Some(why) => Err(NotEntered::Refused(why)),
        None => judge_and_enter(alloc, view, journal, pass, call, act),
    }
}
