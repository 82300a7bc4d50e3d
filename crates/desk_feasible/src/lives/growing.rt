//! Whether picks go on with one more.
ghost use Rattle.std.specs.Prelude.{◌≡◌, ◌++◌, ◌∷◌, [], ◌+◌, ◌≤◌, ◌<◌, ◌↔◌, ⊤, length, slice_get, Some, None, IsTrue, IfOk, IfSome, MatchOption};
ghost use Rattle.desk_base.specs.meaning.Eligible.{first_broken_rule, is_in_windows};
ghost use Rattle.desk_base.specs.meaning.Load.{Fits};
ghost use Rattle.desk_base.specs.meaning.Picks.{pattern_of, first_broken_same};
ghost use Rattle.desk_base.specs.meaning.Trees.{tree_of};
ghost use Rattle.desk_base.specs.search.Listing.{BeginsPattern};
ghost use Rattle.desk_feasible.specs.Live.{IsReady, IsPlaced, HasLaid, steps_of};
ghost use Rattle.desk_load.specs.Views.{standing};

use crate::asks::ask_for;
use crate::fitting::in_horizon;
use desk_base::{Ask, Leaf, Minute, NoMemory, ResourceId, Steps};
use desk_load::laws::{fitting_bookings_are_free, free_bookings_fit};
use desk_load::{FreeView, Probe};
use desk_need::{Case, is_in_windows};
use std::alloc::{AllocError, Global};
use std::sync::ledger::Ledger;

/// The picks with one more.
fn with_pick(
    alloc: Global,
    picks: &[Option<ResourceId>],
    pick: Option<ResourceId>,
) -> Result<Vec<Option<ResourceId>>, AllocError>
    ensures { IfOk result (λ v. v.items ≡ picks.now ++ pick ∷ []) }
{
    let mut longer = Vec::from_slice(alloc, picks)?;
    longer.push(pick)?;
    Ok(longer)
}

/// Whether picks with one more, or with a leaf more that is left out, begin a pattern of the case's tree.
pub(crate) fn goes_on(case: &Case<'_>, picks: &[Option<ResourceId>], is_pick: bool) -> bool
    ensures { IsTrue result ↔ BeginsPattern (tree_of case.now.group.nodes) (pattern_of picks.now ++ is_pick ∷ []) }
{
    case.tree().goes_on(picks, is_pick)
}

/// The leaf of this number.
pub(crate) fn leaf_at<'a>(case: &Case<'a>, number: usize) -> &'a Leaf
    requires { number < length case.now.group.leaves }
    ensures { slice_get case.now.group.leaves number ≡ Some result.now }
{
    &case.group().leaves.as_slice()[number]
}

/// Whether the leaf lies inside its windows from a start on.
fn lies_inside(case: &Case<'_>, leaf: &Leaf, start: Minute) -> bool
    ensures { result ≡ is_in_windows case.now.group leaf.now start }
{
    is_in_windows(case.group(), leaf, start.get())
}

/// Whether each part-of-same is kept with one more pick.
fn keep_same(
    alloc: Global,
    case: &Case<'_>,
    start: Minute,
    picks: &[Option<ResourceId>],
    pick: Option<ResourceId>,
) -> Result<bool, NoMemory>
    ensures { IfOk result (λ kept. IsTrue kept ↔ first_broken_same case.now.tables start case.now.group.nodes case.now.group.leaves (picks.now ++ pick ∷ []) ≡ None) }
{
    let longer = with_pick(alloc, picks, pick)?;
    match case.same_ok(start, longer.as_slice()) {
        Ok(()) => Ok(true),
        Err(_) => Ok(false),
    }
}

/// Whether what stands in the view, which fits, fits with one booking more. One step.
fn has_room<L: Ledger>(view: &FreeView<'_>, ask: &Ask, steps: &mut Steps<L>) -> bool
    requires { Fits view.now.tables (standing view.now) }
    ensures room { IsTrue result ↔ Fits view.now.tables (standing view.now ++ ask.now ∷ []) }
    ensures step { steps.new ≡ steps.old + 1 }
{
    free_bookings_fit();
    fitting_bookings_are_free();
    in_horizon(ask);
    match view.probe(ask, steps) {
        Probe::Free => true,
        Probe::Short { .. } => false,
    }
}

/// Whether picks are placed with one more resource, which breaks no rule of the next leaf but for its windows.
fn can_pick<L: Ledger>(
    alloc: Global,
    view: &FreeView<'_>,
    case: &Case<'_>,
    leaf: &Leaf,
    start: Minute,
    picks: &[Option<ResourceId>],
    id: ResourceId,
    steps: &mut Steps<L>,
) -> Result<bool, NoMemory>
    requires ready { IsReady case.now }
    requires laid { HasLaid case.now view.now start picks.now }
    requires placed { IsPlaced case.now.tables case.now.group start picks.now }
    requires leaf { slice_get case.now.group.leaves (length picks.now) ≡ Some leaf.now }
    requires serves { first_broken_rule case.now.tables leaf.now id ≡ None }
    ensures placed { IfOk result (λ can. IsTrue can ↔ IsPlaced case.now.tables case.now.group start (picks.now ++ Some id ∷ [])) }
    ensures steps { steps.new ≤ steps.old + 1 }
{
    if !goes_on(case, picks, true) {
        return Ok(false);
    }
    if !lies_inside(case, leaf, start) {
        return Ok(false);
    }
    let kept = keep_same(alloc, case, start, picks, Some(id))?;
    if !kept {
        return Ok(false);
    }
    // Read so that its range is known: the leaf does not end after it.
    let _end = case.group().to.get();
    let can = has_room(view, &ask_for(start, leaf, id), steps);
    Ok(can)
}

/// Whether picks that are placed and laid on the view are placed with one more: a resource that breaks no rule of the next leaf
/// but for its windows, or `None`, where the leaf is left out. One step at most, and none for a leaf that is left out.
pub fn extends<L: Ledger>(
    alloc: Global,
    view: &FreeView<'_>,
    case: &Case<'_>,
    start: Minute,
    picks: &[Option<ResourceId>],
    pick: &Option<ResourceId>,
    steps: &mut Steps<L>,
) -> Result<bool, NoMemory>
    requires ready { IsReady case.now }
    requires laid { HasLaid case.now view.now start picks.now }
    requires placed { IsPlaced case.now.tables case.now.group start picks.now }
    requires more { length picks.now < length case.now.group.leaves }
    requires serves { MatchOption pick.now ⊤ (λ id. IfSome (slice_get case.now.group.leaves (length picks.now)) (λ leaf. first_broken_rule case.now.tables leaf id ≡ None)) }
    ensures placed { IfOk result (λ can. IsTrue can ↔ IsPlaced case.now.tables case.now.group start (picks.now ++ pick.now ∷ [])) }
    ensures steps { steps.new ≤ steps.old + steps_of pick.now }
{
    match pick {
        None => Ok(goes_on(case, picks, false)),
        Some(id) => {
            let leaf = leaf_at(case, picks.len());
            let can = can_pick(alloc, view, case, leaf, start, picks, *id, steps)?;
            Ok(can)
        }
    }
}
