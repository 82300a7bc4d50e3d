//! Where a search begins: at the longest live beginning of the position that it goes on after, and on to the first live position.
ghost use Rattle.std.specs.Prelude.{◌≡◌, ◌≤◌, ◌+◌, ◌*◌, ◌++◌, ◌∷◌, [], ◌↔◌, IsTrue, length, Some, None, IfOk, option_copied};
ghost use Rattle.std.specs.List.{list_any};
ghost use Rattle.desk_pruned.specs.Ways.{IsSound, IsLiveAt};
ghost use Rattle.desk_base.specs.search.Positions.{position_at};
ghost use Rattle.desk_pruned.specs.Cuts.{Cut, after, cut_at, LeaveTheSame};
ghost use Rattle.desk_pruned.specs.Costs.{beside};
ghost use Rattle.desk_pruned.specs.Starts.{is_same, AreRoots, unasked};
ghost use Rattle.desk_pruned.specs.Trails.{IsOn, HasTried, Reaches, HasGone, cut_after};

use crate::explored::Explored;
use crate::roots::{Root, is_same};
use crate::trail::{Trail, next_position, push};
use desk_base::{Minute, NoMemory, Position, ResourceId, Steps};
use std::sync::ledger::Ledger;

fn offers(choices: &[Option<ResourceId>], pick: &Option<ResourceId>) -> bool
    ensures { result ≡ list_any (λ choice. is_same choice pick.now) choices.now }
{
    choices.iter().any(|choice| is_same(choice, pick))
}

fn is_at(first: &Option<Minute>, start: Minute) -> bool
    ensures { IsTrue result ↔ (first.now ≡ Some start) }
{
    match first {
        Some(first) => first.get() == start.get(),
        None => false,
    }
}

/// Lays one more pick, if the picks are live with it.
fn try_push<S: Explored<V, L>, V, L: Ledger>(
    space: &S,
    view: &mut V,
    trail: &mut Trail,
    pick: &Option<ResourceId>,
    steps: &mut Steps<L>,
) -> Result<bool, NoMemory>
    requires sound { IsSound (S.ways space.now) }
    requires held { S.holds space.now view.old trail.old.start trail.old.picks.items }
    requires live { IsLiveAt (S.ways space.now) trail.old.start trail.old.picks.items }
    ensures held { S.holds space.now view.new trail.new.start trail.new.picks.items }
    ensures start { trail.new.start ≡ trail.old.start }
    ensures tried { IfOk result (λ done. HasTried (S.ways space.now) trail.old.start trail.old.picks.items pick.now done trail.new.picks.items) }
    ensures steps { IfOk result (λ _. steps.new ≤ steps.old + 1) }
{
    if !offers(space.choices(trail.picks.len()), pick) {
        return Ok(false);
    }
    if !space.can_push(view, trail.start, trail.picks.as_slice(), pick, steps)? {
        return Ok(false);
    }
    push(space, view, trail, pick)?;
    Ok(true)
}

/// Lays the picks of the rest, as long as they are live, and gives the first that is not.
fn descend<S: Explored<V, L>, V, L: Ledger>(
    space: &S,
    view: &mut V,
    trail: &mut Trail,
    rest: &[Option<ResourceId>],
    steps: &mut Steps<L>,
) -> Result<Option<Option<ResourceId>>, NoMemory>
    requires sound { IsSound (S.ways space.now) }
    requires held { S.holds space.now view.old trail.old.start trail.old.picks.items }
    requires live { IsLiveAt (S.ways space.now) trail.old.start trail.old.picks.items }
    ensures held { S.holds space.now view.new trail.new.start trail.new.picks.items }
    ensures start { trail.new.start ≡ trail.old.start }
    ensures place { IfOk result (λ next. Reaches (S.ways space.now) trail.old.start (trail.old.picks.items ++ rest.now) next trail.new.picks.items) }
    ensures more { IfOk result (λ _. (done : _) × (trail.new.picks.items ≡ trail.old.picks.items ++ done)) }
    ensures live { IfOk result (λ _. IsLiveAt (S.ways space.now) trail.old.start trail.new.picks.items) }
    ensures steps { IfOk result (λ _. steps.new + length trail.old.picks.items ≤ steps.old + length trail.new.picks.items + 1) }
{
    for pick in rest {
        if !try_push(space, view, trail, pick, steps)? {
            return Ok(Some(*pick));
        }
    }
    Ok(None)
}

/// Lays the first pick, if it is live at the trail's start.
fn try_root<S: Explored<V, L>, V, L: Ledger>(
    space: &S,
    view: &mut V,
    trail: &mut Trail,
    pick: &Option<ResourceId>,
    steps: &mut Steps<L>,
) -> Result<bool, NoMemory>
    requires sound { IsSound (S.ways space.now) }
    requires held { S.holds space.now view.old trail.old.start trail.old.picks.items }
    requires nothing { trail.old.picks.items ≡ [] }
    ensures held { S.holds space.now view.new trail.new.start trail.new.picks.items }
    ensures start { trail.new.start ≡ trail.old.start }
    ensures tried { IfOk result (λ done. HasTried (S.ways space.now) trail.old.start [] pick.now done trail.new.picks.items) }
    ensures steps { IfOk result (λ _. steps.new ≤ steps.old + 1) }
{
    if !offers(space.choices(0), pick) {
        return Ok(false);
    }
    let first = space.first_start(view, pick, trail.start.get(), steps)?;
    if !is_at(&first, trail.start) {
        return Ok(false);
    }
    push(space, view, trail, pick)?;
    Ok(true)
}

fn begin_at<S: Explored<V, L>, V, L: Ledger>(
    space: &S,
    view: &mut V,
    trail: &mut Trail,
    picks: &[Option<ResourceId>],
    steps: &mut Steps<L>,
) -> Result<Option<Option<ResourceId>>, NoMemory>
    requires sound { IsSound (S.ways space.now) }
    requires held { S.holds space.now view.old trail.old.start trail.old.picks.items }
    requires nothing { trail.old.picks.items ≡ [] }
    ensures held { S.holds space.now view.new trail.new.start trail.new.picks.items }
    ensures same { IfOk result (λ tried. LeaveTheSame (S.ways space.now) (after (position_at trail.old.start picks.now)) (cut_at trail.new.start trail.new.picks.items tried)) }
    ensures on { IfOk result (λ _. IsOn (S.ways space.now) trail.new.start trail.new.picks.items) }
    ensures steps { IfOk result (λ _. steps.new ≤ steps.old + length trail.new.picks.items + 1) }
{
    match picks {
        [] => Ok(None),
        [first, rest @ ..] => {
            if !try_root(space, view, trail, first, steps)? {
                return Ok(Some(*first));
            }
            let next = descend(space, view, trail, rest, steps)?;
            Ok(next)
        }
    }
}

/// Stands the trail on the longest live beginning of a position, and gives the pick that comes after it there. Where no position
/// is given, the trail has the earliest start and no pick.
pub fn begin<S: Explored<V, L>, V, L: Ledger>(
    space: &S,
    view: &mut V,
    trail: &mut Trail,
    after: Option<&Position>,
    steps: &mut Steps<L>,
) -> Result<Option<Option<ResourceId>>, NoMemory>
    requires sound { IsSound (S.ways space.now) }
    requires held { S.holds space.now view.old trail.old.start trail.old.picks.items }
    requires nothing { trail.old.picks.items ≡ [] }
    ensures held { S.holds space.now view.new trail.new.start trail.new.picks.items }
    ensures same { IfOk result (λ tried. LeaveTheSame (S.ways space.now) (cut_after (option_copied after.entry)) (cut_at trail.new.start trail.new.picks.items tried)) }
    ensures on { IfOk result (λ _. IsOn (S.ways space.now) trail.new.start trail.new.picks.items) }
    ensures steps { IfOk result (λ _. steps.new ≤ steps.old + length trail.new.picks.items + 1) }
{
    match after {
        Some(after) => {
            trail.start = after.start;
            let tried = begin_at(space, view, trail, after.picks.as_slice(), steps)?;
            Ok(tried)
        }
        None => {
            trail.start = space.earliest();
            Ok(None)
        }
    }
}

/// Goes on to the first live position after one.
pub fn first_position<S: Explored<V, L>, V, L: Ledger>(
    space: &S,
    view: &mut V,
    trail: &mut Trail,
    roots: &mut Vec<Root>,
    after: Option<&Position>,
    steps: &mut Steps<L>,
) -> Result<bool, NoMemory>
    requires sound { IsSound (S.ways space.now) }
    requires held { S.holds space.now view.old trail.old.start trail.old.picks.items }
    requires nothing { trail.old.picks.items ≡ [] }
    requires roots { (c : Cut) → AreRoots (S.ways space.now) c roots.old.items }
    requires few { unasked roots.old.items ≤ (S.ways space.now).resources }
    ensures held { S.holds space.now view.new trail.new.start trail.new.picks.items }
    ensures gone { IfOk result (λ found. HasGone (S.ways space.now) (cut_after (option_copied after.entry)) found trail.new.start trail.new.picks.items roots.new.items) }
    ensures steps { IfOk result (λ _. steps.new + beside (S.ways space.now) trail.new.picks.items + unasked roots.new.items ≤ steps.old + ((S.ways space.now).leaves + 2) * ((S.ways space.now).resources + 1)) }
{
    let tried = begin(space, view, trail, after, steps)?;
    let found = next_position(space, view, trail, roots, tried, steps)?;
    Ok(found)
}
