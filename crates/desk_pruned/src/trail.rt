//! Where a search stands, and how it goes on.
ghost use Rattle.std.specs.Prelude.{◌≡◌, ◌≤◌, ◌+◌, ◌++◌, ◌∷◌, [], Some, None, IfOk, OnOk, MatchOption};
ghost use Rattle.desk_pruned.specs.Ways.{IsSound, IsLiveAt};
ghost use Rattle.desk_pruned.specs.Cuts.{cut_at};
ghost use Rattle.desk_pruned.specs.Costs.{beside, left_at};
ghost use Rattle.desk_pruned.specs.Starts.{AreRoots, unasked};
ghost use Rattle.desk_pruned.specs.Trails.{IsOn, IsClimbed, HasGone, root_tried, root_cut};

use crate::children::next_pick;
use crate::explored::Explored;
use crate::roots::Root;
use crate::starts::next_root;
use desk_base::{Minute, NoMemory, ResourceId, Steps};
use std::alloc::AllocError;
use std::sync::ledger::Ledger;

/// A start and the picks so far, which are laid on the view.
#[derive(Debug, Drop)]
pub struct Trail {
    pub start: Minute,
    pub picks: Vec<Option<ResourceId>>,
}

/// Lays one more pick.
pub fn push<S: Explored<V, L>, V, L: Ledger>(
    space: &S,
    view: &mut V,
    trail: &mut Trail,
    pick: &Option<ResourceId>,
) -> Result<(), NoMemory>
    requires held { S.holds space.now view.old trail.old.start trail.old.picks.items }
    requires live { IsLiveAt (S.ways space.now) trail.old.start (trail.old.picks.items ++ pick.now ∷ []) }
    ensures held { S.holds space.now view.new trail.new.start trail.new.picks.items }
    ensures start { trail.new.start ≡ trail.old.start }
    ensures ok { OnOk result (trail.new.picks.items ≡ trail.old.picks.items ++ pick.now ∷ []) }
{
    space.push(view, trail.start, trail.picks.as_slice(), pick)?;
    match trail.picks.push(*pick) {
        Ok(()) => Ok(()),
        Err(error) => {
            space.pop(view, trail.start, trail.picks.as_slice(), pick);
            Err(AllocError::from(error).into())
        }
    }
}

/// Takes the last pick off, and gives it.
fn pop<S: Explored<V, L>, V, L: Ledger>(
    space: &S,
    view: &mut V,
    trail: &mut Trail,
) -> Option<Option<ResourceId>>
    requires held { S.holds space.now view.old trail.old.start trail.old.picks.items }
    ensures held { S.holds space.now view.new trail.new.start trail.new.picks.items }
    ensures start { trail.new.start ≡ trail.old.start }
    ensures last { MatchOption result (trail.old.picks.items ≡ []) (λ pick. trail.old.picks.items ≡ trail.new.picks.items ++ pick ∷ []) }
{
    let last = trail.picks.pop();
    match &last {
        Some(pick) => space.pop(view, trail.start, trail.picks.as_slice(), pick),
        None => {}
    }
    last
}

/// Goes on to the least live position that is left at the picks, those up to one being tried as the next. Where none is left
/// that the first of the picks begins, all picks are taken off.
fn climb<S: Explored<V, L>, V, L: Ledger>(
    space: &S,
    view: &mut V,
    trail: &mut Trail,
    tried: Option<Option<ResourceId>>,
    steps: &mut Steps<L>,
) -> Result<bool, NoMemory>
    requires sound { IsSound (S.ways space.now) }
    requires held { S.holds space.now view.old trail.old.start trail.old.picks.items }
    requires on { IsOn (S.ways space.now) trail.old.start trail.old.picks.items }
    ensures held { S.holds space.now view.new trail.new.start trail.new.picks.items }
    ensures start { trail.new.start ≡ trail.old.start }
    ensures climbed { IfOk result (λ found. IsClimbed (S.ways space.now) trail.old.start trail.old.picks.items tried found trail.new.picks.items) }
    ensures steps { IfOk result (λ _. steps.new + beside (S.ways space.now) trail.new.picks.items ≤ steps.old + left_at (S.ways space.now) trail.old.picks.items tried) }
{
    let mut tried = tried;
    while !trail.picks.is_empty() {
        let next = next_pick(
            space,
            view,
            trail.start,
            trail.picks.as_slice(),
            &tried,
            steps,
        )?;
        match &next {
            Some(pick) => {
                push(space, view, trail, pick)?;
                return Ok(true);
            }
            None => tried = pop(space, view, trail),
        }
    }
    Ok(false)
}

fn root_tried(
    picks: &[Option<ResourceId>],
    tried: &Option<Option<ResourceId>>,
) -> Option<Option<ResourceId>>
    ensures { result ≡ root_tried picks.now tried.now }
{
    match picks {
        [] => *tried,
        [first, ..] => Some(*first),
    }
}

/// Goes on to the next live position: the least one that is left at the picks, those up to one being tried as the next, or else
/// the next first pick.
pub fn next_position<S: Explored<V, L>, V, L: Ledger>(
    space: &S,
    view: &mut V,
    trail: &mut Trail,
    roots: &mut Vec<Root>,
    tried: Option<Option<ResourceId>>,
    steps: &mut Steps<L>,
) -> Result<bool, NoMemory>
    requires sound { IsSound (S.ways space.now) }
    requires held { S.holds space.now view.old trail.old.start trail.old.picks.items }
    requires on { IsOn (S.ways space.now) trail.old.start trail.old.picks.items }
    requires roots { AreRoots (S.ways space.now) (root_cut trail.old.start trail.old.picks.items tried) roots.old.items }
    ensures held { S.holds space.now view.new trail.new.start trail.new.picks.items }
    ensures gone { IfOk result (λ found. HasGone (S.ways space.now) (cut_at trail.old.start trail.old.picks.items tried) found trail.new.start trail.new.picks.items roots.new.items) }
    ensures steps { IfOk result (λ _. steps.new + beside (S.ways space.now) trail.new.picks.items + unasked roots.new.items ≤ steps.old + left_at (S.ways space.now) trail.old.picks.items tried + unasked roots.old.items + 1) }
{
    let first = root_tried(trail.picks.as_slice(), &tried);
    if climb(space, view, trail, tried, steps)? {
        return Ok(true);
    }
    let found = next_root(space, view, trail, roots, &first, steps)?;
    Ok(found)
}

/// Takes all picks off.
pub fn clear<S: Explored<V, L>, V, L: Ledger>(space: &S, view: &mut V, trail: &mut Trail)
    requires held { S.holds space.now view.old trail.old.start trail.old.picks.items }
    ensures nothing { (s : _) → S.holds space.now view.new s [] }
    ensures empty { trail.new.picks.items ≡ [] }
    ensures start { trail.new.start ≡ trail.old.start }
{
    while !trail.picks.is_empty() {
        pop(space, view, trail);
    }
}
