//! The next pick of a leaf.
ghost use Rattle.std.specs.Prelude.{◌≡◌, ◌≤◌, ◌+◌, ◌++◌, ◌∷◌, [], ◌↔◌, Some, None, length, Contains, IsTrue, IfOk, true, false};
ghost use Rattle.std.specs.Ordering.{is_lt};
ghost use Rattle.desk_base.specs.search.Order.{pick_cmp};
ghost use Rattle.desk_pruned.specs.Ways.{IsSound, IsLiveAt, Comes, IsNextPick};
ghost use Rattle.desk_pruned.specs.Costs.{comes, price, owed, owed_after};

use crate::explored::Explored;
use desk_base::{Minute, NoMemory, ResourceId, Steps};
use std::sync::ledger::Ledger;

fn number_precedes(first: u32, second: u32) -> bool
    ensures { result ≡ is_lt (pick_cmp (Some first) (Some second)) }
{
    first < second
}

/// Whether the first pick comes before the second: resource numbers rise, and a leaf that is left out comes last.
pub fn precedes(first: &Option<ResourceId>, second: &Option<ResourceId>) -> bool
    ensures { result ≡ is_lt (pick_cmp first.now second.now) }
{
    match (first, second) {
        (Some(first), Some(second)) => number_precedes(first.get(), second.get()),
        (Some(_), None) => true,
        (None, Some(_)) => false,
        (None, None) => false,
    }
}

pub fn comes(tried: &Option<Option<ResourceId>>, pick: &Option<ResourceId>) -> bool
    ensures { result ≡ comes tried.now pick.now }
{
    match tried {
        Some(tried) => precedes(tried, pick),
        None => true,
    }
}

/// Whether the pick comes after one and is live with the picks. Only such a pick is asked for.
fn can_go_on<S: Explored<V, L>, V, L: Ledger>(
    space: &S,
    view: &V,
    start: Minute,
    picks: &[Option<ResourceId>],
    tried: &Option<Option<ResourceId>>,
    pick: &Option<ResourceId>,
    steps: &mut Steps<L>,
) -> Result<bool, NoMemory>
    requires held { S.holds space.now view.now start picks.now }
    requires live { IsLiveAt (S.ways space.now) start picks.now }
    requires offered { Contains ((S.ways space.now).choices (length picks.now)) pick.now }
    ensures live { IfOk result (λ live. IsTrue live ↔ (Comes tried.now pick.now × IsLiveAt (S.ways space.now) start (picks.now ++ pick.now ∷ []))) }
    ensures steps { IfOk result (λ _. steps.new ≤ steps.old + price tried.now pick.now) }
{
    if comes(tried, pick) {
        space.can_push(view, start, picks, pick, steps)
    } else {
        Ok(false)
    }
}

/// The least pick after one that is live with the picks.
pub fn next_pick<S: Explored<V, L>, V, L: Ledger>(
    space: &S,
    view: &V,
    start: Minute,
    picks: &[Option<ResourceId>],
    tried: &Option<Option<ResourceId>>,
    steps: &mut Steps<L>,
) -> Result<Option<Option<ResourceId>>, NoMemory>
    requires sound { IsSound (S.ways space.now) }
    requires held { S.holds space.now view.now start picks.now }
    requires live { IsLiveAt (S.ways space.now) start picks.now }
    ensures next { IfOk result (IsNextPick (S.ways space.now) start picks.now tried.now) }
    ensures steps { IfOk result (λ next. let choices = (S.ways space.now).choices (length picks.now) in steps.new + owed_after next choices ≤ steps.old + owed tried.now choices) }
{
    for pick in space.choices(picks.len()) {
        if can_go_on(space, view, start, picks, tried, pick, steps)? {
            return Ok(Some(*pick));
        }
    }
    Ok(None)
}
