//! Whether a written list can be searched: a test at run time that a test case does before its search.
ghost use Rattle.std.specs.Prelude.{◌≡◌, ◌≤◌, ◌++◌, ◌∷◌, [], IsTrue, Some, length, Contains};
ghost use Rattle.std.specs.List.{list_all, slice_index_or};
ghost use Rattle.std.specs.Ordering.{is_lt};
ghost use Rattle.desk_base.specs.search.Order.{pick_cmp};
ghost use Rattle.desk_base.specs.search.Positions.{position_at, precedes};
ghost use Rattle.desk_pruned.specs.Ways.{IsSound};
ghost use Rattle.tests_pruned.specs.Listed.{ways_of};
ghost use Rattle.tests_pruned.specs.Sound.{rises, picks_rise, IsPlaced, AreChoices};

use crate::listed::{Listed, has, is_same};
use desk_base::{Position, ResourceId};
use std::cmp::Ordering;

fn precedes(first: &Position, second: &Position) -> bool
    ensures { result ≡ precedes first.now second.now }
{
    match first.cmp(second) {
        Ordering::Less => true,
        Ordering::Equal => false,
        Ordering::Greater => false,
    }
}

fn precedes_all(first: &Position, others: &[Position]) -> bool
    ensures { result ≡ list_all (precedes first.now) others.now }
{
    others.iter().all(|other| precedes(first, other))
}

fn rises(positions: &[Position]) -> bool
    ensures { result ≡ rises positions.now }
{
    match positions {
        [] => true,
        [first, others @ ..] => precedes_all(first, others) && rises(others),
    }
}

fn number_precedes(first: u32, second: u32) -> bool
    ensures { result ≡ is_lt (pick_cmp (Some first) (Some second)) }
{
    first < second
}

fn pick_precedes(first: &Option<ResourceId>, second: &Option<ResourceId>) -> bool
    ensures { result ≡ is_lt (pick_cmp first.now second.now) }
{
    match (first, second) {
        (Some(first), Some(second)) => number_precedes(first.get(), second.get()),
        (Some(_), None) => true,
        (None, Some(_)) => false,
        (None, None) => false,
    }
}

fn pick_precedes_all(first: &Option<ResourceId>, others: &[Option<ResourceId>]) -> bool
    ensures { result ≡ list_all (λ y. is_lt (pick_cmp first.now y)) others.now }
{
    others.iter().all(|other| pick_precedes(first, other))
}

fn picks_rise(picks: &[Option<ResourceId>]) -> bool
    ensures { result ≡ picks_rise picks.now }
{
    match picks {
        [] => true,
        [first, others @ ..] => pick_precedes_all(first, others) && picks_rise(others),
    }
}

/// Whether the position without its last pick is in the list.
fn has_parent(listed: &Listed, position: &Position) -> bool
    ensures { IsTrue result → (q : _) (x : _) → position.now.picks ≡ q ++ x ∷ [] → 1 ≤ length q → Contains listed.now.lives (position_at position.now.start q) }
{
    match position.picks.as_slice() {
        [] => true,
        [_only] => true,
        [init @ .., before, _last] => has(listed.lives.as_slice(), position.start, init, before),
    }
}

fn has_pick(choices: &[Option<ResourceId>], pick: &Option<ResourceId>) -> bool
    ensures { IsTrue result → Contains choices.now pick.now }
{
    for choice in choices {
        if is_same(choice, pick) {
            return true;
        }
    }
    false
}

fn choices_of(listed: &Listed, leaf: usize) -> &[Option<ResourceId>]
    ensures { result.now ≡ slice_index_or listed.now.choices leaf [] }
{
    match listed.choices.as_slice().get(leaf) {
        Some(choices) => choices.as_slice(),
        None => &[],
    }
}

/// Whether the last pick of the position is a choice of its leaf.
fn is_offered(listed: &Listed, position: &Position) -> bool
    ensures { IsTrue result → (q : _) (x : _) → position.now.picks ≡ q ++ x ∷ [] → Contains (slice_index_or listed.now.choices (length q) []) x }
{
    match position.picks.as_slice() {
        [] => true,
        [init @ .., last] => has_pick(choices_of(listed, init.len()), last),
    }
}

fn is_placed(listed: &Listed, position: &Position) -> bool
    ensures { IsTrue result → IsPlaced listed.now position.now }
{
    let size = position.picks.len();
    listed.earliest.get() <= position.start.get()
        && 1 <= size
        && size <= listed.leaves
        && has_parent(listed, position)
        && is_offered(listed, position)
}

fn all_are_placed(listed: &Listed) -> bool
    ensures { IsTrue result → (p : _) → Contains listed.now.lives p → IsPlaced listed.now p }
{
    for position in listed.lives.as_slice() {
        if !is_placed(listed, position) {
            return false;
        }
    }
    true
}

fn are_choices(listed: &Listed, choices: &[Option<ResourceId>]) -> bool
    ensures { IsTrue result → AreChoices listed.now choices.now }
{
    picks_rise(choices) && choices.len() <= listed.resources as usize
}

fn all_are_choices(listed: &Listed) -> bool
    ensures { IsTrue result → (cs : _) → Contains listed.now.choices cs → AreChoices listed.now cs }
{
    for choices in listed.choices.as_slice() {
        if !are_choices(listed, choices.as_slice()) {
            return false;
        }
    }
    true
}

/// Whether the list can be searched: it rises, each position has a pick and all that it begins with is in the list, and each pick
/// is among the choices of its leaf, which rise.
pub fn is_sound(listed: &Listed) -> bool
    ensures { IsTrue result → IsSound (ways_of listed.now) }
{
    if !rises(listed.lives.as_slice()) {
        return false;
    }
    if !all_are_placed(listed) {
        return false;
    }
    all_are_choices(listed)
}
