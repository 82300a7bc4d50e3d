//! A search over a written list of live positions: what the search asks for can be had, whatever the list.
ghost use Rattle.std.specs.Prelude.{◌≡◌, ◌≤◌, ◌++◌, ◌∷◌, [], ◌↔◌, IsTrue, Some, Contains};
ghost use Rattle.desk_base.specs.search.Positions.{position_at};
ghost use Rattle.tests_pruned.specs.Listed.{IsFirstAmong, earlier_of};

use desk_base::{Items, Minute, NoMemory, Position, ResourceId, Steps};
use desk_pruned::Explored;
use std::alloc::AllocError;
use std::cell::Cell;
use std::sync::ledger::Ledger;

/// The live positions of a search, a minute before which none starts, how many leaves it has, and the choices of each.
#[derive(Debug, Drop)]
pub struct Listed {
    pub lives: Items<Position>,
    pub earliest: Minute,
    pub leaves: usize,
    pub choices: Items<Items<Option<ResourceId>>>,
    pub resources: u32,
}

/// The picks that are laid, and how many questions were asked.
#[derive(Drop)]
pub struct Laid {
    pub picks: Vec<Option<ResourceId>>,
    pub asked: Cell<u32>,
}

/// Counts one question.
fn note(laid: &Laid) {
    laid.asked.set(laid.asked.get().saturating_add(1));
}

pub(crate) fn is_same(first: &Option<ResourceId>, second: &Option<ResourceId>) -> bool
    ensures { IsTrue result ↔ (first.now ≡ second.now) }
{
    match (first, second) {
        (Some(first), Some(second)) => first.get() == second.get(),
        (None, None) => true,
        (Some(_), None) => false,
        (None, Some(_)) => false,
    }
}

fn is_one(all: &[Option<ResourceId>], pick: &Option<ResourceId>) -> bool
    ensures { IsTrue result ↔ (all.now ≡ pick.now ∷ []) }
{
    match all {
        [only] => is_same(only, pick),
        [] => false,
        [_, _, ..] => false,
    }
}

fn is_with(
    all: &[Option<ResourceId>],
    picks: &[Option<ResourceId>],
    pick: &Option<ResourceId>,
) -> bool
    ensures { IsTrue result ↔ (all.now ≡ picks.now ++ pick.now ∷ []) }
{
    match picks {
        [] => is_one(all, pick),
        [first, others @ ..] => match all {
            [head, rest @ ..] => is_same(head, first) && is_with(rest, others, pick),
            [] => false,
        },
    }
}

pub(crate) fn has(
    lives: &[Position],
    start: Minute,
    picks: &[Option<ResourceId>],
    pick: &Option<ResourceId>,
) -> bool
    ensures { IsTrue result ↔ Contains lives.now (position_at start (picks.now ++ pick.now ∷ [])) }
{
    match lives {
        [] => false,
        [first, others @ ..] => {
            if first.start.get() == start.get() && is_with(first.picks.as_slice(), picks, pick) {
                true
            } else {
                has(others, start, picks, pick)
            }
        }
    }
}

fn earlier(start: Minute, other: Option<Minute>) -> Minute
    ensures { result ≡ earlier_of start other }
{
    match other {
        Some(other) => {
            if other.get() < start.get() {
                other
            } else {
                start
            }
        }
        None => start,
    }
}

fn is_alone(position: &Position, pick: &Option<ResourceId>, from: u32) -> bool
    ensures { IsTrue result ↔ ((from ≤ position.now.start) × (position.now.picks ≡ pick.now ∷ [])) }
{
    from <= position.start.get() && is_one(position.picks.as_slice(), pick)
}

fn first_among(lives: &[Position], pick: &Option<ResourceId>, from: u32) -> Option<Minute>
    ensures { IsFirstAmong lives.now pick.now from result }
{
    match lives {
        [] => None,
        [first, others @ ..] => {
            let rest = first_among(others, pick, from);
            if is_alone(first, pick, from) {
                Some(earlier(first.start, rest))
            } else {
                rest
            }
        }
    }
}

impl<L: Ledger> Explored<Laid, L> for Listed {
    ghost use Rattle.std.specs.Prelude.{◌≡◌};
    ghost use Rattle.tests_pruned.specs.Listed.{ways_of};

    ghost ways = { ways_of };

    ghost holds = { λ s v start picks. v.picks.items ≡ picks };

    fn earliest(&self) -> Minute {
        self.earliest
    }

    fn leaves(&self) -> usize {
        self.leaves
    }

    fn choices(&self, leaf: usize) -> &[Option<ResourceId>] {
        match self.choices.as_slice().get(leaf) {
            Some(choices) => choices.as_slice(),
            None => &[],
        }
    }

    fn can_push(
        &self,
        view: &Laid,
        start: Minute,
        picks: &[Option<ResourceId>],
        pick: &Option<ResourceId>,
        _steps: &mut Steps<L>,
    ) -> Result<bool, NoMemory> {
        if pick.is_some() {
            note(view);
        }
        Ok(has(self.lives.as_slice(), start, picks, pick))
    }

    fn first_start(
        &self,
        view: &Laid,
        pick: &Option<ResourceId>,
        from: u32,
        _steps: &mut Steps<L>,
    ) -> Result<Option<Minute>, NoMemory> {
        if pick.is_some() {
            note(view);
        }
        Ok(first_among(self.lives.as_slice(), pick, from))
    }

    fn push(
        &self,
        view: &mut Laid,
        _start: Minute,
        _picks: &[Option<ResourceId>],
        pick: &Option<ResourceId>,
    ) -> Result<(), NoMemory> {
        match view.picks.push(*pick) {
            Ok(()) => Ok(()),
            Err(error) => Err(AllocError::from(error).into()),
        }
    }

    fn pop(
        &self,
        view: &mut Laid,
        _start: Minute,
        _picks: &[Option<ResourceId>],
        _pick: &Option<ResourceId>,
    ) {
        view.picks.pop();
    }

    ghost holds_nothing = { λ x view s t h. h };
}
