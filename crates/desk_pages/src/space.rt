//! What a search of a group goes over: its case, its options and its choices, over a view of what is free.
ghost use Rattle.std.specs.Prelude.{◌≡◌, max, IfOk};
ghost use Rattle.desk_base.specs.search.Listing.{IsLiveList};
ghost use Rattle.desk_feasible.specs.Live.{IsReady};
ghost use Rattle.desk_pages.specs.Spaces.{ways_of};
ghost use Rattle.desk_pruned.specs.Ways.{IsSound};

use crate::choices::all_choices;
use desk_base::{Minute, NoMemory, Options, Picks, ResourceId, Steps};
use desk_feasible::{extends, first_start, lay, take_up};
use desk_load::FreeView;
use desk_need::Case;
use desk_pruned::Explored;
use std::alloc::Global;
use std::marker::Model;
use std::sync::ledger::Ledger;

/// A group's case with a search's options, and what each leaf may have as its pick.
#[derive(Drop)]
pub struct Space<'a> {
    alloc: Global,
    case: &'a Case<'a>,
    options: &'a Options,
    choices: Vec<Picks>,
}

impl<'a> Model for Space<'a> {
    ghost use Rattle.std.specs.Prelude.{length};
    ghost use Rattle.desk_feasible.specs.Live.{IsReady};
    ghost use Rattle.desk_pages.specs.Spaces.{SpaceParts, AreChoicesOf, IsInHorizon};

    ghost Value = { SpaceParts };

    ghost view = { λ x. record { asked = x.case.now; options = x.options.now; choices = x.choices.items } };

    ghost invariant = { λ x. IsReady x.case.now × IsInHorizon x.case.now.group × AreChoicesOf x.case.now.tables x.case.now.group.leaves (length x.case.now.group.leaves) x.choices.items };
}

impl<'a> Space<'a> {
    /// The space of a case that is ready.
    pub fn build(
        alloc: Global,
        case: &'a Case<'a>,
        options: &'a Options,
    ) -> Result<Space<'a>, NoMemory>
        requires { IsReady case.now }
        ensures asked { IfOk result (λ x. x.asked ≡ case.now) }
        ensures options { IfOk result (λ x. x.options ≡ options.now) }
        ensures sound { IfOk result (λ x. IsSound (ways_of x)) }
        ensures lives { IfOk result (λ x. IsLiveList case.now.tables case.now.group options.now (ways_of x).lives) }
    {
        // Read so that their ranges are known.
        let _window = (case.group().from.get(), case.group().to.get());
        let choices = all_choices(alloc, case)?;
        Ok(Space {
            alloc,
            case,
            options,
            choices,
        })
    }
}

fn later(a: Minute, b: Minute) -> Minute
    ensures { result ≡ max a b }
{
    if a.get() < b.get() { b } else { a }
}

impl<'a, 'v, L: Ledger> Explored<FreeView<'v>, L> for Space<'a> {
    ghost use Rattle.desk_feasible.specs.Live.{HasLaid};
    ghost use Rattle.desk_pages.specs.Spaces.{ways_of};
    ghost use Rattle.desk_feasible.proofs.Laying.{nothing_laid};

    ghost ways = { λ x. ways_of x };

    ghost holds = { λ x view s picks. HasLaid x.asked view s picks };

    fn earliest(&self) -> Minute
        ensures { result ≡ (ways_of self.now).earliest }
    {
        let from = self.case.group().from;
        match self.options.from {
            Some(minute) => later(from, minute),
            None => from,
        }
    }

    fn leaves(&self) -> usize
        ensures { result ≡ (ways_of self.now).leaves }
    {
        self.case.group().leaves.len()
    }

    fn choices(&self, leaf: usize) -> &[Option<ResourceId>]
        ensures { result.now ≡ (ways_of self.now).choices leaf }
    {
        match self.choices.get(leaf) {
            Some(list) => list.as_slice(),
            None => &[],
        }
    }

    fn can_push(
        &self,
        view: &FreeView<'v>,
        start: Minute,
        picks: &[Option<ResourceId>],
        pick: &Option<ResourceId>,
        steps: &mut Steps<L>,
    ) -> Result<bool, NoMemory> {
        let can = extends(self.alloc, view, self.case, start, picks, pick, steps)?;
        Ok(can)
    }

    fn first_start(
        &self,
        view: &FreeView<'v>,
        pick: &Option<ResourceId>,
        from: u32,
        steps: &mut Steps<L>,
    ) -> Result<Option<Minute>, NoMemory> {
        let start = first_start(view, self.case, self.options, pick, from, steps);
        Ok(start)
    }

    fn push(
        &self,
        view: &mut FreeView<'v>,
        start: Minute,
        picks: &[Option<ResourceId>],
        pick: &Option<ResourceId>,
    ) -> Result<(), NoMemory> {
        lay(view, self.case, start, picks, pick)
    }

    fn pop(
        &self,
        view: &mut FreeView<'v>,
        start: Minute,
        picks: &[Option<ResourceId>],
        pick: &Option<ResourceId>,
    ) {
        take_up(view, self.case, start, picks, pick);
    }

    ghost holds_nothing = { λ x view s t h. nothing_laid x.asked view s t h };
}
