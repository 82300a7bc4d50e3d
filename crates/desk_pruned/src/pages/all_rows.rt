//! Pages of a search that shows all its rows.
ghost use Rattle.std.specs.Prelude.{◌≡◌, ◌≤◌, ◌+◌, ◌*◌, [], length, None, IfOk, option_copied};
ghost use Rattle.desk_base.specs.rules.Limits.{passed_limit};
ghost use Rattle.desk_base.specs.search.Page.{passed_of, page_of};
ghost use Rattle.desk_base.specs.search.Positions.{positions_after};
ghost use Rattle.desk_pruned.specs.Ways.{IsSound};
ghost use Rattle.desk_pruned.specs.Costs.{beside, bound};
ghost use Rattle.desk_pruned.specs.Starts.{unasked};
ghost use Rattle.desk_pruned.specs.Trails.{HasGone, cut_after};

use crate::begin::first_position;
use crate::explored::Explored;
use crate::pages::passed::{copy_of, goes_on, passed_on, push_row};
use crate::roots::{Root, unasked_roots};
use crate::trail::{Trail, next_position};
use desk_base::{Items, NoMemory, Page, Position, Steps};
use std::alloc::Global;
use std::sync::ledger::Ledger;

/// Passes one live position after the other, from the one that the trail stands on.
fn pass_on<S: Explored<V, L>, V, L: Ledger>(
    alloc: Global,
    space: &S,
    view: &mut V,
    trail: &mut Trail,
    roots: &mut Vec<Root>,
    after: Option<&Position>,
    shown: u16,
    limit: usize,
    first: bool,
    steps: &mut Steps<L>,
) -> Result<Page, NoMemory>
    requires sound { IsSound (S.ways space.now) }
    requires held { S.holds space.now view.old trail.old.start trail.old.picks.items }
    requires gone { HasGone (S.ways space.now) (cut_after (option_copied after)) first trail.old.start trail.old.picks.items roots.old.items }
    ensures held { S.holds space.now view.new trail.new.start trail.new.picks.items }
    ensures page { IfOk result (λ page. page ≡ page_of (S.ways space.now).leaves None (record { after = option_copied after.entry; shown = shown }) limit (positions_after (option_copied after.entry) (S.ways space.now).lives)) }
    ensures steps { IfOk result (λ _. steps.new ≤ steps.old + beside (S.ways space.now) trail.old.picks.items + unasked roots.old.items + length (passed_of (S.ways space.now).leaves limit passed_limit (positions_after (option_copied after.entry) (S.ways space.now).lives)) * ((S.ways space.now).resources + 1)) }
{
    let leaves = space.leaves();
    let mut rows = Items::new(alloc);
    let mut next = copy_of(alloc, after)?;
    let mut found = first;
    let mut passed = 0;
    'pass: while goes_on(found, rows.len(), limit, passed) {
        push_row(alloc, leaves, trail, &mut rows)?;
        next = passed_on(alloc, next, trail)?;
        passed += 1;
        found = next_position(space, view, trail, roots, None, steps)?;
    }
    Ok(Page {
        rows,
        next,
        shown: None,
        end: !found,
    })
}

pub fn page_of_all<S: Explored<V, L>, V, L: Ledger>(
    alloc: Global,
    space: &S,
    view: &mut V,
    trail: &mut Trail,
    after: Option<&Position>,
    shown: u16,
    limit: u16,
    steps: &mut Steps<L>,
) -> Result<Page, NoMemory>
    requires sound { IsSound (S.ways space.now) }
    requires nothing { trail.old.picks.items ≡ [] }
    requires held { (s : _) → S.holds space.now view.old s [] }
    ensures held { S.holds space.now view.new trail.new.start trail.new.picks.items }
    ensures page { IfOk result (λ page. page ≡ page_of (S.ways space.now).leaves None (record { after = option_copied after.entry; shown = shown }) limit (positions_after (option_copied after.entry) (S.ways space.now).lives)) }
    ensures steps { IfOk result (λ _. steps.new ≤ steps.old + bound (S.ways space.now) (length (passed_of (S.ways space.now).leaves limit passed_limit (positions_after (option_copied after.entry) (S.ways space.now).lives)))) }
{
    let mut roots = unasked_roots(alloc, space.choices(0))?;
    let found = first_position(space, view, trail, &mut roots, after, steps)?;
    let page = pass_on(
        alloc,
        space,
        view,
        trail,
        &mut roots,
        after,
        shown,
        usize::from(limit),
        found,
        steps,
    )?;
    Ok(page)
}
