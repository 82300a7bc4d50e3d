//! Pages of a search that shows at most so many rows of each start.
ghost use Rattle.std.specs.Prelude.{◌≡◌, ◌≤◌, ◌<◌, ◌+◌, ◌*◌, ◌^◌, ◌==◌, [], length, min, nat_lt, None, Some, IfOk, option_copied, if◌then◌else◌};
ghost use Rattle.desk_base.specs.rules.Limits.{page_limit, passed_limit};
ghost use Rattle.desk_base.specs.search.Page.{passed_of, due_of, page_of};
ghost use Rattle.desk_base.specs.search.Positions.{position_at, positions_after};
ghost use Rattle.desk_pruned.specs.Ways.{IsSound};
ghost use Rattle.desk_pruned.specs.Cuts.{Cut, after};
ghost use Rattle.desk_pruned.specs.Costs.{beside, bound};
ghost use Rattle.desk_base.proofs.searched.Due.{one_row, counted, start_of, count_of};
ghost use Rattle.desk_pruned.specs.Counts.{later, cut_due};
ghost use Rattle.desk_pruned.specs.Starts.{AreRoots, unasked};
ghost use Rattle.desk_pruned.specs.Trails.{IsOn, HasGone, root_cut};

use crate::begin::first_position;
use crate::explored::Explored;
use crate::pages::passed::{copy_of, goes_on, passed_on, push_row};
use crate::roots::{Root, unasked_roots};
use crate::starts::skip_start;
use crate::trail::{Trail, clear, next_position};
use desk_base::limits::PAGE_LIMIT;
use desk_base::{Items, NoMemory, Page, Position, Steps};
use std::alloc::Global;
use std::sync::ledger::Ledger;

/// Goes on to the next live position; where it is not to stay at this start, to the first of a later one.
fn next_due<S: Explored<V, L>, V, L: Ledger>(
    space: &S,
    view: &mut V,
    trail: &mut Trail,
    roots: &mut Vec<Root>,
    stays: bool,
    steps: &mut Steps<L>,
) -> Result<bool, NoMemory>
    requires sound { IsSound (S.ways space.now) }
    requires held { S.holds space.now view.old trail.old.start trail.old.picks.items }
    requires on { IsOn (S.ways space.now) trail.old.start trail.old.picks.items }
    requires roots { AreRoots (S.ways space.now) (root_cut trail.old.start trail.old.picks.items None) roots.old.items }
    ensures held { S.holds space.now view.new trail.new.start trail.new.picks.items }
    ensures gone { IfOk result (λ found. HasGone (S.ways space.now) (if stays then after (position_at trail.old.start trail.old.picks.items) else later trail.old.start) found trail.new.start trail.new.picks.items roots.new.items) }
    ensures steps { IfOk result (λ _. steps.new + beside (S.ways space.now) trail.new.picks.items + unasked roots.new.items ≤ steps.old + beside (S.ways space.now) trail.old.picks.items + unasked roots.old.items + (S.ways space.now).resources + 1) }
{
    if stays {
        let found = next_position(space, view, trail, roots, None, steps)?;
        return Ok(found);
    }
    clear(space, view, trail);
    let found = skip_start(space, view, trail, roots, steps)?;
    Ok(found)
}

/// Goes on to the first position that is due after one.
fn first_due<S: Explored<V, L>, V, L: Ledger>(
    space: &S,
    view: &mut V,
    trail: &mut Trail,
    roots: &mut Vec<Root>,
    after: Option<&Position>,
    per: u32,
    shown: u16,
    steps: &mut Steps<L>,
) -> Result<bool, NoMemory>
    requires sound { IsSound (S.ways space.now) }
    requires held { S.holds space.now view.old trail.old.start trail.old.picks.items }
    requires nothing { trail.old.picks.items ≡ [] }
    requires some { 1 ≤ per }
    requires roots { (c : Cut) → AreRoots (S.ways space.now) c roots.old.items }
    requires few { unasked roots.old.items ≤ (S.ways space.now).resources }
    ensures held { S.holds space.now view.new trail.new.start trail.new.picks.items }
    ensures gone { IfOk result (λ found. HasGone (S.ways space.now) (cut_due per (option_copied after.entry) (start_of (option_copied after.entry)) (count_of (option_copied after.entry) shown)) found trail.new.start trail.new.picks.items roots.new.items) }
    ensures steps { IfOk result (λ _. steps.new + beside (S.ways space.now) trail.new.picks.items + unasked roots.new.items ≤ steps.old + ((S.ways space.now).leaves + 2) * ((S.ways space.now).resources + 1)) }
{
    match after {
        Some(after) => {
            if per <= u32::from(shown) {
                trail.start = after.start;
                let found = skip_start(space, view, trail, roots, steps)?;
                return Ok(found);
            }
            let found = first_position(space, view, trail, roots, Some(after), steps)?;
            Ok(found)
        }
        None => {
            let found = first_position(space, view, trail, roots, None, steps)?;
            Ok(found)
        }
    }
}

fn start_of(after: Option<&Position>) -> u32
    ensures { result ≡ start_of (option_copied after.entry) }
{
    match after {
        Some(after) => after.start.get(),
        None => 0,
    }
}

fn count_of(after: Option<&Position>, shown: u16) -> u32
    ensures value { result ≡ count_of (option_copied after.entry) shown }
    ensures small { result ≤ shown }
{
    match after {
        Some(_) => u32::from(shown),
        None => 0,
    }
}

/// The rows of the trail's start that are shown with it, where so many of a start were shown before.
fn count_with(leaves: usize, start: u32, count: u32, trail: &Trail) -> u32
    requires { count < 2 ^ 31 }
    ensures value { result ≡ counted start count trail.now.start + one_row leaves (position_at trail.now.start trail.now.picks.items) }
    ensures small { result ≤ count + 1 }
{
    let before = if trail.start.get() == start { count } else { 0 };
    if trail.picks.len() == leaves {
        before + 1
    } else {
        before
    }
}

fn new_shown(passed: u32, shown: u16, count: u32) -> u16
    ensures { result ≡ (if passed == 0 then shown else min count page_limit) }
{
    if passed == 0 {
        shown
    } else if count < u32::from(PAGE_LIMIT) {
        count as u16
    } else {
        PAGE_LIMIT
    }
}

/// Passes one position that is due after the other, from the one that the trail stands on.
fn show_on<S: Explored<V, L>, V, L: Ledger>(
    alloc: Global,
    space: &S,
    view: &mut V,
    trail: &mut Trail,
    roots: &mut Vec<Root>,
    after: Option<&Position>,
    per: u32,
    shown: u16,
    limit: usize,
    first: bool,
    steps: &mut Steps<L>,
) -> Result<Page, NoMemory>
    requires sound { IsSound (S.ways space.now) }
    requires held { S.holds space.now view.old trail.old.start trail.old.picks.items }
    requires some { 1 ≤ per }
    requires gone { HasGone (S.ways space.now) (cut_due per (option_copied after) (start_of (option_copied after)) (count_of (option_copied after) shown)) first trail.old.start trail.old.picks.items roots.old.items }
    ensures held { S.holds space.now view.new trail.new.start trail.new.picks.items }
    ensures page { IfOk result (λ page. page ≡ page_of (S.ways space.now).leaves (Some per) (record { after = option_copied after.entry; shown = shown }) limit (positions_after (option_copied after.entry) (S.ways space.now).lives)) }
    ensures steps { IfOk result (λ _. steps.new ≤ steps.old + beside (S.ways space.now) trail.old.picks.items + unasked roots.old.items + length (passed_of (S.ways space.now).leaves limit passed_limit (due_of (S.ways space.now).leaves (Some per) (record { after = option_copied after.entry; shown = shown }) (positions_after (option_copied after.entry) (S.ways space.now).lives))) * ((S.ways space.now).resources + 1)) }
{
    let leaves = space.leaves();
    let mut rows = Items::new(alloc);
    let mut next = copy_of(alloc, after)?;
    let mut start = start_of(after);
    let mut count = count_of(after, shown);
    let mut found = first;
    let mut passed = 0;
    'show: while goes_on(found, rows.len(), limit, passed) {
        push_row(alloc, leaves, trail, &mut rows)?;
        count = count_with(leaves, start, count, trail);
        start = trail.start.get();
        next = passed_on(alloc, next, trail)?;
        passed += 1;
        found = next_due(space, view, trail, roots, count < per, steps)?;
    }
    Ok(Page {
        rows,
        next,
        shown: Some(new_shown(passed, shown, count)),
        end: !found,
    })
}

pub fn page_of_first<S: Explored<V, L>, V, L: Ledger>(
    alloc: Global,
    space: &S,
    view: &mut V,
    trail: &mut Trail,
    after: Option<&Position>,
    per: u32,
    shown: u16,
    limit: u16,
    steps: &mut Steps<L>,
) -> Result<Page, NoMemory>
    requires sound { IsSound (S.ways space.now) }
    requires nothing { trail.old.picks.items ≡ [] }
    requires some { 1 ≤ per }
    requires held { (s : _) → S.holds space.now view.old s [] }
    ensures held { S.holds space.now view.new trail.new.start trail.new.picks.items }
    ensures page { IfOk result (λ page. page ≡ page_of (S.ways space.now).leaves (Some per) (record { after = option_copied after.entry; shown = shown }) limit (positions_after (option_copied after.entry) (S.ways space.now).lives)) }
    ensures steps { IfOk result (λ _. steps.new ≤ steps.old + bound (S.ways space.now) (length (passed_of (S.ways space.now).leaves limit passed_limit (due_of (S.ways space.now).leaves (Some per) (record { after = option_copied after.entry; shown = shown }) (positions_after (option_copied after.entry) (S.ways space.now).lives))))) }
{
    let mut roots = unasked_roots(alloc, space.choices(0))?;
    let found = first_due(space, view, trail, &mut roots, after, per, shown, steps)?;
    let page = show_on(
        alloc,
        space,
        view,
        trail,
        &mut roots,
        after,
        per,
        shown,
        usize::from(limit),
        found,
        steps,
    )?;
    Ok(page)
}
