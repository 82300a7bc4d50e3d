//! A page of a search.
ghost use Rattle.std.specs.Prelude.{◌≡◌, ◌≤◌, ◌+◌, [], ⊤, length, IfOk, MatchOption, option_copied};
ghost use Rattle.desk_base.specs.rules.Limits.{page_limit, passed_limit};
ghost use Rattle.desk_base.specs.search.Page.{due_of, passed_of, page_of};
ghost use Rattle.desk_base.specs.search.Positions.{positions_after};
ghost use Rattle.desk_pruned.specs.Ways.{IsSound};
ghost use Rattle.desk_pruned.specs.Costs.{bound};

mod all_rows;
mod intervals;
mod passed;

use crate::explored::Explored;
use crate::pages::all_rows::page_of_all;
use crate::pages::intervals::page_of_first;
use crate::trail::{Trail, clear};
use desk_base::limits::FIRST_MINUTE;
use desk_base::{Minute, NoMemory, Page, Position, Steps};
use std::alloc::Global;
use std::sync::ledger::Ledger;

fn page_on<S: Explored<V, L>, V, L: Ledger>(
    alloc: Global,
    space: &S,
    view: &mut V,
    trail: &mut Trail,
    per: Option<u32>,
    after: Option<&Position>,
    shown: u16,
    limit: u16,
    steps: &mut Steps<L>,
) -> Result<Page, NoMemory>
    requires sound { IsSound (S.ways space.now) }
    requires per { MatchOption per ⊤ (λ n. 1 ≤ n) }
    requires nothing { trail.old.picks.items ≡ [] }
    requires held { (s : _) → S.holds space.now view.old s [] }
    ensures held { S.holds space.now view.new trail.new.start trail.new.picks.items }
    ensures page { IfOk result (λ page. page ≡ page_of (S.ways space.now).leaves per (record { after = option_copied after.entry; shown = shown }) limit (positions_after (option_copied after.entry) (S.ways space.now).lives)) }
    ensures steps { IfOk result (λ _. steps.new ≤ steps.old + bound (S.ways space.now) (length (passed_of (S.ways space.now).leaves limit passed_limit (due_of (S.ways space.now).leaves per (record { after = option_copied after.entry; shown = shown }) (positions_after (option_copied after.entry) (S.ways space.now).lives))))) }
{
    match per {
        Some(per) => {
            let page = page_of_first(alloc, space, view, trail, after, per, shown, limit, steps)?;
            Ok(page)
        }
        None => {
            let page = page_of_all(alloc, space, view, trail, after, shown, limit, steps)?;
            Ok(page)
        }
    }
}

/// The page of a search after a position, live or not, or of all: at most `limit` rows (1 to 500), of at most 4,096 live positions
/// that are passed. With `per` (1 to 500) each start shows its first `per` rows alone, and `shown` says how many rows of the start
/// of that position were shown. The view is as before.
pub fn page<S: Explored<V, L>, V, L: Ledger>(
    alloc: Global,
    space: &S,
    view: &mut V,
    per: Option<u32>,
    after: Option<&Position>,
    shown: u16,
    limit: u16,
    steps: &mut Steps<L>,
) -> Result<Page, NoMemory>
    requires sound { IsSound (S.ways space.now) }
    requires per { MatchOption per ⊤ (λ n. (1 ≤ n) × (n ≤ page_limit)) }
    requires limit { (1 ≤ limit) × (limit ≤ page_limit) }
    requires held { (s : _) → S.holds space.now view.old s [] }
    ensures held { (s : _) → S.holds space.now view.new s [] }
    ensures page { IfOk result (λ page. page ≡ page_of (S.ways space.now).leaves per (record { after = option_copied after.entry; shown = shown }) limit (positions_after (option_copied after.entry) (S.ways space.now).lives)) }
    ensures steps { IfOk result (λ _. steps.new ≤ steps.old + bound (S.ways space.now) (length (passed_of (S.ways space.now).leaves limit passed_limit (due_of (S.ways space.now).leaves per (record { after = option_copied after.entry; shown = shown }) (positions_after (option_copied after.entry) (S.ways space.now).lives))))) }
{
    let mut trail = Trail {
        start: Minute::of(FIRST_MINUTE).unwrap(),
        picks: Vec::new(alloc),
    };
    let page = page_on(
        alloc, space, view, &mut trail, per, after, shown, limit, steps,
    );
    clear(space, view, &mut trail);
    page
}
