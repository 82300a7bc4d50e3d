//! What a page makes of the positions that it passes, and whether it passes one more.
ghost use Rattle.std.specs.Prelude.{◌≡◌, ◌≤◌, ◌<◌, ◌++◌, ◌∷◌, [], ◌⊎◌, IsTrue, false, Some, IfOk, OnOk, option_copied};
ghost use Rattle.desk_base.specs.rules.Limits.{passed_limit};
ghost use Rattle.desk_base.specs.search.Positions.{position_at, rows_among};

use crate::trail::Trail;
use desk_base::limits::PASSED_LIMIT;
use desk_base::{Duplicate, Found, Founds, Items, NoMemory, Position};
use std::alloc::Global;

pub fn copy_of(alloc: Global, position: Option<&Position>) -> Result<Option<Position>, NoMemory>
    ensures { IfOk result (λ p. p ≡ option_copied position.entry) }
{
    match position {
        Some(position) => Ok(Some(position.copy(alloc)?)),
        None => Ok(None),
    }
}

/// The position of the trail, in the memory of another.
fn moved(position: Position, trail: &Trail) -> Result<Position, NoMemory>
    ensures { IfOk result (λ p. p ≡ position_at trail.now.start trail.now.picks.items) }
{
    let mut picks = position.picks.into_vec();
    picks.clear();
    match picks.extend_from_slice(trail.picks.as_slice()) {
        Ok(()) => {}
        Err(error) => return Err(error.into()),
    }
    Ok(Position {
        start: trail.start,
        picks: Items::from_vec(picks),
    })
}

/// The position of the trail, in the memory of the one that was passed last.
pub fn passed_on(
    alloc: Global,
    last: Option<Position>,
    trail: &Trail,
) -> Result<Option<Position>, NoMemory>
    ensures { IfOk result (λ p. p ≡ Some (position_at trail.now.start trail.now.picks.items)) }
{
    let last = match last {
        Some(last) => last,
        None => Position {
            start: trail.start,
            picks: Items::new(alloc),
        },
    };
    Ok(Some(moved(last, trail)?))
}

fn row_of(alloc: Global, trail: &Trail) -> Result<Found, NoMemory>
    ensures { IfOk result (λ f. f ≡ record { start = trail.now.start; picks = trail.now.picks.items }) }
{
    Ok(Found {
        start: trail.start,
        picks: Items::from_slice(alloc, trail.picks.as_slice())?,
    })
}

/// Adds the row of the trail, if it is full.
pub fn push_row(
    alloc: Global,
    leaves: usize,
    trail: &Trail,
    rows: &mut Founds,
) -> Result<(), NoMemory>
    ensures { OnOk result (rows.new ≡ rows.old ++ rows_among leaves (position_at trail.now.start trail.now.picks.items ∷ [])) }
{
    if trail.picks.len() == leaves {
        rows.push(row_of(alloc, trail)?)?;
    }
    Ok(())
}

pub fn goes_on(found: bool, rows: usize, limit: usize, passed: u32) -> bool
    ensures go { IsTrue result → IsTrue found × (rows < limit) × (passed < passed_limit) }
    ensures stop { result ≡ false → (found ≡ false) ⊎ ((limit ≤ rows) ⊎ (passed_limit ≤ passed)) }
{
    found && rows < limit && passed < PASSED_LIMIT
}
