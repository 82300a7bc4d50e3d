//! Lists of live positions, written as rows.
ghost use Rattle.std.specs.Prelude.{◌≡◌, []};

use crate::listed::{Laid, Listed};
use desk_base::{Items, Minute, NoMemory, Picks, Position, ResourceId};
use std::alloc::Global;
use std::cell::Cell;

/// Monday, 2025-01-06T08:00Z.
pub(crate) const EIGHT: u32 = 28_935_840;

pub(crate) const NINE: u32 = 28_935_900;

pub(crate) const TEN: u32 = 28_935_960;

/// A start and its picks, with 0 for a leaf that is left out.
pub(crate) type Row<'a> = (u32, &'a [u32]);

/// Two leaves. The second may be left out at 08:00, and the first at 10:00. At 09:00 resource 1 is live alone.
const TWO_LEAVES: [Row; 10] = [
    (EIGHT, &[1]),
    (EIGHT, &[1, 2]),
    (EIGHT, &[1, 3]),
    (EIGHT, &[2]),
    (EIGHT, &[2, 0]),
    (NINE, &[1]),
    (NINE, &[2]),
    (NINE, &[2, 3]),
    (TEN, &[0]),
    (TEN, &[0, 1]),
];

fn picks_of(alloc: Global, numbers: &[u32]) -> Result<Picks, NoMemory> {
    let mut picks = Items::new(alloc);
    for number in numbers {
        picks.push(ResourceId::of(*number))?;
    }
    Ok(picks)
}

/// The position of a row; none where its start is outside of the horizon.
pub(crate) fn position_of(alloc: Global, row: Row) -> Result<Option<Position>, NoMemory> {
    let picks = picks_of(alloc, row.1)?;
    match Minute::of(row.0) {
        Some(start) => Ok(Some(Position { start, picks })),
        None => Ok(None),
    }
}

/// Adds the position of a row.
fn push_position(alloc: Global, row: Row, positions: &mut Items<Position>) -> Result<(), NoMemory> {
    match position_of(alloc, row)? {
        Some(position) => positions.push(position),
        None => Ok(()),
    }
}

/// A search from 08:00 on.
fn listed(
    lives: Items<Position>,
    choices: Items<Picks>,
    resources: u32,
) -> Result<Listed, NoMemory> {
    match Minute::of(EIGHT) {
        Some(earliest) => Ok(Listed {
            lives,
            earliest,
            leaves: choices.len(),
            choices,
            resources,
        }),
        None => Err(NoMemory),
    }
}

/// A search over ten positions of two leaves.
pub(crate) fn two_leaves(alloc: Global) -> Result<Listed, NoMemory> {
    let mut lives = Items::new(alloc);
    for row in &TWO_LEAVES {
        push_position(alloc, *row, &mut lives)?;
    }
    let mut choices = Items::new(alloc);
    choices.push(picks_of(alloc, &[1, 2, 0])?)?;
    choices.push(picks_of(alloc, &[1, 2, 3, 0])?)?;
    listed(lives, choices, 4)
}

/// A search of one leaf that forty resources can serve, all at 08:00.
pub(crate) fn forty_resources(alloc: Global) -> Result<Listed, NoMemory> {
    let mut lives = Items::new(alloc);
    let mut all = Items::new(alloc);
    for number in 1..41u32 {
        push_position(alloc, (EIGHT, &[number]), &mut lives)?;
        all.push(ResourceId::of(number))?;
    }
    let mut choices = Items::new(alloc);
    choices.push(all)?;
    listed(lives, choices, 40)
}

/// Nothing is laid and nothing was asked.
pub(crate) fn laid(alloc: Global) -> Laid
    ensures { result.picks.items ≡ [] }
{
    Laid {
        picks: Vec::new(alloc),
        asked: Cell::new(0),
    }
}
