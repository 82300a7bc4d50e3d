//! What the chosen leaves of a group ask for.
ghost use Rattle.std.specs.Prelude.{◌≡◌, ◌++◌, ◌≤◌, ◌<◌, ◌+◌, ◌^◌, nat_le, length, map, true, IfOk, OnOk};
ghost use Rattle.std.specs.List.{list_all};
ghost use Rattle.desk_base.specs.rules.Limits.{end_of_minutes};
ghost use Rattle.desk_base.specs.meaning.Time.{leaf_time};
ghost use Rattle.desk_base.specs.meaning.Picks.{choices_of};
ghost use Rattle.desk_base.specs.search.Listing.{ask_for};

use desk_base::{Ask, Leaf, Minute, ResourceId};
use std::alloc::{AllocError, Global};

pub(crate) fn ask_for(start: Minute, leaf: &Leaf, id: ResourceId) -> Ask
    requires { (leaf_time leaf.now start).to ≤ end_of_minutes }
    ensures { result ≡ ask_for start (record { number = 0; leaf = leaf.now; resource = id }) }
{
    Ask {
        resource: id,
        window: leaf.time(start),
        effort: leaf.effort,
    }
}

/// Adds what each chosen leaf asks for.
fn push_asks(
    start: Minute,
    number: usize,
    leaves: &[Leaf],
    picks: &[Option<ResourceId>],
    asks: &mut Vec<Ask>,
) -> Result<(), AllocError>
    requires few { number + length leaves.now < 2 ^ 64 }
    requires end { list_all (λ c. nat_le (leaf_time c.leaf start).to end_of_minutes) (choices_of number leaves.now picks.now) ≡ true }
    ensures { OnOk result (asks.new.items ≡ asks.old.items ++ map (ask_for start) (choices_of number leaves.now picks.now)) }
{
    match leaves {
        [] => Ok(()),
        [leaf, leaves @ ..] => match picks {
            [] => Ok(()),
            [None, picks @ ..] => push_asks(start, number + 1, leaves, picks, asks),
            [Some(id), picks @ ..] => {
                asks.push(ask_for(start, leaf, *id))?;
                push_asks(start, number + 1, leaves, picks, asks)
            }
        },
    }
}

/// What the chosen leaves ask for from the start on.
pub fn new_asks(
    alloc: Global,
    start: Minute,
    leaves: &[Leaf],
    picks: &[Option<ResourceId>],
) -> Result<Vec<Ask>, AllocError>
    requires end { list_all (λ c. nat_le (leaf_time c.leaf start).to end_of_minutes) (choices_of 0 leaves.now picks.now) ≡ true }
    ensures { IfOk result (λ v. v.items ≡ map (ask_for start) (choices_of 0 leaves.now picks.now)) }
{
    let mut asks = Vec::new(alloc);
    push_asks(start, 0, leaves, picks, &mut asks)?;
    Ok(asks)
}
