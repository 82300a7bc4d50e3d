//! Whether each chosen resource serves its leaf.
ghost use Rattle.std.specs.Prelude.{◌≡◌, ◌+◌, ◌<◌, ◌^◌, length, option_map, None, Some, if◌then◌else◌};
ghost use Rattle.desk_base.specs.declared.asked.rules.LeafRule.TheVariants.{Window as Outside};
ghost use Rattle.desk_base.specs.meaning.Eligible.{is_in_windows, first_broken_at};
ghost use Rattle.desk_base.specs.meaning.Picks.{choices_of};
ghost use Rattle.desk_base.specs.rows.Lookups.{KeysRise};
ghost use Rattle.desk_base.specs.search.Verdicts.{first_unserved};
ghost use Rattle.desk_feasible.specs.Broken.{unserved_as};

use crate::broken::Broken;
use desk_base::{GroupRow, Leaf, LeafNo, LeafRule, ResourceId, Tables};
use desk_need::{Eligibility, eligible, is_in_windows};

fn window_rule(group: &GroupRow, leaf: &Leaf, start: u32) -> Option<LeafRule>
    ensures { result ≡ (if is_in_windows group.now leaf.now start then None else Some Outside) }
{
    if is_in_windows(group, leaf, start) {
        None
    } else {
        Some(LeafRule::Window)
    }
}

/// The first rule of the leaf that the resource breaks where its group starts at this minute; `None` where it breaks none. Last
/// come the windows.
fn first_broken_at(
    tables: &Tables,
    group: &GroupRow,
    leaf: &Leaf,
    start: u32,
    id: ResourceId,
) -> Option<LeafRule>
    requires { KeysRise tables.now }
    ensures { result ≡ first_broken_at tables.now group.now leaf.now start id }
{
    match eligible(tables, leaf, id) {
        Eligibility::Broken(rule) => Some(rule),
        Eligibility::Yes => window_rule(group, leaf, start),
    }
}

/// The first chosen leaf that is not served, of leaves that are numbered from `number` on.
pub fn first_unserved(
    tables: &Tables,
    group: &GroupRow,
    start: u32,
    number: LeafNo,
    leaves: &[Leaf],
    picks: &[Option<ResourceId>],
) -> Option<Broken>
    requires rise { KeysRise tables.now }
    requires few { number + length leaves.now < 2 ^ 8 }
    ensures { result ≡ option_map unserved_as (first_unserved tables.now group.now start (choices_of number leaves.now picks.now)) }
{
    match leaves {
        [] => None,
        [leaf, leaves @ ..] => match picks {
            [] => None,
            [None, picks @ ..] => first_unserved(tables, group, start, number + 1, leaves, picks),
            [Some(id), picks @ ..] => match first_broken_at(tables, group, leaf, start, *id) {
                Some(rule) => Some(Broken::NotEligible(number, *id, rule)),
                None => first_unserved(tables, group, start, number + 1, leaves, picks),
            },
        },
    }
}
