//! Whether all who are chosen are of one unit, or of one site.
ghost use Rattle.std.specs.Prelude.{◌≡◌, ◌<◌, ◌^◌, ◌+◌, ◌==◌, length, map};
ghost use Rattle.std.specs.List.{list_all};
ghost use Rattle.desk_base.specs.meaning.Picks.{choices_of, are_all_equal};
ghost use Rattle.desk_base.specs.rows.Lookups.{KeysRise};
ghost use Rattle.desk_need.specs.Marks.{mark_of};

use desk_base::{Leaf, ResourceId, Tables};

/// What resources may have in common: their unit, or their site.
#[derive(Clone, Copy, Debug, PartialEq, Eq)]
pub(crate) enum Mark {
    OfUnit,
    OfSite,
}

/// The number of the resource's unit or site; 0 of what is no resource.
fn mark_of(mark: Mark, tables: &Tables, id: ResourceId) -> u32
    requires { KeysRise tables.now }
    ensures { result ≡ mark_of mark tables.now id }
{
    match tables.resource(id) {
        Some(row) => match mark {
            Mark::OfUnit => row.unit.get(),
            Mark::OfSite => row.site.get(),
        },
        None => 0,
    }
}

/// Whether all who are chosen for these leaves have this unit or site.
fn each_has(
    mark: Mark,
    value: u32,
    tables: &Tables,
    number: usize,
    leaves: &[Leaf],
    picks: &[Option<ResourceId>],
) -> bool
    requires rise { KeysRise tables.now }
    requires few { number + length leaves.now < 2 ^ 64 }
    ensures { result ≡ list_all (λ y. y == value) (map (λ c. mark_of mark tables.now c.resource) (choices_of number leaves.now picks.now)) }
{
    match leaves {
        [] => true,
        [_, leaves @ ..] => match picks {
            [] => true,
            [None, picks @ ..] => each_has(mark, value, tables, number + 1, leaves, picks),
            [Some(id), picks @ ..] => {
                let first = mark_of(mark, tables, *id) == value;
                first && each_has(mark, value, tables, number + 1, leaves, picks)
            }
        },
    }
}

/// Whether all who are chosen for these leaves have one unit or site.
pub(crate) fn have_one(
    mark: Mark,
    tables: &Tables,
    number: usize,
    leaves: &[Leaf],
    picks: &[Option<ResourceId>],
) -> bool
    requires rise { KeysRise tables.now }
    requires few { number + length leaves.now < 2 ^ 64 }
    ensures { result ≡ are_all_equal (map (λ c. mark_of mark tables.now c.resource) (choices_of number leaves.now picks.now)) }
{
    match leaves {
        [] => true,
        [_, leaves @ ..] => match picks {
            [] => true,
            [None, picks @ ..] => have_one(mark, tables, number + 1, leaves, picks),
            [Some(id), picks @ ..] => {
                let value = mark_of(mark, tables, *id);
                each_has(mark, value, tables, number + 1, leaves, picks)
            }
        },
    }
}
