//! Whether some crew has all who are chosen.
ghost use Rattle.std.specs.Prelude.{◌≡◌, ℕ, List, false, ◌<◌, ◌^◌, ◌+◌, ◌==◌, ◌++◌, ◌∷◌, [], length, map, filter, IfOk, OnOk, if◌then◌else◌};
ghost use Rattle.std.specs.List.{list_any, list_all};
ghost use Rattle.desk_base.specs.declared.rows.resources.ResourceRow.{ResourceRow};
ghost use Rattle.desk_base.specs.declared.rows.tables.Tables.{Tables};
ghost use Rattle.desk_base.specs.meaning.Picks.{choices_of, is_in_crew, have_one_crew};
ghost use Rattle.desk_base.specs.rows.Lookups.{KeysRise};
ghost use Rattle.desk_need.specs.Crews.{is_crew_row, crews_of, AreCrewsFor};

use crate::same::covers::is_member_throughout;
use desk_base::{Kind, Leaf, Node, ResourceId, ResourceRow, Same, Tables};
use std::alloc::{AllocError, Global};

#[tactic(auto, unfolding(crate::specs::Crews::is_crew_row))]
fn is_crew_row(row: &ResourceRow) -> bool
    ensures { result ≡ is_crew_row row.now }
{
    match row.kind {
        Kind::Generic => false,
        Kind::Contact => false,
        Kind::User => false,
        Kind::Equipment => false,
        Kind::Account => false,
        Kind::Facility => false,
        Kind::Crew => true,
        Kind::Pool => false,
    }
}

/// Adds the number of the row, where it is of a crew.
fn push_crew(row: &ResourceRow, out: &mut Vec<ResourceId>) -> Result<(), AllocError>
    ensures { OnOk result (out.new.items ≡ out.old.items ++ (if is_crew_row row.now then row.now.id ∷ [] else [])) }
{
    if is_crew_row(row) {
        out.push(row.id)?;
    }
    Ok(())
}

fn crews_among(alloc: Global, rows: &[ResourceRow]) -> Result<Vec<ResourceId>, AllocError>
    ensures { IfOk result (λ v. v.items ≡ map (λ (x : ResourceRow). x.id) (filter is_crew_row rows.now)) }
{
    let mut out = Vec::new(alloc);
    for row in rows {
        push_crew(row, &mut out)?;
    }
    Ok(out)
}

/// The crews of a schedule, rising.
fn all_crews(alloc: Global, tables: &Tables) -> Result<Vec<ResourceId>, AllocError>
    ensures { IfOk result (λ v. v.items ≡ crews_of tables.now) }
{
    crews_among(alloc, tables.resources.as_slice())
}

/// Whether one of the nodes asks that those who are chosen are of one crew.
fn ask_for_crew(nodes: &[Node]) -> bool
    ensures { (t : Tables) (crews : List ℕ) → result ≡ false → AreCrewsFor t nodes.now crews }
{
    match nodes {
        [] => false,
        [node, others @ ..] => match node.same {
            Same::Crew => true,
            _ => ask_for_crew(others),
        },
    }
}

/// The crews that the nodes need: all of the schedule, rising, where a node asks for a crew, and else none. Only where one does are
/// the resources walked.
pub fn crews_for(
    alloc: Global,
    tables: &Tables,
    nodes: &[Node],
) -> Result<Vec<ResourceId>, AllocError>
    ensures { IfOk result (λ v. AreCrewsFor tables.now nodes.now v.items) }
{
    if ask_for_crew(nodes) {
        all_crews(alloc, tables)
    } else {
        Ok(Vec::new(alloc))
    }
}

/// Whether each chosen resource is a member of the crew at every minute of its leaf.
fn are_members(
    tables: &Tables,
    start: u32,
    crew: ResourceId,
    number: usize,
    leaves: &[Leaf],
    picks: &[Option<ResourceId>],
) -> bool
    requires rise { KeysRise tables.now }
    requires few { number + length leaves.now < 2 ^ 64 }
    ensures { result ≡ list_all (is_in_crew tables.now start crew) (choices_of number leaves.now picks.now) }
{
    match leaves {
        [] => true,
        [leaf, leaves @ ..] => match picks {
            [] => true,
            [None, picks @ ..] => are_members(tables, start, crew, number + 1, leaves, picks),
            [Some(id), picks @ ..] => {
                let first = is_member_throughout(tables, start, crew, leaf, *id);
                first && are_members(tables, start, crew, number + 1, leaves, picks)
            }
        },
    }
}

/// Whether nothing is chosen for these leaves.
fn is_none_chosen(number: usize, leaves: &[Leaf], picks: &[Option<ResourceId>]) -> bool
    requires { number + length leaves.now < 2 ^ 64 }
    ensures { result ≡ (length (choices_of number leaves.now picks.now) == 0) }
{
    match leaves {
        [] => true,
        [_, leaves @ ..] => match picks {
            [] => true,
            [None, picks @ ..] => is_none_chosen(number + 1, leaves, picks),
            [Some(_), ..] => false,
        },
    }
}

/// Whether one of the crews has all who are chosen for these leaves.
fn has_crew(
    tables: &Tables,
    crews: &[ResourceId],
    start: u32,
    number: usize,
    leaves: &[Leaf],
    picks: &[Option<ResourceId>],
) -> bool
    requires rise { KeysRise tables.now }
    requires few { number + length leaves.now < 2 ^ 64 }
    ensures { result ≡ list_any (λ g. list_all (is_in_crew tables.now start g) (choices_of number leaves.now picks.now)) crews.now }
{
    crews.iter().any(|crew| are_members(tables, start, *crew, number, leaves, picks))
}

/// The same of all crews, but where nothing is chosen no crew is needed.
pub(crate) fn have_one_crew(
    tables: &Tables,
    crews: &[ResourceId],
    start: u32,
    number: usize,
    leaves: &[Leaf],
    picks: &[Option<ResourceId>],
) -> bool
    requires rise { KeysRise tables.now }
    requires all { crews.now ≡ crews_of tables.now }
    requires few { number + length leaves.now < 2 ^ 64 }
    ensures { result ≡ have_one_crew tables.now start (choices_of number leaves.now picks.now) }
{
    let nobody = is_none_chosen(number, leaves, picks);
    nobody || has_crew(tables, crews, start, number, leaves, picks)
}
