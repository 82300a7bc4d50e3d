//! Why what a change names is not all there: the first row that is not, in the order of the change's fields.
ghost use Rattle.std.specs.Prelude.{◌≡◌, ◌∷◌, [], map};
ghost use Rattle.std.specs.Option.{option_to_list};
ghost use Rattle.desk_base.specs.rows.Keys.{id_key};
ghost use Rattle.desk_base.specs.asked.Refusing.{cited_by, picked, unknown_among};
ghost use Rattle.desk_base.specs.rules.Sound.{IsSound};
ghost use Rattle.desk_base.specs.rows.Rows.{citations_of};
ghost use Rattle.desk_base.specs.declared.rows.tables.Table.TheVariants.{Group, Resource};
ghost use Rattle.desk_base.specs.declared.rows.tables.AnyRow.TheVariants.{Group as GroupOf};

use desk_base::{Act, AnyRow, GroupId, GroupRow, Key, Refusal, ResourceId, Table, Tables};
use desk_rules::{first_unknown, first_unknown_of_group};

/// Why what the row names is not all there.
#[tactic(auto, using(crate::proofs::Ready::rise))]
fn unknown_of_row(tables: &Tables, row: &AnyRow) -> Option<Refusal>
    requires { IsSound tables.now }
    ensures { result ≡ unknown_among tables.now (citations_of row.now) }
{
    first_unknown(tables, row).map(Refusal::UnknownId)
}

/// Why what the leaves of a group list is not all there.
#[tactic(auto, using(crate::proofs::Ready::rise))]
fn unknown_of_group(tables: &Tables, group: &GroupRow) -> Option<Refusal>
    requires { IsSound tables.now }
    ensures { result ≡ unknown_among tables.now (citations_of (GroupOf group.now)) }
{
    first_unknown_of_group(tables, group).map(Refusal::UnknownId)
}

/// Why no row stands under the key.
#[tactic(auto, using(crate::proofs::Ready::rise))]
fn unknown_key(tables: &Tables, key: &Key) -> Option<Refusal>
    requires { IsSound tables.now }
    ensures { result ≡ unknown_among tables.now (key.now ∷ []) }
{
    if tables.contains(key) {
        None
    } else {
        Some(Refusal::UnknownId(*key))
    }
}

/// Why the resource that is picked is not there.
fn unknown_pick(tables: &Tables, pick: &Option<ResourceId>) -> Option<Refusal>
    requires { IsSound tables.now }
    ensures { result ≡ unknown_among tables.now (map (id_key Resource) (option_to_list pick.now)) }
{
    match pick {
        Some(id) => unknown_key(tables, &Key::of_id(Table::Resource, id.get())),
        None => None,
    }
}

/// Why the resources that are picked are not all there.
fn unknown_among_picks(tables: &Tables, picks: &[Option<ResourceId>]) -> Option<Refusal>
    requires { IsSound tables.now }
    ensures { result ≡ unknown_among tables.now (map (id_key Resource) (picked picks.now)) }
{
    for pick in picks {
        if let Some(why) = unknown_pick(tables, pick) {
            return Some(why);
        }
    }
    None
}

/// Why the group is not there.
fn unknown_group(tables: &Tables, group: GroupId) -> Option<Refusal>
    requires { IsSound tables.now }
    ensures { result ≡ unknown_among tables.now (id_key Group group ∷ []) }
{
    unknown_key(tables, &Key::of_id(Table::Group, group.get()))
}

/// Why the group or the resources that are picked are not all there.
#[tactic(auto, using(crate::proofs::Picking::unknown_cons))]
fn unknown_of_booking(
    tables: &Tables,
    group: GroupId,
    picks: &[Option<ResourceId>],
) -> Option<Refusal>
    requires { IsSound tables.now }
    ensures { result ≡ unknown_among tables.now (id_key Group group ∷ map (id_key Resource) (picked picks.now)) }
{
    match unknown_group(tables, group) {
        Some(why) => Some(why),
        None => unknown_among_picks(tables, picks),
    }
}

/// Why what the act names is not all there.
pub(crate) fn unknown(tables: &Tables, act: &Act) -> Option<Refusal>
    requires { IsSound tables.now }
    ensures { result ≡ unknown_among tables.now (cited_by act.now) }
{
    match act {
        Act::Put(row) => unknown_of_row(tables, row),
        Act::Remove(key) => unknown_key(tables, key),
        Act::PutGroup(group) => unknown_of_group(tables, group),
        Act::DropGroup(group) => unknown_group(tables, *group),
        Act::BookGroup { group, picks, .. } => {
            unknown_of_booking(tables, *group, picks.as_slice())
        }
        Act::MoveGroup { group, picks, .. } => {
            unknown_of_booking(tables, *group, picks.as_slice())
        }
        Act::CancelGroup(group) => unknown_group(tables, *group),
    }
}
