//! Which rules of a leaf a resource breaks.
ghost use Rattle.std.specs.Prelude.{◌≡◌, ◌==◌, length};
ghost use Rattle.std.specs.List.{list_any, list_all};
ghost use Rattle.desk_base.specs.meaning.Eligible.{kind_number, is_met, is_of_kind, has_role, has_rating, has_territory, eligibility, first_broken_rule};
ghost use Rattle.desk_base.specs.rows.Lookups.{KeysRise};
ghost use Rattle.desk_base.specs.rules.Rules.{first_broken};
ghost use Rattle.desk_need.specs.Eligibilities.{eligibility_of};

use crate::lookups::{has_rating, has_role, has_territory};
use desk_base::{
    CharacteristicId, Id, Kind, Leaf, LeafRule, ResourceId, ResourceRow, RoleId, Tables,
    TerritoryId, UnitId,
};

/// Whether a resource serves a leaf at some start, or the first rule of the leaf that it breaks. The rule of windows, which
/// rests on the start, is none of these.
#[derive(Clone, Copy, Debug, PartialEq, Eq)]
pub enum Eligibility {
    Yes,
    Broken(LeafRule),
}

fn is_one_of(kinds: &[Kind], kind: Kind) -> bool
    ensures { result ≡ list_any (λ k. kind_number k == kind_number kind) kinds.now }
{
    let wanted = kind.number();
    kinds.iter().any(|k| k.number() == wanted)
}

fn is_of_kind(leaf: &Leaf, row: &ResourceRow) -> bool
    ensures { result ≡ is_of_kind leaf.now row.now }
{
    leaf.kinds.len() == 0 || is_one_of(leaf.kinds.as_slice(), row.kind)
}

/// Whether the number is in the list.
pub(crate) fn is_listed<K>(list: &[Id<K>], id: Id<K>) -> bool
    ensures { result ≡ list_any (λ x. x == id) list.now }
{
    list.iter().any(|x| x.get() == id.get())
}

fn has_some_role(tables: &Tables, id: ResourceId, roles: &[RoleId]) -> bool
    requires { KeysRise tables.now }
    ensures { result ≡ list_any (has_role tables.now id) roles.now }
{
    roles.iter().any(|role| has_role(tables, id, role.get()))
}

fn has_roles(tables: &Tables, id: ResourceId, roles: &[RoleId]) -> bool
    requires { KeysRise tables.now }
    ensures { result ≡ is_met (has_role tables.now id) roles.now }
{
    roles.len() == 0 || has_some_role(tables, id, roles)
}

fn has_ratings(tables: &Tables, id: ResourceId, ratings: &[(CharacteristicId, u8)]) -> bool
    requires { KeysRise tables.now }
    ensures { result ≡ list_all (has_rating tables.now id) ratings.now }
{
    ratings
        .iter()
        .all(|c| has_rating(tables, id, c.0.get(), c.1))
}

fn has_some_territory(tables: &Tables, id: ResourceId, territories: &[TerritoryId]) -> bool
    requires { KeysRise tables.now }
    ensures { result ≡ list_any (has_territory tables.now id) territories.now }
{
    territories
        .iter()
        .any(|territory| has_territory(tables, id, territory.get()))
}

fn has_territories(tables: &Tables, id: ResourceId, territories: &[TerritoryId]) -> bool
    requires { KeysRise tables.now }
    ensures { result ≡ is_met (has_territory tables.now id) territories.now }
{
    territories.len() == 0 || has_some_territory(tables, id, territories)
}

fn is_of_unit(units: &[UnitId], unit: UnitId) -> bool
    ensures { result ≡ is_met (λ u. u == unit) units.now }
{
    units.len() == 0 || is_listed(units, unit)
}

fn has_required(required: &[ResourceId], id: ResourceId) -> bool
    ensures { result ≡ is_met (λ r. r == id) required.now }
{
    required.len() == 0 || is_listed(required, id)
}

/// The first rule of the leaf that the resource of this row breaks.
pub(crate) fn first_broken_by(tables: &Tables, leaf: &Leaf, row: &ResourceRow) -> Option<LeafRule>
    requires { KeysRise tables.now }
    ensures { result ≡ first_broken (eligibility tables.now leaf.now row.now) }
{
    if !is_of_kind(leaf, row) {
        return Some(LeafRule::Kind);
    }
    if !has_roles(tables, row.id, leaf.roles.as_slice()) {
        return Some(LeafRule::Role);
    }
    if !has_ratings(tables, row.id, leaf.characteristics.as_slice()) {
        return Some(LeafRule::Characteristic);
    }
    if !has_territories(tables, row.id, leaf.territories.as_slice()) {
        return Some(LeafRule::Territory);
    }
    if !is_of_unit(leaf.units.as_slice(), row.unit) {
        return Some(LeafRule::Unit);
    }
    if !has_required(leaf.required.as_slice(), row.id) {
        return Some(LeafRule::Required);
    }
    if is_listed(leaf.restricted.as_slice(), row.id) {
        return Some(LeafRule::Restricted);
    }
    None
}

/// The first rule of the leaf, but for its windows, that the resource breaks; `None` where it breaks none. What is no resource
/// is of no kind.
#[tactic(auto, unfolding(desk_base::specs::meaning::Eligible::first_broken_rule))]
pub(crate) fn first_broken_rule(tables: &Tables, leaf: &Leaf, id: ResourceId) -> Option<LeafRule>
    requires { KeysRise tables.now }
    ensures { result ≡ first_broken_rule tables.now leaf.now id }
{
    match tables.resource(id) {
        Some(row) => first_broken_by(tables, leaf, row),
        None => Some(LeafRule::Kind),
    }
}

/// Whether the resource serves the leaf, or the first rule that it breaks, but for the rule of windows. It takes no memory.
pub fn eligible(tables: &Tables, leaf: &Leaf, resource: ResourceId) -> Eligibility
    requires { KeysRise tables.now }
    ensures { result ≡ eligibility_of (first_broken_rule tables.now leaf.now resource) }
{
    match first_broken_rule(tables, leaf, resource) {
        Some(rule) => Eligibility::Broken(rule),
        None => Eligibility::Yes,
    }
}
