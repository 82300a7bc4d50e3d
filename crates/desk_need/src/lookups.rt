//! What a resource has, found by halving.
ghost use Rattle.std.specs.Prelude.{◌≡◌, ◌==◌, ◌&&◌, nat_le};
ghost use Rattle.std.specs.List.{list_any};
ghost use Rattle.desk_base.specs.declared.rows.resources.HasRow.{HasRow};
ghost use Rattle.desk_base.specs.meaning.Eligible.{has_role, has_rating, has_territory};
ghost use Rattle.desk_base.specs.rows.Lookups.{KeysRise};
ghost use Rattle.desk_base.specs.rows.Ranges.{Rise};

use desk_base::{HasRow, ResourceId, Tables, rows_at};

/// Whether one of the rows gives the resource the role or the territory of this number.
fn has(rows: &[HasRow], resource: u32, what: u32) -> bool
    requires { Rise (λ (h : HasRow). h.resource) (λ h. h.what) rows.now }
    ensures { result ≡ list_any (λ (h : HasRow). (h.resource == resource) && (h.what == what)) rows.now }
{
    let found = rows_at(rows, resource, what);
    found.len() != 0
}

/// Whether one of the rows has at least this rating.
fn reach(rows: &[HasRow], rating: u8) -> bool
    ensures { result ≡ list_any (λ h. nat_le rating h.rating) rows.now }
{
    rows.iter().any(|row| rating <= row.rating)
}

/// Whether one of the rows gives the resource the characteristic of this number, with at least this rating.
fn has_at_least(rows: &[HasRow], resource: u32, what: u32, rating: u8) -> bool
    requires { Rise (λ (h : HasRow). h.resource) (λ h. h.what) rows.now }
    ensures { result ≡ list_any (λ (h : HasRow). (h.resource == resource) && (h.what == what) && nat_le rating h.rating) rows.now }
{
    let found = rows_at(rows, resource, what);
    reach(found, rating)
}

/// Whether the resource has the role.
#[tactic(auto, using(desk_base::proofs::tables::Rising::has_roles_rise))]
pub(crate) fn has_role(tables: &Tables, id: ResourceId, role: u32) -> bool
    requires { KeysRise tables.now }
    ensures { result ≡ has_role tables.now id role }
{
    has(tables.has_roles.as_slice(), id.get(), role)
}

/// Whether the resource has the characteristic with at least this rating.
#[tactic(auto, using(desk_base::proofs::tables::Rising::has_characteristics_rise))]
pub(crate) fn has_rating(tables: &Tables, id: ResourceId, what: u32, rating: u8) -> bool
    requires { KeysRise tables.now }
    ensures { result ≡ has_rating tables.now id (what, rating) }
{
    has_at_least(
        tables.has_characteristics.as_slice(),
        id.get(),
        what,
        rating,
    )
}

/// Whether the resource has the territory.
#[tactic(auto, using(desk_base::proofs::tables::Rising::has_territories_rise))]
pub(crate) fn has_territory(tables: &Tables, id: ResourceId, territory: u32) -> bool
    requires { KeysRise tables.now }
    ensures { result ≡ has_territory tables.now id territory }
{
    has(tables.has_territories.as_slice(), id.get(), territory)
}
