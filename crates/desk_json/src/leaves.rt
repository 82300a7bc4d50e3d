//! The leaf of a tree.
ghost use Rattle.std.specs.Prelude.{◌≡◌};
ghost use Rattle.serde_json.specs.View.{view};
ghost use Rattle.desk_json.specs.Faults.{IsRead};
ghost use Rattle.desk_json.specs.TreeReading.{amounts_form, kinds_form, roles_form, characteristics_form, territories_form, units_form, required_form, restricted_form, traits_form, places_form, choices_form, own_window_form, leaf_form, leaf_in};

use crate::faults::{BodyError, BodyRule};
use crate::fields::{Names, has_only, u32_or_0_under, value_under};
use crate::lists::list_under;
use crate::reading::Read;
use desk_base::{Field, Kinds, Leaf, Ratings, Resources, Roles, Territories, Units, Window};
use serde_json::Value;
use std::alloc::Global;

#[tactic(auto, unfolding(crate::specs::TreeReading::amounts_form))]
fn read_amounts(leaf: &Value, field: Field) -> Result<(u32, u32, u32), BodyError>
    ensures { result ≡ (amounts_form field).read (view leaf.now) }
{
    let duration = value_under(leaf, "duration", field)?;
    let offset = u32_or_0_under(leaf, "offset", field)?;
    let effort = value_under(leaf, "effort", field)?;
    Ok((duration, offset, effort))
}

#[tactic(auto, unfolding(crate::specs::TreeReading::kinds_form))]
fn read_kinds(alloc: Global, leaf: &Value, field: Field) -> Result<Kinds, BodyError>
    ensures { IsRead ((kinds_form field).read (view leaf.now)) result }
{
    list_under(alloc, leaf, "kinds", field)
}

#[tactic(auto, unfolding(crate::specs::TreeReading::roles_form))]
fn read_roles(alloc: Global, leaf: &Value, field: Field) -> Result<Roles, BodyError>
    ensures { IsRead ((roles_form field).read (view leaf.now)) result }
{
    list_under(alloc, leaf, "roles", field)
}

#[tactic(auto, unfolding(crate::specs::TreeReading::characteristics_form))]
fn read_characteristics(alloc: Global, leaf: &Value, field: Field) -> Result<Ratings, BodyError>
    ensures { IsRead ((characteristics_form field).read (view leaf.now)) result }
{
    list_under(alloc, leaf, "characteristics", field)
}

#[tactic(auto, unfolding(crate::specs::TreeReading::territories_form))]
fn read_territories(alloc: Global, leaf: &Value, field: Field) -> Result<Territories, BodyError>
    ensures { IsRead ((territories_form field).read (view leaf.now)) result }
{
    list_under(alloc, leaf, "territories", field)
}

#[tactic(auto, unfolding(crate::specs::TreeReading::units_form))]
fn read_units(alloc: Global, leaf: &Value, field: Field) -> Result<Units, BodyError>
    ensures { IsRead ((units_form field).read (view leaf.now)) result }
{
    list_under(alloc, leaf, "units", field)
}

#[tactic(auto, unfolding(crate::specs::TreeReading::required_form))]
fn read_required(alloc: Global, leaf: &Value, field: Field) -> Result<Resources, BodyError>
    ensures { IsRead ((required_form field).read (view leaf.now)) result }
{
    list_under(alloc, leaf, "required", field)
}

#[tactic(auto, unfolding(crate::specs::TreeReading::restricted_form))]
fn read_restricted(alloc: Global, leaf: &Value, field: Field) -> Result<Resources, BodyError>
    ensures { IsRead ((restricted_form field).read (view leaf.now)) result }
{
    list_under(alloc, leaf, "restricted", field)
}

#[tactic(auto, unfolding(crate::specs::TreeReading::traits_form))]
fn read_traits(
    alloc: Global,
    leaf: &Value,
    field: Field,
) -> Result<(Kinds, Roles, Ratings), BodyError>
    ensures { IsRead ((traits_form field).read (view leaf.now)) result }
{
    let kinds = read_kinds(alloc, leaf, field)?;
    let roles = read_roles(alloc, leaf, field)?;
    let characteristics = read_characteristics(alloc, leaf, field)?;
    Ok((kinds, roles, characteristics))
}

#[tactic(auto, unfolding(crate::specs::TreeReading::places_form))]
fn read_places(alloc: Global, leaf: &Value, field: Field) -> Result<(Territories, Units), BodyError>
    ensures { IsRead ((places_form field).read (view leaf.now)) result }
{
    let territories = read_territories(alloc, leaf, field)?;
    let units = read_units(alloc, leaf, field)?;
    Ok((territories, units))
}

#[tactic(auto, unfolding(crate::specs::TreeReading::choices_form))]
fn read_choices(
    alloc: Global,
    leaf: &Value,
    field: Field,
) -> Result<(Resources, Resources), BodyError>
    ensures { IsRead ((choices_form field).read (view leaf.now)) result }
{
    let required = read_required(alloc, leaf, field)?;
    let restricted = read_restricted(alloc, leaf, field)?;
    Ok((required, restricted))
}

#[tactic(auto, unfolding(crate::specs::TreeReading::own_window_form, crate::specs::Forms::under_or))]
fn read_own_window(leaf: &Value, field: Field) -> Result<Option<Window>, BodyError>
    ensures { result ≡ (own_window_form field).read (view leaf.now) }
{
    match leaf.get("window") {
        Some(value) => {
            let window = Window::read(value, field)?;
            Ok(Some(window))
        }
        None => Ok(None),
    }
}

#[tactic(auto, unfolding(crate::specs::TreeReading::leaf_form))]
fn read_leaf_fields(alloc: Global, leaf: &Value, field: Field) -> Result<Leaf, BodyError>
    ensures { IsRead ((leaf_form field).read (view leaf.now)) result }
{
    let (duration, offset, effort) = read_amounts(leaf, field)?;
    let (kinds, roles, characteristics) = read_traits(alloc, leaf, field)?;
    let (territories, units) = read_places(alloc, leaf, field)?;
    let (required, restricted) = read_choices(alloc, leaf, field)?;
    let window = read_own_window(leaf, field)?;
    Ok(Leaf {
        duration,
        offset,
        effort,
        kinds,
        roles,
        characteristics,
        territories,
        units,
        required,
        restricted,
        window,
    })
}

/// The names of a leaf's fields, in order.
const LEAF_NAMES: Names = Names {
    head: &[],
    key: &[],
    others: &[
        "duration",
        "offset",
        "effort",
        "kinds",
        "roles",
        "characteristics",
        "territories",
        "units",
        "required",
        "restricted",
        "window",
    ],
};

/// A leaf, where each fault names a field.
#[tactic(auto, unfolding(crate::specs::TreeReading::leaf_in, crate::specs::TreeReading::leaf_form, crate::specs::TreeReading::amounts_form, crate::specs::TreeReading::kinds_form, crate::specs::TreeReading::roles_form, crate::specs::TreeReading::characteristics_form, crate::specs::TreeReading::territories_form, crate::specs::TreeReading::units_form, crate::specs::TreeReading::required_form, crate::specs::TreeReading::restricted_form, crate::specs::TreeReading::traits_form, crate::specs::TreeReading::places_form, crate::specs::TreeReading::choices_form, crate::specs::TreeReading::own_window_form))]
pub(crate) fn read_leaf(alloc: Global, leaf: &Value, field: Field) -> Result<Leaf, BodyError>
    ensures { IsRead (leaf_in field (view leaf.now)) result }
{
    let read = read_leaf_fields(alloc, leaf, field)?;
    if has_only(leaf, &LEAF_NAMES) {
        Ok(read)
    } else {
        Err(BodyError::Bad(BodyRule::Unknown, field))
    }
}
