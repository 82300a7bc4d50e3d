//! Leaves of a group's tree, as values.
ghost use Rattle.std.specs.Prelude.{◌≡◌, IfOk, OnOk, map, codes};
ghost use Rattle.serde_json.specs.View.{view, members_view};
ghost use Rattle.desk_json.specs.Values.{whole_number};
ghost use Rattle.desk_kept.specs.Values.{kind_data};
ghost use Rattle.desk_kept.specs.Leaves.{filled, rating_data, window_data, own_window, first_entries, middle_entries, last_entries, leaf_data, with_present, with_each};

use crate::names::kind_name;
use crate::values::pair_value;
use desk_base::{CharacteristicId, Id, Kind, Leaf, Window};
use desk_json::moment_value;
use serde_json::{Map, Value, push, put};
use std::alloc::{AllocError, Global};

// ---- lists

fn ids_values<K>(alloc: Global, ids: &[Id<K>]) -> Result<Vec<Value>, AllocError>
    ensures { IfOk result (λ values. map view values.items ≡ map whole_number ids.now) }
{
    let mut values = Vec::new(alloc);
    for id in ids {
        push(&mut values, Value::from(id.get()))?;
    }
    Ok(values)
}

fn kinds_values(alloc: Global, kinds: &[Kind]) -> Result<Vec<Value>, AllocError>
    ensures { IfOk result (λ values. map view values.items ≡ map kind_data kinds.now) }
{
    let mut values = Vec::new(alloc);
    for kind in kinds {
        push(
            &mut values,
            Value::String(String::from_str(alloc, kind_name(*kind))?),
        )?;
    }
    Ok(values)
}

fn rating_value(alloc: Global, id: CharacteristicId, rating: u8) -> Result<Value, AllocError>
    ensures { IfOk result (λ value. view value ≡ rating_data (id, rating)) }
{
    pair_value(alloc, Value::from(id.get()), Value::from(rating))
}

fn ratings_values(
    alloc: Global,
    ratings: &[(CharacteristicId, u8)],
) -> Result<Vec<Value>, AllocError>
    ensures { IfOk result (λ values. map view values.items ≡ map rating_data ratings.now) }
{
    let mut values = Vec::new(alloc);
    for (id, rating) in ratings {
        push(&mut values, rating_value(alloc, *id, *rating)?)?;
    }
    Ok(values)
}

fn window_value(alloc: Global, window: Window) -> Result<Value, AllocError>
    ensures { IfOk result (λ value. view value ≡ window_data window) }
{
    let from = moment_value(alloc, window.from)?;
    let to = moment_value(alloc, window.to)?;
    pair_value(alloc, from, to)
}

// ---- members

fn put_filled(
    members: &mut Map<String, Value>,
    alloc: Global,
    name: &str,
    values: Vec<Value>,
) -> Result<(), AllocError>
    ensures { OnOk result (members_view members.new.entries ≡ with_present name.now (filled (map view values.items)) (members_view members.old.entries)) }
{
    if values.is_empty() {
        return Ok(());
    }
    put(members, alloc, name, Value::Array(values))
}

fn put_ids<K>(
    members: &mut Map<String, Value>,
    alloc: Global,
    name: &str,
    ids: &[Id<K>],
) -> Result<(), AllocError>
    ensures { OnOk result (members_view members.new.entries ≡ with_present name.now (filled (map whole_number ids.now)) (members_view members.old.entries)) }
{
    let values = ids_values(alloc, ids)?;
    put_filled(members, alloc, name, values)
}

fn put_window(
    members: &mut Map<String, Value>,
    alloc: Global,
    window: Option<Window>,
) -> Result<(), AllocError>
    ensures { OnOk result (members_view members.new.entries ≡ with_present (codes "window") (own_window window) (members_view members.old.entries)) }
{
    match window {
        Some(window) => {
            let value = window_value(alloc, window)?;
            put(members, alloc, "window", value)
        }
        None => Ok(()),
    }
}

fn put_last(members: &mut Map<String, Value>, alloc: Global, leaf: &Leaf) -> Result<(), AllocError>
    ensures { OnOk result (members_view members.new.entries ≡ with_each (last_entries leaf.now) (members_view members.old.entries)) }
{
    put_window(members, alloc, leaf.window)?;
    put_ids(members, alloc, "units", leaf.units.as_slice())?;
    put_ids(members, alloc, "territories", leaf.territories.as_slice())
}

fn put_middle(
    members: &mut Map<String, Value>,
    alloc: Global,
    leaf: &Leaf,
) -> Result<(), AllocError>
    ensures { OnOk result (members_view members.new.entries ≡ with_each (middle_entries leaf.now) (members_view members.old.entries)) }
{
    let offset = leaf.offset;
    put_ids(members, alloc, "roles", leaf.roles.as_slice())?;
    put_ids(members, alloc, "restricted", leaf.restricted.as_slice())?;
    put_ids(members, alloc, "required", leaf.required.as_slice())?;
    put(members, alloc, "offset", Value::from(offset))
}

fn put_first(members: &mut Map<String, Value>, alloc: Global, leaf: &Leaf) -> Result<(), AllocError>
    ensures { OnOk result (members_view members.new.entries ≡ with_each (first_entries leaf.now) (members_view members.old.entries)) }
{
    let duration = leaf.duration;
    let effort = leaf.effort;
    let kinds = kinds_values(alloc, leaf.kinds.as_slice())?;
    put_filled(members, alloc, "kinds", kinds)?;
    put(members, alloc, "effort", Value::from(effort))?;
    put(members, alloc, "duration", Value::from(duration))?;
    let ratings = ratings_values(alloc, leaf.characteristics.as_slice())?;
    put_filled(members, alloc, "characteristics", ratings)
}

/// The value of a leaf.
pub(crate) fn leaf_value(alloc: Global, leaf: &Leaf) -> Result<Value, AllocError>
    ensures { IfOk result (λ value. view value ≡ leaf_data leaf.now) }
{
    let mut members = Map::new(alloc);
    put_last(&mut members, alloc, leaf)?;
    put_middle(&mut members, alloc, leaf)?;
    put_first(&mut members, alloc, leaf)?;
    Ok(Value::Object(members))
}
