//! Requirement groups, from the fields of a body.
ghost use Rattle.std.specs.Prelude.{◌≡◌};
ghost use Rattle.serde_json.specs.View.{view};
ghost use Rattle.desk_json.specs.Faults.{IsRead};
ghost use Rattle.desk_json.specs.Tables.{grid_form, group_form};

use crate::faults::BodyError;
use crate::fields::{name_at, value_at};
use crate::trees::{Tree, tree_at};
use desk_base::{Field, GroupRow, Minute};
use serde_json::Value;
use std::alloc::Global;

#[tactic(auto, unfolding(crate::specs::Tables::grid_form))]
fn read_grid(body: &Value) -> Result<(Minute, Minute, u16), BodyError>
    ensures { result ≡ grid_form.read (view body.now) }
{
    let from = value_at(body, Field::From)?;
    let to = value_at(body, Field::To)?;
    let step = value_at(body, Field::Step)?;
    Ok((from, to, step))
}

/// A requirement group.
#[tactic(auto, unfolding(crate::specs::Tables::group_form))]
pub fn read_group(alloc: Global, body: &Value) -> Result<GroupRow, BodyError>
    ensures { IsRead (group_form.read (view body.now)) result }
{
    let id = value_at(body, Field::Id)?;
    let name = name_at(alloc, body, Field::Name)?;
    let (from, to, step) = read_grid(body)?;
    let Tree { nodes, leaves } = tree_at(alloc, body, Field::Tree)?;
    Ok(GroupRow {
        id,
        name,
        from,
        to,
        step,
        nodes,
        leaves,
    })
}
