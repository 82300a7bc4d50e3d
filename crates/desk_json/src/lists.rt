//! Lists of a body, and pairs.
ghost use Rattle.std.specs.Prelude.{◌≡◌, []};
ghost use Rattle.serde_json.specs.View.{view, items_view};
ghost use Rattle.desk_json.specs.Faults.{IsRead};
ghost use Rattle.desk_json.specs.Forms.{at, under_or};
ghost use Rattle.desk_json.specs.Lists.{each_in, list_in, pair_in};

use crate::faults::{BodyError, BodyRule};
use crate::fields::missing;
use crate::reading::Read;
use crate::words::field_name;
use desk_base::{CharacteristicId, Field, Items, Minute, Window};
use serde_json::Value;
use std::alloc::Global;

#[tactic(auto, unfolding(crate::specs::Lists::pair_in))]
fn read_pair<A: Read + Drop, B: Read + Drop>(
    value: &Value,
    field: Field,
) -> Result<(A, B), BodyError>
    ensures { result ≡ pair_in A.meant B.meant field (view value.now) }
{
    match (value.get(0), value.get(1), value.get(2)) {
        (Some(first), Some(second), None) => {
            let first = A::read(first, field)?;
            let second = B::read(second, field)?;
            Ok((first, second))
        }
        _ => Err(BodyError::Bad(BodyRule::Sort, field)),
    }
}

impl Read for (u32, i32) {
    ghost use Rattle.desk_json.specs.Lists.{shift_in};

    ghost meant = { shift_in };

    fn read(value: &Value, field: Field) -> Result<(u32, i32), BodyError> {
        let (from, ahead) = read_pair::<Minute, i32>(value, field)?;
        Ok((from.get(), ahead))
    }
}

impl Read for (CharacteristicId, u8) {
    ghost use Rattle.desk_json.specs.Lists.{rating_in};

    ghost meant = { rating_in };

    fn read(value: &Value, field: Field) -> Result<(CharacteristicId, u8), BodyError> {
        read_pair(value, field)
    }
}

impl Read for Window {
    ghost use Rattle.desk_json.specs.Lists.{window_in};

    ghost meant = { window_in };

    fn read(value: &Value, field: Field) -> Result<Window, BodyError> {
        let (from, to) = read_pair(value, field)?;
        Ok(Window { from, to })
    }
}

fn read_each<T: Read + Drop>(
    alloc: Global,
    values: &[Value],
    field: Field,
) -> Result<Items<T>, BodyError>
    ensures { IsRead (each_in (T.meant field) (items_view values.now)) result }
{
    let mut items = Items::new(alloc);
    for value in values {
        let item = T::read(value, field)?;
        items.push(item)?;
    }
    Ok(items)
}

#[tactic(auto, unfolding(crate::specs::Lists::list_in))]
fn read_list<T: Read + Drop>(
    alloc: Global,
    value: &Value,
    field: Field,
) -> Result<Items<T>, BodyError>
    ensures { IsRead (list_in T.meant field (view value.now)) result }
{
    match value.as_array() {
        Some(values) => read_each(alloc, values.as_slice(), field),
        None => Err(BodyError::Bad(BodyRule::Sort, field)),
    }
}

/// A list in a field.
#[tactic(auto, unfolding(crate::specs::Forms::under))]
pub(crate) fn list_at<T: Read + Drop>(
    alloc: Global,
    object: &Value,
    field: Field,
) -> Result<Items<T>, BodyError>
    ensures { IsRead (at field (list_in T.meant) (view object.now)) result }
{
    match object.get(field_name(field)) {
        Some(value) => read_list(alloc, value, field),
        None => Err(missing(field)),
    }
}

/// A list under a name, or an empty one where nothing stands under it.
#[tactic(auto, unfolding(crate::specs::Forms::under_or))]
pub(crate) fn list_under<T: Read + Drop>(
    alloc: Global,
    object: &Value,
    name: &str,
    field: Field,
) -> Result<Items<T>, BodyError>
    ensures { IsRead (under_or [] name.now field (list_in T.meant) (view object.now)) result }
{
    match object.get(name) {
        Some(value) => read_list(alloc, value, field),
        None => Ok(Items::new(alloc)),
    }
}
