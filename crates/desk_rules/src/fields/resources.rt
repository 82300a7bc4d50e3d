//! The field rules of named rows, of resources, and of what resources have.
ghost use Rattle.std.specs.Prelude.{◌≡◌, is_some};
ghost use Rattle.desk_base.specs.meaning.Load.{sort_of_kind};
ghost use Rattle.desk_base.specs.rows.Lookups.{KeysRise};
ghost use Rattle.desk_base.specs.rules.Fields.{is_plain, keeps_kind, named_rules, rated_rules, resource_rules, same_bit, unrated_rules};
ghost use Rattle.desk_base.specs.rules.Rules.{first_broken};

use crate::fields::names::{is_name, is_within_range};
use desk_base::limits::{ID_LIMIT, RATING_LIMIT};
use desk_base::{Field, HasRow, NamedRow, ResourceRow, Tables};

/// A unit, site, role, characteristic or territory has an id and a name: the first of these rules that it breaks.
pub(crate) fn broken_named(row: &NamedRow) -> Option<Field>
    ensures { result ≡ first_broken (named_rules row.now) }
{
    if !is_within_range(1, ID_LIMIT, row.id) {
        Some(Field::Id)
    } else if !is_name(&row.name) {
        Some(Field::Name)
    } else {
        None
    }
}

/// The resource that stands under the same id, if any, has the same kind.
fn keeps_kind(tables: &Tables, resource: &ResourceRow) -> bool
    requires { KeysRise tables.now }
    ensures { result ≡ keeps_kind tables.now resource.now }
{
    match tables.resource(resource.id) {
        Some(old) => old.kind.number() == resource.kind.number(),
        None => true,
    }
}

/// It has a calendar exactly where it is plain.
fn has_due_calendar(resource: &ResourceRow) -> bool
    ensures { result ≡ same_bit (is_some resource.now.calendar) (is_plain (sort_of_kind resource.now.kind)) }
{
    resource.calendar.is_some() == resource.kind.is_plain()
}

/// The first rule that a resource breaks among these tables.
pub(crate) fn broken_resource(tables: &Tables, resource: &ResourceRow) -> Option<Field>
    requires { KeysRise tables.now }
    ensures { result ≡ first_broken (resource_rules tables.now resource.now) }
{
    if !is_name(&resource.name) {
        Some(Field::Name)
    } else if !keeps_kind(tables, resource) {
        Some(Field::Kind)
    } else if !has_due_calendar(resource) {
        Some(Field::Calendar)
    } else {
        None
    }
}

/// A role or a territory has no rating.
pub(crate) fn broken_unrated(row: &HasRow) -> Option<Field>
    ensures { result ≡ first_broken (unrated_rules row.now) }
{
    if row.rating == 0 {
        None
    } else {
        Some(Field::Rating)
    }
}

/// A characteristic has a rating.
pub(crate) fn broken_rated(row: &HasRow) -> Option<Field>
    ensures { result ≡ first_broken (rated_rules row.now) }
{
    if is_within_range(1, u32::from(RATING_LIMIT), u32::from(row.rating)) {
        None
    } else {
        Some(Field::Rating)
    }
}
