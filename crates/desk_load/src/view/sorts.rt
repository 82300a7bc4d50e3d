//! How a resource takes load.
ghost use Rattle.std.specs.Prelude.{◌≡◌};
ghost use Rattle.desk_base.specs.meaning.Load.{sort_of, sort_of_kind};
ghost use Rattle.desk_base.specs.rows.Lookups.{KeysRise};
ghost use Rattle.desk_load.specs.Sorts.{Names};

use desk_base::{Kind, ResourceId, Tables};

/// How a resource takes load.
#[derive(Clone, Copy, Debug)]
pub enum Sort {
    Plain,
    Crew,
    Pool,
    Unknown,
}

fn sort_of_kind(kind: Kind) -> Sort
    ensures { Names result (sort_of_kind kind) }
{
    match kind {
        Kind::Crew => Sort::Crew,
        Kind::Pool => Sort::Pool,
        Kind::Generic => Sort::Plain,
        Kind::Contact => Sort::Plain,
        Kind::User => Sort::Plain,
        Kind::Equipment => Sort::Plain,
        Kind::Account => Sort::Plain,
        Kind::Facility => Sort::Plain,
    }
}

/// How the resource takes load; what is no resource is unknown.
pub fn sort_of(tables: &Tables, resource: ResourceId) -> Sort
    requires { KeysRise tables.now }
    ensures { Names result (sort_of tables.now resource) }
{
    match tables.resource(resource) {
        Some(row) => sort_of_kind(row.kind),
        None => Sort::Unknown,
    }
}
