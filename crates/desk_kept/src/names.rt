//! The names of kinds.
ghost use Rattle.std.specs.Prelude.{◌≡◌};
ghost use Rattle.desk_kept.specs.Values.{kind_name};

use desk_base::Kind;

/// The name of a kind.
pub(crate) fn kind_name(kind: Kind) -> &'static str
    ensures { result.now ≡ kind_name kind }
{
    match kind {
        Kind::Generic => "generic",
        Kind::Contact => "contact",
        Kind::User => "user",
        Kind::Equipment => "equipment",
        Kind::Account => "account",
        Kind::Facility => "facility",
        Kind::Crew => "crew",
        Kind::Pool => "pool",
    }
}
