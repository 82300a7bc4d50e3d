//! Why a request is no command.
use desk_base::{Field, NoMemory};
use desk_json::BodyRule;
use desk_wire::Allow;
use std::alloc::AllocError;

/// A parameter of a request.
#[derive(Clone, Copy, Debug, PartialEq, Eq)]
pub enum Parameter {
    /// The number in the path.
    Id,
    Limit,
    After,
    At,
    From,
    To,
    Per,
    /// A name that the route does not have.
    Other,
}

/// The first rule of the interface that a request breaks.
#[derive(Clone, Copy, Debug)]
pub enum WebRefusal {
    /// The path is of no route.
    NoRoute,
    /// The route has this method alone (GET stands for HEAD too).
    WrongMethod(Allow),
    /// A parameter is not of its form, is given twice, or is none of the route's.
    BadParameter(Parameter),
    /// The value of `after` is no cursor.
    BadCursor,
    /// The first fault of a body.
    BadBody(BodyRule, Field),
    /// The route is not built yet.
    NotBuilt,
}

/// Why a request, or a part of one, is not read.
#[derive(Clone, Copy, Debug)]
pub(crate) enum Fault {
    Refused(WebRefusal),
    NoMemory,
}

impl From<AllocError> for Fault {
    ghost use Rattle.std.specs.Prelude.{◌≡◌};
    ghost use Rattle.desk_route.specs.declared.refusals.Fault.TheVariants as fault;

    ghost from_gives = { λ _ e. e ≡ fault.NoMemory };

    fn from(_error: AllocError) -> Fault {
        Fault::NoMemory
    }
}

impl From<NoMemory> for Fault {
    ghost use Rattle.std.specs.Prelude.{◌≡◌};
    ghost use Rattle.desk_route.specs.declared.refusals.Fault.TheVariants as fault;

    ghost from_gives = { λ _ e. e ≡ fault.NoMemory };

    fn from(_error: NoMemory) -> Fault {
        Fault::NoMemory
    }
}
