//! What a booking would take, whenever it is.
ghost use Rattle.std.specs.Prelude.{◌≡◌};
ghost use Rattle.desk_load.specs.Views.{demand_of};

use desk_base::{Ask, ResourceId};

/// So much effort of a resource, at each minute of whatever time.
#[derive(Clone, Copy, Debug)]
pub struct Demand {
    pub resource: ResourceId,
    pub effort: u32,
}

/// What an ask demands at each of its minutes.
pub fn demand_of(ask: &Ask) -> Demand
    ensures { result ≡ demand_of ask.now }
{
    Demand {
        resource: ask.resource,
        effort: ask.effort,
    }
}
