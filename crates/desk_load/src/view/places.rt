//! Where bookings that are laid one after another are above the room.
ghost use Rattle.std.specs.Prelude.{◌≡◌, ◌++◌, ◌≤◌, ◌+◌, length, take, [], IfOk, Some};
ghost use Rattle.desk_base.specs.meaning.Load.{Fits};
ghost use Rattle.desk_load.specs.Clashes.{is_before, earlier, after_probe, IsFirstOver};
ghost use Rattle.desk_load.specs.Views.{other_asks};

use crate::view::free::FreeView;
use crate::view::probe::Probe;
use desk_base::{Ask, NoMemory, ResourceId};

/// A resource at a minute.
#[derive(Clone, Copy, Debug)]
pub struct Place {
    pub resource: ResourceId,
    pub minute: u32,
}

/// Whether the first place comes before the second.
fn is_before(first: &Place, second: &Place) -> bool
    ensures { result ≡ is_before first.now second.now }
{
    first.minute < second.minute
        || first.minute == second.minute && first.resource.get() < second.resource.get()
}

/// The earlier of a place and of one that was found before.
pub fn earlier(found: Option<Place>, place: Place) -> Place
    ensures { result ≡ earlier found place }
{
    match found {
        Some(before) => {
            if is_before(&place, &before) {
                place
            } else {
                before
            }
        }
        None => place,
    }
}

/// The first place that is known after a probe.
fn after_probe(found: Option<Place>, probe: Probe) -> Option<Place>
    ensures { result ≡ after_probe found probe }
{
    match probe {
        Probe::Short { resource, minute } => Some(earlier(found, Place { resource, minute })),
        Probe::Free => found,
    }
}

impl FreeView<'_> {
    /// Lays the bookings one after another, and finds the first place at which all of them are above the room.
    pub(crate) fn lay_all(&mut self, asks: &[Ask]) -> Result<Option<Place>, NoMemory>
        requires fits { Fits self.old.tables (other_asks self.old.tables self.old.without) }
        requires nothing { self.old.overlay ≡ [] }
        ensures tables { self.new.tables ≡ self.old.tables }
        ensures without { self.new.without ≡ self.old.without }
        ensures laid { IfOk result (λ p. self.new.overlay ≡ asks.now) }
        ensures first { IfOk result (λ p. IsFirstOver self.old.tables (other_asks self.old.tables self.old.without ++ asks.now) p) }
    {
        let mut found = None;
        for ask in asks {
            found = after_probe(found, self.look_for_room(ask));
            self.overlay_push(ask)?;
        }
        Ok(found)
    }
}
