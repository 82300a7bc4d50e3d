//! Whether bookings fit together, tried one after another on a view.
ghost use Rattle.std.specs.Prelude.{◌≡◌, ◌++◌, ◌+◌, ◌-◌, ◌≤◌, true, false, length, take, [], IfOk};
ghost use Rattle.desk_base.specs.meaning.Load.{Fits};
ghost use Rattle.desk_base.specs.rules.Limits.{first_minute, end_of_minutes};
ghost use Rattle.desk_load.specs.Views.{other_asks};

use desk_base::{Ask, NoMemory, Steps};
use desk_load::laws::{fitting_bookings_are_free, free_bookings_fit};
use desk_load::{FreeView, Probe};
use std::sync::ledger::Ledger;

// The times of an ask are minutes of the horizon.
pub(crate) fn in_horizon(ask: &Ask)
    ensures begin { first_minute ≤ ask.now.window.from }
    ensures end { ask.now.window.to ≤ end_of_minutes }
{
    let _from = ask.window.from.get();
    let _to = ask.window.to.get();
}

/// Lays the bookings one after another, as long as each is free: whether all were. One step each.
fn lay_free<L: Ledger>(
    view: &mut FreeView<'_>,
    asks: &[Ask],
    steps: &mut Steps<L>,
) -> Result<bool, NoMemory>
    requires fits { Fits view.old.tables (other_asks view.old.tables view.old.without) }
    requires nothing { view.old.overlay ≡ [] }
    ensures tables { view.new.tables ≡ view.old.tables }
    ensures without { view.new.without ≡ view.old.without }
    ensures few { length view.new.overlay ≤ length asks.now }
    ensures free { IfOk result (λ all. all ≡ true → Fits view.old.tables (other_asks view.old.tables view.old.without ++ asks.now)) }
    ensures short { IfOk result (λ all. all ≡ false → Fits view.old.tables (other_asks view.old.tables view.old.without ++ asks.now) → ⊥) }
    ensures steps { steps.new ≤ steps.old + length asks.now }
{
    free_bookings_fit();
    fitting_bookings_are_free();
    for ask in asks {
        in_horizon(ask);
        match view.probe(ask, steps) {
            Probe::Free => view.overlay_push(ask)?,
            Probe::Short { .. } => return Ok(false),
        }
    }
    Ok(true)
}

/// Takes so many bookings off the view.
fn take_off(view: &mut FreeView<'_>, count: usize)
    ensures tables { view.new.tables ≡ view.old.tables }
    ensures without { view.new.without ≡ view.old.without }
    ensures rest { view.new.overlay ≡ take (length view.old.overlay - count) view.old.overlay }
{
    for _ in 0..count {
        view.overlay_pop();
    }
}

/// Whether the bookings fit with those of others, which fit by themselves. The view is as before. One step each.
pub fn do_fit<L: Ledger>(
    view: &mut FreeView<'_>,
    asks: &[Ask],
    steps: &mut Steps<L>,
) -> Result<bool, NoMemory>
    requires fits { Fits view.old.tables (other_asks view.old.tables view.old.without) }
    requires nothing { view.old.overlay ≡ [] }
    ensures view { view.new ≡ view.old }
    ensures fit { IfOk result (λ all. all ≡ true → Fits view.old.tables (other_asks view.old.tables view.old.without ++ asks.now)) }
    ensures not { IfOk result (λ all. all ≡ false → Fits view.old.tables (other_asks view.old.tables view.old.without ++ asks.now) → ⊥) }
    ensures steps { steps.new ≤ steps.old + length asks.now }
{
    let answer = lay_free(view, asks, steps);
    take_off(view, asks.len());
    answer
}
