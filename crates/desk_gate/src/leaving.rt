//! How a turn ends: the count is raised, the faults are settled, the value goes back, and the next turn is served.
ghost use Rattle.std.specs.Prelude.{◌≡◌, ◌<◌, ◌≤◌, true, Some, length, IfSome};

use crate::counted::Counted;
use crate::gate::Gate;
use crate::pass::{Pass, Turn};
use crate::plays::{PassesOn, Raises, Settles};
use crate::rule::{COUNT, DRAWN, FAULTS, GateSeat, SERVED};

impl<V: Counted> Gate<V> {
    ghost use Rattle.desk_gate.specs.Passes.{held, number_of, IsOf, IsIn, IsSound, Ends};
    ghost use Rattle.desk_gate.specs.Calls.{Grows, Shows};

    /// The count is raised where the history in hand has grown.
    fn raise(&self, seat: &mut GateSeat<V>, number: u64, start: u64, count: u64, slot: &Option<V>)
        requires gate { seat.old.table_id ≡ self.now.table.shared.table_id }
        requires holds { (seat.old.me.0.holds ≡ true) × (seat.old.me.0.number ≡ Some number) × (0 < seat.old.me.0.share) × (seat.old.me.0.known ≤ start) }
        requires start { start ≡ length seat.old.me.0.hand }
        requires value { (v : V) × (slot.now ≡ Some v) × Grows V.author number seat.old.me.0.hand (V.history v) × (count ≡ length (V.history v)) }
        ensures gate { seat.new.table_id ≡ seat.old.table_id }
        ensures slot { seat.new.me.1 ≡ seat.old.me.1 }
        ensures shown { IfSome slot.now (λ v. Shows (V.history v) seat.old.me.0 seat.new.me.0) }
    {
        if count > start {
            self.table
                .shared
                .compare_exchange_with::<Raises<V>>(seat, COUNT, start, count, slot);
        }
    }

    /// Wakes those that wait, where a turn is drawn that is not over; waking is slow. A caller that draws after this look
    /// finds the turn that is served, and does not sleep.
    fn wake_waiting(&self, served: u64) {
        if self.table.shared.peek(DRAWN) != served {
            self.table.shared.wake_all(SERVED);
        }
    }

    /// Ends the turn: the value goes back, whose history has grown by at most one entry, of this pass, and the next turn
    /// begins. Waits for nobody and takes no memory.
    ///
    /// The pass has then seen the whole history, made the new entry, and has one turn more.
    pub fn leave(&self, turn: Turn<V>) -> Pass<V>
        requires gate { IsIn self.now turn }
        requires grows { Grows V.author (number_of turn) (held turn).hand (V.history turn.value) }
        requires origin { (held turn).origin ≡ Some (V.origin_of turn.value) }
        requires faults { (held turn).faults_before ≤ V.fault_count turn.value }
        ensures gate { IsOf self.now result }
        ensures turn { Ends turn result }
        ensures sound { IsSound result }
    {
        let Turn {
            value,
            mut seat,
            number,
            turn,
            start,
        } = turn;
        let count = value.count();
        let faults = value.faults();
        let slot = Some(value);
        self.raise(&mut seat, number, start, count, &slot);
        self.table
            .shared
            .fetch_max::<Settles<V>>(&mut seat, FAULTS, faults);
        let emptied = self.table.shared.exchange(&mut seat, 0, slot);
        let None = emptied else { unreachable!() };
        self.table
            .shared
            .store::<PassesOn<V>>(&mut seat, SERVED, turn + 1);
        self.wake_waiting(turn + 1);
        Pass {
            seat,
            number: Some(number),
        }
    }
}
