//! How a pass goes in: it draws the next turn, waits until that turn is served, and takes the value.
ghost use Rattle.std.specs.Prelude.{◌≡◌, ◌<◌, [], ◌∷◌, false, Some, None, ℕ, IfSome, IfNone};
ghost use Rattle.desk_gate.specs.Rule.{IsConsistent};
ghost use Rattle.desk_gate.specs.Told.{Continues};
ghost use Rattle.desk_gate.specs.Views.{looked_at, drew, took};

use crate::counted::Counted;
use crate::gate::Gate;
use crate::limits::TURN_LIMIT;
use crate::pass::{Entered, Pass, Turn};
use crate::plays::{BeginsTurn, Draws, Looks, Takes};
use crate::rule::{DRAWN, FAULTS, GateSeat, SERVED};
use std::sync::Wait;

impl<V: Counted> Gate<V> {
    ghost use Rattle.desk_gate.specs.Passes.{view, IsOf, IsIn, IsSound, Starts, MatchEntered};

    /// The turn, or `None` where another caller drew first.
    fn try_draw(&self, seat: &mut GateSeat<V>, next: u64) -> Option<u64>
        requires gate { seat.old.table_id ≡ self.now.table.shared.table_id }
        requires rests { (seat.old.me.1 ≡ []) × (seat.old.me.0.turn ≡ None) × (seat.old.me.0.holds ≡ false) × (0 < seat.old.me.0.share) }
        requires room { next < TURN_LIMIT }
        ensures gate { seat.new.table_id ≡ seat.old.table_id }
        ensures own { IsConsistent V.author seat.new.me.0 }
        ensures drew { IfSome result (λ n. (n ≡ next) × (seat.new.me ≡ (drew n seat.old.me.0, []))) }
        ensures lost { IfNone result ((k : ℕ) × (seat.new.me ≡ (looked_at k seat.old.me.0, []))) }
    {
        let found = self
            .table
            .shared
            .compare_exchange::<Draws<V>>(seat, DRAWN, next, next + 1);
        if found == next { Some(next) } else { None }
    }

    /// The next turn, or `None` where all were drawn.
    fn draw<R: Wait>(&self, rt: &R, seat: &mut GateSeat<V>) -> Option<u64>
        requires gate { seat.old.table_id ≡ self.now.table.shared.table_id }
        requires rests { (seat.old.me.1 ≡ []) × (seat.old.me.0.turn ≡ None) × (seat.old.me.0.holds ≡ false) × (0 < seat.old.me.0.share) }
        ensures gate { seat.new.table_id ≡ seat.old.table_id }
        ensures drew { IfSome result (λ n. (n < TURN_LIMIT) × IsConsistent V.author seat.new.me.0 × (seat.new.me ≡ (drew n seat.old.me.0, []))) }
        ensures spent { IfNone result (IsConsistent V.author seat.new.me.0 × (seat.new.me ≡ (looked_at (TURN_LIMIT) seat.old.me.0, []))) }
    {
        for _ in rt.forever() {
            let next = self.table.shared.load::<Looks<V>>(seat, DRAWN);
            if next >= TURN_LIMIT {
                return None;
            }
            let drawn = self.try_draw(seat, next);
            if drawn.is_some() {
                return drawn;
            }
        }
        unreachable!()
    }

    /// The value, where it is the turn of the seat.
    fn take(&self, seat: &mut GateSeat<V>, turn: u64) -> Option<V>
        requires gate { seat.old.table_id ≡ self.now.table.shared.table_id }
        requires waits { (seat.old.me.1 ≡ []) × (seat.old.me.0.turn ≡ Some turn) × (seat.old.me.0.holds ≡ false) × (0 < seat.old.me.0.share) }
        ensures gate { seat.new.table_id ≡ seat.old.table_id }
        ensures took { IfSome result (λ v. (turn < TURN_LIMIT) × IsConsistent V.author seat.new.me.0 × Continues V.Counted seat.old.me.0 v × (seat.new.me ≡ (took (V.history v) (V.fault_count v) seat.old.me.0, (0, None) ∷ []))) }
        ensures not_yet { IfNone result (seat.new.me ≡ seat.old.me) }
    {
        let found = self.table.shared.load::<Takes<V>>(seat, SERVED);
        if found != turn {
            return None;
        }
        self.table.shared.exchange(seat, 0, None)
    }

    /// The value, as soon as it is the turn of the seat. Until then the caller sleeps on the number of served turns.
    fn wait<R: Wait>(&self, rt: &R, seat: &mut GateSeat<V>, turn: u64) -> V
        requires gate { seat.old.table_id ≡ self.now.table.shared.table_id }
        requires waits { (seat.old.me.1 ≡ []) × (seat.old.me.0.turn ≡ Some turn) × (seat.old.me.0.holds ≡ false) × (0 < seat.old.me.0.share) }
        ensures gate { seat.new.table_id ≡ seat.old.table_id }
        ensures took { (turn < TURN_LIMIT) × Continues V.Counted seat.old.me.0 result × (seat.new.me ≡ (took (V.history result) (V.fault_count result) seat.old.me.0, (0, None) ∷ [])) }
    {
        for _ in rt.forever() {
            if let Some(value) = self.take(seat, turn) {
                return value;
            }
            let served = self.table.shared.peek(SERVED);
            if served != turn {
                self.table
                    .shared
                    .park(rt, SERVED, (served % (1 << 32)) as u32);
            }
        }
        unreachable!()
    }

    /// A turn, with the value in hand: its history begins with all that the pass has seen, and is at least as long as the
    /// pass knows it to be. Waits until the turns that were drawn before are over.
    ///
    /// The pass comes back, unchanged but for its look, exactly where it found that all turns of the gate were drawn.
    pub fn enter<R: Wait>(&self, rt: &R, pass: Pass<V>) -> Entered<V>
        requires { IsOf self.now pass }
        ensures gate { MatchEntered result (λ t. IsIn self.now t) (λ p. IsOf self.now p) }
        ensures turn { MatchEntered result (λ t. Starts pass t) (λ _. Unit {0}) }
        ensures spent { MatchEntered result (λ _. Unit {0}) (λ p. (view p ≡ looked_at (TURN_LIMIT) (view pass)) × IsSound p) }
    {
        let Pass { mut seat, number } = pass;
        let Some(turn) = self.draw(rt, &mut seat) else {
            return Entered::Spent(Pass { seat, number });
        };
        let value = self.wait(rt, &mut seat, turn);
        self.table.shared.load::<BeginsTurn<V>>(&mut seat, FAULTS);
        let start = value.count();
        let number = match number {
            Some(number) => number,
            None => turn,
        };
        Entered::Turn(Turn {
            value,
            seat,
            number,
            turn,
            start,
        })
    }
}
