//! What a pass does outside its turns: it reads the shared count, is split, and is joined.
ghost use Rattle.std.specs.Prelude.{◌≡◌, ◌<◌, ◌≤◌, ℕ, Some, IsOk, IfOk, IfErr};
ghost use Rattle.desk_gate.specs.Histories.{Begins, longer, shorter};
ghost use Rattle.desk_gate.specs.Views.{read, joined};

use crate::counted::Counted;
use crate::gate::Gate;
use crate::pass::Pass;
use crate::plays::{Adds, Cuts, Marks, Reads, Tells};
use crate::rule::{COUNT, DRAWN};

impl<V: Counted> Gate<V> {
    ghost use Rattle.desk_gate.specs.Passes.{view, IsOf, IsSound};
    ghost use Rattle.desk_gate.specs.Calls.{less_part, with_part};

    /// How many entries the shared history has, or had a moment ago: one read of the shared count. Waits for nobody, also while
    /// another caller has its turn, and takes no memory.
    ///
    /// The answer is at least what the pass knew, and is what the pass knows from then on.
    pub fn newest(&self, pass: &mut Pass<V>) -> u64
        requires { IsOf self.now pass.old }
        ensures gate { IsOf self.now pass.new }
        ensures view { view pass.new ≡ read result (view pass.old) }
        ensures least { (view pass.old).known ≤ result }
        ensures sound { IsSound pass.new }
    {
        self.table.shared.load::<Reads<V>>(&mut pass.seat, COUNT)
    }

    /// The pass with what is left of its share, and a new pass with the part (of `WHOLE_SHARE`). The new pass has seen
    /// what this one has, and has no number, no entry and no turn.
    ///
    /// # Errors
    ///
    /// None: the answer is always `Ok`, since no memory is taken. `Err` would give the pass back as it was.
    pub fn split(&self, pass: Pass<V>, part: u64) -> Result<(Pass<V>, Pass<V>), Pass<V>>
        requires gate { IsOf self.now pass }
        requires part { (1 ≤ part) × (part < (view pass).share) }
        ensures gate { IfOk result (λ r. IsOf self.now r.0 × IsOf self.now r.1) }
        ensures view { IfOk result (λ r. (view r.0 ≡ less_part part (view pass)) × (view r.1 ≡ with_part part (view pass))) }
        ensures sound { IfOk result (λ r. IsSound r.0 × IsSound r.1) }
        ensures back { IfErr result (λ p. p ≡ pass) }
        ensures splits { IsOk result }
    {
        let Pass { mut seat, number } = pass;
        self.table
            .shared
            .compare_exchange::<Marks<V>>(&mut seat, DRAWN, part, part);
        let other = self.table.shared.split_seat::<Cuts>(&mut seat);
        Ok((
            Pass { seat, number },
            Pass {
                seat: other,
                number: None,
            },
        ))
    }

    /// One pass of two, with the number of the first and the turns and shares of both. It has seen the longer history of the
    /// two, of which the shorter is a beginning. Takes no memory.
    pub fn join(&self, a: Pass<V>, b: Pass<V>) -> Pass<V>
        requires first { IsOf self.now a }
        requires second { IsOf self.now b }
        ensures gate { IsOf self.now result }
        ensures view { view result ≡ joined (view a) (view b) }
        ensures apart { (n : ℕ) → (view a).number ≡ Some n → (view b).number ≡ Some n → ⊥ }
        ensures line { Begins (shorter (view a).seen (view b).seen) (longer (view a).seen (view b).seen) }
        ensures sound { IsSound result }
    {
        let Pass { mut seat, number } = a;
        let Pass {
            seat: other,
            number: _,
        } = b;
        self.table.shared.join_seat::<Adds>(&mut seat, other);
        self.table.shared.load::<Tells<V>>(&mut seat, DRAWN);
        Pass { seat, number }
    }
}
