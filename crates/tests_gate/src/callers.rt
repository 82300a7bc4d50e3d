//! Callers on threads of their own, each with a pass of its own.
ghost use Rattle.std.specs.Prelude.{◌≡◌, IsSomeAnd, All};
ghost use Rattle.std.specs.Thread.{IsSync};
ghost use Rattle.desk_gate.specs.Passes.{view, IsOf};

use crate::ledger::{Ledger, make_note};
use desk_gate::{Gate, Pass};
use std::sync::Wait;
use std::thread;
use std::thread::Threads;

/// A caller, and how often it has noted.
#[derive(Drop)]
pub struct Caller {
    pub pass: Option<Pass<Ledger>>,
    pub name: u64,
    pub noted: u64,
}

/// The caller takes so many turns.
fn take_turns<R: Wait>(rt: &R, gate: &Gate<Ledger>, share: u64, caller: &mut Caller, times: u64)
    requires { IsSomeAnd caller.old.pass (λ p. IsOf gate.now p × ((view p).share ≡ share)) }
    ensures { IsSomeAnd caller.new.pass (λ p. IsOf gate.now p × ((view p).share ≡ share)) }
{
    for serial in 0..times {
        if let Some(pass) = caller.pass.take() {
            let (pass, noted) = make_note(rt, gate, pass, caller.name, serial);
            caller.pass = Some(pass);
            if noted {
                caller.noted = caller.noted.saturating_add(1);
            }
        }
    }
}

/// Each caller takes so many turns, on a thread of its own. Each pass keeps its share.
pub fn all_take_turns<R: Threads + Wait + Sync>(
    rt: &R,
    gate: &Gate<Ledger>,
    share: u64,
    callers: &mut [Caller],
    times: u64,
)
    requires { All (λ w. IsSomeAnd w.pass (λ p. IsOf gate.now p × ((view p).share ≡ share))) callers.old }
    ensures { All (λ w. IsSomeAnd w.pass (λ p. IsOf gate.now p × ((view p).share ≡ share))) callers.new }
{
    thread::for_each_mut(
        rt,
        callers,
        64,
        &|_, caller: &mut Caller|
            requires { IsSync R.row × IsSomeAnd caller.now.pass (λ p. IsOf gate.now p × ((view p).share ≡ share)) }
            ensures { IsSomeAnd caller.exit.now.pass (λ p. IsOf gate.entry.now p × ((view p).share ≡ share)) }
        { take_turns(rt, gate, share, caller, times) },
    );
}
