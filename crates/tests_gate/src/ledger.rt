//! The shared value of the tests: a ledger of notes.
ghost use Rattle.std.specs.Prelude.{◌≡◌, [], IfOk};
ghost use Rattle.desk_gate.specs.Passes.{view, IsOf};
ghost use Rattle.desk_gate.specs.Views.{newcomer};

use desk_gate::{Counted, Entered, Gate, Pass};
use std::alloc::{AllocError, Global};
use std::sync::Wait;

/// What a caller notes in one turn: the number of its pass, its own name, and how often it has noted before.
#[derive(Clone, Copy)]
pub struct Note {
    pub by: u64,
    pub caller: u64,
    pub serial: u64,
}

#[derive(Drop)]
pub struct Ledger {
    pub notes: Vec<Note>,
}

impl Counted for Ledger {
    type Entry = Note;

    type Origin = ();

    ghost history = { λ l. l.notes.items };

    ghost author = { λ n. n.by };

    ghost origin_of = { λ _. tt };

    ghost fault_count = { λ _. 0 };

    fn count(&self) -> u64 {
        self.notes.len() as u64
    }

    fn faults(&self) -> u64 {
        0
    }
}

/// A gate with an empty ledger.
pub fn open(alloc: Global) -> Result<(Gate<Ledger>, Pass<Ledger>), AllocError>
    ensures gate { IfOk result (λ r. IsOf r.0 r.1) }
    ensures made { IfOk result (λ r. view r.1 ≡ newcomer [] tt) }
{
    let ledger = Ledger {
        notes: Vec::new(alloc),
    };
    Gate::new(alloc, ledger).map_err(|_| AllocError)
}

/// One turn, in which the caller notes, where there is memory for it; and whether it did.
pub fn make_note<R: Wait>(
    rt: &R,
    gate: &Gate<Ledger>,
    pass: Pass<Ledger>,
    caller: u64,
    serial: u64,
) -> (Pass<Ledger>, bool)
    requires { IsOf gate.now pass }
    ensures gate { IsOf gate.now result.0 }
    ensures share { (view result.0).share ≡ (view pass).share }
{
    match gate.enter(rt, pass) {
        Entered::Turn(mut turn) => {
            let by = turn.number();
            let noted = turn.value.notes.push(Note { by, caller, serial }).is_ok();
            (gate.leave(turn), noted)
        }
        Entered::Spent(pass) => (pass, false),
    }
}
