//! A sink into memory, whose room is taken and whose failing calls are listed when it is made.
ghost use Rattle.std.specs.Prelude.{◌≡◌, ◌≤◌, ◌<◌, ◌+◌, ◌⊎◌, ◌↔◌, ◌++◌, length, vec_len, vec_capacity, Some, IsErr, IfOk, OnOk, OnErr, Contains};
ghost use Rattle.std.specs.Io.KnownBytes.{Appends};
ghost use Rattle.desk_io.specs.Counts.{Rose, counted};
ghost use Rattle.desk_io.specs.Moves.{AppendsFront};
ghost use Rattle.desk_io.specs.Memory.{new_store};

use crate::errors::{Failed, NoMemory};
use crate::traits::Sink;
use std::alloc::Global;
use std::marker::Model;

/// Takes bytes into a room of fixed size. A piece that does not fit into what is left of it is a fault, of which
/// nothing is appended.
#[derive(Drop)]
pub struct MemorySink {
    bytes: Vec<u8>,
    room: usize,
    failing: Vec<u64>,
    calls: u64,
    faults: u64,
}

impl Model for MemorySink {
    ghost use Rattle.std.specs.Prelude.{◌≤◌, vec_len, vec_capacity};
    ghost use Rattle.desk_io.specs.Memory.{Store};

    ghost Value = { Store };

    ghost view = { λ s. record { held = s.bytes.items; room = s.room; failing = s.failing.items; calls = s.calls; faults = s.faults } };

    ghost invariant = { λ s. (vec_len s.bytes ≤ s.room) × (s.room ≤ vec_capacity s.bytes) };
}

impl MemorySink {
    /// An empty sink with room for this many bytes in all. `failing` lists the numbers of the calls of `give` that
    /// answer `Failed`; the first call is number 0.
    pub fn of(alloc: Global, room: usize, failing: &[u64]) -> Result<MemorySink, NoMemory>
        ensures { IfOk result (λ s. s ≡ new_store room failing.now) }
    {
        let bytes = Vec::with_capacity(alloc, room)?;
        let failing = Vec::from_slice(alloc, failing)?;
        Ok(MemorySink {
            bytes,
            room,
            failing,
            calls: 0,
            faults: 0,
        })
    }

    /// The bytes taken so far.
    pub fn bytes(&self) -> &[u8]
        ensures { result.now ≡ self.now.held }
    {
        self.bytes.as_slice()
    }
}

// Appends the piece, for which the `Vec` has the room: this takes no memory.
fn append_reserved(bytes: &mut Vec<u8>, piece: &[u8])
    requires { vec_len bytes.old + length piece.now ≤ vec_capacity bytes.old }
    ensures items { bytes.new.items ≡ bytes.old.items ++ piece.now }
    ensures len { vec_len bytes.new ≡ vec_len bytes.old + length piece.now }
    ensures capacity { vec_capacity bytes.old ≤ vec_capacity bytes.new }
{
    bytes.extend_from_slice(piece).unwrap();
}

impl Sink for MemorySink {
    ghost held = { λ s. Some s.held };

    ghost fault_count = { λ s. s.faults };

    fn give(&mut self, piece: &[u8]) -> Result<(), Failed>
        // what every sink promises
        ensures whole { OnOk result (Appends (Some self.old.held) (Some self.new.held) piece.now) }
        ensures front { OnErr result (AppendsFront (Some self.old.held) (Some self.new.held) piece.now) }
        ensures rising { self.old.faults ≤ self.new.faults }
        ensures no_fault { OnOk result (self.new.faults ≡ self.old.faults) }
        ensures cause { OnErr result (Rose self.old.faults self.new.faults) }

        // what this one does
        ensures refused { IsErr result ↔ (Contains self.old.failing self.old.calls ⊎ (self.old.room < length self.old.held + length piece.now)) }
        ensures ok { OnOk result (self.new ≡ record self.old { held = self.old.held ++ piece.now; calls = counted self.old.calls }) }
        ensures err { OnErr result (self.new ≡ record self.old { calls = counted self.old.calls; faults = counted self.old.faults }) }
    {
        let call = self.calls;
        self.calls = call.saturating_add(1);
        let free = self.room - self.bytes.len();
        if self.failing.contains(&call) || free < piece.len() {
            self.faults = self.faults.saturating_add(1);
            return Err(Failed);
        }
        append_reserved(&mut self.bytes, piece);
        Ok(())
    }

    fn faults(&self) -> u64 {
        self.faults
    }
}
