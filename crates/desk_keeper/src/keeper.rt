//! What a keeper of a schedule promises, whatever it stands on.
ghost use Rattle.std.specs.Prelude.{◌≡◌, ◌≤◌, ◌↔◌, ℕ, Option, None, IsErr, IfOk, IfErr, IfSome, OnOk, OnErr, Contains};
ghost use Rattle.std.specs.List.{All};
ghost use Rattle.desk_base.specs.declared.asked.acts.Change.{Change};
ghost use Rattle.desk_base.specs.rows.Lookups.{KeysRise};
ghost use Rattle.desk_io.specs.Counts.{Rose};
ghost use Rattle.desk_keeper.specs.Kept.{Kept, after_call, after_commit};
ghost use Rattle.desk_keeper.specs.Keepable.{IsKeepable};
ghost use Rattle.desk_keeper.specs.Loads.{HasFailed, after_stop, CountsStop};

use crate::errors::LoadError;
use desk_base::{Change, NoMemory, Tables};
use desk_io::Failed;
use std::alloc::Global;

/// What is kept. A commit is the whole change or nothing, and a failure, and nothing else, is counted.
pub trait Keeper {
    // the tables kept, and which calls fail, where they are told
    ghost told: { Self → Option Kept } = { λ _. None };

    // the last call was a `ready` that answered Ok for this change
    ghost IsReadyFor: { Self → Change → Type 0 };

    // how many calls failed so far
    ghost fault_count: { Self → ℕ };

    /// The tables kept. Where memory is not found, the call is none of those that are counted.
    fn load(&mut self, alloc: Global) -> Result<Tables, LoadError>
        ensures tables { IfOk result (λ t. IfSome (told self.old) (λ k. t ≡ k.tables)) }
        ensures loaded { OnOk result (told self.new ≡ after_call (told self.old)) }
        ensures stopped { IfErr result (λ e. told self.new ≡ after_stop e (told self.old)) }
        ensures listed { IfSome (told self.old) (λ k. HasFailed result ↔ Contains k.failing k.calls) }
        ensures rising { fault_count self.old ≤ fault_count self.new }
        ensures no_fault { OnOk result (fault_count self.new ≡ fault_count self.old) }
        ensures cause { IfErr result (λ e. CountsStop e (fault_count self.old) (fault_count self.new)) };

    /// Takes the memory for a change of the tables kept, which stay as they are. The rows that it puts keep their field and tree
    /// rules.
    fn ready(&mut self, alloc: Global, change: &Change) -> Result<(), NoMemory>
        requires order { IfSome (told self.old) (λ k. KeysRise k.tables) }
        requires rows { All IsKeepable change.now.puts }
        ensures unchanged { told self.new ≡ told self.old }
        ensures ready { OnOk result (IsReadyFor self.new change.now) }
        ensures no_fault { fault_count self.new ≡ fault_count self.old };

    /// Keeps the tables with the change, or at `Failed` the tables as before. The call before it on this keeper was a `ready`
    /// for this change that answered `Ok`.
    fn commit(&mut self, change: &Change) -> Result<(), Failed>
        requires { IsReadyFor self.old change.now }
        ensures committed { OnOk result (told self.new ≡ after_commit change.now (told self.old)) }
        ensures unchanged { OnErr result (told self.new ≡ after_call (told self.old)) }
        ensures listed { IfSome (told self.old) (λ k. IsErr result ↔ Contains k.failing k.calls) }
        ensures rising { fault_count self.old ≤ fault_count self.new }
        ensures no_fault { OnOk result (fault_count self.new ≡ fault_count self.old) }
        ensures cause { OnErr result (Rose (fault_count self.old) (fault_count self.new)) };

    /// How many calls failed so far; a count at the greatest `u64` stays there.
    fn faults(&self) -> u64
        ensures { result ≡ fault_count self.now };
}
