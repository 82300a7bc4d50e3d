//! What an opener of kept schedules promises, whatever it stands on.
ghost use Rattle.std.specs.Prelude.{◌≡◌, ◌+◌, ◌<◌, ◌≤◌, ℕ, Option, None, IfOk, IfSome, OnOk, OnErr};
ghost use Rattle.desk_io.specs.Counts.{Rose, counted};
ghost use Rattle.desk_keeper.specs.Stock.{Stock, HandsOut, LacksPath, after_return};

use crate::keeper::Keeper;
use desk_io::Failed;

/// Where stores are opened: each is fetched by its path, and given back.
pub trait Opener {
    /// A store that is fetched.
    type Store: Keeper;

    // the stores that it will hand out, and those that were given back, where they are told
    ghost stock: { Self → Option (Stock Self.Store) } = { λ _. None };

    // how many stores were fetched and not given back yet
    ghost out: { Self → ℕ };

    // how many calls failed so far, and how many stores came back with a fault
    ghost fault_count: { Self → ℕ };

    /// Hands out the store of a path, of which no call was made yet: the first one of this path where the stores are told. There
    /// `Failed` says that none has this path.
    fn fetch(&mut self, path: &[u8]) -> Result<Self::Store, Failed>
        ensures new { IfOk result (λ s. Self.Store.fault_count s ≡ 0) }
        ensures uncalled { IfOk result (λ s. IfSome (Self.Store.told s) (λ k. k.calls ≡ 0)) }
        ensures first { IfOk result (λ s. HandsOut path.now s (stock self.old) (stock self.new)) }
        ensures absent { OnErr result (LacksPath path.now (stock self.old)) }
        ensures unchanged { OnErr result (stock self.new ≡ stock self.old) }
        ensures out { OnOk result (out self.new ≡ counted (out self.old)) }
        ensures none_out { OnErr result (out self.new ≡ out self.old) }
        ensures rising { fault_count self.old ≤ fault_count self.new }
        ensures no_fault { OnOk result (fault_count self.new ≡ fault_count self.old) }
        ensures cause { OnErr result (Rose (fault_count self.old) (fault_count self.new)) };

    /// Takes a fetched store back, and counts a fault where the store counts any. It takes no memory.
    fn give_back(&mut self, store: Self::Store)
        requires { 1 ≤ out self.old }
        ensures returned { stock self.new ≡ after_return store (stock self.old) }
        ensures out { out self.new + 1 ≡ out self.old }
        ensures rising { fault_count self.old ≤ fault_count self.new }
        ensures no_fault { Self.Store.fault_count store ≡ 0 → fault_count self.new ≡ fault_count self.old }
        ensures cause { 0 < Self.Store.fault_count store → Rose (fault_count self.old) (fault_count self.new) };

    /// How many calls failed so far, and how many stores came back with a fault; a count at the greatest `u64` stays there.
    fn faults(&self) -> u64
        ensures { result ≡ fault_count self.now };
}
