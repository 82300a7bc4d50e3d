//! An opener of stores in memory, which are listed with their paths when it is made.
ghost use Rattle.std.specs.Prelude.{◌≡◌, ◌+◌, ◌<◌, ◌≤◌, ◌↔◌, Some, IsTrue, IfOk, IfSome, IfNone, OnSome, OnOk, OnErr, length, take, slice_get, vec_len};
ghost use Rattle.desk_io.specs.Counts.{Rose, counted};
ghost use Rattle.desk_keeper.specs.Stock.{HasNone, TakesFirst, HandsOut, after_return};
ghost use Rattle.desk_keeper.specs.Memory.{MemoryOpened, IsFresh, AreFresh, new_opener};

use crate::keeper::Keeper;
use crate::memory_keeper::MemoryKeeper;
use crate::opener::Opener;
use desk_base::{Bytes, Items, NoMemory};
use desk_io::Failed;
use std::alloc::Global;
use std::marker::Model;

/// Stores, each with its path.
pub type Keepers = Items<(Bytes, MemoryKeeper)>;

/// Hands out the stores that it was made of, and keeps those that are given back.
#[derive(Drop)]
pub struct MemoryOpener {
    stores: Vec<(Bytes, MemoryKeeper)>,
    given_back: Vec<MemoryKeeper>,
    out: u64,
    faults: u64,
}

impl Model for MemoryOpener {
    ghost use Rattle.std.specs.Prelude.{◌+◌, ◌≤◌, vec_len, vec_capacity};
    ghost use Rattle.desk_keeper.specs.Memory.{MemoryOpened, AreFresh};

    ghost Value = { MemoryOpened };

    ghost view = { λ o. record { stock = record { stores = o.stores.items; given_back = o.given_back.items }; out = o.out; faults = o.faults } };

    ghost invariant = { λ o. AreFresh o.stores.items × (vec_len o.given_back + o.out + vec_len o.stores ≤ vec_capacity o.given_back) };
}

/// Whether a store has the path.
fn has_path(store: &(Bytes, MemoryKeeper), path: &[u8]) -> bool
    ensures { IsTrue result ↔ (store.now.0 ≡ path.now) }
{
    store.0.as_slice() == path
}

/// Where the first store of a path stands.
fn first_at(stores: &[(Bytes, MemoryKeeper)], path: &[u8]) -> Option<usize>
    ensures within { IfSome result (λ i. i < length stores.now) }
    ensures found { IfSome result (λ i. IfSome (slice_get stores.now i) (λ x. x.0 ≡ path.now)) }
    ensures first { IfSome result (λ i. HasNone path.now (take i stores.now)) }
    ensures absent { IfNone result (HasNone path.now stores.now) }
{
    for (i, store) in stores.iter().enumerate() {
        if has_path(store, path) {
            return Some(i);
        }
    }
    None
}

/// Takes out the first store of a path.
fn take_first(stores: &mut Vec<(Bytes, MemoryKeeper)>, path: &[u8]) -> Option<MemoryKeeper>
    ensures first { IfSome result (λ s. TakesFirst path.now s stores.old.items stores.new.items) }
    ensures absent { IfNone result (HasNone path.now stores.old.items) }
    ensures unchanged { IfNone result (stores.new ≡ stores.old) }
    ensures fresh { AreFresh stores.old.items → IfSome result IsFresh }
    ensures others { AreFresh stores.old.items → AreFresh stores.new.items }
    ensures fewer { OnSome result (vec_len stores.new + 1 ≡ vec_len stores.old) }
{
    let at = first_at(stores.as_slice(), path)?;
    let (_path, store) = stores.remove(at);
    Some(store)
}

impl MemoryOpener {
    /// An opener of these stores, of which no call was made yet. It makes the room for all that are given back.
    pub fn of(alloc: Global, keepers: Keepers) -> Result<MemoryOpener, NoMemory>
        requires { AreFresh keepers }
        ensures { IfOk result (λ o. o ≡ new_opener keepers) }
    {
        let given_back = Vec::with_capacity(alloc, keepers.len())?;
        Ok(MemoryOpener {
            stores: keepers.into_vec(),
            given_back,
            out: 0,
            faults: 0,
        })
    }

    /// The stores that were given back, in order.
    pub fn given_back(&self) -> &[MemoryKeeper]
        ensures { result.now ≡ self.now.stock.given_back }
    {
        self.given_back.as_slice()
    }
}

impl Opener for MemoryOpener {
    type Store = MemoryKeeper;

    ghost stock = { λ o. Some o.stock };

    ghost out = { λ o. o.out };

    ghost fault_count = { λ o. o.faults };

    fn fetch(&mut self, path: &[u8]) -> Result<MemoryKeeper, Failed>
        // what every opener promises
        ensures new { IfOk result (λ s. s.faults ≡ 0) }
        ensures uncalled { IfOk result (λ s. s.kept.calls ≡ 0) }
        ensures first { IfOk result (λ s. HandsOut path.now s (Some self.old.stock) (Some self.new.stock)) }
        ensures absent { OnErr result (HasNone path.now self.old.stock.stores) }
        ensures unchanged { OnErr result (Some self.new.stock ≡ Some self.old.stock) }
        ensures out { OnOk result (self.new.out ≡ counted self.old.out) }
        ensures none_out { OnErr result (self.new.out ≡ self.old.out) }
        ensures rising { self.old.faults ≤ self.new.faults }
        ensures no_fault { OnOk result (self.new.faults ≡ self.old.faults) }
        ensures cause { OnErr result (Rose self.old.faults self.new.faults) }
    {
        match take_first(&mut self.stores, path) {
            Some(store) => {
                self.out = self.out.saturating_add(1);
                Ok(store)
            }
            None => {
                self.faults = self.faults.saturating_add(1);
                Err(Failed)
            }
        }
    }

    fn give_back(&mut self, store: MemoryKeeper)
        requires { 1 ≤ self.old.out }
        // what every opener promises
        ensures returned { Some self.new.stock ≡ after_return store (Some self.old.stock) }
        ensures out { self.new.out + 1 ≡ self.old.out }
        ensures rising { self.old.faults ≤ self.new.faults }
        ensures no_fault { store.faults ≡ 0 → self.new.faults ≡ self.old.faults }
        ensures cause { 0 < store.faults → Rose self.old.faults self.new.faults }
    {
        if store.faults() > 0 {
            self.faults = self.faults.saturating_add(1);
        }
        self.out -= 1;
        self.given_back.push_reserved(store);
    }

    fn faults(&self) -> u64 {
        self.faults
    }
}
