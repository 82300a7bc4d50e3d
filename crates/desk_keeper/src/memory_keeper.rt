//! A keeper of tables in memory, whose failing calls are listed when it is made.
ghost use Rattle.std.specs.Prelude.{◌≡◌, ◌≤◌, ◌↔◌, Some, None, IsTrue, IsErr, IfOk, IfErr, OnOk, OnErr, Contains};
ghost use Rattle.desk_base.specs.rows.Lookups.{KeysRise};
ghost use Rattle.desk_io.specs.Counts.{Rose};
ghost use Rattle.desk_keeper.specs.Kept.{called, committed};
ghost use Rattle.desk_keeper.specs.Loads.{HasFailed, after_stop, CountsStop};
ghost use Rattle.desk_keeper.specs.Memory.{MemoryKept, new_keeper, changed, failed};

use crate::errors::LoadError;
use crate::held::Held;
use crate::keeper::Keeper;
use desk_base::{Change, Duplicate, NoMemory, Tables};
use desk_io::Failed;
use std::alloc::Global;
use std::marker::Model;

/// Keeps tables in memory, and fails at the calls that are listed.
#[derive(Drop)]
pub struct MemoryKeeper {
    held: Held,
    failing: Vec<u64>,
    calls: u64,
    faults: u64,
}

impl Model for MemoryKeeper {
    ghost use Rattle.desk_keeper.specs.Held.{tables_in, change_in};
    ghost use Rattle.desk_keeper.specs.Memory.{MemoryKept};

    ghost Value = { MemoryKept };

    ghost view = { λ k. record { kept = record { tables = tables_in k.held; failing = k.failing.items; calls = k.calls }; ready = change_in k.held; faults = k.faults } };
}

impl MemoryKeeper {
    /// A keeper of these tables. `failing` lists the numbers of the calls of `load` and `commit` that answer `Failed`; the first
    /// of these calls is number 0.
    pub fn of(alloc: Global, tables: Tables, failing: &[u64]) -> Result<MemoryKeeper, NoMemory>
        ensures { IfOk result (λ k. k ≡ new_keeper tables failing.now) }
    {
        let failing = Vec::from_slice(alloc, failing)?;
        Ok(MemoryKeeper {
            held: Held::Still(tables),
            failing,
            calls: 0,
            faults: 0,
        })
    }

    /// Whether the next call is to fail.
    fn is_listed(&self) -> bool
        ensures { IsTrue result ↔ Contains self.now.kept.failing self.now.kept.calls }
    {
        self.failing.contains(&self.calls)
    }

    fn count_call(&mut self)
        ensures { self.new ≡ record self.old { kept = called self.old.kept } }
    {
        self.calls = self.calls.saturating_add(1);
    }

    fn fail(&mut self, alloc: Global)
        ensures failed { self.new ≡ failed self.old }
        ensures rising { self.old.faults ≤ self.new.faults }
    {
        self.held.forget(alloc);
        self.calls = self.calls.saturating_add(1);
        self.faults = self.faults.saturating_add(1);
    }

    fn make_change(&mut self, alloc: Global)
        ensures { self.new ≡ changed self.old }
    {
        self.held.make(alloc);
        self.calls = self.calls.saturating_add(1);
    }

    fn copy_tables(&mut self, alloc: Global) -> Result<Tables, NoMemory>
        ensures copy { IfOk result (λ t. t ≡ self.old.kept.tables) }
        ensures same { self.new ≡ record self.old { ready = None } }
    {
        self.held.copy(alloc)
    }
}

impl Keeper for MemoryKeeper {
    ghost told = { λ k. Some k.kept };

    ghost IsReadyFor = { λ k change. k.ready ≡ Some change };

    ghost fault_count = { λ k. k.faults };

    fn load(&mut self, alloc: Global) -> Result<Tables, LoadError>
        // what every keeper promises
        ensures tables { IfOk result (λ t. t ≡ self.old.kept.tables) }
        ensures loaded { OnOk result (Some self.new.kept ≡ Some (called self.old.kept)) }
        ensures stopped { IfErr result (λ e. Some self.new.kept ≡ after_stop e (Some self.old.kept)) }
        ensures listed { HasFailed result ↔ Contains self.old.kept.failing self.old.kept.calls }
        ensures rising { self.old.faults ≤ self.new.faults }
        ensures no_fault { OnOk result (self.new.faults ≡ self.old.faults) }
        ensures cause { IfErr result (λ e. CountsStop e self.old.faults self.new.faults) }
    {
        if self.is_listed() {
            self.fail(alloc);
            return Err(LoadError::Failed);
        }
        let tables = self.copy_tables(alloc)?;
        self.count_call();
        Ok(tables)
    }

    fn ready(&mut self, alloc: Global, change: &Change) -> Result<(), NoMemory>
        requires { KeysRise self.old.kept.tables }
        // what every keeper promises
        ensures unchanged { Some self.new.kept ≡ Some self.old.kept }
        ensures ready { OnOk result (self.new.ready ≡ Some change.now) }
        ensures no_fault { self.new.faults ≡ self.old.faults }
    {
        let change = change.copy(alloc)?;
        self.held.prepare(alloc, change)
    }

    fn commit(&mut self, change: &Change) -> Result<(), Failed>
        requires { self.old.ready ≡ Some change.now }
        // what every keeper promises
        ensures committed { OnOk result (Some self.new.kept ≡ Some (committed change.now self.old.kept)) }
        ensures unchanged { OnErr result (Some self.new.kept ≡ Some (called self.old.kept)) }
        ensures listed { IsErr result ↔ Contains self.old.kept.failing self.old.kept.calls }
        ensures rising { self.old.faults ≤ self.new.faults }
        ensures no_fault { OnOk result (self.new.faults ≡ self.old.faults) }
        ensures cause { OnErr result (Rose self.old.faults self.new.faults) }
    {
        let _ = change;
        let alloc = *self.failing.allocator();
        if self.is_listed() {
            self.fail(alloc);
            return Err(Failed);
        }
        self.make_change(alloc);
        Ok(())
    }

    fn faults(&self) -> u64 {
        self.faults
    }
}
