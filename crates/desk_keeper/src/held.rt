//! Tables in memory that are kept, and stand ready for a change.
ghost use Rattle.std.specs.Prelude.{◌≡◌, Some, None, IfOk, OnOk, OnErr};
ghost use Rattle.desk_base.specs.rows.Lookups.{KeysRise};
ghost use Rattle.desk_keeper.specs.Held.{tables_in, change_in, changed_by};

use desk_base::{Change, Duplicate, NoMemory, Prepared, Tables};
use std::alloc::Global;
use std::mem;

/// Tables, or tables that have the memory for a change.
#[derive(Drop)]
pub(crate) enum Held {
    Still(Tables),
    Ready(Prepared),
}

impl Held {
    /// What is held, in whose place are empty tables.
    fn take(&mut self, alloc: Global) -> Held
        ensures { result ≡ self.old }
    {
        mem::replace(self, Held::Still(Tables::empty(alloc)))
    }

    /// Holds something else.
    fn set(&mut self, now: Held)
        ensures { self.new ≡ now }
    {
        *self = now;
    }

    /// The tables, without a change that they were ready for.
    fn into_tables(self) -> Tables
        ensures { result ≡ tables_in self }
    {
        match self {
            Held::Still(tables) => tables,
            Held::Ready(prepared) => prepared.give_back(),
        }
    }

    /// The tables, with the change that they are ready for, if there is one.
    fn into_changed(self) -> Tables
        ensures { result ≡ changed_by (change_in self) (tables_in self) }
    {
        match self {
            Held::Still(tables) => tables,
            Held::Ready(prepared) => prepared.apply(),
        }
    }

    /// Is ready for no change any more.
    pub(crate) fn forget(&mut self, alloc: Global)
        ensures tables { tables_in self.new ≡ tables_in self.old }
        ensures still { change_in self.new ≡ None }
    {
        let tables = self.take(alloc).into_tables();
        self.set(Held::Still(tables));
    }

    /// Makes the change that it is ready for, if there is one.
    pub(crate) fn make(&mut self, alloc: Global)
        ensures tables { tables_in self.new ≡ changed_by (change_in self.old) (tables_in self.old) }
        ensures still { change_in self.new ≡ None }
    {
        let tables = self.take(alloc).into_changed();
        self.set(Held::Still(tables));
    }

    /// A copy of the tables. It is then ready for no change any more.
    pub(crate) fn copy(&mut self, alloc: Global) -> Result<Tables, NoMemory>
        ensures copy { IfOk result (λ t. t ≡ tables_in self.old) }
        ensures tables { tables_in self.new ≡ tables_in self.old }
        ensures still { change_in self.new ≡ None }
    {
        let tables = self.take(alloc).into_tables();
        let copy = tables.copy(alloc);
        self.set(Held::Still(tables));
        copy
    }

    /// Takes the memory for a change.
    pub(crate) fn prepare(&mut self, alloc: Global, change: Change) -> Result<(), NoMemory>
        requires { KeysRise (tables_in self.old) }
        ensures tables { tables_in self.new ≡ tables_in self.old }
        ensures ready { OnOk result (change_in self.new ≡ Some change) }
        ensures still { OnErr result (change_in self.new ≡ None) }
    {
        let tables = self.take(alloc).into_tables();
        match tables.prepare(change) {
            Ok(prepared) => {
                self.set(Held::Ready(prepared));
                Ok(())
            }
            Err(tables) => {
                self.set(Held::Still(tables));
                Err(NoMemory)
            }
        }
    }
}
