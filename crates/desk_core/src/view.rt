//! A schedule with the index of what stands in it.
ghost use Rattle.std.specs.Prelude.{◌≡◌, IfOk, IfErr};
ghost use Rattle.desk_base.specs.rules.Sound.{AreWellFormed};
ghost use Rattle.desk_load.specs.Index.{IsIndexOf};

use desk_base::{NoMemory, Tables};
use desk_load::LoadIndex;
use std::alloc::Global;

/// The tables of a schedule and the index of their bookings.
#[derive(Drop)]
pub struct View {
    pub tables: Tables,
    pub index: LoadIndex,
}

impl View {
    /// Well-formed tables with their index, or the tables again for want of memory.
    pub fn of(alloc: Global, tables: Tables) -> Result<View, Tables>
        requires { AreWellFormed tables }
        ensures tables { IfOk result (λ v. v.tables ≡ tables) }
        ensures index { IfOk result (λ v. IsIndexOf v.tables v.index) }
        ensures unchanged { IfErr result (λ t. t ≡ tables) }
    {
        match LoadIndex::build(alloc, &tables) {
            Ok(index) => Ok(View { tables, index }),
            Err(NoMemory) => Err(tables),
        }
    }

    /// No schedule, for the moment in which another is changed. It takes no memory.
    pub(crate) fn none(alloc: Global) -> View {
        View {
            tables: Tables::empty(alloc),
            index: LoadIndex::empty(alloc),
        }
    }
}
