//! A group that is put or taken out: an index has a list for it, or none.
ghost use Rattle.std.specs.Prelude.{◌≡◌, ℕ, OnOk};
ghost use Rattle.desk_base.specs.declared.rows.tables.Tables.{Tables};
ghost use Rattle.desk_base.specs.declared.rows.tables.AnyRow.TheVariants.{Group};
ghost use Rattle.desk_base.specs.declared.rows.tables.Table.TheVariants.{Group as GroupTable};
ghost use Rattle.desk_base.specs.rows.Keys.{id_key};
ghost use Rattle.desk_base.specs.rules.Sound.{AreWellFormed};
ghost use Rattle.desk_base.specs.changes.Changes.{with_row, without_row};
ghost use Rattle.desk_load.specs.Changed.{IsOrdered, parts_of, before_of};
ghost use Rattle.desk_load.specs.Index.{IsIndexOf};
ghost use Rattle.desk_load.specs.Stages.{IsStage};

use crate::by_number::ByNumber;
use crate::changes::opened::{OpenIndex, place_of};
use crate::lists::BookingList;
use desk_base::{GroupRow, NoMemory, Tables, row_of};
use std::alloc::Global;

impl OpenIndex {
    /// Puts a group before any booking: a new one gets a list, which is empty.
    #[tactic(auto, using(crate::proofs::Numbers::rise_strict))]
    pub(crate) fn put_group(
        &mut self,
        alloc: Global,
        tables: &Tables,
        group: &GroupRow,
    ) -> Result<(), NoMemory>
        requires well_formed { AreWellFormed tables.now }
        requires stage { (s : Tables) × ((more : ℕ) × IsStage tables.now s 0 more (parts_of self.old)) }
        ensures put { OnOk result ((s : Tables) (more : ℕ) → IsStage tables.now s 0 more (parts_of self.old) → IsStage tables.now (with_row s (Group group.now)) 0 more (parts_of self.new)) }
        ensures before { before_of self.new ≡ before_of self.old }
    {
        let number = group.id.get();
        if let Some(_list) = row_of(self.booked.as_slice(), number) {
            return Ok(());
        }
        let at = self.booked.partition_point(|list| list.number < number);
        let bookings = ByNumber::empty(alloc);
        self.add_booked(at, BookingList { number, bookings })?;
        Ok(())
    }

    /// Takes a group out, where it stands: its list goes.
    #[tactic(auto, using(crate::proofs::Numbers::rise_strict))]
    pub(crate) fn take_out_group(&mut self, alloc: Global, number: u32) -> Result<(), NoMemory>
        requires { IsOrdered (parts_of self.old) }
        ensures index { OnOk result ((s : Tables) → IsIndexOf s (parts_of self.old) → IsIndexOf (without_row s GroupTable (id_key GroupTable number)) (parts_of self.new)) }
        ensures order { OnOk result (IsOrdered (parts_of self.new)) }
        ensures before { before_of self.new ≡ before_of self.old }
    {
        let Some(_list) = row_of(self.booked.as_slice(), number) else {
            return Ok(());
        };
        let Some(at) = place_of(self.booked.as_slice(), number) else {
            return Err(NoMemory);
        };
        self.remove_booked(alloc, at)?;
        Ok(())
    }
}
