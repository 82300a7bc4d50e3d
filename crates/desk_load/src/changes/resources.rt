//! A resource that is put or taken out: an index has a weight and a list for it, or none.
ghost use Rattle.std.specs.Prelude.{◌≡◌, [], ℕ, None, find, map, OnOk};
ghost use Rattle.std.specs.Ordering.{nat_cmp};
ghost use Rattle.std.specs.List.Sorted.{IsStrictlySortedBy};
ghost use Rattle.desk_base.specs.declared.rows.tables.Tables.{Tables};
ghost use Rattle.desk_base.specs.declared.rows.tables.AnyRow.TheVariants.{Resource};
ghost use Rattle.desk_base.specs.declared.rows.tables.Table.TheVariants.{Resource as ResourceTable};
ghost use Rattle.desk_base.specs.rows.Keys.{id_key};
ghost use Rattle.desk_base.specs.rows.Ranges.{owns};
ghost use Rattle.desk_base.specs.rules.Sound.{AreWellFormed};
ghost use Rattle.desk_base.specs.changes.Changes.{with_row, without_row};
ghost use Rattle.desk_base.specs.meaning.Capacity.{resource_of};
ghost use Rattle.desk_load.specs.Changed.{IsOrdered, parts_of, before_of};
ghost use Rattle.desk_load.specs.Index.{IsIndexOf};
ghost use Rattle.desk_load.specs.Joined.{rows_off, rows_with, IsWeightAdded};
ghost use Rattle.desk_load.specs.Stages.{IsStage};

use crate::by_number::ByNumber;
use crate::changes::follow::Stop;
use crate::changes::opened::{OpenIndex, place_of};
use crate::index::list_under;
use crate::lists::BookingList;
use crate::weights::{Weight, weight_of};
use desk_base::{NoMemory, ResourceId, ResourceRow, Tables};
use std::alloc::Global;

impl OpenIndex {
    /// Adds a weight of nothing for a resource that has none.
    fn add_weight_of(&mut self, alloc: Global, resource: ResourceId) -> Result<(), NoMemory>
        requires rise { IsStrictlySortedBy nat_cmp (map (λ w. w.resource) self.old.weights.items) }
        requires absent { find (owns (λ w. w.resource) resource) self.old.weights.items ≡ None }
        ensures weights { OnOk result (IsWeightAdded resource self.old.weights.items self.new.weights.items) }
        ensures standing { OnOk result (self.new.standing.items ≡ self.old.standing.items) }
        ensures booked { OnOk result (self.new.booked.items ≡ self.old.booked.items) }
        ensures members { OnOk result (self.new.members ≡ self.old.members) }
        ensures before { before_of self.new ≡ before_of self.old }
    {
        let number = resource.get();
        let weight = weight_of(alloc, &[], resource)?;
        let at = self.weights.partition_point(|w| w.resource.get() < number);
        self.add_weight(at, Weight { resource, weight })?;
        Ok(())
    }

    /// Adds an empty list for a resource that has none.
    fn add_list_of(&mut self, alloc: Global, number: u32) -> Result<(), NoMemory>
        requires rise { IsStrictlySortedBy nat_cmp (map (λ l. l.number) self.old.standing.items) }
        requires absent { find (owns (λ l. l.number) number) self.old.standing.items ≡ None }
        ensures weights { OnOk result (self.new.weights.items ≡ self.old.weights.items) }
        ensures standing { OnOk result (self.new.standing.items ≡ rows_with (λ l. l.number) number (record { number = number; bookings = [] }) self.old.standing.items) }
        ensures booked { OnOk result (self.new.booked.items ≡ self.old.booked.items) }
        ensures members { OnOk result (self.new.members ≡ self.old.members) }
        ensures before { before_of self.new ≡ before_of self.old }
    {
        let at = self.standing.partition_point(|list| list.number < number);
        let bookings = ByNumber::empty(alloc);
        self.add_standing(at, BookingList { number, bookings })?;
        Ok(())
    }

    /// Removes the weight of a resource.
    fn remove_weight_of(&mut self, alloc: Global, number: u32) -> Result<(), NoMemory>
        requires { IsStrictlySortedBy nat_cmp (map (λ w. w.resource) self.old.weights.items) }
        ensures weights { OnOk result (self.new.weights.items ≡ rows_off (λ w. w.resource) number self.old.weights.items) }
        ensures standing { OnOk result (self.new.standing.items ≡ self.old.standing.items) }
        ensures booked { OnOk result (self.new.booked.items ≡ self.old.booked.items) }
        ensures members { OnOk result (self.new.members ≡ self.old.members) }
        ensures before { before_of self.new ≡ before_of self.old }
    {
        let Some(at) = place_of(self.weights.as_slice(), number) else {
            return Err(NoMemory);
        };
        self.remove_weight(alloc, at)?;
        Ok(())
    }

    /// Removes the list of a resource.
    fn remove_list_of(&mut self, alloc: Global, number: u32) -> Result<(), NoMemory>
        requires { IsStrictlySortedBy nat_cmp (map (λ l. l.number) self.old.standing.items) }
        ensures weights { OnOk result (self.new.weights.items ≡ self.old.weights.items) }
        ensures standing { OnOk result (self.new.standing.items ≡ rows_off (λ l. l.number) number self.old.standing.items) }
        ensures booked { OnOk result (self.new.booked.items ≡ self.old.booked.items) }
        ensures members { OnOk result (self.new.members ≡ self.old.members) }
        ensures before { before_of self.new ≡ before_of self.old }
    {
        let Some(at) = place_of(self.standing.as_slice(), number) else {
            return Err(NoMemory);
        };
        self.remove_standing(alloc, at)?;
        Ok(())
    }

    /// Puts a resource that is new: it gets a weight of nothing, and a list without a booking.
    fn add_resource(
        &mut self,
        alloc: Global,
        tables: &Tables,
        resource: &ResourceRow,
    ) -> Result<(), NoMemory>
        requires well_formed { AreWellFormed tables.now }
        requires stage { (s : Tables) × ((more : ℕ) × IsStage tables.now s 0 more (parts_of self.old)) }
        requires new { resource_of tables.now resource.now.id ≡ None }
        ensures index { OnOk result ((s : Tables) (more : ℕ) → IsStage tables.now s 0 more (parts_of self.old) → IsIndexOf (with_row s (Resource resource.now)) (parts_of self.new)) }
        ensures order { OnOk result (IsOrdered (parts_of self.new)) }
        ensures before { before_of self.new ≡ before_of self.old }
    {
        self.add_weight_of(alloc, resource.id)?;
        self.add_list_of(alloc, resource.id.get())?;
        Ok(())
    }

    /// Puts a resource before any booking: a new one, or one in the place of another of its kind.
    #[tactic(auto, using(crate::proofs::Numbers::keys_climb))]
    pub(crate) fn put_resource(
        &mut self,
        alloc: Global,
        tables: &Tables,
        resource: &ResourceRow,
    ) -> Result<(), Stop>
        requires well_formed { AreWellFormed tables.now }
        requires stage { (s : Tables) × ((more : ℕ) × IsStage tables.now s 0 more (parts_of self.old)) }
        ensures index { OnOk result ((s : Tables) (more : ℕ) → IsStage tables.now s 0 more (parts_of self.old) → IsIndexOf (with_row s (Resource resource.now)) (parts_of self.new)) }
        ensures order { OnOk result (IsOrdered (parts_of self.new)) }
        ensures before { before_of self.new ≡ before_of self.old }
    {
        match tables.resource(resource.id) {
            Some(former) => {
                if former.kind.number() == resource.kind.number() {
                    Ok(())
                } else {
                    Err(Stop::Unfollowed)
                }
            }
            None => match self.add_resource(alloc, tables, resource) {
                Ok(()) => Ok(()),
                Err(NoMemory) => Err(Stop::NoMemory),
            },
        }
    }

    /// Removes the weight and the list of a resource.
    fn remove_resource(&mut self, alloc: Global, number: u32) -> Result<(), NoMemory>
        requires { IsOrdered (parts_of self.old) }
        ensures weights { OnOk result (self.new.weights.items ≡ rows_off (λ w. w.resource) number self.old.weights.items) }
        ensures standing { OnOk result (self.new.standing.items ≡ rows_off (λ l. l.number) number self.old.standing.items) }
        ensures booked { OnOk result (self.new.booked.items ≡ self.old.booked.items) }
        ensures members { OnOk result (self.new.members ≡ self.old.members) }
        ensures before { before_of self.new ≡ before_of self.old }
    {
        self.remove_weight_of(alloc, number)?;
        self.remove_list_of(alloc, number)?;
        Ok(())
    }

    /// Takes a resource out before any booking is put, where nothing stands on it.
    #[tactic(auto, using(crate::proofs::Numbers::rise_strict))]
    pub(crate) fn take_out_resource(
        &mut self,
        alloc: Global,
        tables: &Tables,
        number: u32,
    ) -> Result<(), Stop>
        requires well_formed { AreWellFormed tables.now }
        requires stage { (s : Tables) × ((more : ℕ) × IsStage tables.now s 0 more (parts_of self.old)) }
        ensures index { OnOk result ((s : Tables) (more : ℕ) → IsStage tables.now s 0 more (parts_of self.old) → IsIndexOf (without_row s ResourceTable (id_key ResourceTable number)) (parts_of self.new)) }
        ensures order { OnOk result (IsOrdered (parts_of self.new)) }
        ensures before { before_of self.new ≡ before_of self.old }
    {
        if list_under(self.standing.as_slice(), number).len() != 0 {
            return Err(Stop::Unfollowed);
        }
        match self.remove_resource(alloc, number) {
            Ok(()) => Ok(()),
            Err(NoMemory) => Err(Stop::NoMemory),
        }
    }
}
