//! The view itself: what it is built of, and what is laid on top.
ghost use Rattle.std.specs.Prelude.{◌≡◌, ◌++◌, ◌∷◌, [], take, length, ◌-◌, map, filter, None, IfOk, OnOk, OnErr};
ghost use Rattle.desk_base.specs.meaning.Load.{ask_of};
ghost use Rattle.desk_base.specs.rules.Sound.{AreWellFormed};
ghost use Rattle.desk_load.specs.Index.{IsIndexOf};
ghost use Rattle.desk_load.specs.Views.{own_asks};

use crate::index::LoadIndex;
use crate::limits::MOST_LAID;
use crate::parts::ask_of;
use desk_base::{Ask, BookingRow, GroupId, NoMemory, Tables};
use std::alloc::Global;
use std::marker::Model;

/// A view of an index and its tables, which it borrows. Of the standing bookings those of one group are left out, and what is
/// laid on top counts as if it stood.
#[derive(Drop)]
pub struct FreeView<'a> {
    pub(crate) index: &'a LoadIndex,
    pub(crate) tables: &'a Tables,
    pub(crate) without: Option<GroupId>,
    pub(crate) own: Vec<Ask>,
    pub(crate) overlay: Vec<Ask>,
}

impl<'a> Model for FreeView<'a> {
    ghost use Rattle.std.specs.Prelude.{◌≡◌, ◌≤◌, length};
    ghost use Rattle.desk_base.specs.rules.Sound.{AreWellFormed};
    ghost use Rattle.desk_load.specs.declared.limits.TheConstants.{MOST_LAID};
    ghost use Rattle.desk_load.specs.Index.{IsIndexOf};
    ghost use Rattle.desk_load.specs.Views.{ViewParts, own_asks};

    ghost Value = { ViewParts };

    ghost view = { λ v. record { tables = v.tables.now; without = v.without; overlay = v.overlay.items } };

    ghost invariant = { λ v. AreWellFormed v.tables.now × IsIndexOf v.tables.now v.index.now × (v.own.items ≡ own_asks v.tables.now v.without) × (length v.overlay.items ≤ MOST_LAID) };
}

/// The bookings, as asks of their resources.
fn asks_of(alloc: Global, bookings: &[BookingRow]) -> Result<Vec<Ask>, NoMemory>
    ensures { IfOk result (λ v. v.items ≡ map ask_of bookings.now) }
{
    Ok(bookings.iter().map(ask_of).collect(alloc)?)
}

/// The bookings of the group that is left out.
fn own_asks(
    alloc: Global,
    index: &LoadIndex,
    tables: &Tables,
    without: &Option<GroupId>,
) -> Result<Vec<Ask>, NoMemory>
    requires well_formed { AreWellFormed tables.now }
    requires index { IsIndexOf tables.now index.now }
    ensures { IfOk result (λ v. v.items ≡ own_asks tables.now without.now) }
{
    match without {
        Some(group) => asks_of(alloc, index.bookings_of(*group)),
        None => Ok(Vec::new(alloc)),
    }
}

impl<'a> FreeView<'a> {
    /// The view without a group's bookings, and with nothing laid on top. It passes over the bookings of that group alone.
    pub fn build(
        alloc: Global,
        index: &'a LoadIndex,
        tables: &'a Tables,
        without: Option<GroupId>,
    ) -> Result<FreeView<'a>, NoMemory>
        requires well_formed { AreWellFormed tables.now }
        requires index { IsIndexOf tables.now index.now }
        ensures tables { IfOk result (λ v. v.tables ≡ tables.now) }
        ensures without { IfOk result (λ v. v.without ≡ without) }
        ensures overlay { IfOk result (λ v. v.overlay ≡ []) }
    {
        let own = own_asks(alloc, index, tables, &without)?;
        Ok(FreeView {
            index,
            tables,
            without,
            own,
            overlay: Vec::new(alloc),
        })
    }

    /// The view of all that stands, with nothing laid on top. It takes no memory.
    pub fn of_all(alloc: Global, index: &'a LoadIndex, tables: &'a Tables) -> FreeView<'a>
        requires well_formed { AreWellFormed tables.now }
        requires index { IsIndexOf tables.now index.now }
        ensures tables { result.tables ≡ tables.now }
        ensures without { result.without ≡ None }
        ensures overlay { result.overlay ≡ [] }
    {
        FreeView {
            index,
            tables,
            without: None,
            own: Vec::new(alloc),
            overlay: Vec::new(alloc),
        }
    }

    /// Lays one more booking on top. Want of memory leaves the view as it was.
    pub fn overlay_push(&mut self, ask: &Ask) -> Result<(), NoMemory>
        ensures tables { self.new.tables ≡ self.old.tables }
        ensures without { self.new.without ≡ self.old.without }
        ensures ok { OnOk result (self.new.overlay ≡ self.old.overlay ++ ask.now ∷ []) }
        ensures err { OnErr result (self.new.overlay ≡ self.old.overlay) }
    {
        if self.overlay.len() >= MOST_LAID {
            return Err(NoMemory);
        }
        match self.overlay.push(*ask) {
            Ok(()) => Ok(()),
            Err(_) => Err(NoMemory),
        }
    }

    /// Takes the last booking that was laid on top off again.
    pub fn overlay_pop(&mut self)
        ensures tables { self.new.tables ≡ self.old.tables }
        ensures without { self.new.without ≡ self.old.without }
        ensures shorter { self.new.overlay ≡ take (length self.old.overlay - 1) self.old.overlay }
    {
        let _last = self.overlay.pop();
    }
}
