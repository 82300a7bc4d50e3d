//! An index that stands open for a change: parts of it are replaced, and those that stood in their places are kept, so that the
//! index can be had as it was.
ghost use Rattle.std.specs.Prelude.{◌≡◌, ◌<◌, ◌≤◌, length, OnOk, IfSome};
ghost use Rattle.std.specs.List.{HoldsAt, insert, remove};
ghost use Rattle.desk_load.specs.declared.changes.opened.Former.TheVariants.{Weighed, Standing, Booked, AddedBooked, Members};
ghost use Rattle.desk_load.specs.Changed.{IsOrdered, put_among, put_back, taken_back, parts_of, before_of};

use crate::changes::spare::Spare;
use crate::index::LoadIndex;
use crate::lists::BookingList;
use crate::weights::Weight;
use desk_base::{NoMemory, Placed};
use desk_member::ByMember;
use std::alloc::Global;
use std::mem;

/// A part of an index that was replaced, and its place.
#[derive(Drop)]
pub(crate) enum Former {
    Weighed(usize, Weight),
    Standing(usize, BookingList),
    Booked(usize, BookingList),
    /// No part: one was added at this place.
    AddedWeight(usize),
    AddedStanding(usize),
    AddedBooked(usize),
    /// A part that was removed, with the memory in which it goes back.
    RemovedWeight(usize, Weight, Spare<Weight>),
    RemovedStanding(usize, BookingList, Spare<BookingList>),
    RemovedBooked(usize, BookingList, Spare<BookingList>),
    /// All memberships, which are few: others stand in their place.
    Members(ByMember),
}

/// The parts of an index, and those that were replaced, in the order in which they were.
#[derive(Drop)]
pub(crate) struct OpenIndex {
    pub(crate) weights: Vec<Weight>,
    pub(crate) standing: Vec<BookingList>,
    pub(crate) booked: Vec<BookingList>,
    pub(crate) members: ByMember,
    pub(crate) formers: Vec<Former>,
}

/// The place of the row of an owner, found by halving.
pub(crate) fn place_of<T: Placed>(rows: &[T], owner: u32) -> Option<usize>
    ensures inside { IfSome result (λ at. at < length rows.now) }
    ensures there { IfSome result (λ at. HoldsAt (λ y. T.owner y ≡ owner) rows.now at) }
{
    let at = rows.partition_point(|row| row.owner_number() < owner);
    if at < rows.len() && rows[at].owner_number() == owner {
        Some(at)
    } else {
        None
    }
}

/// Puts a row that was removed at its place again, where the memory that was kept has room.
fn put_among<T: Drop>(rows: &mut Vec<T>, at: usize, row: T, spare: Spare<T>)
    ensures { rows.new.items ≡ put_among at row spare rows.old.items }
{
    if at <= rows.len() && rows.len() < spare.count() {
        spare.insert(rows, at, row);
    }
}

impl OpenIndex {
    /// Opens an index. It takes no memory.
    pub(crate) fn of(alloc: Global, index: LoadIndex) -> OpenIndex
        ensures parts { parts_of result ≡ index }
        ensures before { before_of result ≡ index }
    {
        let LoadIndex {
            weights,
            standing,
            booked,
            members,
        } = index;
        OpenIndex {
            weights,
            standing,
            booked,
            members,
            formers: Vec::new(alloc),
        }
    }

    /// Puts a weight in the place of another.
    pub(crate) fn put_weight(&mut self, at: usize, weight: Weight) -> Result<(), NoMemory>
        requires { at < length self.old.weights.items }
        ensures parts { OnOk result (parts_of self.new ≡ put_back (parts_of self.old) (Weighed at weight)) }
        ensures before { before_of self.new ≡ before_of self.old }
    {
        self.formers.reserve(1)?;
        let former = mem::replace(&mut self.weights[at], weight);
        self.formers.push_reserved(Former::Weighed(at, former));
        Ok(())
    }

    /// Puts the list of a resource in the place of another.
    pub(crate) fn put_standing(&mut self, at: usize, list: BookingList) -> Result<(), NoMemory>
        requires { at < length self.old.standing.items }
        ensures parts { OnOk result (parts_of self.new ≡ put_back (parts_of self.old) (Standing at list)) }
        ensures before { before_of self.new ≡ before_of self.old }
    {
        self.formers.reserve(1)?;
        let former = mem::replace(&mut self.standing[at], list);
        self.formers.push_reserved(Former::Standing(at, former));
        Ok(())
    }

    /// Puts the list of a group in the place of another.
    pub(crate) fn put_booked(&mut self, at: usize, list: BookingList) -> Result<(), NoMemory>
        requires { at < length self.old.booked.items }
        ensures parts { OnOk result (parts_of self.new ≡ put_back (parts_of self.old) (Booked at list)) }
        ensures before { before_of self.new ≡ before_of self.old }
    {
        self.formers.reserve(1)?;
        let former = mem::replace(&mut self.booked[at], list);
        self.formers.push_reserved(Former::Booked(at, former));
        Ok(())
    }

    /// Puts other memberships in the place of these.
    pub(crate) fn put_members(&mut self, members: ByMember) -> Result<(), NoMemory>
        ensures parts { OnOk result (parts_of self.new ≡ put_back (parts_of self.old) (Members members)) }
        ensures before { before_of self.new ≡ before_of self.old }
    {
        self.formers.reserve(1)?;
        let former = mem::replace(&mut self.members, members);
        self.formers.push_reserved(Former::Members(former));
        Ok(())
    }

    /// Adds the weight of a resource at a place.
    pub(crate) fn add_weight(&mut self, at: usize, weight: Weight) -> Result<(), NoMemory>
        requires { at ≤ length self.old.weights.items }
        ensures parts { OnOk result (parts_of self.new ≡ record (parts_of self.old) { weights = insert self.old.weights.items at weight }) }
        ensures before { before_of self.new ≡ before_of self.old }
    {
        self.formers.reserve(1)?;
        let Ok(()) = self.weights.insert(at, weight) else {
            return Err(NoMemory);
        };
        self.formers.push_reserved(Former::AddedWeight(at));
        Ok(())
    }

    /// Adds the list of a resource at a place.
    pub(crate) fn add_standing(&mut self, at: usize, list: BookingList) -> Result<(), NoMemory>
        requires { at ≤ length self.old.standing.items }
        ensures parts { OnOk result (parts_of self.new ≡ record (parts_of self.old) { standing = insert self.old.standing.items at list }) }
        ensures before { before_of self.new ≡ before_of self.old }
    {
        self.formers.reserve(1)?;
        let Ok(()) = self.standing.insert(at, list) else {
            return Err(NoMemory);
        };
        self.formers.push_reserved(Former::AddedStanding(at));
        Ok(())
    }

    /// Adds the list of a group at a place.
    pub(crate) fn add_booked(&mut self, at: usize, list: BookingList) -> Result<(), NoMemory>
        requires { at ≤ length self.old.booked.items }
        ensures parts { OnOk result (parts_of self.new ≡ record (parts_of self.old) { booked = insert self.old.booked.items at list }) }
        ensures before { before_of self.new ≡ before_of self.old }
    {
        self.formers.reserve(1)?;
        let Ok(()) = self.booked.insert(at, list) else {
            return Err(NoMemory);
        };
        self.formers.push_reserved(Former::AddedBooked(at));
        Ok(())
    }

    /// Removes the weight of a resource at a place, and takes the memory in which it goes back.
    pub(crate) fn remove_weight(&mut self, alloc: Global, at: usize) -> Result<(), NoMemory>
        requires { at < length self.old.weights.items }
        ensures parts { OnOk result (parts_of self.new ≡ record (parts_of self.old) { weights = remove self.old.weights.items at }) }
        ensures before { before_of self.new ≡ before_of self.old }
    {
        let spare = Spare::of(alloc, self.weights.len())?;
        self.formers.reserve(1)?;
        let former = self.weights.remove(at);
        self.formers
            .push_reserved(Former::RemovedWeight(at, former, spare));
        Ok(())
    }

    /// Removes the list of a resource at a place, and takes the memory in which it goes back.
    pub(crate) fn remove_standing(&mut self, alloc: Global, at: usize) -> Result<(), NoMemory>
        requires { at < length self.old.standing.items }
        ensures parts { OnOk result (parts_of self.new ≡ record (parts_of self.old) { standing = remove self.old.standing.items at }) }
        ensures before { before_of self.new ≡ before_of self.old }
    {
        let spare = Spare::of(alloc, self.standing.len())?;
        self.formers.reserve(1)?;
        let former = self.standing.remove(at);
        self.formers
            .push_reserved(Former::RemovedStanding(at, former, spare));
        Ok(())
    }

    /// Removes the list of a group at a place, and takes the memory in which it goes back.
    pub(crate) fn remove_booked(&mut self, alloc: Global, at: usize) -> Result<(), NoMemory>
        requires { at < length self.old.booked.items }
        ensures parts { OnOk result (parts_of self.new ≡ record (parts_of self.old) { booked = remove self.old.booked.items at }) }
        ensures before { before_of self.new ≡ before_of self.old }
    {
        let spare = Spare::of(alloc, self.booked.len())?;
        self.formers.reserve(1)?;
        let former = self.booked.remove(at);
        self.formers
            .push_reserved(Former::RemovedBooked(at, former, spare));
        Ok(())
    }

    #[tactic(auto, using(crate::proofs::TakenBack::remove_past))]
    fn put_back(&mut self, former: Former)
        ensures parts { parts_of self.new ≡ put_back (parts_of self.old) former }
        ensures formers { self.new.formers ≡ self.old.formers }
    {
        match former {
            Former::Weighed(at, weight) => {
                if at < self.weights.len() {
                    self.weights[at] = weight;
                }
            }
            Former::Standing(at, list) => {
                if at < self.standing.len() {
                    self.standing[at] = list;
                }
            }
            Former::Booked(at, list) => {
                if at < self.booked.len() {
                    self.booked[at] = list;
                }
            }
            Former::AddedWeight(at) => {
                if at < self.weights.len() {
                    let _weight = self.weights.remove(at);
                }
            }
            Former::AddedStanding(at) => {
                if at < self.standing.len() {
                    let _list = self.standing.remove(at);
                }
            }
            Former::AddedBooked(at) => {
                if at < self.booked.len() {
                    let _list = self.booked.remove(at);
                }
            }
            Former::RemovedWeight(at, weight, spare) => {
                put_among(&mut self.weights, at, weight, spare);
            }
            Former::RemovedStanding(at, list, spare) => {
                put_among(&mut self.standing, at, list, spare);
            }
            Former::RemovedBooked(at, list, spare) => {
                put_among(&mut self.booked, at, list, spare);
            }
            Former::Members(members) => {
                self.members = members;
            }
        }
    }

    fn put_all_back(&mut self)
        ensures { parts_of self.new ≡ before_of self.old }
    {
        while let Some(former) = self.formers.pop() {
            self.put_back(former);
        }
    }

    /// The index, with what was replaced. It takes no memory.
    pub(crate) fn close(self) -> (LoadIndex, Vec<Former>)
        requires { IsOrdered (parts_of self) }
        ensures index { result.0 ≡ parts_of self }
        ensures before { taken_back result.0 result.1.items ≡ before_of self }
    {
        let OpenIndex {
            weights,
            standing,
            booked,
            members,
            formers,
        } = self;
        let index = LoadIndex {
            weights,
            standing,
            booked,
            members,
        };
        (index, formers)
    }

    /// Opens an index some parts of which were replaced. It takes no memory.
    pub(crate) fn again(index: LoadIndex, formers: Vec<Former>) -> OpenIndex
        ensures { before_of result ≡ taken_back index formers.items }
    {
        let LoadIndex {
            weights,
            standing,
            booked,
            members,
        } = index;
        OpenIndex {
            weights,
            standing,
            booked,
            members,
            formers,
        }
    }

    /// The index as it was. It takes no memory.
    pub(crate) fn take_back(self) -> LoadIndex
        requires { IsOrdered (before_of self) }
        ensures { result ≡ before_of self }
    {
        let mut open = self;
        open.put_all_back();
        let (index, _formers) = open.close();
        index
    }
}
