//! Changes of an index in two steps: the first takes all the memory that they need, the second takes none.
//!
//! A change of bookings, of groups, of a resource or of a membership is followed: only the weights and lists that it touches are
//! made anew, and stand in the places of the former ones, which are kept until it is settled, as are those that go. So is a
//! change without indexed rows, which touches nothing. For a change of several resources or memberships, and for one that changes
//! the kind of a resource, the index is built anew.
mod follow;
mod groups;
mod links;
mod memberships;
mod opened;
mod resources;
mod shared;
mod spare;
mod turns;

ghost use Rattle.std.specs.Prelude.{◌≡◌, IfOk, IfErr};
ghost use Rattle.desk_base.specs.changes.Changes.{with_change};
ghost use Rattle.desk_base.specs.rules.Sound.{AreWellFormed};
ghost use Rattle.desk_load.specs.Index.{IsIndexOf};
ghost use Rattle.desk_load.specs.Changed.{IsOrdered, parts_of, before_of};

use crate::changes::follow::Stop;
use crate::changes::opened::{Former, OpenIndex};
use crate::index::LoadIndex;
use desk_base::{Change, Duplicate, NoMemory, Prepared, Tables};
use std::alloc::Global;
use std::marker::Model;

/// What an index was before a change.
#[derive(Drop)]
enum Before {
    /// Another index.
    Index(LoadIndex),
    /// The index after it, with these parts in their places again.
    Parts(Vec<Former>),
}

/// An index that has the memory for a change of its tables: the index as it was, and as it is of the changed tables.
#[derive(Drop)]
pub struct PreparedIndex {
    after: LoadIndex,
    before: Before,
}

impl Model for PreparedIndex {
    ghost use Rattle.desk_load.specs.Changed.{IsOrdered};
    ghost use Rattle.desk_load.specs.Prepared.{ChangedIndex, before_with};

    ghost Value = { ChangedIndex };

    ghost view = { λ p. record { before = before_with p.after p.before; after = p.after } };

    ghost invariant = { λ p. IsOrdered (before_with p.after p.before) };
}

/// A copy of the tables, prepared for a change.
#[tactic(auto, using(crate::proofs::Numbers::keys_climb))]
fn prepared_copy(alloc: Global, tables: &Tables, change: &Change) -> Result<Prepared, NoMemory>
    requires { AreWellFormed tables.now }
    ensures { IfOk result (λ p. with_change p.tables p.change ≡ with_change tables.now change.now) }
{
    let change = change.copy(alloc)?;
    let copy = tables.copy(alloc)?;
    match copy.prepare(change) {
        Ok(prepared) => Ok(prepared),
        Err(_) => Err(NoMemory),
    }
}

/// The changed tables.
fn changed(alloc: Global, tables: &Tables, change: &Change) -> Result<Tables, NoMemory>
    requires { AreWellFormed tables.now }
    ensures { IfOk result (λ t. t ≡ with_change tables.now change.now) }
{
    let prepared = prepared_copy(alloc, tables, change)?;
    Ok(prepared.apply())
}

/// The index of the changed tables, built of them.
fn rebuilt(alloc: Global, tables: &Tables, change: &Change) -> Result<LoadIndex, NoMemory>
    requires tables { AreWellFormed tables.now }
    requires changed { AreWellFormed (with_change tables.now change.now) }
    ensures { IfOk result (IsIndexOf (with_change tables.now change.now)) }
{
    let tables = changed(alloc, tables, change)?;
    LoadIndex::build(alloc, &tables)
}

impl PreparedIndex {
    fn built(before: LoadIndex, after: LoadIndex) -> PreparedIndex
        ensures before { result.before ≡ before }
        ensures after { result.after ≡ after }
    {
        PreparedIndex {
            after,
            before: Before::Index(before),
        }
    }

    fn followed(index: OpenIndex) -> PreparedIndex
        requires before { IsOrdered (before_of index) }
        requires after { IsOrdered (parts_of index) }
        ensures before { result.before ≡ before_of index }
        ensures after { result.after ≡ parts_of index }
    {
        let (after, formers) = index.close();
        PreparedIndex {
            after,
            before: Before::Parts(formers),
        }
    }

    /// The index of the changed tables.
    pub fn after(&self) -> &LoadIndex
        ensures { result.now ≡ self.now.after }
    {
        &self.after
    }

    /// The index of the changed tables. It takes no memory.
    pub fn apply(self) -> LoadIndex
        ensures { result ≡ self.after }
    {
        let PreparedIndex { after, before: _ } = self;
        after
    }

    /// The index as it was. It takes no memory.
    pub fn give_back(self) -> LoadIndex
        ensures { result ≡ self.before }
    {
        let PreparedIndex { after, before } = self;
        match before {
            Before::Index(index) => index,
            Before::Parts(formers) => OpenIndex::again(after, formers).take_back(),
        }
    }
}

impl LoadIndex {
    fn prepare_anew(
        self,
        alloc: Global,
        tables: &Tables,
        change: &Change,
    ) -> Result<PreparedIndex, LoadIndex>
        requires tables { AreWellFormed tables.now }
        requires changed { AreWellFormed (with_change tables.now change.now) }
        ensures before { IfOk result (λ p. p.before ≡ self) }
        ensures after { IfOk result (λ p. IsIndexOf (with_change tables.now change.now) p.after) }
        ensures unchanged { IfErr result (λ i. i ≡ self) }
    {
        match rebuilt(alloc, tables, change) {
            Ok(after) => Ok(PreparedIndex::built(self, after)),
            Err(NoMemory) => Err(self),
        }
    }

    /// Takes the memory that the index of the changed tables needs. Where it is not found, the index comes back as it was.
    pub fn prepare(
        self,
        alloc: Global,
        tables: &Tables,
        change: &Change,
    ) -> Result<PreparedIndex, LoadIndex>
        requires tables { AreWellFormed tables.now }
        requires changed { AreWellFormed (with_change tables.now change.now) }
        requires index { IsIndexOf tables.now self }
        ensures before { IfOk result (λ p. p.before ≡ self) }
        ensures after { IfOk result (λ p. IsIndexOf (with_change tables.now change.now) p.after) }
        ensures unchanged { IfErr result (λ i. i ≡ self) }
    {
        let mut open = OpenIndex::of(alloc, self);
        match open.follow(alloc, tables, change) {
            Ok(()) => Ok(PreparedIndex::followed(open)),
            Err(Stop::NoMemory) => Err(open.take_back()),
            Err(Stop::Unfollowed) => open.take_back().prepare_anew(alloc, tables, change),
        }
    }
}
