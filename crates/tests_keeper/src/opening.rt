//! Openers: stores that are fetched by their paths, and given back.
ghost use Rattle.std.specs.Prelude.{◌≡◌};
ghost use Rattle.desk_keeper.specs.Memory.{AreFresh};

use desk_base::{Bytes, Items, NoMemory, Tables};
use desk_io::Failed;
use desk_keeper::{Keeper, Keepers, LoadError, MemoryKeeper, MemoryOpener, Opener};
use std::alloc::Global;

/// Empty tables of a revision.
fn tables(alloc: Global, revision: u64) -> Tables {
    let mut tables = Tables::empty(alloc);
    tables.revision = revision;
    tables
}

/// Adds a store of tables of this revision, whose listed calls fail.
fn add(
    alloc: Global,
    stores: &mut Keepers,
    path: &[u8],
    revision: u64,
    failing: &[u64],
) -> Result<(), NoMemory>
    requires { AreFresh stores.old }
    ensures { AreFresh stores.new }
{
    let path = Bytes::from_slice(alloc, path)?;
    let keeper = MemoryKeeper::of(alloc, tables(alloc, revision), failing)?;
    let added = stores.push((path, keeper));
    added
}

/// Adds two stores of one path, and between them one of another.
fn add_stores(alloc: Global, stores: &mut Keepers) -> Result<(), NoMemory>
    requires { AreFresh stores.old }
    ensures { AreFresh stores.new }
{
    add(alloc, stores, b"first", 1, &[])?;
    add(alloc, stores, b"other", 2, &[0])?;
    let added = add(alloc, stores, b"first", 3, &[]);
    added
}

/// Whether a load of the store gives tables of this revision, or fails where there is none.
fn gives<K: Keeper>(alloc: Global, store: &mut K, revision: Option<u64>) -> bool {
    match store.load(alloc) {
        Ok(tables) => revision == Some(tables.revision),
        Err(LoadError::Failed) => revision == None,
        Err(LoadError::NoMemory) => false,
    }
}

/// Whether the store of a path gives tables of this revision, or fails where there is none. It is given back then.
fn opens(alloc: Global, opener: &mut MemoryOpener, path: &[u8], revision: Option<u64>) -> bool {
    match opener.fetch(path) {
        Ok(mut store) => {
            let same = gives(alloc, &mut store, revision);
            opener.give_back(store);
            same
        }
        Err(Failed) => false,
    }
}

/// Whether no store has the path.
fn lacks(opener: &mut MemoryOpener, path: &[u8]) -> bool {
    match opener.fetch(path) {
        Ok(store) => {
            opener.give_back(store);
            false
        }
        Err(Failed) => true,
    }
}

/// Whether so many stores with these faults were given back, in this order.
fn were_given_back(opener: &MemoryOpener, faults: &[u64]) -> bool {
    let back = opener.given_back();
    back.len() == faults.len()
        && back
            .iter()
            .zip(faults)
            .all(|(store, faults)| store.faults() == *faults)
}

fn hands_out_and_takes_back(alloc: Global, opener: &mut MemoryOpener) -> bool {
    lacks(opener, b"none")
        && opens(alloc, opener, b"first", Some(1))
        && opens(alloc, opener, b"other", None)
        && opens(alloc, opener, b"first", Some(3))
        && lacks(opener, b"first")
}

/// The faults that an opener counts after these calls, or nothing where one answers otherwise.
fn faults_after(alloc: Global, stores: Keepers) -> Option<u64>
    requires { AreFresh stores }
{
    match MemoryOpener::of(alloc, stores) {
        Ok(mut opener) => counts(alloc, &mut opener),
        Err(NoMemory) => None,
    }
}

fn counts(alloc: Global, opener: &mut MemoryOpener) -> Option<u64> {
    if hands_out_and_takes_back(alloc, opener) && were_given_back(opener, &[0, 1, 0]) {
        Some(opener.faults())
    } else {
        None
    }
}

/// The same of the stores that are added to none.
fn faults_of_all(alloc: Global) -> Option<u64> {
    let mut stores = Items::new(alloc);
    match add_stores(alloc, &mut stores) {
        Ok(()) => faults_after(alloc, stores),
        Err(NoMemory) => None,
    }
}

#[test]
fn stores_are_fetched_by_their_paths_and_given_back(rt: HostRuntime) {
    assert!(rt; faults_of_all(rt.alloc()) == Some(3));
}
