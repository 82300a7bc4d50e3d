//! Keepers: rows of calls, some of which are to fail.
ghost use Rattle.std.specs.Prelude.{◌≡◌, [], IfSome};
ghost use Rattle.desk_base.specs.rows.Lookups.{KeysRise};
ghost use Rattle.tests_keeper.specs.Telling.{ToldRise};

use desk_base::{AnyRows, Change, Keys, NoMemory, Tables};
use desk_io::Failed;
use desk_keeper::{Keeper, LoadError, MemoryKeeper};
use std::alloc::Global;
use std::marker::Model;

/// A call of a keeper, and what it is to answer.
#[derive(Clone, Copy)]
enum Turn {
    /// A load gives tables of this revision, or fails.
    Load(Option<u64>),
    /// A change to this revision is kept, or fails.
    Commit(u64, bool),
}

use Turn::{Commit, Load};

fn counters(alloc: Global, revision: u64) -> Change
    ensures { result.puts ≡ [] }
{
    Change {
        puts: AnyRows::new(alloc),
        removes: Keys::new(alloc),
        revision,
        last_booking: 0,
    }
}

/// Whether a load gives tables of this revision, or fails where there is none.
fn loads<K: Keeper>(alloc: Global, keeper: &mut K, revision: Option<u64>) -> Option<bool>
    requires { ToldRise (K.told keeper.old) }
    ensures { ToldRise (K.told keeper.new) }
{
    match keeper.load(alloc) {
        Ok(tables) => Some(revision == Some(tables.revision)),
        Err(LoadError::Failed) => Some(revision == None),
        Err(LoadError::NoMemory) => None,
    }
}

/// Whether the keeper keeps a change that it is ready for.
#[tactic(auto, using(crate::proofs::Rises::rise_commit, crate::proofs::Rises::rise_call))]
fn is_kept<K: Keeper>(keeper: &mut K, change: &Change) -> bool
    requires ready { K.IsReadyFor keeper.old change.now }
    requires rise { ToldRise (K.told keeper.old) }
    ensures { ToldRise (K.told keeper.new) }
{
    match keeper.commit(change) {
        Ok(()) => true,
        Err(Failed) => false,
    }
}

/// Whether a change to this revision is kept, or not, as is said.
fn commits<K: Keeper>(alloc: Global, keeper: &mut K, revision: u64, kept: bool) -> Option<bool>
    requires { ToldRise (K.told keeper.old) }
    ensures { ToldRise (K.told keeper.new) }
{
    let change = counters(alloc, revision);
    match keeper.ready(alloc, &change) {
        Ok(()) => Some(is_kept(keeper, &change) == kept),
        Err(NoMemory) => None,
    }
}

fn takes_turn<K: Keeper>(alloc: Global, keeper: &mut K, turn: Turn) -> Option<bool>
    requires { ToldRise (K.told keeper.old) }
    ensures { ToldRise (K.told keeper.new) }
{
    match turn {
        Load(revision) => loads(alloc, keeper, revision),
        Commit(revision, kept) => commits(alloc, keeper, revision, kept),
    }
}

/// A keeper in whose tables the keys rise.
#[derive(Drop)]
struct Ordered {
    keeper: MemoryKeeper,
}

impl Model for Ordered {
    ghost use Rattle.desk_base.specs.rows.Lookups.{KeysRise};
    ghost use Rattle.desk_keeper.specs.Memory.{MemoryKept};

    ghost Value = { MemoryKept };

    ghost view = { λ o. o.keeper };

    ghost invariant = { λ o. KeysRise o.keeper.kept.tables };
}

/// A keeper of empty tables.
fn empty_keeper(alloc: Global, failing: &[u64]) -> Option<MemoryKeeper>
    ensures { IfSome result (λ k. KeysRise k.kept.tables) }
{
    let tables = Tables::empty(alloc);
    match MemoryKeeper::of(alloc, tables, failing) {
        Ok(keeper) => Some(keeper),
        Err(NoMemory) => None,
    }
}

impl Ordered {
    fn empty(alloc: Global, failing: &[u64]) -> Option<Ordered> {
        let keeper = empty_keeper(alloc, failing)?;
        Some(Ordered { keeper })
    }

    fn takes_turn(&mut self, alloc: Global, turn: Turn) -> Option<bool> {
        takes_turn(alloc, &mut self.keeper, turn)
    }
}

/// Whether each of these calls answers as is said.
fn takes_turns(alloc: Global, ordered: &mut Ordered, turns: &[Turn]) -> bool {
    for turn in turns {
        if ordered.takes_turn(alloc, *turn) != Some(true) {
            return false;
        }
    }
    true
}

/// How many faults a keeper counts after these calls, or nothing where one answers otherwise.
fn counts(alloc: Global, ordered: &mut Ordered, turns: &[Turn]) -> Option<u64> {
    if takes_turns(alloc, ordered, turns) {
        Some(ordered.keeper.faults())
    } else {
        None
    }
}

/// The same of a keeper of empty tables.
fn faults_after(alloc: Global, failing: &[u64], turns: &[Turn]) -> Option<u64> {
    match Ordered::empty(alloc, failing) {
        Some(mut ordered) => counts(alloc, &mut ordered, turns),
        None => None,
    }
}

/// The calls that are to fail, the calls that come, and the faults counted in the end.
type Case<'a> = (&'a [u64], &'a [Turn], u64);

#[test]
fn listed_calls_fail_and_change_nothing(rt: HostRuntime) {
    let cases: [Case<'_>; 6] = [
        (
            &[],
            &[
                Load(Some(0)),
                Commit(1, true),
                Load(Some(1)),
                Commit(7, true),
                Load(Some(7)),
            ],
            0,
        ),
        (
            &[0],
            &[Load(None), Load(Some(0)), Commit(1, true), Load(Some(1))],
            1,
        ),
        (
            &[1],
            &[
                Load(Some(0)),
                Commit(1, false),
                Load(Some(0)),
                Commit(1, true),
                Load(Some(1)),
            ],
            1,
        ),
        (
            &[3, 0, 3],
            &[
                Commit(1, false),
                Commit(1, true),
                Load(Some(1)),
                Load(None),
                Load(Some(1)),
            ],
            2,
        ),
        (
            &[1, 2],
            &[
                Commit(1, true),
                Commit(2, false),
                Commit(2, false),
                Commit(2, true),
                Load(Some(2)),
            ],
            2,
        ),
        (&[4], &[Load(Some(0)), Commit(1, true)], 0),
    ];
    for (failing, turns, faults) in cases {
        assert!(rt; faults_after(rt.alloc(), failing, turns) == Some(faults));
    }
}
