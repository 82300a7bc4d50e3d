//! Tables beside any keeper: they are changed where it keeps the change, and so stay the tables that it tells.
ghost use Rattle.std.specs.Prelude.{◌≡◌, if◌then◌else◌};
ghost use Rattle.std.specs.List.{All};
ghost use Rattle.desk_base.specs.changes.Changes.{with_change};
ghost use Rattle.desk_base.specs.declared.rows.tables.Tables.{Tables as AnyTables};
ghost use Rattle.desk_base.specs.rows.Lookups.{KeysRise};
ghost use Rattle.desk_keeper.specs.Keepable.{IsKeepable};
ghost use Rattle.tests_keeper.specs.Telling.{ToldRise, Tells};

use desk_base::{Change, NoMemory, Prepared, Tables};
use desk_keeper::Keeper;
use std::alloc::Global;

/// Whether the keeper kept the change.
pub fn keeps<K: Keeper>(alloc: Global, keeper: &mut K, change: &Change) -> bool
    requires rise { ToldRise (K.told keeper.old) }
    requires rows { All IsKeepable change.now.puts }
    ensures { (t : AnyTables) → Tells (K.told keeper.old) t → Tells (K.told keeper.new) (if result then with_change t change.now else t) }
{
    match keeper.ready(alloc, change) {
        Ok(()) => keeper.commit(change).is_ok(),
        Err(NoMemory) => false,
    }
}

/// The tables with the change where the keeper keeps it, or else as they were.
pub fn beside<K: Keeper>(alloc: Global, keeper: &mut K, prepared: Prepared) -> Tables
    requires rise { KeysRise prepared.tables }
    requires rows { All IsKeepable prepared.change.puts }
    requires told { Tells (K.told keeper.old) prepared.tables }
    ensures { Tells (K.told keeper.new) result }
{
    if keeps(alloc, keeper, prepared.change()) {
        prepared.apply()
    } else {
        prepared.give_back()
    }
}
