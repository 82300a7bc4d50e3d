//! Changes of the tables in two steps: the first takes all the memory and changes nothing, the second takes none.
ghost use Rattle.std.specs.Prelude.{◌≡◌, ◌+◌, ◌≤◌, [], length, OnOk, IfOk, IfErr};
ghost use Rattle.desk_base.specs.rows.Types.{Table};
ghost use Rattle.desk_base.specs.changes.Changes.{with_rows, without_keys, with_change};
ghost use Rattle.desk_base.specs.rows.Lookups.{KeysRise};
ghost use Rattle.desk_base.specs.changes.OpenTables.{tables_of, room_in, HasRoom};
ghost use Rattle.desk_base.specs.changes.Formers.{taken_back, HavePlaces, IsEmptyFor};

use crate::asked::acts::Change;
use crate::changes::formers::Former;
use crate::changes::open_tables::OpenTables;
use crate::changes::tried::Tried;
use crate::rows::tables::{AnyRow, Key, Tables};
use crate::values::memory::NoMemory;
use std::marker::Model;
use std::mem;

/// Tables that have the memory for a change, and the change. The tables are as before until it is applied.
#[derive(Debug, Drop)]
pub struct Prepared {
    open: OpenTables,
    change: Change,
    formers: Vec<Former>,
}

impl Model for Prepared {
    ghost use Rattle.std.specs.Prelude.{length};
    ghost use Rattle.desk_base.specs.rows.Lookups.{KeysRise};
    ghost use Rattle.desk_base.specs.changes.Prepared.{PreparedChange};
    ghost use Rattle.desk_base.specs.changes.OpenTables.{tables_of, HasRoom};
    ghost use Rattle.desk_base.specs.changes.Formers.{IsEmptyFor};

    ghost Value = { PreparedChange };

    ghost view = { λ p. record { tables = tables_of p.open; change = p.change } };

    ghost invariant = { λ p. KeysRise (tables_of p.open) × HasRoom p.open (length p.change.puts) p.change.puts × IsEmptyFor (length p.change.puts) p.formers };
}

/// Takes the memory for all of these rows, in the tables in which they stand.
fn reserve_all(tables: &mut OpenTables, rows: &[AnyRow]) -> Result<(), NoMemory>
    ensures tables { tables_of tables.new ≡ tables_of tables.old }
    ensures room { OnOk result (HasRoom tables.new (length rows.now) rows.now) }
{
    for row in rows {
        tables.reserve_for(row, rows.len())?;
    }
    Ok(())
}

/// Takes the memory for all of these rows, and for what stood under their keys.
fn reserve(tables: &mut OpenTables, rows: &[AnyRow]) -> Result<Vec<Former>, NoMemory>
    ensures tables { tables_of tables.new ≡ tables_of tables.old }
    ensures room { OnOk result (HasRoom tables.new (length rows.now) rows.now) }
    ensures formers { IfOk result (λ formers. IsEmptyFor (length rows.now) formers) }
{
    reserve_all(tables, rows)?;
    let alloc = *tables.bookings.allocator();
    Ok(Vec::with_capacity(alloc, rows.len())?)
}

/// Takes out the rows of these keys, one after another. It takes no memory.
fn take_out_all(tables: &mut OpenTables, keys: &[Key])
    requires { KeysRise (tables_of tables.old) }
    ensures tables { tables_of tables.new ≡ without_keys (tables_of tables.old) keys.now }
    ensures room { (table : Table) → room_in tables.old table ≤ room_in tables.new table }
{
    for key in keys {
        tables.take_out(key);
    }
}

/// Puts rows, one after another, and notes what stood under their keys. It takes no memory.
fn put_all(tables: &mut OpenTables, rows: Vec<AnyRow>, formers: &mut Vec<Former>)
    requires rise { KeysRise (tables_of tables.old) }
    requires room { HasRoom tables.old (length rows.items) rows.items }
    requires noted { IsEmptyFor (length rows.items) formers.old }
    ensures tables { tables_of tables.new ≡ with_rows (tables_of tables.old) rows.items }
    ensures back { taken_back (tables_of tables.new) formers.new.items ≡ tables_of tables.old }
    ensures places { HavePlaces (tables_of tables.new) formers.new.items }
{
    for row in rows {
        let former = tables.put(row);
        formers.push_reserved(former);
    }
}

impl Tables {
    /// Takes the memory that a change needs. Where it is not found, the tables come back as they were.
    pub fn prepare(self, change: Change) -> Result<Prepared, Tables>
        requires { KeysRise self }
        ensures tables { IfOk result (λ p. p.tables ≡ self) }
        ensures change { IfOk result (λ p. p.change ≡ change) }
        ensures unchanged { IfErr result (λ t. t ≡ self) }
    {
        let mut open = OpenTables::of(self);
        match reserve(&mut open, change.puts.as_slice()) {
            Ok(formers) => Ok(Prepared {
                open,
                change,
                formers,
            }),
            Err(NoMemory) => Err(open.close()),
        }
    }
}

impl Prepared {
    /// The change.
    pub fn change(&self) -> &Change
        ensures { result.now ≡ self.now.change }
    {
        &self.change
    }

    /// The tables with the change. It takes no memory.
    #[tactic(auto, unfolding(crate::specs::changes::Changes::with_change))]
    pub fn apply(self) -> Tables
        ensures { result ≡ with_change self.tables self.change }
    {
        let Prepared {
            mut open,
            change,
            mut formers,
        } = self;
        let Change {
            puts,
            removes,
            revision,
            last_booking,
        } = change;
        take_out_all(&mut open, removes.as_slice());
        put_all(&mut open, puts.into_vec(), &mut formers);
        open.revision = revision;
        open.last_booking = last_booking;
        open.close()
    }

    /// The tables with the change, which can be taken back. It takes no memory.
    #[tactic(auto, unfolding(crate::specs::changes::Changes::with_change))]
    pub fn try_out(self) -> Tried
        requires { self.change.removes ≡ [] }
        ensures before { result.before ≡ self.tables }
        ensures tables { result.tables ≡ with_change self.tables self.change }
    {
        let Prepared {
            mut open,
            change,
            mut formers,
        } = self;
        let Change {
            puts,
            removes: _,
            revision,
            last_booking,
        } = change;
        put_all(&mut open, puts.into_vec(), &mut formers);
        let revision_before = mem::replace(&mut open.revision, revision);
        let last_before = mem::replace(&mut open.last_booking, last_booking);
        Tried::of(open.close(), formers, revision_before, last_before)
    }

    /// The tables as they were. It takes no memory.
    pub fn give_back(self) -> Tables
        ensures { result ≡ self.tables }
    {
        let Prepared {
            open,
            change: _,
            formers: _,
        } = self;
        open.close()
    }
}
