//! Tables with a change that was tried out: it is kept, or taken back.
ghost use Rattle.std.specs.Prelude.{◌≡◌};
ghost use Rattle.desk_base.specs.rows.Lookups.{KeysRise};
ghost use Rattle.desk_base.specs.changes.OpenTables.{tables_of};
ghost use Rattle.desk_base.specs.changes.Formers.{taken_back, HavePlaces};
ghost use Rattle.desk_base.specs.changes.Tried.{with_counters};

use crate::changes::formers::Former;
use crate::changes::open_tables::OpenTables;
use crate::rows::tables::Tables;
use std::marker::Model;

/// Tables with a change that can still be taken back.
#[derive(Debug, Drop)]
pub struct Tried {
    tables: Tables,
    formers: Vec<Former>,
    revision: u64,
    last_booking: u32,
}

impl Model for Tried {
    ghost use Rattle.desk_base.specs.rows.Lookups.{KeysRise};
    ghost use Rattle.desk_base.specs.changes.Formers.{taken_back, HavePlaces};
    ghost use Rattle.desk_base.specs.changes.Tried.{TriedChange, with_counters};

    ghost Value = { TriedChange };

    ghost view = { λ p. record { before = taken_back (with_counters p.tables p.revision p.last_booking) p.formers.items; tables = p.tables } };

    ghost invariant = { λ p. KeysRise (with_counters p.tables p.revision p.last_booking) × HavePlaces (with_counters p.tables p.revision p.last_booking) p.formers.items };
}

/// Puts back what stood under the keys of rows that were put, the last first. It takes no memory.
fn put_all_back(tables: &mut OpenTables, mut formers: Vec<Former>)
    requires rise { KeysRise (tables_of tables.old) }
    requires places { HavePlaces (tables_of tables.old) formers.items }
    ensures { tables_of tables.new ≡ taken_back (tables_of tables.old) formers.items }
{
    while let Some(former) = formers.pop() {
        tables.put_back(former);
    }
}

impl Tried {
    /// Tables with a change, what stood under the keys of the rows that it put, and the counters before it.
    pub(crate) fn of(
        tables: Tables,
        formers: Vec<Former>,
        revision: u64,
        last_booking: u32,
    ) -> Tried
        requires rise { KeysRise (with_counters tables revision last_booking) }
        requires places { HavePlaces (with_counters tables revision last_booking) formers.items }
        ensures before { result.before ≡ taken_back (with_counters tables revision last_booking) formers.items }
        ensures tables { result.tables ≡ tables }
    {
        Tried {
            tables,
            formers,
            revision,
            last_booking,
        }
    }

    /// The tables with the change.
    pub fn tables(&self) -> &Tables
        ensures { result.now ≡ self.now.tables }
    {
        &self.tables
    }

    /// The tables with the change, which then stays. It takes no memory.
    pub fn keep(self) -> Tables
        ensures { result ≡ self.tables }
    {
        let Tried {
            tables,
            formers: _,
            revision: _,
            last_booking: _,
        } = self;
        tables
    }

    /// The tables as they were before the change. It takes no memory.
    pub fn take_back(self) -> Tables
        ensures { result ≡ self.before }
    {
        let Tried {
            tables,
            formers,
            revision,
            last_booking,
        } = self;
        let mut open = OpenTables::of(tables);
        open.revision = revision;
        open.last_booking = last_booking;
        put_all_back(&mut open, formers);
        open.close()
    }
}
