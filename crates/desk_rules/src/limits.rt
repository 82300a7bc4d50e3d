//! Whether tables have as few rows as they may.
ghost use Rattle.std.specs.Prelude.{◌≡◌};
ghost use Rattle.std.specs.List.{slice_get};
ghost use Rattle.std.specs.Option.{option_copied};
ghost use Rattle.desk_base.specs.rows.Lookups.{keys_by};
ghost use Rattle.desk_base.specs.rules.Sound.{taken_limit_of};
ghost use Rattle.desk_base.specs.rules.TableLimits.{limit_of};

use crate::judged::{Judged, key_of_found};
use desk_base::{Key, Table};

/// The row at a place, if there is one.
fn row_at<R: Judged>(rows: &[R], at: usize) -> Option<&R>
    ensures { option_copied result ≡ slice_get rows.now at }
{
    rows.get(at)
}

/// The key of the first row past the limit of its table; `None` where there are no more rows than the table may have.
pub(crate) fn first_past<R: Judged>(table: Table, rows: &[R]) -> Option<Key>
    ensures { result ≡ slice_get (keys_by (R.any table) rows.now) (limit_of table) }
{
    let past = row_at(rows, table.limit());
    key_of_found(past, table)
}

/// How many rows of a table calls take: of times off and of bookings ten times as many as a schedule keeps.
pub(crate) fn taken_limit(table: Table) -> usize
    ensures { result ≡ taken_limit_of table }
{
    match table {
        Table::Off => 10 * Table::Off.limit(),
        Table::Booking => 10 * Table::Booking.limit(),
        _ => table.limit(),
    }
}
