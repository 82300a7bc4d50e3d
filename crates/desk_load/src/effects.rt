//! Which tables an index keeps something of.
ghost use Rattle.std.specs.Prelude.{◌≡◌};
ghost use Rattle.desk_load.specs.Effects.{is_indexed};

use desk_base::Table;

/// Whether an index keeps something of a table.
pub fn is_indexed(table: Table) -> bool
    ensures { result ≡ is_indexed table }
{
    match table {
        Table::Resource => true,
        Table::Member => true,
        Table::Group => true,
        Table::Booking => true,
        Table::Zone => false,
        Table::Calendar => false,
        Table::Work => false,
        Table::Break => false,
        Table::Day => false,
        Table::Off => false,
        Table::Unit => false,
        Table::Site => false,
        Table::Role => false,
        Table::Characteristic => false,
        Table::Territory => false,
        Table::HasRole => false,
        Table::HasCharacteristic => false,
        Table::HasTerritory => false,
        Table::Caller => false,
        Table::BookingNumbers => false,
    }
}
