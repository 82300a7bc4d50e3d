//! Where a rule is first broken: in one table, and in all of them, in the order of their numbers.
ghost use Rattle.std.specs.Prelude.{◌≡◌, ◌≤◌, ◌↔◌, IsTrue, MatchOption, find, length, map, nat_le, not};
ghost use Rattle.std.specs.List.{list_all};
ghost use Rattle.std.specs.Option.{option_copied};
ghost use Rattle.desk_base.specs.rows.Lookups.{KeysRise};
ghost use Rattle.desk_base.specs.rows.Rows.{rows_in};
ghost use Rattle.desk_base.specs.declared.rows.tables.Table.{Table};
ghost use Rattle.desk_base.specs.rules.Sound.{keeps_fields, taken_limit_of};
ghost use Rattle.desk_member.specs.Memberships.{AreMemberships};
ghost use Rattle.desk_rules.specs.Broken.{IsReady, all_tables, broken_among, broken_in, cites_there, first_broken, first_uncited, first_unkept};
ghost use Rattle.desk_rules.specs.Formed.{IsKept, IsLeastBroken};

use crate::judged::{Judged, key_of_found};
use crate::limits::{first_past, taken_limit};
use crate::order::least_unordered;
use desk_base::{Key, Table, TableRule, Tables};
use desk_member::ByMember;

/// The first of the rows that breaks a field rule or a tree rule.
fn unkept<'a, R: Judged>(
    tables: &Tables,
    members: &ByMember,
    table: Table,
    rows: &'a [R],
) -> Option<&'a R>
    requires rise { KeysRise tables.now }
    requires memberships { AreMemberships tables.now members.now }
    ensures { option_copied result ≡ find (λ row. not (keeps_fields tables.now (R.any table row))) rows.now }
{
    rows.iter()
        .find(|row| !row.keeps_fields(tables, members, table))
}

/// The first of the rows that names one that is not there.
fn uncited<'a, R: Judged>(tables: &Tables, table: Table, rows: &'a [R]) -> Option<&'a R>
    requires { KeysRise tables.now }
    ensures { option_copied result ≡ find (λ row. not (cites_there tables.now (R.any table row))) rows.now }
{
    rows.iter()
        .find(|row| row.first_missing(tables, table).is_some())
}

/// The first of the rows that breaks a field rule or a tree rule, by its key.
fn first_unkept<R: Judged>(
    tables: &Tables,
    members: &ByMember,
    table: Table,
    rows: &[R],
) -> Option<Key>
    requires rise { KeysRise tables.now }
    requires memberships { AreMemberships tables.now members.now }
    ensures { result ≡ first_unkept tables.now (map (R.any table) rows.now) }
{
    let found = unkept(tables, members, table, rows);
    key_of_found(found, table)
}

/// The first of the rows that names one that is not there, by its key.
fn first_uncited<R: Judged>(tables: &Tables, table: Table, rows: &[R]) -> Option<Key>
    requires { KeysRise tables.now }
    ensures { result ≡ first_uncited tables.now (map (R.any table) rows.now) }
{
    let found = uncited(tables, table, rows);
    key_of_found(found, table)
}

/// The least key of these rows of a table at which they break the rule.
fn broken_among<R: Judged>(
    tables: &Tables,
    members: &ByMember,
    rule: TableRule,
    table: Table,
    rows: &[R],
) -> Option<Key>
    requires ready { IsReady rule tables.now }
    requires memberships { AreMemberships tables.now members.now }
    ensures { result ≡ broken_among rule tables.now table (map (R.any table) rows.now) }
{
    match rule {
        TableRule::Order => least_unordered(table, rows),
        TableRule::Limit => first_past(table, rows),
        TableRule::Field => first_unkept(tables, members, table, rows),
        TableRule::Citation => first_uncited(tables, table, rows),
        _ => unreachable!(),
    }
}

/// The least key of a table at which it breaks the rule.
fn broken_in(tables: &Tables, members: &ByMember, rule: TableRule, table: Table) -> Option<Key>
    requires ready { IsReady rule tables.now }
    requires memberships { AreMemberships tables.now members.now }
    ensures { result ≡ broken_in rule tables.now table }
{
    match table {
        Table::Zone => broken_among(tables, members, rule, table, tables.zones.as_slice()),
        Table::Calendar => broken_among(tables, members, rule, table, tables.calendars.as_slice()),
        Table::Work => broken_among(tables, members, rule, table, tables.works.as_slice()),
        Table::Break => broken_among(tables, members, rule, table, tables.breaks.as_slice()),
        Table::Day => broken_among(tables, members, rule, table, tables.days.as_slice()),
        Table::Off => broken_among(tables, members, rule, table, tables.offs.as_slice()),
        Table::Unit => broken_among(tables, members, rule, table, tables.units.as_slice()),
        Table::Site => broken_among(tables, members, rule, table, tables.sites.as_slice()),
        Table::Role => broken_among(tables, members, rule, table, tables.roles.as_slice()),
        Table::Characteristic => broken_among(
            tables,
            members,
            rule,
            table,
            tables.characteristics.as_slice(),
        ),
        Table::Territory => {
            broken_among(tables, members, rule, table, tables.territories.as_slice())
        }
        Table::Resource => broken_among(tables, members, rule, table, tables.resources.as_slice()),
        Table::HasRole => broken_among(tables, members, rule, table, tables.has_roles.as_slice()),
        Table::HasCharacteristic => broken_among(
            tables,
            members,
            rule,
            table,
            tables.has_characteristics.as_slice(),
        ),
        Table::HasTerritory => broken_among(
            tables,
            members,
            rule,
            table,
            tables.has_territories.as_slice(),
        ),
        Table::Member => broken_among(tables, members, rule, table, tables.members.as_slice()),
        Table::Group => broken_among(tables, members, rule, table, tables.groups.as_slice()),
        Table::Booking => broken_among(tables, members, rule, table, tables.bookings.as_slice()),
        Table::Caller => broken_among(tables, members, rule, table, tables.callers.as_slice()),
        Table::BookingNumbers => None,
    }
}

/// The tables that have rows, in the order of their numbers.
fn all_tables() -> [Table; 19]
    ensures { result ≡ all_tables }
{
    [
        Table::Zone,
        Table::Calendar,
        Table::Work,
        Table::Break,
        Table::Day,
        Table::Off,
        Table::Unit,
        Table::Site,
        Table::Role,
        Table::Characteristic,
        Table::Territory,
        Table::Resource,
        Table::HasRole,
        Table::HasCharacteristic,
        Table::HasTerritory,
        Table::Member,
        Table::Group,
        Table::Booking,
        Table::Caller,
    ]
}

/// The least key of the first of these tables that breaks the rule.
fn first_broken(tables: &Tables, members: &ByMember, rule: TableRule, all: &[Table]) -> Option<Key>
    requires ready { IsReady rule tables.now }
    requires memberships { AreMemberships tables.now members.now }
    ensures { result ≡ first_broken rule tables.now all.now }
{
    match all {
        [] => None,
        [table, others @ ..] => match broken_in(tables, members, rule, *table) {
            Some(key) => Some(key),
            None => first_broken(tables, members, rule, others),
        },
    }
}

/// The least key at which the tables break the rule; `None` where they keep it at every key.
pub(crate) fn least_broken(tables: &Tables, members: &ByMember, rule: TableRule) -> Option<Key>
    requires ready { IsReady rule tables.now }
    requires memberships { AreMemberships tables.now members.now }
    ensures { MatchOption result (IsKept rule tables.now) (IsLeastBroken rule tables.now) }
{
    let all = all_tables();
    first_broken(tables, members, rule, &all)
}

fn are_few(tables: &Tables, all: &[Table]) -> bool
    ensures { result ≡ list_all (λ table. nat_le (length (rows_in tables.now table)) (taken_limit_of table)) all.now }
{
    all.iter()
        .all(|table| tables.len_of(*table) <= taken_limit(*table))
}

/// Whether no table has more rows than calls take.
pub(crate) fn are_taken(tables: &Tables) -> bool
    ensures { IsTrue result ↔ ((table : Table) → length (rows_in tables.now table) ≤ taken_limit_of table) }
{
    let all = all_tables();
    are_few(tables, &all)
}
