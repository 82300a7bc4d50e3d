//! One row of any table, as a change puts it: the first of its field rules that it breaks, and the first that it names and is not
//! there.
ghost use Rattle.std.specs.Prelude.{◌≡◌, find, not};
ghost use Rattle.desk_base.specs.declared.rows.tables.AnyRow.TheVariants.{Group as GroupOf};
ghost use Rattle.desk_base.specs.asked.Refusing.{is_there};
ghost use Rattle.desk_base.specs.rows.Lookups.{KeysRise};
ghost use Rattle.desk_base.specs.rows.Rows.{citations_of, rules_of};
ghost use Rattle.desk_base.specs.rules.Rules.{first_broken};
ghost use Rattle.desk_rules.specs.Own.{AreOwn};

use crate::citations;
use crate::fields::bookings::broken_booking;
use crate::fields::calendars::{
    broken_break, broken_calendar, broken_day, broken_off, broken_work, broken_zone,
};
use crate::fields::groups::broken_group;
use crate::fields::members::broken_member;
use crate::fields::resources::{broken_named, broken_rated, broken_resource, broken_unrated};
use desk_base::{AnyRow, Field, GroupRow, Key, MemberRow, Table, Tables};

/// The first of the field rules of its table that the row breaks among these tables, by the field that it names. Where the row is
/// a membership, `own` are all those of its member; else they are not looked at.
pub fn broken_row(tables: &Tables, own: &[MemberRow], row: &AnyRow) -> Option<Field>
    requires rise { KeysRise tables.now }
    requires own { AreOwn tables.now row.now own.now }
    ensures { result ≡ first_broken (rules_of tables.now row.now) }
{
    match row {
        AnyRow::Zone(x) => broken_zone(x),
        AnyRow::Calendar(x) => broken_calendar(x),
        AnyRow::Work(x) => broken_work(tables, x),
        AnyRow::Break(x) => broken_break(x),
        AnyRow::Day(x) => broken_day(tables, x),
        AnyRow::Off(x) => broken_off(x),
        AnyRow::Unit(x) => broken_named(x),
        AnyRow::Site(x) => broken_named(x),
        AnyRow::Role(x) => broken_named(x),
        AnyRow::Characteristic(x) => broken_named(x),
        AnyRow::Territory(x) => broken_named(x),
        AnyRow::Resource(x) => broken_resource(tables, x),
        AnyRow::HasRole(x) => broken_unrated(x),
        AnyRow::HasCharacteristic(x) => broken_rated(x),
        AnyRow::HasTerritory(x) => broken_unrated(x),
        AnyRow::Member(x) => broken_member(tables, own, x),
        AnyRow::Group(x) => broken_group(x),
        AnyRow::Booking(x) => broken_booking(x),
        AnyRow::Caller(_) => None,
    }
}

/// The first key that the row names under which no row stands, in the order of its fields. Each is found by halving.
pub fn first_unknown(tables: &Tables, row: &AnyRow) -> Option<Key>
    requires { KeysRise tables.now }
    ensures { result ≡ find (λ k. not (is_there tables.now k)) (citations_of row.now) }
{
    match row {
        AnyRow::Calendar(x) => citations::of_calendar(tables, x),
        AnyRow::Work(x) => citations::of_own_calendar(tables, x.calendar),
        AnyRow::Break(x) => citations::of_own_calendar(tables, x.calendar),
        AnyRow::Day(x) => citations::of_own_calendar(tables, x.calendar),
        AnyRow::Off(x) => citations::of_own_resource(tables, x.resource),
        AnyRow::Resource(x) => citations::of_resource(tables, x),
        AnyRow::HasRole(x) => citations::of_has(tables, Table::Role, x),
        AnyRow::HasCharacteristic(x) => citations::of_has(tables, Table::Characteristic, x),
        AnyRow::HasTerritory(x) => citations::of_has(tables, Table::Territory, x),
        AnyRow::Member(x) => citations::of_member(tables, x),
        AnyRow::Group(x) => citations::of_group(tables, x),
        AnyRow::Booking(x) => citations::of_booking(tables, x),
        AnyRow::Zone(_) => None,
        AnyRow::Unit(_) => None,
        AnyRow::Site(_) => None,
        AnyRow::Role(_) => None,
        AnyRow::Characteristic(_) => None,
        AnyRow::Territory(_) => None,
        AnyRow::Caller(_) => None,
    }
}

/// The first that the leaves of a group list under whose key no row stands, leaf by leaf. Each is found by halving.
pub fn first_unknown_of_group(tables: &Tables, group: &GroupRow) -> Option<Key>
    requires { KeysRise tables.now }
    ensures { result ≡ find (λ k. not (is_there tables.now k)) (citations_of (GroupOf group.now)) }
{
    citations::of_group(tables, group)
}
