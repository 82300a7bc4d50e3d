//! What the types of a row's fields say of them: each function only looks at the fields.
ghost use Rattle.std.specs.Prelude.{◌≤◌, All};
ghost use Rattle.std.specs.Str.{IsUtf8};
ghost use Rattle.desk_time.specs.Limits.{IsMoment};
ghost use Rattle.desk_json.specs.Decimals.{IsId};
ghost use Rattle.desk_kept.specs.TypedRows.{IsSerial, IsIdOrNone, IsZone, IsCalendar, IsWork, IsBreak, IsDayRow, IsOff, IsNamed, IsResource, IsHas, IsMembership, IsBooking, IsReceipt, IsCaller};
ghost use Rattle.desk_kept.specs.TypedGroups.{IsRating, IsWindow, IsWindowOrNone, IsLeaf, IsGroup};
ghost use Rattle.desk_kept.specs.Typed.{IsTyped};

use desk_base::{
    AnyRow, BookingRow, BreakRow, CalendarRow, CallerRow, CharacteristicId, DayRow, GroupRow,
    HasRow, Id, Items, Leaf, Leaves, MemberRow, Minute, Name, NamedRow, OffRow, Ratings, Receipt,
    ResourceRow, Serial, Window, WorkRow, ZoneRow,
};

// ---- values

fn look_at_id<K>(id: Id<K>)
    ensures { IsId id }
{
    let _number = id.get();
}

fn look_at_serial<K>(serial: Serial<K>)
    ensures { IsSerial serial }
{
    let _number = serial.get();
}

fn look_at_moment(minute: Minute)
    ensures { IsMoment minute }
{
    let _number = minute.get();
}

fn look_at_name(name: &Name)
    ensures { IsUtf8 name.now }
{
    let _bytes = name.as_str().as_bytes();
}

fn look_at_id_or_none<K>(id: Option<Id<K>>)
    ensures { IsIdOrNone id }
{
    match id {
        Some(id) => look_at_id(id),
        None => (),
    }
}

fn look_at_ids<K>(ids: &Items<Id<K>>)
    ensures { All IsId ids.now }
{
    for id in ids.as_slice() {
        let _number = id.get();
    }
}

// ---- rows up to memberships

fn look_at_zone(row: &ZoneRow)
    ensures { IsZone row.now }
{
    look_at_id(row.id);
    look_at_name(&row.name);
}

fn look_at_calendar(row: &CalendarRow)
    ensures { IsCalendar row.now }
{
    look_at_id(row.id);
    look_at_name(&row.name);
    look_at_id(row.zone);
}

fn look_at_work(row: WorkRow)
    ensures { IsWork row }
{
    look_at_id(row.calendar);
}

fn look_at_break(row: BreakRow)
    ensures { IsBreak row }
{
    look_at_id(row.calendar);
}

fn look_at_day(row: DayRow)
    ensures { IsDayRow row }
{
    look_at_id(row.calendar);
}

fn look_at_off(row: OffRow)
    ensures { IsOff row }
{
    look_at_id(row.resource);
    look_at_moment(row.from);
    look_at_moment(row.to);
}

fn look_at_named(row: &NamedRow)
    ensures { IsNamed row.now }
{
    let _id = row.id;
    look_at_name(&row.name);
}

fn look_at_resource(row: &ResourceRow)
    ensures { IsResource row.now }
{
    look_at_id(row.id);
    look_at_name(&row.name);
    look_at_id_or_none(row.calendar);
    look_at_id(row.unit);
    look_at_id(row.site);
}

fn look_at_has(row: HasRow)
    ensures { IsHas row }
{
    look_at_id(row.resource);
}

fn look_at_membership(row: MemberRow)
    ensures { IsMembership row }
{
    look_at_id(row.group);
    look_at_id(row.member);
    look_at_moment(row.from);
    look_at_moment(row.to);
}

// ---- bookings and callers

fn look_at_booking(row: BookingRow)
    ensures { IsBooking row }
{
    look_at_serial(row.id);
    look_at_id(row.group);
    look_at_id(row.resource);
    look_at_moment(row.from);
    look_at_moment(row.to);
}

fn look_at_receipt(receipt: Receipt)
    ensures { IsReceipt receipt }
{
    match receipt {
        Receipt::Booked { first, .. } => look_at_serial(first),
        _ => (),
    }
}

fn look_at_caller(row: CallerRow)
    ensures { IsCaller row }
{
    look_at_id(row.caller);
    look_at_serial(row.last);
    look_at_receipt(row.receipt);
}

// ---- groups

fn look_at_rating(rating: (CharacteristicId, u8))
    ensures { IsRating rating }
{
    look_at_id(rating.0);
}

fn look_at_ratings(ratings: &Ratings)
    ensures { All IsRating ratings.now }
{
    for rating in ratings.as_slice() {
        look_at_rating(*rating);
    }
}

fn look_at_window(window: Option<Window>)
    ensures { IsWindowOrNone window }
{
    match window {
        Some(window) => {
            look_at_moment(window.from);
            look_at_moment(window.to);
        }
        None => (),
    }
}

fn look_at_leaf(leaf: &Leaf)
    ensures { IsLeaf leaf.now }
{
    let _duration = leaf.duration;
    let _offset = leaf.offset;
    let _effort = leaf.effort;
    look_at_ids(&leaf.roles);
    look_at_ratings(&leaf.characteristics);
    look_at_ids(&leaf.territories);
    look_at_ids(&leaf.units);
    look_at_ids(&leaf.required);
    look_at_ids(&leaf.restricted);
    look_at_window(leaf.window);
}

fn look_at_leaves(leaves: &Leaves)
    ensures { All IsLeaf leaves.now }
{
    for leaf in leaves.as_slice() {
        look_at_leaf(leaf);
    }
}

fn look_at_group(row: &GroupRow)
    ensures { IsGroup row.now }
{
    let _step = row.step;
    look_at_id(row.id);
    look_at_name(&row.name);
    look_at_moment(row.from);
    look_at_moment(row.to);
    look_at_leaves(&row.leaves);
}

/// Whatever row there is, it is as the types of its fields let it be.
pub(crate) fn look_at(row: &AnyRow)
    ensures { IsTyped row.now }
{
    match row {
        AnyRow::Zone(row) => look_at_zone(row),
        AnyRow::Calendar(row) => look_at_calendar(row),
        AnyRow::Work(row) => look_at_work(*row),
        AnyRow::Break(row) => look_at_break(*row),
        AnyRow::Day(row) => look_at_day(*row),
        AnyRow::Off(row) => look_at_off(*row),
        AnyRow::Unit(row) => look_at_named(row),
        AnyRow::Site(row) => look_at_named(row),
        AnyRow::Role(row) => look_at_named(row),
        AnyRow::Characteristic(row) => look_at_named(row),
        AnyRow::Territory(row) => look_at_named(row),
        AnyRow::Resource(row) => look_at_resource(row),
        AnyRow::HasRole(row) => look_at_has(*row),
        AnyRow::HasCharacteristic(row) => look_at_has(*row),
        AnyRow::HasTerritory(row) => look_at_has(*row),
        AnyRow::Member(row) => look_at_membership(*row),
        AnyRow::Group(row) => look_at_group(row),
        AnyRow::Booking(row) => look_at_booking(*row),
        AnyRow::Caller(row) => look_at_caller(*row),
    }
}
