//! Ann, Bob and Cyd stand in unit 1 and at site 1; Ann and Bob have calendar 1, which works on Mondays from 08:00 (480), and Cyd
//! has calendar 2. Both calendars stand in zone 1. There is one group of one leaf, without bookings, and no caller yet.
ghost use Rattle.std.specs.Prelude.{◌≡◌, IfOk};
ghost use Rattle.desk_base.specs.rules.Sound.{IsSound};
ghost use Rattle.desk_change.specs.Served.{IsServed, is_master};
ghost use Rattle.desk_load.specs.Index.{IsIndexOf};

use desk_base::laws::{sound_tables_are_well_formed, trial_is_sound};
use desk_base::{
    Act, AnyRow, CalendarId, Call, CallNumber, CallerId, Field, GroupId, Items, Key, MemberRow,
    Minute, NoMemory, Refusal, ResourceId, Table, Tables, WorkRow,
};
use desk_change::{booked_for, early_refusal, is_booked, kept_receipt, last_number};
use desk_load::LoadIndex;
use std::alloc::Global;

const EIGHT: u32 = 28_935_840;

fn trial(alloc: Global) -> Result<Tables, NoMemory>
    ensures { IfOk result IsSound }
{
    trial_is_sound();
    let tables = Tables::trial(alloc)?;
    Ok(tables)
}

fn index_of(alloc: Global, tables: &Tables) -> Result<LoadIndex, NoMemory>
    requires { IsSound tables.now }
    ensures { IfOk result (IsIndexOf tables.now) }
{
    sound_tables_are_well_formed();
    let index = LoadIndex::build(alloc, tables)?;
    Ok(index)
}

fn first_call() -> Call {
    Call {
        caller: CallerId::of(1).unwrap(),
        number: CallNumber::of(1).unwrap(),
    }
}

fn refused_in(alloc: Global, tables: &Tables, act: &Act) -> Result<Option<Refusal>, NoMemory>
    requires sound { IsSound tables.now }
    requires served { IsServed act.now }
{
    let index = index_of(alloc, tables)?;
    Ok(early_refusal(tables, &index, &[], &first_call(), act))
}

/// Why the first change of a caller is refused.
fn refused(alloc: Global, act: &Act) -> Result<Option<Refusal>, NoMemory>
    requires { IsServed act.now }
{
    let tables = trial(alloc)?;
    let refusal = refused_in(alloc, &tables, act)?;
    Ok(refusal)
}

/// What a change comes to, by what shows it.
#[derive(Clone, Copy, Debug, PartialEq, Eq)]
enum Told {
    Nothing,
    Unknown(Key),
    Broken(Field),
    UsedBy(Key),
    NotBooked(u32),
    Other,
}

fn told_of(refusal: &Option<Refusal>) -> Told {
    match refusal {
        None => Told::Nothing,
        Some(Refusal::UnknownId(key)) => Told::Unknown(*key),
        Some(Refusal::BadField(field)) => Told::Broken(*field),
        Some(Refusal::InUse(_, by)) => Told::UsedBy(*by),
        Some(Refusal::NotBooked(group)) => Told::NotBooked(group.get()),
        Some(_) => Told::Other,
    }
}

fn answer_to(alloc: Global, act: &Act) -> Told
    requires { IsServed act.now }
{
    match refused(alloc, act) {
        Ok(refusal) => told_of(&refusal),
        Err(_) => Told::Other,
    }
}

/// Rows of this table are taken out one by one.
fn is_master(table: Table) -> bool
    ensures { result ≡ is_master table }
{
    match table {
        Table::Group => false,
        Table::Booking => false,
        Table::Caller => false,
        Table::BookingNumbers => false,
        _ => true,
    }
}

fn removed(alloc: Global, key: Key) -> Told {
    if is_master(key.table) {
        answer_to(alloc, &Act::Remove(key))
    } else {
        Told::Other
    }
}

const fn key(table: Table, a: u32, b: u32, c: u32) -> Key {
    Key { table, a, b, c }
}

#[test]
fn a_row_that_another_names_stays(rt: HostRuntime) {
    let zone = key(Table::Zone, 1, 0, 0);
    let late = key(Table::Work, 2, 0, 600);
    let ann = key(Table::Resource, 1, 0, 0);
    let missing = key(Table::Resource, 4, 0, 0);
    let rows = [
        (zone, Told::UsedBy(key(Table::Calendar, 1, 0, 0))),
        (key(Table::Calendar, 2, 0, 0), Told::UsedBy(late)),
        (key(Table::Unit, 1, 0, 0), Told::UsedBy(ann)),
        (key(Table::Site, 1, 0, 0), Told::UsedBy(ann)),
        (late, Told::Nothing),
        (ann, Told::Nothing),
        (missing, Told::Unknown(missing)),
    ];
    for (key, wanted) in rows {
        assert_eq!(rt; removed(rt.alloc(), key), wanted);
    }
}

fn put_work(alloc: Global, calendar: u32, from: u16) -> Told {
    match CalendarId::of(calendar) {
        Some(calendar) => answer_to(
            alloc,
            &Act::Put(AnyRow::Work(WorkRow {
                calendar,
                weekday: 0,
                from,
                to: 720,
                capacity: 1,
            })),
        ),
        None => Told::Other,
    }
}

fn ann_in(group: u32) -> Option<MemberRow> {
    Some(MemberRow {
        group: ResourceId::of(group)?,
        member: ResourceId::of(1)?,
        from: Minute::of(EIGHT)?,
        to: Minute::of(EIGHT + 60)?,
    })
}

fn put_member(alloc: Global, group: u32) -> Told {
    match ann_in(group) {
        Some(row) => answer_to(alloc, &Act::Put(AnyRow::Member(row))),
        None => Told::Other,
    }
}

#[test]
fn the_first_field_that_is_broken_is_named(rt: HostRuntime) {
    let unknown = Told::Unknown(key(Table::Calendar, 3, 0, 0));
    let rows = [
        (2, 540, Told::Broken(Field::Overlap)),
        (2, 600, Told::Nothing),
        (2, 720, Told::Broken(Field::To)),
        (3, 600, unknown),
    ];
    for (calendar, from, wanted) in rows {
        assert_eq!(rt; put_work(rt.alloc(), calendar, from), wanted);
    }
    assert_eq!(rt; put_member(rt.alloc(), 2), Told::Broken(Field::Group));
}

/// What comes of it where group 1 is moved, cancelled or dropped.
fn of_group(alloc: Global, group: GroupId, start: Minute) -> [Told; 3] {
    let moved = Act::MoveGroup {
        group,
        start,
        picks: Items::new(alloc),
    };
    [
        answer_to(alloc, &moved),
        answer_to(alloc, &Act::CancelGroup(group)),
        answer_to(alloc, &Act::DropGroup(group)),
    ]
}

#[test]
fn a_group_is_open_or_booked_as_it_is_asked_to_be(rt: HostRuntime) {
    let group = GroupId::of(1).expect(&rt, "number");
    let start = Minute::of(EIGHT).expect(&rt, "minute");
    assert_eq!(rt;
        of_group(rt.alloc(), group, start),
        [Told::NotBooked(1), Told::NotBooked(1), Told::Nothing]
    );
}

fn known_in(
    alloc: Global,
    tables: &Tables,
    group: GroupId,
) -> Result<(u32, bool, bool, usize), NoMemory>
    requires { IsSound tables.now }
{
    let index = index_of(alloc, tables)?;
    let call = first_call();
    let booked = booked_for(alloc, &index, group)?;
    Ok((
        last_number(tables, call.caller),
        kept_receipt(tables, &call).is_some(),
        is_booked(&index, group),
        booked.len(),
    ))
}

/// The last number of a caller, whether a receipt is kept, whether bookings of a group stand, and how many.
fn known_of(alloc: Global, group: GroupId) -> Result<(u32, bool, bool, usize), NoMemory> {
    let tables = trial(alloc)?;
    let known = known_in(alloc, &tables, group)?;
    Ok(known)
}

#[test]
fn nothing_is_known_of_a_new_caller(rt: HostRuntime) {
    let group = GroupId::of(1).expect(&rt, "number");
    let known = known_of(rt.alloc(), group).expect(&rt, "memory");
    assert_eq!(rt; known, (0, false, false, 0));
}
