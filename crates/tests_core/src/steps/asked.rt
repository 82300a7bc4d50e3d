//! Commands, written as plain values.
ghost use Rattle.std.specs.Prelude.{IfOk};
ghost use Rattle.desk_change.specs.Served.{IsServed};
ghost use Rattle.desk_core.specs.Built.{IsBuilt};

use desk_base::{
    Act, AnyRow, CalendarId, CalendarRow, Call, CallNumber, CallerId, Command, Cursor, GroupId,
    GroupRow, Items, Kind, Leaf, Minute, Name, NamedRow, NoMemory, Node, NodeKind, Options, Picks,
    Position, Query, ResourceId, ResourceRow, Same, SiteId, UnitId, WorkRow, ZoneId, ZoneRow,
};
use std::alloc::Global;
use std::test::Fail;

/// Picks of one leaf, or of two.
#[derive(Clone, Copy)]
pub enum Picked {
    One(u32),
    Two(u32, u32),
    LeftOut,
}

/// A change.
#[derive(Clone, Copy)]
pub enum Wanted {
    Unit(u32),
    /// A calendar in zone 1.
    Calendar(u32),
    /// A work row: calendar, weekday, from, to and capacity.
    Work(u32, u8, u16, u16, u16),
    /// A resource: its number, calendar and unit.
    Resource(u32, u32, u32),
    /// A group of one leaf of 60 minutes: its number, from, to and step.
    Group(u32, u32, u32, u16),
    /// A group, a start and picks.
    Book(u32, u32, Picked),
    Cancel(u32),
}

/// Rows of a group: from a minute on, after a cursor of one pick, at the latest revision, and so many.
#[derive(Clone, Copy)]
pub struct Pages {
    pub group: u32,
    pub from: Option<u32>,
    pub after: Option<(u64, u32, u32)>,
    pub latest: bool,
    pub limit: u32,
    pub per: Option<u32>,
}

/// A command: a change of caller 7 with its number, or a question.
#[derive(Clone, Copy)]
pub enum Asked {
    Change(u32, Wanted),
    Rows(Pages),
    Revision,
}

fn group_id(id: u32) -> Result<GroupId, Fail> {
    let id = GroupId::of(id).ok_or("no group")?;
    Ok(id)
}

fn resource_id(id: u32) -> Result<ResourceId, Fail> {
    let id = ResourceId::of(id).ok_or("no resource")?;
    Ok(id)
}

fn calendar_id(id: u32) -> Result<CalendarId, Fail> {
    let id = CalendarId::of(id).ok_or("no calendar")?;
    Ok(id)
}

fn minute(number: u32) -> Result<Minute, Fail> {
    let minute = Minute::of(number).ok_or("no minute")?;
    Ok(minute)
}

/// A unit of this name.
pub fn unit(alloc: Global, id: u32, text: &str) -> Result<Act, Fail>
    ensures { IfOk result IsServed }
{
    let name = Name::of(alloc, text)?;
    Ok(Act::Put(AnyRow::Unit(NamedRow { id, name })))
}

/// A zone of these shifts.
pub fn zone(alloc: Global, id: u32, shifts: &[(u32, i32)]) -> Result<Act, Fail>
    ensures { IfOk result IsServed }
{
    let id = ZoneId::of(id).ok_or("no zone")?;
    let shifts = Items::from_slice(alloc, shifts)?;
    let name = Name::of(alloc, "X")?;
    Ok(Act::Put(AnyRow::Zone(ZoneRow { id, name, shifts })))
}

fn calendar(alloc: Global, id: u32) -> Result<Act, Fail>
    ensures { IfOk result IsServed }
{
    let id = calendar_id(id)?;
    let zone = ZoneId::of(1).ok_or("no zone")?;
    let name = Name::of(alloc, "X")?;
    Ok(Act::Put(AnyRow::Calendar(CalendarRow { id, name, zone })))
}

fn work(calendar: u32, weekday: u8, from: u16, to: u16, capacity: u16) -> Result<Act, Fail>
    ensures { IfOk result IsServed }
{
    let calendar = calendar_id(calendar)?;
    Ok(Act::Put(AnyRow::Work(WorkRow {
        calendar,
        weekday,
        from,
        to,
        capacity,
    })))
}

fn resource(alloc: Global, id: u32, calendar: u32, unit: u32) -> Result<Act, Fail>
    ensures { IfOk result IsServed }
{
    let id = resource_id(id)?;
    let calendar = calendar_id(calendar)?;
    let unit = UnitId::of(unit).ok_or("no unit")?;
    let site = SiteId::of(1).ok_or("no site")?;
    let name = Name::of(alloc, "X")?;
    Ok(Act::Put(AnyRow::Resource(ResourceRow {
        id,
        name,
        kind: Kind::Generic,
        calendar: Some(calendar),
        unit,
        site,
    })))
}

fn leaf(alloc: Global, offset: u32) -> Leaf {
    Leaf {
        duration: 60,
        offset,
        effort: 1,
        kinds: Items::new(alloc),
        roles: Items::new(alloc),
        characteristics: Items::new(alloc),
        territories: Items::new(alloc),
        units: Items::new(alloc),
        required: Items::new(alloc),
        restricted: Items::new(alloc),
        window: None,
    }
}

fn one<T: Drop>(alloc: Global, item: T) -> Result<Items<T>, NoMemory> {
    let mut items = Items::new(alloc);
    items.push(item)?;
    Ok(items)
}

fn group_row(
    alloc: Global,
    id: GroupId,
    from: Minute,
    to: Minute,
    step: u16,
    offset: u32,
) -> Result<GroupRow, NoMemory> {
    let node = Node {
        depth: 0,
        kind: NodeKind::Leaf,
        same: Same::None,
    };
    Ok(GroupRow {
        id,
        name: Name::of(alloc, "X")?,
        from,
        to,
        step,
        nodes: one(alloc, node)?,
        leaves: one(alloc, leaf(alloc, offset))?,
    })
}

fn group(alloc: Global, id: u32, from: u32, to: u32, step: u16) -> Result<Act, Fail>
    ensures { IfOk result IsServed }
{
    let row = group_row(alloc, group_id(id)?, minute(from)?, minute(to)?, step, 0)?;
    Ok(Act::PutGroup(row))
}

/// A group from 08:00 to 12:00, of one leaf of 60 minutes, so many minutes after its start.
pub fn late_leaf(alloc: Global, id: u32, offset: u32) -> Result<Act, Fail>
    ensures { IfOk result IsServed }
{
    let from = minute(28_935_840)?;
    let to = minute(28_936_080)?;
    let row = group_row(alloc, group_id(id)?, from, to, 60, offset)?;
    Ok(Act::PutGroup(row))
}

fn picks_of(alloc: Global, picked: Picked) -> Result<Picks, Fail> {
    let picks = match picked {
        Picked::One(id) => one(alloc, Some(resource_id(id)?))?,
        Picked::Two(id, other) => {
            let both = [Some(resource_id(id)?), Some(resource_id(other)?)];
            Items::from_slice(alloc, &both)?
        }
        Picked::LeftOut => one(alloc, None)?,
    };
    Ok(picks)
}

fn book(alloc: Global, group: u32, start: u32, picked: Picked) -> Result<Act, Fail>
    ensures { IfOk result IsServed }
{
    let group = group_id(group)?;
    let start = minute(start)?;
    let picks = picks_of(alloc, picked)?;
    Ok(Act::BookGroup {
        group,
        start,
        picks,
    })
}

fn cancel(group: u32) -> Result<Act, Fail>
    ensures { IfOk result IsServed }
{
    let group = group_id(group)?;
    Ok(Act::CancelGroup(group))
}

fn act_of(alloc: Global, wanted: Wanted) -> Result<Act, Fail>
    ensures { IfOk result IsServed }
{
    match wanted {
        Wanted::Unit(id) => unit(alloc, id, "X"),
        Wanted::Calendar(id) => calendar(alloc, id),
        Wanted::Work(calendar, weekday, from, to, capacity) => {
            work(calendar, weekday, from, to, capacity)
        }
        Wanted::Resource(id, calendar, unit) => resource(alloc, id, calendar, unit),
        Wanted::Group(id, from, to, step) => group(alloc, id, from, to, step),
        Wanted::Book(group, start, picked) => book(alloc, group, start, picked),
        Wanted::Cancel(group) => cancel(group),
    }
}

/// A change of a caller, with its number.
pub fn change(caller: u32, number: u32, act: Act) -> Result<Command, Fail>
    requires { IsServed act }
    ensures { IfOk result IsBuilt }
{
    let caller = CallerId::of(caller).ok_or("no caller")?;
    let number = CallNumber::of(number).ok_or("no number")?;
    Ok(Command::Change(Call { caller, number }, act))
}

fn cursor(alloc: Global, revision: u64, start: u32, pick: u32) -> Result<Cursor, Fail> {
    let start = minute(start)?;
    let picks = one(alloc, Some(resource_id(pick)?))?;
    let position = Position { start, picks };
    Ok(Cursor {
        revision,
        shown: None,
        position,
    })
}

fn rows(alloc: Global, pages: Pages) -> Result<Query, Fail> {
    let from = match pages.from {
        Some(from) => Some(minute(from)?),
        None => None,
    };
    let after = match pages.after {
        Some((revision, start, pick)) => Some(cursor(alloc, revision, start, pick)?),
        None => None,
    };
    Ok(Query::Rows {
        group: group_id(pages.group)?,
        options: Options {
            from,
            to: None,
            per: pages.per,
        },
        after,
        latest: pages.latest,
        limit: pages.limit,
    })
}

/// The command that is asked for.
pub fn command_of(alloc: Global, asked: Asked) -> Result<Command, Fail>
    ensures { IfOk result IsBuilt }
{
    match asked {
        Asked::Change(number, wanted) => {
            let act = act_of(alloc, wanted)?;
            change(7, number, act)
        }
        Asked::Rows(pages) => {
            let query = rows(alloc, pages)?;
            Ok(Command::Ask(query))
        }
        Asked::Revision => Ok(Command::Ask(Query::Revision)),
    }
}
