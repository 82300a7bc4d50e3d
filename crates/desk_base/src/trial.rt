//! The trial tables, on which a new desk is tried.
ghost use Rattle.std.specs.Prelude.{◌≡◌, ◌∷◌, [], IfOk, Some, ◌≤◌};
ghost use Rattle.desk_base.specs.rules.Limits.{id_limit};
ghost use Rattle.desk_base.specs.rows.Trial.{trial, trial_group, trial_resource, work_on_monday, plain_leaf};

use crate::limits::FIRST_MINUTE;
use crate::rows::calendars::{CalendarRow, WorkRow, ZoneRow};
use crate::rows::groups::{GroupRow, Leaf, Node, NodeKind, Same};
use crate::rows::resources::{Kind, NamedRow, ResourceRow};
use crate::rows::tables::Tables;
use crate::values::ids::{CalendarId, GroupId, ResourceId, SiteId, UnitId, ZoneId};
use crate::values::items::Items;
use crate::values::memory::NoMemory;
use crate::values::minutes::Minute;
use crate::values::names::Name;
use std::alloc::Global;

fn one<T: Drop>(alloc: Global, item: T) -> Result<Items<T>, NoMemory>
    ensures { IfOk result (λ n. n ≡ item ∷ []) }
{
    let mut items = Items::new(alloc);
    items.push(item)?;
    Ok(items)
}

fn two<T: Drop>(alloc: Global, first: T, second: T) -> Result<Items<T>, NoMemory>
    ensures { IfOk result (λ n. n ≡ first ∷ second ∷ []) }
{
    let mut items = Items::new(alloc);
    items.push(first)?;
    items.push(second)?;
    Ok(items)
}

fn three<T: Drop>(alloc: Global, first: T, second: T, third: T) -> Result<Items<T>, NoMemory>
    ensures { IfOk result (λ n. n ≡ first ∷ second ∷ third ∷ []) }
{
    let mut items = Items::new(alloc);
    items.push(first)?;
    items.push(second)?;
    items.push(third)?;
    Ok(items)
}

fn resource(alloc: Global, id: u32, text: &str, calendar: u32) -> Result<ResourceRow, NoMemory>
    requires low { 1 ≤ id }
    requires high { id ≤ id_limit }
    requires low_calendar { 1 ≤ calendar }
    requires high_calendar { calendar ≤ id_limit }
    ensures { IfOk result (λ r. r ≡ trial_resource id text.now calendar) }
{
    Ok(ResourceRow {
        id: ResourceId::of(id).unwrap(),
        name: Name::of(alloc, text)?,
        kind: Kind::Generic,
        calendar: CalendarId::of(calendar),
        unit: UnitId::of(1).unwrap(),
        site: SiteId::of(1).unwrap(),
    })
}

fn work(calendar: u32, from: u16) -> WorkRow
    requires low { 1 ≤ calendar }
    requires high { calendar ≤ id_limit }
    ensures { result ≡ work_on_monday calendar from }
{
    WorkRow {
        calendar: CalendarId::of(calendar).unwrap(),
        weekday: 0,
        from,
        to: 720,
        capacity: 1,
    }
}

fn leaf(alloc: Global) -> Leaf
    ensures { result ≡ plain_leaf }
{
    Leaf {
        duration: 60,
        offset: 0,
        effort: 1,
        kinds: Items::new(alloc),
        roles: Items::new(alloc),
        characteristics: Items::new(alloc),
        territories: Items::new(alloc),
        units: Items::new(alloc),
        required: Items::new(alloc),
        restricted: Items::new(alloc),
        window: None,
    }
}

fn visit(alloc: Global) -> Result<GroupRow, NoMemory>
    ensures { IfOk result (λ g. g ≡ trial_group) }
{
    let node = Node {
        depth: 0,
        kind: NodeKind::Leaf,
        same: Same::None,
    };
    Ok(GroupRow {
        id: GroupId::of(1).unwrap(),
        name: Name::of(alloc, "Visit")?,
        from: Minute::of(28_935_840).unwrap(),
        to: Minute::of(28_936_080).unwrap(),
        step: 60,
        nodes: one(alloc, node)?,
        leaves: one(alloc, leaf(alloc))?,
    })
}

fn resources(alloc: Global) -> Result<Items<ResourceRow>, NoMemory>
    ensures { IfOk result (λ r. r ≡ trial.resources) }
{
    three(
        alloc,
        resource(alloc, 1, "Ann", 1)?,
        resource(alloc, 2, "Bob", 1)?,
        resource(alloc, 3, "Cyd", 2)?,
    )
}

fn calendar(alloc: Global, id: u32, text: &str) -> Result<CalendarRow, NoMemory>
    requires low { 1 ≤ id }
    requires high { id ≤ id_limit }
    ensures { IfOk result (λ r. r ≡ record { id = id; name = text.now; zone = 1 }) }
{
    Ok(CalendarRow {
        id: CalendarId::of(id).unwrap(),
        name: Name::of(alloc, text)?,
        zone: ZoneId::of(1).unwrap(),
    })
}

fn named(alloc: Global, text: &str) -> Result<NamedRow, NoMemory>
    ensures { IfOk result (λ r. r ≡ record { id = 1; name = text.now }) }
{
    Ok(NamedRow {
        id: 1,
        name: Name::of(alloc, text)?,
    })
}

fn zone(alloc: Global) -> Result<ZoneRow, NoMemory>
    ensures { IfOk result (λ z. z ∷ [] ≡ trial.zones) }
{
    Ok(ZoneRow {
        id: ZoneId::of(1).unwrap(),
        name: Name::of(alloc, "UTC")?,
        shifts: one(alloc, (FIRST_MINUTE, 0))?,
    })
}

impl Tables {
    /// The trial tables: Ann and Bob work on Mondays from 08:00 to 12:00 in UTC and Cyd from 10:00, and the group Visit asks for
    /// one of them for an hour, at a full hour of Monday 2025-01-06.
    pub fn trial(alloc: Global) -> Result<Tables, NoMemory>
        ensures { IfOk result (λ t. t ≡ trial) }
    {
        let zones = one(alloc, zone(alloc)?)?;
        let calendars = two(
            alloc,
            calendar(alloc, 1, "Day")?,
            calendar(alloc, 2, "Late")?,
        )?;
        let works = two(alloc, work(1, 480), work(2, 600))?;
        let units = one(alloc, named(alloc, "Main")?)?;
        let sites = one(alloc, named(alloc, "Depot")?)?;
        let resources = resources(alloc)?;
        let groups = one(alloc, visit(alloc)?)?;
        Ok(Tables {
            zones,
            calendars,
            works,
            breaks: Items::new(alloc),
            days: Items::new(alloc),
            offs: Items::new(alloc),
            units,
            sites,
            roles: Items::new(alloc),
            characteristics: Items::new(alloc),
            territories: Items::new(alloc),
            resources,
            has_roles: Items::new(alloc),
            has_characteristics: Items::new(alloc),
            has_territories: Items::new(alloc),
            members: Items::new(alloc),
            groups,
            bookings: Items::new(alloc),
            callers: Items::new(alloc),
            revision: 0,
            last_booking: 0,
        })
    }
}
