//! What a view is asked and what it tells, as plain values. Nobody counts the steps.
ghost use Rattle.std.specs.Prelude.{◌≡◌, ◌<◌};

use desk_base::limits::{DURATION_LIMIT, END_OF_MINUTES, FIRST_MINUTE, MINUTES_A_DAY};
use desk_base::{Ask, Minute, ResourceId, Steps, Window};
use desk_load::{Demand, FreeView, Probe, Starts};
use std::marker::Brand;
use std::process::Abort;
use std::sync::ledger::{Blank, Ledger};

/// A booking that is asked for: its resource, from, to and effort.
pub type Asked = (u32, u32, u32, u32);

/// What a probe tells: free, or the resource and the minute that are short.
#[derive(Clone, Copy, Debug, PartialEq, Eq)]
pub enum Told {
    Free,
    Short(u32, u32),
}

/// A booking that is looked for: its resource, effort and minutes.
pub type Sought = (u32, u32, u32);

/// The starts of a search: the first, the last and the minutes between.
pub type Among = (u32, u32, u32);

pub fn ask_of(asked: Asked) -> Option<Ask> {
    let (resource, from, to, effort) = asked;
    Some(Ask {
        resource: ResourceId::of(resource)?,
        window: Window {
            from: Minute::of(from)?,
            to: Minute::of(to)?,
        },
        effort,
    })
}

fn probe<L: Ledger>(view: &FreeView<'_>, ask: &Ask, blank: Blank) -> Probe
    requires name { blank.name ≡ L.name }
    requires parts { (blank.parts ≡ L.parts) × (0 < blank.parts) }
{
    let mut steps = Steps::<L>::new(blank);
    view.probe(ask, &mut steps)
}

/// What a probe tells of a booking.
pub fn told_of(view: &FreeView<'_>, asked: Asked) -> Option<Told> {
    let ask = ask_of(asked)?;
    Some(match probe::<Brand>(view, &ask, Blank::new(1)) {
        Probe::Free => Told::Free,
        Probe::Short { resource, minute } => Told::Short(resource.get(), minute),
    })
}

fn first_fit<L: Ledger>(
    view: &FreeView<'_>,
    demand: &Demand,
    duration: u32,
    among: &Starts,
    blank: Blank,
) -> Option<Option<u32>>
    requires name { blank.name ≡ L.name }
    requires parts { (blank.parts ≡ L.parts) × (0 < blank.parts) }
{
    if duration < 1 || duration > DURATION_LIMIT || among.step < 1 || among.step > MINUTES_A_DAY {
        return None;
    }
    if among.first < FIRST_MINUTE || among.last > END_OF_MINUTES - DURATION_LIMIT {
        return None;
    }
    let mut steps = Steps::<L>::new(blank);
    Some(view.first_fit(demand, duration, among, &mut steps))
}

/// The least of the starts at which a booking has room, if there is one. The outer `None` is no question.
pub fn first_of(view: &FreeView<'_>, sought: Sought, among: Among) -> Option<Option<u32>> {
    let (resource, effort, duration) = sought;
    let demand = Demand {
        resource: ResourceId::of(resource)?,
        effort,
    };
    let (first, last, step) = among;
    let starts = Starts { first, last, step };
    first_fit::<Brand>(view, &demand, duration, &starts, Blank::new(1))
}

/// Whether each booking is told what is expected.
pub fn are_told(rt: &impl Abort, view: &FreeView<'_>, rows: &[(Asked, Told)]) {
    for (asked, told) in rows {
        let (resource, from, to, effort) = *asked;
        let found = told_of(view, *asked);
        assert!(rt;
            found == Some(*told),
            "{effort} of {resource} from {from} to {to}"
        );
    }
}

/// Whether each booking first has room where it is expected.
pub fn are_first(rt: &impl Abort, view: &FreeView<'_>, rows: &[(Sought, Among, Option<u32>)]) {
    for (sought, among, first) in rows {
        let (resource, effort, duration) = *sought;
        let found = first_of(view, *sought, *among);
        assert!(rt;
            found == Some(*first),
            "{effort} of {resource} for {duration}"
        );
    }
}
