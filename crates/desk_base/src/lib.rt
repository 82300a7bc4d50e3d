//! The rows of a schedule, their orders, and the definitions that every contract above cites.
//!
//! A schedule is nineteen tables of rows (`Tables`). What it means is said in `specs/`: local times and capacities, what
//! bookings weigh and whether they fit, who may serve a leaf, which leaves of a group's tree are chosen together, which
//! rows of a search are feasible, in which order they come, and which tables are sound.
#![tactic(auto)]

mod asked;
mod changes;
pub mod laws;
pub mod limits;
mod rows;
mod search;
mod trial;
mod values;

pub use asked::acts::{Act, AnyRows, Call, Change, Entry, Keys};
pub use asked::answers::{Answer, Command, Outcome, Query, Reply};
pub use asked::refusals::{Clash, Refusal, Shown};
pub use asked::rules::{Field, LeafRule, TableRule, TreeRule, Verdict};
pub use asked::summaries::{ActCode, Summaries, Summary};
pub use changes::lacking::Lacking;
pub use changes::prepared::Prepared;
pub use changes::tried::Tried;
pub use rows::bookings::{BookingRow, CallerRow, Receipt};
pub use rows::calendars::{BreakRow, CalendarRow, DayRow, OffRow, Shifts, WorkRow, ZoneRow};
pub use rows::groups::{
    GroupRow, Kinds, Leaf, LeafNo, Leaves, Node, NodeKind, NodeNo, Nodes, Ratings, Resources,
    Roles, Same, Territories, Units,
};
pub use rows::ranges::{Placed, Timed, covering, nearer, next_bound, row_of, rows_at, rows_of};
pub use rows::resources::{HasRow, Kind, MemberRow, NamedRow, ResourceRow};
pub use rows::tables::{AnyRow, Key, Table, Tables};
pub use search::results::{Ask, Cursor, Found, Founds, Options, Page, Picks, Position};
pub use values::copying::Duplicate;
pub use values::ids::{
    CalendarId, CallerId, CharacteristicId, GroupId, Id, ResourceId, RoleId, SiteId, TerritoryId,
    UnitId, ZoneId,
};
pub use values::items::{Bytes, Items};
pub use values::memory::NoMemory;
pub use values::minutes::{Minute, Window};
pub use values::names::Name;
pub use values::serials::{BookingId, CallNumber, Serial};
pub use values::steps::Steps;
