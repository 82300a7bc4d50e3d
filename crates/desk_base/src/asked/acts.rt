//! Changes of a schedule: what a caller asks for, the rows that it comes to, and what is kept of it.
use crate::rows::bookings::Receipt;
use crate::rows::groups::GroupRow;
use crate::rows::tables::{AnyRow, Key};
use crate::search::results::Picks;
use crate::values::ids::{CallerId, GroupId};
use crate::values::items::Items;
use crate::values::minutes::Minute;
use crate::values::serials::CallNumber;

/// Rows of any tables.
pub type AnyRows = Items<AnyRow>;

/// Keys of rows of any tables.
pub type Keys = Items<Key>;

/// Who asks for a change, and the number that the caller gives it. A caller's changes are numbered from 1, each one more than
/// the last that was accepted; the last number again asks for what was answered then.
#[derive(Clone, Copy, Debug)]
pub struct Call {
    pub caller: CallerId,
    pub number: CallNumber,
}

/// A change that is asked for.
#[derive(Debug, Drop)]
pub enum Act {
    /// Adds a row of one of the tables up to memberships, or puts it in the place of the row of its key.
    Put(AnyRow),
    /// Takes out the row of this key, which is of one of the tables up to memberships.
    Remove(Key),
    /// Adds a requirement group, or puts it in the place of the open group of its number.
    PutGroup(GroupRow),
    /// Takes out an open group.
    DropGroup(GroupId),
    /// Books an open group: one booking for each chosen leaf, from the start on.
    BookGroup {
        group: GroupId,
        start: Minute,
        picks: Picks,
    },
    /// Books a booked group anew, in the place of its bookings.
    MoveGroup {
        group: GroupId,
        start: Minute,
        picks: Picks,
    },
    /// Takes out the bookings of a booked group.
    CancelGroup(GroupId),
}

/// The rows that an accepted change comes to: keys of rows that are taken out, then rows that are put, and the counters after
/// it. The rows of a key that stands stand in its place.
#[derive(Debug, Drop)]
pub struct Change {
    pub puts: AnyRows,
    pub removes: Keys,
    pub revision: u64,
    pub last_booking: u32,
}

/// A change that was accepted: the revision after it, the number of the connection that asked for it, what was asked, and what
/// it gave.
#[derive(Debug, Drop)]
pub struct Entry {
    pub revision: u64,
    pub pass: u64,
    pub call: Call,
    pub act: Act,
    pub receipt: Receipt,
}
