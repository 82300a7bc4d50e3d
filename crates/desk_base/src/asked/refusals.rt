//! Why a command is refused, with the values that show it.
use crate::asked::rules::{Field, LeafRule, TreeRule};
use crate::rows::groups::{LeafNo, NodeNo};
use crate::rows::tables::{Key, Table};
use crate::values::ids::{GroupId, ResourceId};
use crate::values::minutes::Minute;
use crate::values::serials::BookingId;

/// What stands where there is no room: a booking, or no booking at all.
#[derive(Clone, Copy, Debug)]
pub enum Shown {
    /// The least booking that counts in the weight.
    Booking(BookingId),
    /// The weight of the standing bookings is 0, and there is too little room for what is asked.
    Gap,
}

/// Where bookings do not fit: at the least minute, and there at the least resource. The weight of the standing bookings and of
/// those that are asked for is together above the capacity.
#[derive(Clone, Copy, Debug)]
pub struct Clash {
    pub resource: ResourceId,
    pub minute: Minute,
    pub capacity: u64,
    pub standing: u64,
    pub asked: u64,
    pub shown: Shown,
}

/// Why a command was refused, in the order in which the reasons are judged: the first that applies is answered.
#[derive(Clone, Copy, Debug)]
pub enum Refusal {
    /// The journal, which has so many entries, or the revision is at its limit.
    JournalFull(u64),
    /// The number is below that of the caller's last change.
    OldNumber(u32),
    /// The number is above the one after that of the caller's last change.
    SkippedNumber(u32),
    /// No row stands under this key, which the command names.
    UnknownId(Key),
    /// A field of the command is out of its range.
    BadField(Field),
    /// The group's tree breaks this rule at this node.
    BadTree(TreeRule, NodeNo),
    /// The row of the first key cannot be taken out, since the row of the second names it.
    InUse(Key, Key),
    /// The table has no room for the rows.
    Full(Table),
    /// The group is booked.
    NotOpen(GroupId),
    /// The group is not booked.
    NotBooked(GroupId),
    /// The revision that the cursor shows, and the one of the schedule now.
    Moved(u64, u64),
    /// The start is not on the group's grid.
    OffGrid(Minute),
    /// The picks have none of the tree's patterns: the first leaf that lacks a pick, or with whose pick they begin none.
    BadShape(LeafNo),
    /// The first chosen leaf whose resource breaks a rule of it, and the first rule that it breaks.
    NotEligible(LeafNo, ResourceId, LeafRule),
    /// The first node whose chosen resources are not of the same as it asks.
    NotSame(NodeNo),
    /// The bookings do not fit.
    Conflict(Clash),
}
