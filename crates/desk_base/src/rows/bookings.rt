//! Bookings, and what is kept of callers.
use crate::rows::groups::LeafNo;
use crate::values::ids::{CallerId, GroupId, ResourceId};
use crate::values::minutes::Minute;
use crate::values::serials::{BookingId, CallNumber};

/// A resource that is booked for a leaf of a group. The effort is taken at each minute of the booking.
#[derive(Clone, Copy, Debug)]
pub struct BookingRow {
    pub id: BookingId,
    pub group: GroupId,
    pub leaf: LeafNo,
    pub resource: ResourceId,
    pub from: Minute,
    pub to: Minute,
    pub effort: u32,
}

/// What an accepted change gave. Effort minutes are the sum of effort times duration over the bookings made or removed.
#[derive(Clone, Copy, Debug)]
pub enum Receipt {
    /// A row was added or replaced.
    Put,
    /// A row was removed.
    Removed,
    /// The bookings `first` to `first + count - 1`.
    Booked {
        first: BookingId,
        count: u8,
        effort_minutes: u64,
    },
    /// So many bookings were removed.
    Cancelled {
        count: u8,
        effort_minutes: u64,
    },
}

/// The number of a caller's last accepted change, and what it gave.
#[derive(Clone, Copy, Debug)]
pub struct CallerRow {
    pub caller: CallerId,
    pub last: CallNumber,
    pub receipt: Receipt,
}
