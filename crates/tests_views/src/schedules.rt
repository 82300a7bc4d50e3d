//! Rows and bookings that several tests go over.
use crate::acts::{Booking, Wanted};
use crate::books::{EIGHT, NINE, TEN};

/// On 1 from 08:00 to 09:00 and from 10:00 to 11:00.
pub const TWO_HOURS: [Booking; 2] = [(2, 1, EIGHT, 60, 1), (3, 1, TEN, 60, 1)];

/// Resource 4 has a capacity of 3 on Mondays from 08:00 to 12:00.
pub const THREE_AT_A_TIME: [Wanted; 3] = [
    Wanted::Calendar(3, 1),
    Wanted::Work(3, 480, 720, 3),
    Wanted::Resource(4, 3),
];

/// On 4 with an effort of 2 from 08:00 to 09:00, and with one of 1 from 09:00 to 10:00.
pub const TWO_EFFORTS: [Booking; 2] = [(2, 4, EIGHT, 60, 2), (3, 4, NINE, 60, 1)];
