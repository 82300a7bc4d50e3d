//! What bookings come to.
ghost use Rattle.std.specs.Prelude.{◌≡◌, ◌-◌, ◌*◌, ◌≤◌, ◌^◌, length};
ghost use Rattle.desk_base.specs.rules.Limits.{first_minute, end_of_minutes, node_limit};
ghost use Rattle.desk_base.specs.asked.Groups.{effort_minutes};

use desk_base::BookingRow;

/// Effort times minutes of a booking.
fn effort_minutes_of(booking: &BookingRow) -> u64
    ensures value { result ≡ booking.now.effort * (booking.now.to - booking.now.from) }
    ensures within { result ≤ (end_of_minutes - first_minute) * 2 ^ 32 }
{
    let minutes = booking.to.get().saturating_sub(booking.from.get());
    u64::from(booking.effort) * u64::from(minutes)
}

/// Effort times minutes, summed over the bookings.
pub(crate) fn effort_minutes(bookings: &[BookingRow]) -> u64
    requires { length bookings.now ≤ node_limit }
    ensures { result ≡ effort_minutes bookings.now }
{
    let mut total = 0;
    for booking in bookings {
        total += effort_minutes_of(booking);
    }
    total
}
