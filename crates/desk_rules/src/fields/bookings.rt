//! The field rules of bookings.
ghost use Rattle.std.specs.Prelude.{◌≡◌};
ghost use Rattle.desk_base.specs.rules.Fields.{booking_rules};
ghost use Rattle.desk_base.specs.rules.Rules.{first_broken};

use crate::fields::names::is_within_range;
use desk_base::limits::EFFORT_LIMIT;
use desk_base::{BookingRow, Field};

/// A booking is not empty, and has an effort: the first of these rules that it breaks.
pub(crate) fn broken_booking(booking: &BookingRow) -> Option<Field>
    ensures { result ≡ first_broken (booking_rules booking.now) }
{
    if booking.from.get() >= booking.to.get() {
        Some(Field::To)
    } else if !is_within_range(1, EFFORT_LIMIT, booking.effort) {
        Some(Field::Effort)
    } else {
        None
    }
}
