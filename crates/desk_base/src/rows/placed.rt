//! Where the rows of each table stand: by the first part of their key, and within it by the second.
use crate::rows::bookings::{BookingRow, CallerRow};
use crate::rows::calendars::{BreakRow, CalendarRow, DayRow, OffRow, WorkRow, ZoneRow};
use crate::rows::groups::GroupRow;
use crate::rows::ranges::{Placed, Timed};
use crate::rows::resources::{HasRow, MemberRow, ResourceRow};
use crate::search::results::Ask;

impl Placed for ZoneRow {
    ghost owner = { λ x. x.id };

    ghost rank = { λ x. 0 };

    fn owner_number(&self) -> u32 {
        self.id.get()
    }

    fn rank_number(&self) -> u32 {
        0
    }
}

impl Placed for CalendarRow {
    ghost owner = { λ x. x.id };

    ghost rank = { λ x. 0 };

    fn owner_number(&self) -> u32 {
        self.id.get()
    }

    fn rank_number(&self) -> u32 {
        0
    }
}

impl Placed for WorkRow {
    ghost owner = { λ x. x.calendar };

    ghost rank = { λ x. x.weekday };

    fn owner_number(&self) -> u32 {
        self.calendar.get()
    }

    fn rank_number(&self) -> u32 {
        u32::from(self.weekday)
    }
}

impl Placed for BreakRow {
    ghost owner = { λ x. x.calendar };

    ghost rank = { λ x. x.weekday };

    fn owner_number(&self) -> u32 {
        self.calendar.get()
    }

    fn rank_number(&self) -> u32 {
        u32::from(self.weekday)
    }
}

impl Placed for DayRow {
    ghost owner = { λ x. x.calendar };

    ghost rank = { λ x. x.day };

    fn owner_number(&self) -> u32 {
        self.calendar.get()
    }

    fn rank_number(&self) -> u32 {
        self.day
    }
}

impl Placed for OffRow {
    ghost owner = { λ x. x.resource };

    ghost rank = { λ x. x.from };

    fn owner_number(&self) -> u32 {
        self.resource.get()
    }

    fn rank_number(&self) -> u32 {
        self.from.get()
    }
}

impl Placed for ResourceRow {
    ghost owner = { λ x. x.id };

    ghost rank = { λ x. 0 };

    fn owner_number(&self) -> u32 {
        self.id.get()
    }

    fn rank_number(&self) -> u32 {
        0
    }
}

impl Placed for HasRow {
    ghost owner = { λ x. x.resource };

    ghost rank = { λ x. x.what };

    fn owner_number(&self) -> u32 {
        self.resource.get()
    }

    fn rank_number(&self) -> u32 {
        self.what
    }
}

impl Placed for MemberRow {
    ghost owner = { λ x. x.group };

    ghost rank = { λ x. x.member };

    fn owner_number(&self) -> u32 {
        self.group.get()
    }

    fn rank_number(&self) -> u32 {
        self.member.get()
    }
}

impl Placed for GroupRow {
    ghost owner = { λ x. x.id };

    ghost rank = { λ x. 0 };

    fn owner_number(&self) -> u32 {
        self.id.get()
    }

    fn rank_number(&self) -> u32 {
        0
    }
}

impl Placed for BookingRow {
    ghost owner = { λ x. x.id };

    ghost rank = { λ x. 0 };

    fn owner_number(&self) -> u32 {
        self.id.get()
    }

    fn rank_number(&self) -> u32 {
        0
    }
}

impl Placed for CallerRow {
    ghost owner = { λ x. x.caller };

    ghost rank = { λ x. 0 };

    fn owner_number(&self) -> u32 {
        self.caller.get()
    }

    fn rank_number(&self) -> u32 {
        0
    }
}

impl Timed for WorkRow {
    ghost from = { λ x. x.from };

    ghost to = { λ x. x.to };

    fn from_number(&self) -> u32 {
        u32::from(self.from)
    }

    fn to_number(&self) -> u32 {
        u32::from(self.to)
    }
}

impl Timed for BreakRow {
    ghost from = { λ x. x.from };

    ghost to = { λ x. x.to };

    fn from_number(&self) -> u32 {
        u32::from(self.from)
    }

    fn to_number(&self) -> u32 {
        u32::from(self.to)
    }
}

impl Timed for DayRow {
    ghost from = { λ x. x.from };

    ghost to = { λ x. x.to };

    fn from_number(&self) -> u32 {
        u32::from(self.from)
    }

    fn to_number(&self) -> u32 {
        u32::from(self.to)
    }
}

impl Timed for OffRow {
    ghost from = { λ x. x.from };

    ghost to = { λ x. x.to };

    fn from_number(&self) -> u32 {
        self.from.get()
    }

    fn to_number(&self) -> u32 {
        self.to.get()
    }
}

impl Timed for MemberRow {
    ghost from = { λ x. x.from };

    ghost to = { λ x. x.to };

    fn from_number(&self) -> u32 {
        self.from.get()
    }

    fn to_number(&self) -> u32 {
        self.to.get()
    }
}

impl Timed for BookingRow {
    ghost from = { λ x. x.from };

    ghost to = { λ x. x.to };

    fn from_number(&self) -> u32 {
        self.from.get()
    }

    fn to_number(&self) -> u32 {
        self.to.get()
    }
}

impl Timed for Ask {
    ghost from = { λ x. x.window.from };

    ghost to = { λ x. x.window.to };

    fn from_number(&self) -> u32 {
        self.window.from.get()
    }

    fn to_number(&self) -> u32 {
        self.window.to.get()
    }
}
