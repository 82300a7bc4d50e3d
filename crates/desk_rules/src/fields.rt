//! The field rules of rows, kind by kind.
pub(crate) mod bookings;
pub(crate) mod calendars;
pub(crate) mod groups;
pub(crate) mod members;
pub(crate) mod names;
pub(crate) mod resources;
