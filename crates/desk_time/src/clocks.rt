//! What the clocks of a zone show.

/// A local time: a day, counted from 1970-01-01, and a minute of it, from 0 to 1,439.
#[derive(Clone, Copy, Debug, PartialEq, Eq)]
pub struct Local {
    pub day: u32,
    pub minute: u16,
}
