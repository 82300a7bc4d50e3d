//! Why a work is not done.
use desk_base::NoMemory;

/// What keeps a work from being done, each with a status of its own.
#[derive(Clone, Copy, Debug, PartialEq, Eq)]
pub enum Stop {
    /// Memory was not found.
    NoMemory,
    /// A number of a row or a minute is out of range.
    OutOfRange,
    /// A step that makes the schedule was refused.
    Refused,
}

impl Stop {
    /// The status that the program ends with.
    pub fn status(self) -> u8 {
        match self {
            Stop::NoMemory => 10,
            Stop::OutOfRange => 11,
            Stop::Refused => 12,
        }
    }
}

impl From<NoMemory> for Stop {
    fn from(_error: NoMemory) -> Stop {
        Stop::NoMemory
    }
}
