//! Want of memory, the one error of this crate.
use std::alloc::AllocError;

/// Memory was not found. What the call was to change is as before, and the call may be made again.
#[derive(Clone, Copy, Debug, PartialEq, Eq)]
pub struct NoMemory;

impl From<AllocError> for NoMemory {
    fn from(_error: AllocError) -> NoMemory {
        NoMemory
    }
}
