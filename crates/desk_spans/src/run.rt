//! One run of minutes.

/// The minutes from `from` on and below `to`; none where `to` is not above `from`.
#[derive(Clone, Copy, Debug, PartialEq, Eq)]
pub struct Run {
    pub from: u32,
    pub to: u32,
}
