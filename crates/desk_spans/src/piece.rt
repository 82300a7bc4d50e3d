//! What a profile is built of.

/// A value at each minute from `from` on and below `to`; at none where `to` is not above `from`.
#[derive(Clone, Copy, Debug, PartialEq, Eq)]
pub struct Piece {
    pub from: u32,
    pub to: u32,
    pub value: i64,
}
