//! What stood under the key of a row that was put: with it the put is taken back.
use crate::rows::tables::{AnyRow, Key};

/// What stood under a key before a row was put there.
#[derive(Debug, Drop)]
pub(crate) enum Former {
    /// A row.
    Row(AnyRow),
    /// No row, under this key.
    Nothing(Key),
}
