//! The limits of a request. They are this project's own.

/// A head has at most this many bytes.
pub const MOST_HEAD_BYTES: usize = 16_384;

/// A head has at most this many line feeds, those of its first line and of its empty line among them.
pub const MOST_HEAD_LINES: usize = 96;

/// Room for this many fields is given to `httparse`. A field ends with a line feed, so no head within the limit of
/// lines has more.
pub const MOST_HEAD_FIELDS: usize = 128;

/// A body has at most this many bytes.
pub const MOST_BODY_BYTES: usize = 65_536;
