//! A request, and what stands in the place of one.
use desk_io::Bytes;

/// Why the bytes at the front are no request.
#[derive(Clone, Copy, Debug)]
pub enum HeadRule {
    /// No bytes can follow that make them a head (RFC 9112, as `httparse` reads it).
    Syntax,
    /// A field says how the body is sent: the name `Transfer-Encoding`, whatever its value.
    Transfer,
    /// There are two `Content-Length` fields, or the value of one is not one or more digits.
    Length,
}

/// Which limit the bytes at the front reach.
#[derive(Clone, Copy, Debug)]
pub enum WireLimit {
    /// The bytes of a head.
    Head,
    /// The line feeds of a head.
    Lines,
    /// The bytes of a body, as its head says them.
    Body,
}

/// Why no further request is read.
#[derive(Clone, Copy, Debug)]
pub enum WireEnd {
    Bad(HeadRule),
    TooLarge(WireLimit),
}

/// A whole request. The target is as it was sent, not decoded.
#[derive(Debug, Drop)]
pub struct Request {
    pub method: Bytes,
    pub target: Bytes,
    /// The minor version: 1 for HTTP/1.1.
    pub version: u8,
    /// Whether the conversation ends with the response: the version is 1.0, or the whole value of a `Connection` field is
    /// `close`, whatever the case of its letters.
    pub close: bool,
    /// As many bytes as `Content-Length` says, and none without that field.
    pub body: Bytes,
}

/// What stands at the front of the bytes that were fed.
#[derive(Debug, Drop)]
pub enum Next {
    /// A whole request, which was taken off.
    Request(Request),
    /// No whole request, and more bytes may make one.
    More,
    /// No request, whatever follows: this rule is broken.
    Bad(HeadRule),
    /// No request within this limit.
    TooLarge(WireLimit),
}
