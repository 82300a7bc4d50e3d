//! A response, before it is bytes.
use desk_io::Bytes;

/// The media type of a body.
#[derive(Clone, Copy, Debug)]
pub enum BodyKind {
    /// `application/json`
    Json,
    /// `text/plain; charset=utf-8`
    Text,
}

/// The method that a path has, where another one was asked for.
#[derive(Clone, Copy, Debug)]
pub enum Allow {
    Get,
    Post,
}

/// A response of version 1.1.
#[derive(Debug, Drop)]
pub struct Response {
    /// 200, 400, 404, 405, 409, 413, 422, 431, 501, 503 or 507; another status is written with an empty phrase.
    pub status: u16,
    pub kind: BodyKind,
    /// Is sent with status 405.
    pub allow: Option<Allow>,
    /// Whether the conversation ends with this response.
    pub close: bool,
    /// Whether the body is counted and not sent, as in the answer to HEAD.
    pub bare: bool,
    pub body: Bytes,
}
