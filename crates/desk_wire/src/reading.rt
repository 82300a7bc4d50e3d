//! What stands at the front of the bytes: a head with its body, the beginning of one, or a refusal.
//!
//! A head that was found is kept by its spans until its body is there, and is not looked for again.
ghost use Rattle.std.specs.Prelude.{◌≡◌, ◌≤◌, ◌+◌, length, take, drop, slice_range, None, IfOk};
ghost use Rattle.httparse.specs.Grammar.{HasNoRequest, MayBecomeRequest};
ghost use Rattle.httparse.specs.Spans.{IsRequestWithin, IsRequestOf};
ghost use Rattle.desk_wire.specs.Front.{front};
ghost use Rattle.desk_wire.specs.Looks.{IsFound, IsRead, IsKept, IsFrontStep};
ghost use Rattle.desk_wire.specs.Requests.{IsWhole};

use crate::closing::closes_of;
use crate::framing::{Framing, framing_of};
use crate::front::{count_lines, front_len};
use crate::limits::{MOST_HEAD_BYTES, MOST_HEAD_FIELDS, MOST_HEAD_LINES};
use crate::looking::{FrontLook, look};
use crate::rules::{HeadRule, Next, Request, WireEnd, WireLimit};
use desk_io::{Bytes, NoMemory};
use httparse::spans::{EMPTY_HEADER_SPAN, HeaderSpan, RequestSpans};
use std::alloc::Global;

/// A head, by its spans in the first `front` bytes, how long its body is, and whether it closes.
#[derive(Clone, Copy, Debug)]
pub struct Found {
    pub spans: RequestSpans,
    pub front: usize,
    pub body: usize,
    pub close: bool,
}

/// What stands at the front, before its body is looked for.
#[derive(Clone, Copy, Debug)]
pub enum FrontRead {
    Head(Found),
    Open,
    Refused(WireEnd),
}

/// The next thing at the front, how many bytes it takes off, and the head that is kept until its body is there.
#[derive(Debug, Drop)]
pub struct FrontStep {
    pub next: Next,
    pub taken: usize,
    pub kept: Option<Found>,
}

// Where a head was found in the first `len` bytes: what it says of its body.
fn with_head(rest: &[u8], len: usize, spans: RequestSpans, headers: &[HeaderSpan]) -> FrontRead
    requires len { len ≤ length rest.now }
    requires front { take len rest.now ≡ front rest.now }
    requires within { IsRequestWithin (take len rest.now) headers.now spans }
    requires head { IsRequestOf (take len rest.now) headers.now spans }
    ensures { IsRead rest.now result }
{
    let front = &rest[..len];
    let fields = &headers[..spans.headers];
    match framing_of(front, fields) {
        Framing::Body(body) => FrontRead::Head(Found {
            spans,
            front: len,
            body,
            close: closes_of(front, spans.version, fields),
        }),
        Framing::Bad(rule) => FrontRead::Refused(WireEnd::Bad(rule)),
        Framing::TooLarge(limit) => FrontRead::Refused(WireEnd::TooLarge(limit)),
    }
}

// Where the first `len` bytes may become a head: whether a limit leaves no room for it.
fn without_head(rest: &[u8], len: usize) -> FrontRead
    requires len { len ≤ length rest.now }
    requires front { take len rest.now ≡ front rest.now }
    requires none { HasNoRequest (front rest.now) }
    requires may { MayBecomeRequest (front rest.now) }
    ensures { IsRead rest.now result }
{
    if count_lines(&rest[..len]) >= MOST_HEAD_LINES {
        return FrontRead::Refused(WireEnd::TooLarge(WireLimit::Lines));
    }
    if len >= MOST_HEAD_BYTES {
        return FrontRead::Refused(WireEnd::TooLarge(WireLimit::Head));
    }
    FrontRead::Open
}

// What stands at the front.
fn read_front(rest: &[u8]) -> FrontRead
    ensures { IsRead rest.now result }
{
    let len = front_len(rest);
    let mut headers = [EMPTY_HEADER_SPAN; MOST_HEAD_FIELDS];
    match look(&rest[..len], &mut headers) {
        FrontLook::Head(spans) => with_head(rest, len, spans, &headers),
        FrontLook::Bad => FrontRead::Refused(WireEnd::Bad(HeadRule::Syntax)),
        FrontLook::Open => without_head(rest, len),
    }
}

// The body behind a head.
fn body_of(rest: &[u8], found: Found) -> &[u8]
    requires { found.spans.len + found.body ≤ length rest.now }
    ensures { result.now ≡ slice_range rest.now found.spans.len (found.spans.len + found.body) }
{
    &rest[found.spans.len..found.spans.len + found.body]
}

// The request of a head and its body.
fn request_at(alloc: Global, rest: &[u8], found: Found) -> Result<Request, NoMemory>
    requires found { IsFound rest.now found }
    requires body { found.spans.len + found.body ≤ length rest.now }
    ensures { IfOk result (λ q. IsWhole rest.now q (drop (found.spans.len + found.body) rest.now)) }
{
    let front = &rest[..found.front];
    let method = Bytes::of(alloc, found.spans.method.of(front))?;
    let target = Bytes::of(alloc, found.spans.path.of(front))?;
    let body = Bytes::of(alloc, body_of(rest, found))?;
    Ok(Request {
        method,
        target,
        version: found.spans.version,
        close: found.close,
        body,
    })
}

// What stands at the front, where a head that was found before is kept.
fn read_on(rest: &[u8], kept: Option<Found>) -> FrontRead
    requires { IsKept rest.now kept }
    ensures { IsRead rest.now result }
{
    match kept {
        Some(found) => FrontRead::Head(found),
        None => read_front(rest),
    }
}

// The step of a head: its request where the whole body is there, and else more is wanted, and the head kept.
fn head_step(alloc: Global, rest: &[u8], found: Found) -> Result<FrontStep, NoMemory>
    requires { IsFound rest.now found }
    ensures { IfOk result (IsFrontStep rest.now) }
{
    if rest.len() - found.spans.len < found.body {
        return Ok(FrontStep {
            next: Next::More,
            taken: 0,
            kept: Some(found),
        });
    }
    let request = request_at(alloc, rest, found)?;
    Ok(FrontStep {
        next: Next::Request(request),
        taken: found.spans.len + found.body,
        kept: None,
    })
}

// A step that takes nothing off and keeps no head.
fn still(next: Next) -> FrontStep
    ensures { result ≡ record { next = next; taken = 0; kept = None } }
{
    FrontStep {
        next,
        taken: 0,
        kept: None,
    }
}

/// What stands at the front, where a head that was found before is kept.
pub fn front_step(alloc: Global, rest: &[u8], kept: Option<Found>) -> Result<FrontStep, NoMemory>
    requires { IsKept rest.now kept }
    ensures { IfOk result (IsFrontStep rest.now) }
{
    match read_on(rest, kept) {
        FrontRead::Head(found) => head_step(alloc, rest, found),
        FrontRead::Open => Ok(still(Next::More)),
        FrontRead::Refused(WireEnd::Bad(rule)) => Ok(still(Next::Bad(rule))),
        FrontRead::Refused(WireEnd::TooLarge(limit)) => Ok(still(Next::TooLarge(limit))),
    }
}
