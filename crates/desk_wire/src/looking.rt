//! One look of `httparse` at the front of the bytes.
ghost use Rattle.std.specs.Prelude.{◌≡◌, ◌≤◌, length};
ghost use Rattle.httparse.specs.Grammar.{HasNoRequest, NeverHasRequest, MayBecomeRequest};
ghost use Rattle.httparse.specs.Spans.{IsRequestWithin, IsRequestOf};
ghost use Rattle.desk_wire.specs.Front.{line_feeds};
ghost use Rattle.desk_wire.specs.Looks.{IfHead, OnBad, OnOpen};

use crate::limits::{MOST_HEAD_FIELDS, MOST_HEAD_LINES};
use httparse::spans::{HeaderSpan, RequestSpans, parse_request};
use httparse::{Error, Status};

/// What bytes within the limit of lines are: a head, no head whatever follows, or neither yet.
#[derive(Clone, Copy, Debug)]
pub enum FrontLook {
    Head(RequestSpans),
    Bad,
    Open,
}

/// Looks for a head. That there are too many fields for the room never comes.
pub fn look(buf: &[u8], headers: &mut [HeaderSpan]) -> FrontLook
    requires lines { line_feeds buf.now ≤ MOST_HEAD_LINES }
    requires room { length headers.old ≡ MOST_HEAD_FIELDS }
    ensures within { IfHead result (IsRequestWithin buf.now headers.new) }
    ensures head { IfHead result (IsRequestOf buf.now headers.new) }
    ensures bad { OnBad result (NeverHasRequest buf.now) }
    ensures open { OnOpen result (HasNoRequest buf.now × MayBecomeRequest buf.now) }
{
    match parse_request(buf, headers) {
        Ok(Status::Complete(head)) => FrontLook::Head(head),
        Ok(Status::Partial) => FrontLook::Open,
        Err(Error::TooManyHeaders) => FrontLook::Bad,
        Err(_) => FrontLook::Bad,
    }
}
