//! How conversations end.
ghost use Rattle.std.specs.Prelude.{◌≡◌, IfOk};
ghost use Rattle.desk_talk.specs.Ends.{closing, closing_status, closing_text};

use desk_io::{Bytes, NoMemory};
use desk_wire::{BodyKind, HeadRule, Response, WireEnd, WireLimit};
use std::alloc::Global;

/// How a conversation ended.
#[derive(Clone, Copy, Debug)]
pub enum SessionEnd {
    /// All is answered: the input ended at a request's border, or the last request asked to close.
    Closed,
    /// The input ended inside a request.
    Truncated,
    /// The rest begins with no head, or with one that breaks this rule.
    BadHead(HeadRule),
    /// The rest reached a limit.
    TooLarge(WireLimit),
    /// The source failed, and its count of faults rose.
    ReadFault,
    /// The sink failed, and its count of faults rose.
    WriteFault,
    /// As many bytes were taken as one connection may send.
    BudgetEnd,
    /// Memory was not found.
    NoMemory,
    /// No turn could be drawn any more.
    Spent,
}

/// Why a request has no response.
#[derive(Clone, Copy, Debug)]
pub enum Stop {
    NoMemory,
    Spent,
}

fn closing_code(end: WireEnd) -> u16
    ensures { result ≡ closing_status end }
{
    match end {
        WireEnd::Bad(HeadRule::Syntax) => 400,
        WireEnd::Bad(HeadRule::Transfer) => 501,
        WireEnd::Bad(HeadRule::Length) => 400,
        WireEnd::TooLarge(WireLimit::Head) => 431,
        WireEnd::TooLarge(WireLimit::Lines) => 431,
        WireEnd::TooLarge(WireLimit::Body) => 413,
    }
}

fn closing_body(end: WireEnd) -> &'static str
    ensures { result.now ≡ closing_text end }
{
    match end {
        WireEnd::Bad(HeadRule::Syntax) => "{\"error\":\"bad_head\",\"rule\":\"syntax\"}",
        WireEnd::Bad(HeadRule::Transfer) => "{\"error\":\"bad_head\",\"rule\":\"transfer\"}",
        WireEnd::Bad(HeadRule::Length) => "{\"error\":\"bad_head\",\"rule\":\"length\"}",
        WireEnd::TooLarge(WireLimit::Head) => "{\"error\":\"too_large\",\"limit\":\"head\"}",
        WireEnd::TooLarge(WireLimit::Lines) => "{\"error\":\"too_large\",\"limit\":\"lines\"}",
        WireEnd::TooLarge(WireLimit::Body) => "{\"error\":\"too_large\",\"limit\":\"body\"}",
    }
}

/// The response that says why no further request is read: which rule of a head is broken, or which limit is reached.
pub fn closing_response(alloc: Global, end: WireEnd) -> Result<Response, NoMemory>
    ensures { IfOk result (λ r. r ≡ closing end) }
{
    let body = Bytes::of(alloc, closing_body(end).as_bytes())?;
    Ok(Response {
        status: closing_code(end),
        kind: BodyKind::Json,
        allow: None,
        close: true,
        bare: false,
        body,
    })
}
