//! `desk_wire` and `desk_talk`: the exact text of responses.
use desk_io::Bytes;
use desk_talk::closing_response;
use desk_wire::{Allow, BodyKind, HeadRule, Response, WireEnd, WireLimit, response_bytes};
use std::alloc::Global;
use std::test::Fail;

// A response, and its bytes.
fn sent(
    alloc: Global,
    status: u16,
    allow: Option<Allow>,
    close: bool,
    bare: bool,
    body: &[u8],
) -> Result<Bytes, Fail> {
    let response = Response {
        status,
        kind: if bare { BodyKind::Text } else { BodyKind::Json },
        allow,
        close,
        bare,
        body: Bytes::of(alloc, body)?,
    };
    Ok(response_bytes(alloc, &response)?)
}

#[test]
fn texts_of_responses(rt: HostRuntime) -> Result<(), Fail> {
    let rows: [(u16, Option<Allow>, bool, bool, &[u8], &[u8]); 5] = [
        (
            200,
            None,
            false,
            false,
            b"{\"revision\":0}",
            b"HTTP/1.1 200 OK\r\ncontent-type: application/json\r\ncontent-length: 14\r\n\r\n{\"revision\":0}",
        ),
        (
            501,
            None,
            true,
            false,
            b"{\"error\":\"not_built\"}",
            b"HTTP/1.1 501 Not Implemented\r\ncontent-type: application/json\r\ncontent-length: 21\r\nconnection: close\r\n\r\n{\"error\":\"not_built\"}",
        ),
        (
            404,
            None,
            false,
            false,
            b"{\"error\":\"no_route\"}",
            b"HTTP/1.1 404 Not Found\r\ncontent-type: application/json\r\ncontent-length: 20\r\n\r\n{\"error\":\"no_route\"}",
        ),
        (
            405,
            Some(Allow::Post),
            true,
            false,
            b"",
            b"HTTP/1.1 405 Method Not Allowed\r\ncontent-type: application/json\r\ncontent-length: 0\r\nallow: POST\r\nconnection: close\r\n\r\n",
        ),
        (
            200,
            None,
            false,
            true,
            b"board",
            b"HTTP/1.1 200 OK\r\ncontent-type: text/plain; charset=utf-8\r\ncontent-length: 5\r\n\r\n",
        ),
    ];
    for (status, allow, close, bare, body, wanted) in rows {
        let text = sent(rt.alloc(), status, allow, close, bare, body)?;
        assert!(rt; text.as_slice() == wanted, "status {status}");
    }
    Ok(())
}

#[test]
fn texts_of_closings(rt: HostRuntime) -> Result<(), Fail> {
    let rows: [(WireEnd, &[u8]); 6] = [
        (
            WireEnd::Bad(HeadRule::Syntax),
            b"HTTP/1.1 400 Bad Request\r\ncontent-type: application/json\r\ncontent-length: 36\r\nconnection: close\r\n\r\n{\"error\":\"bad_head\",\"rule\":\"syntax\"}",
        ),
        (
            WireEnd::Bad(HeadRule::Length),
            b"HTTP/1.1 400 Bad Request\r\ncontent-type: application/json\r\ncontent-length: 36\r\nconnection: close\r\n\r\n{\"error\":\"bad_head\",\"rule\":\"length\"}",
        ),
        (
            WireEnd::Bad(HeadRule::Transfer),
            b"HTTP/1.1 501 Not Implemented\r\ncontent-type: application/json\r\ncontent-length: 38\r\nconnection: close\r\n\r\n{\"error\":\"bad_head\",\"rule\":\"transfer\"}",
        ),
        (
            WireEnd::TooLarge(WireLimit::Body),
            b"HTTP/1.1 413 Content Too Large\r\ncontent-type: application/json\r\ncontent-length: 36\r\nconnection: close\r\n\r\n{\"error\":\"too_large\",\"limit\":\"body\"}",
        ),
        (
            WireEnd::TooLarge(WireLimit::Head),
            b"HTTP/1.1 431 Request Header Fields Too Large\r\ncontent-type: application/json\r\ncontent-length: 36\r\nconnection: close\r\n\r\n{\"error\":\"too_large\",\"limit\":\"head\"}",
        ),
        (
            WireEnd::TooLarge(WireLimit::Lines),
            b"HTTP/1.1 431 Request Header Fields Too Large\r\ncontent-type: application/json\r\ncontent-length: 37\r\nconnection: close\r\n\r\n{\"error\":\"too_large\",\"limit\":\"lines\"}",
        ),
    ];
    for (end, wanted) in rows {
        let response = closing_response(rt.alloc(), end)?;
        assert!(rt; response_bytes(rt.alloc(), &response)?.as_slice() == wanted);
    }
    Ok(())
}

#[test]
fn phrases_of_statuses(rt: HostRuntime) -> Result<(), Fail> {
    let rows: [(u16, &[u8]); 12] = [
        (200, b"HTTP/1.1 200 OK\r\n"),
        (400, b"HTTP/1.1 400 Bad Request\r\n"),
        (404, b"HTTP/1.1 404 Not Found\r\n"),
        (405, b"HTTP/1.1 405 Method Not Allowed\r\n"),
        (409, b"HTTP/1.1 409 Conflict\r\n"),
        (413, b"HTTP/1.1 413 Content Too Large\r\n"),
        (422, b"HTTP/1.1 422 Unprocessable Content\r\n"),
        (431, b"HTTP/1.1 431 Request Header Fields Too Large\r\n"),
        (501, b"HTTP/1.1 501 Not Implemented\r\n"),
        (503, b"HTTP/1.1 503 Service Unavailable\r\n"),
        (507, b"HTTP/1.1 507 Insufficient Storage\r\n"),
        (299, b"HTTP/1.1 299 \r\n"),
    ];
    for (status, wanted) in rows {
        let text = sent(rt.alloc(), status, None, false, false, b"")?;
        assert!(rt; text.as_slice().starts_with(wanted), "status {status}");
    }
    Ok(())
}
