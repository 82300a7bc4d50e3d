//! `desk_talk`: bytes in, bytes out, and how a conversation ends.
ghost use Rattle.std.specs.Prelude.{⊤};

use desk_io::{Bytes, MemorySink, MemorySource, NoMemory};
use desk_talk::{Replier, SessionEnd, Stop, converse};
use desk_wire::{BodyKind, HeadRule, Request, Response, WireLimit};
use std::alloc::Global;
use std::test::Fail;

/// Answers each request with its target.
#[derive(Drop)]
struct Echo {
    turns: u64,
}

fn echo_of(alloc: Global, request: &Request) -> Result<Response, NoMemory> {
    let body = Bytes::of(alloc, request.target.as_slice())?;
    Ok(Response {
        status: 200,
        kind: BodyKind::Json,
        allow: None,
        close: request.close,
        bare: request.method.as_slice() == b"HEAD".as_slice(),
        body,
    })
}

impl Replier for Echo {
    ghost answers = { λ _ _ _ _. ⊤ };

    ghost stops = { λ _ _ _ _. ⊤ };

    ghost ready = { λ _. ⊤ };

    ghost knows = { λ _ _. ⊤ };

    fn reply(self, alloc: Global, request: &Request) -> (Echo, Result<Response, Stop>) {
        let next = Echo {
            turns: self.turns.saturating_add(1),
        };
        match echo_of(alloc, request) {
            Ok(response) => (next, Ok(response)),
            Err(_) => (next, Err(Stop::NoMemory)),
        }
    }
}

fn word_of(end: SessionEnd) -> &'static str {
    match end {
        SessionEnd::Closed => "closed",
        SessionEnd::Truncated => "truncated",
        SessionEnd::BadHead(HeadRule::Syntax) => "syntax",
        SessionEnd::BadHead(HeadRule::Transfer) => "transfer",
        SessionEnd::BadHead(HeadRule::Length) => "length",
        SessionEnd::TooLarge(WireLimit::Body) => "body",
        SessionEnd::TooLarge(WireLimit::Head) => "head",
        SessionEnd::TooLarge(WireLimit::Lines) => "lines",
        _ => "other",
    }
}

const HELLO: &[u8] =
    b"HTTP/1.1 200 OK\r\ncontent-type: application/json\r\ncontent-length: 1\r\n\r\n/";

const BYE: &[u8] =
    b"HTTP/1.1 200 OK\r\ncontent-type: application/json\r\ncontent-length: 1\r\nconnection: close\r\n\r\n/";

#[test]
fn ends_of_conversations(rt: HostRuntime) -> Result<(), Fail> {
    let rows: [(&[u8], &str, u64, &[u8], &[u8]); 10] = [
        (b"", "closed", 0, b"", b""),
        (b"GET / HTTP/1.1\r\n\r\n", "closed", 1, HELLO, b""),
        (
            b"GET / HTTP/1.1\r\n\r\nGET / HTTP/1.1\r\n\r\n",
            "closed",
            2,
            HELLO,
            HELLO,
        ),
        (
            b"GET / HTTP/1.1\r\n\r\nPOST / HTTP/1.1\r\ncontent-length: 50\r\n\r\n0123456789",
            "truncated",
            1,
            HELLO,
            b"",
        ),
        (
            b"GET / HTTP/1.1\r\nConnection: close\r\n\r\nGET /other HTTP/1.1\r\n\r\n",
            "closed",
            1,
            BYE,
            b"",
        ),
        (b"GET / HTTP/1.0\r\n\r\n\x00", "closed", 1, BYE, b""),
        (
            b"HEAD / HTTP/1.1\r\nconnection: close\r\n\r\n",
            "closed",
            1,
            &BYE[..BYE.len() - 1],
            b"",
        ),
        (
            b"GET / HTTP/1.1\r\n\r\nGET / HTTP/1.1\r\nTransfer-Encoding: chunked\r\n\r\n0\r\n\r\n",
            "transfer",
            1,
            HELLO,
            b"HTTP/1.1 501 Not Implemented\r\ncontent-type: application/json\r\ncontent-length: 38\r\nconnection: close\r\n\r\n{\"error\":\"bad_head\",\"rule\":\"transfer\"}",
        ),
        (
            b"POST / HTTP/1.1\r\ncontent-length: 65537\r\n\r\n",
            "body",
            0,
            b"",
            b"HTTP/1.1 413 Content Too Large\r\ncontent-type: application/json\r\ncontent-length: 36\r\nconnection: close\r\n\r\n{\"error\":\"too_large\",\"limit\":\"body\"}",
        ),
        (
            b"GET / HTTP/1.1\r\n\r\n\x00",
            "syntax",
            1,
            HELLO,
            b"HTTP/1.1 400 Bad Request\r\ncontent-type: application/json\r\ncontent-length: 36\r\nconnection: close\r\n\r\n{\"error\":\"bad_head\",\"rule\":\"syntax\"}",
        ),
    ];
    for (input, wanted, turns, first, last) in rows {
        let mut source = MemorySource::of(rt.alloc(), input, 7, &[])?;
        let mut sink = MemorySink::of(rt.alloc(), 4_096, &[])?;
        let (echo, end) = converse(rt.alloc(), &mut source, &mut sink, Echo { turns: 0 });
        assert_eq!(rt; word_of(end), wanted);
        assert_eq!(rt; echo.turns, turns);
        assert!(rt; sink.bytes().starts_with(first) && sink.bytes().ends_with(last));
        assert!(rt; first.len().checked_add(last.len()) == Some(sink.bytes().len()));
    }
    Ok(())
}
