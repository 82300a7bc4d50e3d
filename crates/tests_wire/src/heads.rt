//! `desk_wire`: which heads are served, what they say of their bodies and of the connection, and the limits, by their bytes.
use desk_wire::{Framer, HeadRule, Next, WireLimit};
use std::alloc::Global;
use std::test::Fail;

/// The answer in a word; of a request, whether it closes.
pub fn word_of(next: &Next) -> &'static str {
    match next {
        Next::Request(request) => { if request.close { "closes" } else { "request" } }
        Next::More => "more",
        Next::Bad(HeadRule::Syntax) => "syntax",
        Next::Bad(HeadRule::Transfer) => "transfer",
        Next::Bad(HeadRule::Length) => "length",
        Next::TooLarge(WireLimit::Head) => "too many bytes",
        Next::TooLarge(WireLimit::Lines) => "too many lines",
        Next::TooLarge(WireLimit::Body) => "body",
    }
}

#[test]
fn what_stands_at_the_front(rt: HostRuntime) -> Result<(), Fail> {
    let rows: [(&[u8], &str); 18] = [
        (b"GET / HTTP/1.1\r\n\r\n", "request"),
        (b"HEAD / HTTP/1.1\r\n\r\n", "request"),
        (b"\r\nGET / HTTP/1.1\nHost: desk\n\n", "request"),
        (b"", "more"),
        (b"\r\n", "more"),
        (b"GET /add HTT", "more"),
        (b"GET / HTTP/1.1\r\nTransfer-Encoding: chunked\r\n", "more"),
        (b"POST / HTTP/1.1\r\ncontent-length: 4\r\n\r\nbod", "more"),
        (b"\x00", "syntax"),
        (b"GET / HTTP/2.0\r\n\r\n", "syntax"),
        (b"GET / HTTP/1.2\r\n\r\n", "syntax"),
        (b"GET /\xff HTTP/1.1\r\n\r\n", "syntax"),
        (b"GET / HTTP/1.1\r\nHost : desk\r\n\r\n", "syntax"),
        (
            b"GET / HTTP/1.1\r\nTransfer-Encoding: chunked\r\n\r\n",
            "transfer",
        ),
        (b"GET / HTTP/1.0\r\ntRANSFER-eNCODING:\r\n\r\n", "transfer"),
        (
            b"POST / HTTP/1.1\r\nContent-Length: 1\r\nContent-Length: 2\r\nTRANSFER-ENCODING: identity\r\n\r\n",
            "transfer",
        ),
        (
            b"POST / HTTP/1.1\r\nContent-Length: 1\r\nHost: desk\r\ncontent-length: 1\r\n\r\n1",
            "length",
        ),
        (
            b"POST / HTTP/1.1\r\nContent-Length: 65537\r\nContent-Length: 1\r\n\r\n1",
            "length",
        ),
    ];
    for (input, wanted) in rows {
        let mut framer = Framer::new(rt.alloc());
        framer.feed(input)?;
        assert_eq!(rt; word_of(&framer.next_request(rt.alloc())?), wanted);
        framer.feed(b"GET / HTTP/1.1\r\n\r\n")?;
        if wanted == "syntax" || wanted == "transfer" || wanted == "length" {
            assert_eq!(rt; word_of(&framer.next_request(rt.alloc())?), wanted);
        }
    }
    Ok(())
}

// The answer to a head of one line, these fields and an empty line.
fn answer_to(alloc: Global, line: &[u8], fields: &[u8]) -> Result<Next, Fail> {
    let mut framer = Framer::new(alloc);
    framer.feed(line)?;
    framer.feed(fields)?;
    framer.feed(b"\r\n")?;
    Ok(framer.next_request(alloc)?)
}

#[test]
fn which_heads_close(rt: HostRuntime) -> Result<(), Fail> {
    let rows: [(&[u8], &str); 15] = [
        (b"", "request"),
        (b"Connection: close\r\n", "closes"),
        (b"Connection: Close\r\n", "closes"),
        (b"cONNECTION:\t CLOSE \t\r\n", "closes"),
        (b"connection:close\n", "closes"),
        (b"Connection: keep-alive\r\n", "request"),
        (b"Connection: keep-alive, close\r\n", "request"),
        (b"Connection: close, keep-alive\r\n", "request"),
        (b"Connection: closed\r\n", "request"),
        (b"Connection: clos\r\n", "request"),
        (b"Connection:\r\n", "request"),
        (b"Proxy-Connection: close\r\n", "request"),
        (b"Connection: close\r\nConnection: keep-alive\r\n", "closes"),
        (
            b"Connection: keep-alive\r\nHost: desk\r\nConnection: close\r\n",
            "closes",
        ),
        (
            b"Connection: keep-alive\r\nConnection: upgrade\r\n",
            "request",
        ),
    ];
    for (fields, wanted) in rows {
        let next = answer_to(rt.alloc(), b"GET / HTTP/1.1\r\n", fields)?;
        assert_eq!(rt; word_of(&next), wanted);
        let old = answer_to(rt.alloc(), b"GET / HTTP/1.0\r\n", fields)?;
        assert_eq!(rt; word_of(&old), "closes");
    }
    Ok(())
}

// What clients send, and the bodies that they give with it.
#[test]
fn heads_of_clients(rt: HostRuntime) -> Result<(), Fail> {
    let rows: [(&[u8], &str, &[u8]); 7] = [
        (
            b"GET /revision HTTP/1.1\r\nHost: localhost:8080\r\nUser-Agent: curl/7.88.1\r\nAccept: */*\r\n\r\n",
            "request",
            b"",
        ),
        (
            b"POST /changes HTTP/1.1\r\nHost: localhost:8080\r\nUser-Agent: curl/7.88.1\r\nAccept: */*\r\nContent-Length: 9\r\nContent-Type: application/x-www-form-urlencoded\r\n\r\n{\"act\":1}",
            "request",
            b"{\"act\":1}",
        ),
        (
            b"GET /revision HTTP/1.1\r\nHost: localhost:8080\r\nUser-Agent: Wget/1.21.3\r\nAccept: */*\r\nAccept-Encoding: identity\r\nConnection: Keep-Alive\r\n\r\n",
            "request",
            b"",
        ),
        (
            b"GET /revision HTTP/1.1\r\nHost: localhost:8080\r\nAccept-Encoding: identity\r\n\r\n",
            "request",
            b"",
        ),
        (
            b"POST /changes HTTP/1.1\r\nHost: localhost:8080\r\nAccept-Encoding: identity\r\nContent-Length: 9\r\n\r\n{\"act\":1}",
            "request",
            b"{\"act\":1}",
        ),
        (
            b"GET /revision HTTP/1.1\r\nAccept-Encoding: identity\r\nHost: localhost:8080\r\nUser-Agent: Python-urllib/3.11\r\nConnection: close\r\n\r\n",
            "closes",
            b"",
        ),
        (
            b"GET /revision HTTP/1.1\r\nHost: localhost:8080\r\nUser-Agent: Mozilla/5.0 (X11; Linux x86_64; rv:128.0) Gecko/20100101 Firefox/128.0\r\nAccept: text/html,application/xhtml+xml,application/xml;q=0.9,image/avif,image/webp,image/png,image/svg+xml,*/*;q=0.8\r\nAccept-Language: en-US,en;q=0.5\r\nAccept-Encoding: gzip, deflate, br, zstd\r\nConnection: keep-alive\r\nUpgrade-Insecure-Requests: 1\r\nSec-Fetch-Dest: document\r\nSec-Fetch-Mode: navigate\r\nSec-Fetch-Site: none\r\nSec-Fetch-User: ?1\r\nPriority: u=0, i\r\n\r\n",
            "request",
            b"",
        ),
    ];
    for (input, wanted, body) in rows {
        let mut framer = Framer::new(rt.alloc());
        framer.feed(input)?;
        let next = framer.next_request(rt.alloc())?;
        assert_eq!(rt; word_of(&next), wanted);
        assert!(rt; matches!(&next, Next::Request(request) if request.body.as_slice() == body));
        assert!(rt; framer.is_empty());
    }
    Ok(())
}

// A first line of 16 bytes, so many fields of one line feed each, one field of 3 bytes and the value, and the tail.
fn head_of(alloc: Global, fields: usize, value: usize, tail: &[u8]) -> Result<Vec<u8>, Fail> {
    let mut head = Vec::from_slice(alloc, b"GET / HTTP/1.1\r\n")?;
    for _ in 0..fields {
        head.extend_from_slice(b"a: b\r\n")?;
    }
    if value > 0 {
        head.extend_from_slice(b"x: ")?;
    }
    for _ in 0..value {
        head.push(b'y')?;
    }
    head.extend_from_slice(tail)?;
    Ok(head)
}

#[test]
fn limits_of_a_head(rt: HostRuntime) -> Result<(), Fail> {
    let rows: [(usize, usize, &[u8], &str); 8] = [
        (94, 0, b"\r\n", "request"),
        (94, 0, b"", "more"),
        (95, 0, b"\r\n", "too many lines"),
        (95, 0, b"", "too many lines"),
        (0, 16_361, b"\r\n\r\n", "request"),
        (0, 16_362, b"\r\n\r\n", "too many bytes"),
        (0, 16_364, b"", "more"),
        (0, 16_365, b"", "too many bytes"),
    ];
    for (fields, value, tail, wanted) in rows {
        let mut framer = Framer::new(rt.alloc());
        framer.feed(&head_of(rt.alloc(), fields, value, tail)?)?;
        assert_eq!(rt; word_of(&framer.next_request(rt.alloc())?), wanted);
    }
    Ok(())
}

fn feed_times(framer: &mut Framer, text: &[u8], times: usize) -> Result<(), Fail> {
    for _ in 0..times {
        framer.feed(text)?;
    }
    Ok(())
}

// A head whose length is the text, so many times, and behind it so many bytes.
fn framer_of(alloc: Global, text: &[u8], times: usize, behind: usize) -> Result<Framer, Fail> {
    let mut framer = Framer::new(alloc);
    framer.feed(b"POST /changes HTTP/1.1\r\nContent-Length:")?;
    feed_times(&mut framer, text, times)?;
    framer.feed(b"\r\n\r\n")?;
    feed_times(&mut framer, b"y", behind)?;
    Ok(framer)
}

fn body_len(next: &Next) -> usize {
    match next {
        Next::Request(request) => request.body.as_slice().len(),
        _ => 0,
    }
}

#[test]
fn bodies_by_their_lengths(rt: HostRuntime) -> Result<(), Fail> {
    let rows: [(&[u8], usize, usize, &str, usize); 19] = [
        (b"0", 1, 0, "request", 0),
        (b" \t10\t ", 1, 9, "more", 0),
        (b" \t10\t ", 1, 11, "request", 10),
        (b"0", 5_000, 1, "request", 0),
        (b" 00005", 1, 5, "request", 5),
        (b" 00005", 1, 4, "more", 0),
        (b" +5", 1, 5, "length", 0),
        (b" -5", 1, 5, "length", 0),
        (b" 5 5", 1, 55, "length", 0),
        (b" 5,5", 1, 5, "length", 0),
        (b" 5\x0b", 1, 5, "syntax", 0),
        (b" 0x5", 1, 5, "length", 0),
        (b"", 1, 0, "length", 0),
        (b" \t ", 1, 0, "length", 0),
        (b"65536", 1, 65_535, "more", 0),
        (b"65536", 1, 65_536, "request", 65_536),
        (b"65537", 1, 0, "body", 0),
        (b" 99999999999999999999999", 1, 5, "body", 0),
        (b"9", 5_000, 0, "body", 0),
    ];
    for (text, times, behind, wanted, len) in rows {
        let mut framer = framer_of(rt.alloc(), text, times, behind)?;
        let next = framer.next_request(rt.alloc())?;
        assert_eq!(rt; word_of(&next), wanted);
        assert_eq!(rt; body_len(&next), len);
    }
    Ok(())
}
