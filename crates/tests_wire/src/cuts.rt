//! `desk_wire`: the requests of the bytes are the same however they are cut.
use crate::heads::word_of;
use desk_wire::{Framer, Next, Request};
use std::alloc::Global;
use std::test::Fail;

// Requests, one behind the other, and the note of each: method, target, version, whether it closes, and its body. The bodies
// of the second and the last are themselves what a head could be.
const TEN: [(&[u8], &[u8]); 10] = [
    (b"GET /a HTTP/1.1\r\n\r\n", b"GET /a 1-;"),
    (
        b"X /b HTTP/1.1\ncontent-length: 00005\n\nGET /",
        b"X /b 1-GET /;",
    ),
    (b"HEAD /c HTTP/1.1\n\n", b"HEAD /c 1-;"),
    (b"\r\nX / HTTP/1.1\nA: d\n\n", b"X / 1-;"),
    (b"X /e HTTP/1.1\nContent-Length:0\n\n", b"X /e 1-;"),
    (b"X ?g=h&i HTTP/1.0\n\n", b"X ?g=h&i 0!;"),
    (b"X / HTTP/1.1\nCONTENT-LENGTH:\t2 \n\n\r\n", b"X / 1-\r\n;"),
    (b"X / HTTP/1.1\nConnection: close\n\n", b"X / 1!;"),
    (b"x /l HTTP/1.1\nA:\n\n", b"x /l 1-;"),
    (
        b"X /m HTTP/1.1\nContent-Length: 14\n\nX / HTTP/1.1\n\n",
        b"X /m 1-X / HTTP/1.1\n\n;",
    ),
];

// The bytes of the requests, one behind the other.
fn joined(alloc: Global) -> Result<Vec<u8>, Fail> {
    let mut text = Vec::new(alloc);
    for (request, _) in TEN {
        text.extend_from_slice(request)?;
    }
    Ok(text)
}

// The notes of the requests that are whole in the first `len` bytes.
fn notes_within(alloc: Global, len: usize) -> Result<Vec<u8>, Fail> {
    let mut notes = Vec::new(alloc);
    let mut left = len;
    for (request, note) in TEN {
        if left < request.len() {
            return Ok(notes);
        }
        left -= request.len();
        notes.extend_from_slice(note)?;
    }
    Ok(notes)
}

fn push_note(notes: &mut Vec<u8>, request: &Request) -> Result<(), Fail> {
    notes.extend_from_slice(request.method.as_slice())?;
    notes.push(b' ')?;
    notes.extend_from_slice(request.target.as_slice())?;
    notes.push(b' ')?;
    notes.push(if request.version == 1 { b'1' } else { b'0' })?;
    notes.push(if request.close { b'!' } else { b'-' })?;
    notes.extend_from_slice(request.body.as_slice())?;
    notes.push(b';')?;
    Ok(())
}

// Feeds the piece, notes each request that is whole then, and answers what stands behind them.
fn note(
    alloc: Global,
    framer: &mut Framer,
    piece: &[u8],
    notes: &mut Vec<u8>,
) -> Result<&'static str, Fail> {
    framer.feed(piece)?;
    for _ in 0..TEN.len() {
        match framer.next_request(alloc)? {
            Next::Request(request) => push_note(notes, &request)?,
            other => return Ok(word_of(&other)),
        }
    }
    Ok(word_of(&framer.next_request(alloc)?))
}

#[test]
fn every_prefix_in_every_cut(rt: HostRuntime) -> Result<(), Fail> {
    let bytes = joined(rt.alloc())?;
    for len in 0..=bytes.len() {
        let wanted = notes_within(rt.alloc(), len)?;
        for cut in 0..=len {
            let mut framer = Framer::new(rt.alloc());
            let mut notes = Vec::new(rt.alloc());
            assert_eq!(rt;
                note(rt.alloc(), &mut framer, &bytes[..cut], &mut notes)?,
                "more"
            );
            assert_eq!(rt;
                note(rt.alloc(), &mut framer, &bytes[cut..len], &mut notes)?,
                "more"
            );
            assert!(rt;
                notes.as_slice() == wanted.as_slice(),
                "{len} bytes cut at {cut}"
            );
        }
    }
    Ok(())
}

#[test]
fn byte_by_byte(rt: HostRuntime) -> Result<(), Fail> {
    let bytes = joined(rt.alloc())?;
    let mut framer = Framer::new(rt.alloc());
    let mut notes = Vec::new(rt.alloc());
    for i in 0..bytes.len() {
        assert_eq!(rt;
            note(rt.alloc(), &mut framer, &bytes[i..i + 1], &mut notes)?,
            "more"
        );
        assert!(rt;
            notes.as_slice() == notes_within(rt.alloc(), i + 1)?.as_slice(),
            "after {i}"
        );
    }
    assert!(rt; framer.is_empty());
    Ok(())
}
