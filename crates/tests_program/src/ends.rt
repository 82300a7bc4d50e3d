//! How conversations end: bytes in, status and bytes out.
use crate::runs::{LISTING, OK, ROWS, Setting, TRIAL, gives, response, response_with};
use std::alloc::Global;
use std::test::Fail;

/// The response to a rest that is no request, behind which the conversation ends.
pub fn closing(alloc: Global, status: &str, body: &str) -> Result<String, Fail> {
    response_with(alloc, status, "connection: close\r\n", body)
}

#[test]
fn a_request_cut_at_every_byte(rt: HostRuntime) -> Result<(), Fail> {
    gives(&rt, rt.alloc(), TRIAL, &ROWS[..0], 4096, 0, b"")?;
    for end in 1..ROWS.len() {
        gives(&rt, rt.alloc(), TRIAL, &ROWS[..end], 4096, 3, b"")?;
    }
    gives(&rt, rt.alloc(), TRIAL, b"\r\n", 4096, 3, b"")
}

#[test]
fn pieces_do_not_matter(rt: HostRuntime) -> Result<(), Fail> {
    let alloc = rt.alloc();
    let mut input = ROWS.to_vec(alloc)?;
    input.extend_from_slice(ROWS)?;
    let mut output = LISTING.to_vec(alloc)?;
    output.extend_from_slice(LISTING)?;
    let (input, output) = (input.as_slice(), output.as_slice());
    gives(&rt, alloc, TRIAL, input, 1, 0, output)?;
    gives(&rt, alloc, TRIAL, input, 2, 0, output)?;
    gives(&rt, alloc, TRIAL, input, 3, 0, output)?;
    gives(&rt, alloc, TRIAL, input, 7, 0, output)?;
    gives(&rt, alloc, TRIAL, input, 100, 0, output)
}

const BAD: &str = "400 Bad Request";

const SYNTAX: &str = "{\"error\":\"bad_head\",\"rule\":\"syntax\"}";

const LENGTH: &str = "{\"error\":\"bad_head\",\"rule\":\"length\"}";

const TRANSFER: &str = "{\"error\":\"bad_head\",\"rule\":\"transfer\"}";

const TOO_LONG: &str = "{\"error\":\"too_large\",\"limit\":\"body\"}";

const TOO_MANY_LINES: &str = "{\"error\":\"too_large\",\"limit\":\"lines\"}";

const TOO_GREAT: &str = "{\"error\":\"too_large\",\"limit\":\"head\"}";

/// The first fields of a request whose body has so many bytes, as the field says it.
fn of_length(alloc: Global, length: &str) -> Result<String, Fail> {
    Ok(format!(in alloc; "POST /changes HTTP/1.1\r\ncontent-length: {length}\r\n\r\n")?)
}

#[test]
fn a_rest_that_breaks_a_rule_closes(rt: HostRuntime) -> Result<(), Fail> {
    let alloc = rt.alloc();
    let cases = [
        ("\0", BAD, SYNTAX),
        ("GET /revision HTTP/2.0\r\n\r\n", BAD, SYNTAX),
        (
            "GET /revision HTTP/1.1\r\nContent-Length: 5x\r\n\r\nbody.",
            BAD,
            LENGTH,
        ),
        (
            "GET /revision HTTP/1.1\r\nContent-Length: +5\r\n\r\nbody.",
            BAD,
            LENGTH,
        ),
        (
            "GET /revision HTTP/1.1\r\nContent-Length: 5\r\ncontent-length: 5\r\n\r\nbody.",
            BAD,
            LENGTH,
        ),
        (
            "GET /revision HTTP/1.1\r\nTransfer-Encoding: chunked\r\n\r\n",
            "501 Not Implemented",
            TRANSFER,
        ),
    ];
    for (input, status, body) in cases {
        let output = closing(alloc, status, body)?;
        gives(
            &rt,
            alloc,
            TRIAL,
            input.as_bytes(),
            4096,
            4,
            output.as_bytes(),
        )?;
    }
    Ok(())
}

#[test]
fn bodies_have_lengths(rt: HostRuntime) -> Result<(), Fail> {
    let alloc = rt.alloc();
    for length in ["65537", "99999999999999999999999"] {
        let input = of_length(alloc, length)?;
        let output = closing(alloc, "413 Content Too Large", TOO_LONG)?;
        gives(
            &rt,
            alloc,
            TRIAL,
            input.as_bytes(),
            4096,
            5,
            output.as_bytes(),
        )?;
    }
    let five = b"GET /revision HTTP/1.1\r\ncontent-length: 00005\r\n\r\nbody.".as_slice();
    let revision = response(alloc, OK, "{\"revision\":0}")?;
    gives(&rt, alloc, TRIAL, five, 4096, 0, revision.as_bytes())
}

#[test]
fn heads_have_limits(rt: HostRuntime) -> Result<(), Fail> {
    let alloc = rt.alloc();
    let mut head = b"GET /groups/1/rows HTTP/1.1\r\n".to_vec(alloc)?;
    for _ in 0..94 {
        head.extend_from_slice(b"a: b\r\n")?;
    }
    // with 94 fields the empty line is the 96th, with 95 fields there is no room for it
    let mut whole = head.as_slice().to_vec(alloc)?;
    whole.extend_from_slice(b"\r\n")?;
    gives(&rt, alloc, TRIAL, whole.as_slice(), 4096, 0, LISTING)?;
    head.extend_from_slice(b"a: b\r\n")?;
    let status = "431 Request Header Fields Too Large";
    let lines = closing(alloc, status, TOO_MANY_LINES)?;
    let lines = lines.as_bytes();
    gives(&rt, alloc, TRIAL, head.as_slice(), 4096, 5, lines)?;
    head.extend_from_slice(b"\r\n")?;
    gives(&rt, alloc, TRIAL, head.as_slice(), 4096, 5, lines)?;
    let mut long = b"GET /groups/1/rows HTTP/1.1\r\na: ".to_vec(alloc)?;
    for _ in 0..16351 {
        long.push(b'b')?;
    }
    gives(&rt, alloc, TRIAL, long.as_slice(), 4096, 3, b"")?;
    long.push(b'b')?;
    let bytes = closing(alloc, status, TOO_GREAT)?;
    gives(
        &rt,
        alloc,
        TRIAL,
        long.as_slice(),
        4096,
        5,
        bytes.as_bytes(),
    )
}

#[test]
fn faults_leave_what_was_answered(rt: HostRuntime) -> Result<(), Fail> {
    let alloc = rt.alloc();
    let at_once = Setting {
        failing: &[0],
        ..TRIAL
    };
    gives(&rt, alloc, at_once, ROWS, 4096, 6, b"")?;
    // the second call brings a part of the second request, the third fails
    let later = Setting {
        failing: &[2],
        ..TRIAL
    };
    let mut input = ROWS.to_vec(alloc)?;
    input.extend_from_slice(ROWS)?;
    gives(&rt, alloc, later, input.as_slice(), 40, 6, LISTING)?;
    let no_room = Setting { room: 40, ..TRIAL };
    gives(&rt, alloc, no_room, ROWS, 4096, 7, b"")?;
    let one = Setting { room: 400, ..TRIAL };
    gives(&rt, alloc, one, input.as_slice(), 4096, 7, LISTING)
}

const TEN: [(&str, &str, &str); 10] = [
    ("GET /revision HTTP/1.1\r\n\r\n", OK, "{\"revision\":0}"),
    (
        "GET /x HTTP/1.1\r\n\r\n",
        "404 Not Found",
        "{\"error\":\"no_route\"}",
    ),
    (
        "GET /journal HTTP/1.1\r\n\r\n",
        OK,
        "{\"entries\":[],\"revision\":0}",
    ),
    (
        "POST /changes HTTP/1.1\r\ncontent-length: 58\r\n\r\n{\"act\":\"put_unit\",\"caller\":7,\"number\":1,\"id\":2,\"name\":\"X\"}",
        OK,
        "{\"done\":\"put\",\"repeated\":false,\"revision\":1}",
    ),
    (
        "GET /revision?a HTTP/1.1\r\n\r\n",
        "400 Bad Request",
        "{\"error\":\"bad_parameter\",\"parameter\":\"other\"}",
    ),
    (
        "GET /board HTTP/1.1\r\n\r\n",
        "501 Not Implemented",
        "{\"error\":\"not_built\"}",
    ),
    (
        "POST /changes HTTP/1.1\r\ncontent-length: 2\r\n\r\n{}",
        "400 Bad Request",
        "{\"error\":\"bad_body\",\"field\":\"act\",\"rule\":\"missing\"}",
    ),
    (
        "GET /groups/0/rows HTTP/1.1\r\n\r\n",
        "400 Bad Request",
        "{\"error\":\"bad_parameter\",\"parameter\":\"id\"}",
    ),
    (
        "GET /groups/1/rows?after= HTTP/1.1\r\n\r\n",
        "400 Bad Request",
        "{\"error\":\"bad_cursor\"}",
    ),
    (
        "GET /revision HTTP/1.1\r\na: b\r\n\r\n",
        OK,
        "{\"revision\":1}",
    ),
];

#[test]
fn ten_requests_cut_at_every_byte(rt: HostRuntime) -> Result<(), Fail> {
    let alloc = rt.alloc();
    let mut input = Vec::new(alloc);
    let mut output = Vec::new(alloc);
    for (asks, status, body) in TEN {
        // at a border nothing is left, and behind it the rest is no whole request
        let mut end = 0;
        for byte in asks.as_bytes() {
            gives(
                &rt,
                alloc,
                TRIAL,
                input.as_slice(),
                4096,
                end,
                output.as_slice(),
            )?;
            input.push(*byte)?;
            end = 3;
        }
        output.extend_from_slice(response(alloc, status, body)?.as_bytes())?;
    }
    gives(
        &rt,
        alloc,
        TRIAL,
        input.as_slice(),
        4096,
        0,
        output.as_slice(),
    )
}
