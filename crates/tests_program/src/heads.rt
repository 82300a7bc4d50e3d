//! Heads of well-known clients, requests with HEAD, and requests that come one behind the other.
use crate::runs::{LISTING, OK, TRIAL, gives, response};
use std::alloc::Global;
use std::process::Abort;
use std::test::Fail;

const CURL: &[u8] =
    b"GET /groups/1/rows HTTP/1.1\r\nHost: localhost:8080\r\nUser-Agent: curl/8.5.0\r\nAccept: */*\r\n\r\n";

const FIREFOX: &[u8] =
    b"GET /groups/1/rows HTTP/1.1\r\nHost: localhost:8080\r\nUser-Agent: Mozilla/5.0 (X11; Linux x86_64; rv:128.0) Gecko/20100101 Firefox/128.0\r\nAccept: text/html,application/xhtml+xml,application/xml;q=0.9,image/avif,image/webp,*/*;q=0.8\r\nAccept-Language: en-US,en;q=0.5\r\nAccept-Encoding: gzip, deflate, br, zstd\r\nConnection: keep-alive\r\nUpgrade-Insecure-Requests: 1\r\nSec-Fetch-Dest: document\r\nSec-Fetch-Mode: navigate\r\nSec-Fetch-Site: none\r\nSec-Fetch-User: ?1\r\nPriority: u=0, i\r\n\r\n";

const PYTHON: &[u8] =
    b"GET /groups/1/rows HTTP/1.1\r\nHost: localhost:8080\r\nUser-Agent: python-requests/2.32.3\r\nAccept-Encoding: gzip, deflate\r\nAccept: */*\r\nConnection: keep-alive\r\n\r\n";

const WGET: &[u8] =
    b"GET /groups/1/rows HTTP/1.1\r\nHost: localhost:8080\r\nUser-Agent: Wget/1.21.4\r\nAccept: */*\r\nAccept-Encoding: identity\r\nConnection: Keep-Alive\r\n\r\n";

#[test]
fn clients_are_answered_as_without_their_fields(rt: HostRuntime) -> Result<(), Fail> {
    let clients = [CURL, FIREFOX, PYTHON, WGET];
    for client in clients {
        gives(&rt, rt.alloc(), TRIAL, client, 4096, 0, LISTING)?;
    }
    Ok(())
}

/// The request of Python's own http.client, which asks that the connection closes.
const URLLIB: &[u8] =
    b"GET /revision HTTP/1.1\r\nAccept-Encoding: identity\r\nHost: localhost:8080\r\nUser-Agent: Python-urllib/3.11\r\nConnection: close\r\n\r\n";

const CLOSING_REVISION: &[u8] =
    b"HTTP/1.1 200 OK\r\ncontent-type: application/json\r\ncontent-length: 14\r\nconnection: close\r\n\r\n{\"revision\":0}";

#[test]
fn nothing_is_read_behind_a_request_that_closes(rt: HostRuntime) -> Result<(), Fail> {
    let alloc = rt.alloc();
    gives(&rt, alloc, TRIAL, URLLIB, 4096, 0, CLOSING_REVISION)?;
    let mut more = URLLIB.to_vec(alloc)?;
    more.extend_from_slice(b"\x00no request")?;
    gives(
        &rt,
        alloc,
        TRIAL,
        more.as_slice(),
        4096,
        0,
        CLOSING_REVISION,
    )?;
    let old = b"GET /revision HTTP/1.0\r\n\r\n".as_slice();
    gives(&rt, alloc, TRIAL, old, 4096, 0, CLOSING_REVISION)
}

/// A request with HEAD, and the head that a GET of the same target gets: the end of its status line, and the length of its body.
type Bare<'a> = (&'a str, &'a str, usize);

fn is_bare(rt: &impl Abort, alloc: Global, case: &Bare<'_>) -> Result<(), Fail> {
    let (target, status, length) = *case;
    let input = format!(in alloc; "HEAD {target} HTTP/1.1\r\n\r\nGET /revision HTTP/1.1\r\n\r\n")?;
    let mut output = format!(in alloc;
        "HTTP/1.1 {status}\r\ncontent-type: application/json\r\ncontent-length: {length}\r\n\r\n"
    )?;
    output.push_str(response(alloc, OK, "{\"revision\":0}")?.as_str())?;
    gives(
        rt,
        alloc,
        TRIAL,
        input.as_bytes(),
        4096,
        0,
        output.as_bytes(),
    )
}

#[test]
fn a_head_gets_the_head_of_a_get(rt: HostRuntime) -> Result<(), Fail> {
    let alloc = rt.alloc();
    let cases = [
        ("/revision", OK, 14),
        ("/journal", OK, 27),
        ("/groups/1/rows", OK, 296),
        ("/groups/1/rows?limit=01", "400 Bad Request", 45),
        ("/groups/1/rows?after=x", "400 Bad Request", 22),
        ("/groups/1/rows?limit=0", "422 Unprocessable Content", 52),
        ("/groups/2/rows", "404 Not Found", 64),
        ("/nothing", "404 Not Found", 20),
        ("/board", "501 Not Implemented", 21),
        ("/resources/1/sheet", "501 Not Implemented", 21),
    ];
    for case in &cases {
        is_bare(&rt, alloc, case)?;
    }
    Ok(())
}

#[test]
fn a_head_of_what_is_posted_names_the_method(rt: HostRuntime) -> Result<(), Fail> {
    let input = b"HEAD /changes HTTP/1.1\r\n\r\n".as_slice();
    let output =
        b"HTTP/1.1 405 Method Not Allowed\r\ncontent-type: application/json\r\ncontent-length: 24\r\nallow: POST\r\n\r\n".as_slice();
    gives(&rt, rt.alloc(), TRIAL, input, 4096, 0, output)
}

#[test]
fn two_requests_sent_together(rt: HostRuntime) -> Result<(), Fail> {
    let alloc = rt.alloc();
    let mut input = CURL.to_vec(alloc)?;
    input.extend_from_slice(
        b"POST /changes HTTP/1.1\r\ncontent-length: 58\r\n\r\n{\"act\":\"put_unit\",\"caller\":7,\"number\":1,\"id\":2,\"name\":\"X\"}GET /revision HTTP/1.1\r\n\r\n",
    )?;
    let mut output = LISTING.to_vec(alloc)?;
    let done = response(
        alloc,
        OK,
        "{\"done\":\"put\",\"repeated\":false,\"revision\":1}",
    )?;
    output.extend_from_slice(done.as_bytes())?;
    let revision = response(alloc, OK, "{\"revision\":1}")?;
    output.extend_from_slice(revision.as_bytes())?;
    gives(
        &rt,
        alloc,
        TRIAL,
        input.as_slice(),
        4096,
        0,
        output.as_slice(),
    )?;
    gives(&rt, alloc, TRIAL, input.as_slice(), 1, 0, output.as_slice())
}
