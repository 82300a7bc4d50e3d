//! Runs of the program: words and bytes in, status and bytes out.
ghost use Rattle.std.specs.Prelude.{◌≤◌};

use desk_batch::{Word, run};
use desk_io::{Bytes, MemorySink, MemorySource};
use std::alloc::Global;
use std::process::Abort;
use std::test::Fail;

/// What a run is given, but for its input.
#[derive(Clone, Copy)]
pub struct Setting {
    pub words: &'static [&'static str],
    /// The calls of the source that fail, from 0.
    pub failing: &'static [u64],
    /// How many bytes the sink takes.
    pub room: usize,
}

/// `batch trial`, and nothing fails.
pub const TRIAL: Setting = Setting {
    words: &["batch", "trial"],
    failing: &[],
    room: 65536,
};

/// `batch empty`, and nothing fails.
pub const EMPTY: Setting = Setting {
    words: &["batch", "empty"],
    ..TRIAL
};

/// A request and its response: the method and the target, the body that is sent, if any, and the status line's end and the
/// body that come back.
pub type Exchange<'a> = (&'a str, &'a str, &'a str, &'a str);

/// The status of what was done.
pub const OK: &str = "200 OK";

/// What is answered on the board and on the sheets, which are not built.
pub const NOT_BUILT: (&str, &str) = ("501 Not Implemented", "{\"error\":\"not_built\"}");

/// A request with a body, or without one where it is empty.
pub fn request(alloc: Global, asks: &str, body: &str) -> Result<String, Fail> {
    if body.is_empty() {
        return Ok(format!(in alloc; "{asks} HTTP/1.1\r\n\r\n")?);
    }
    let length = body.len();
    Ok(format!(in alloc; "{asks} HTTP/1.1\r\ncontent-length: {length}\r\n\r\n{body}")?)
}

/// The response of a status line and a JSON body, in which the conversation goes on.
pub fn response(alloc: Global, status: &str, body: &str) -> Result<String, Fail> {
    let length = body.len();
    Ok(format!(in alloc;
        "HTTP/1.1 {status}\r\ncontent-type: application/json\r\ncontent-length: {length}\r\n\r\n{body}"
    )?)
}

/// The same with a line more at the end of its head.
pub fn response_with(alloc: Global, status: &str, line: &str, body: &str) -> Result<String, Fail> {
    let length = body.len();
    Ok(format!(in alloc;
        "HTTP/1.1 {status}\r\ncontent-type: application/json\r\ncontent-length: {length}\r\n{line}\r\n{body}"
    )?)
}

/// The words of a setting.
pub fn words_of(alloc: Global, setting: Setting) -> Result<Vec<Word>, Fail> {
    let mut words = Vec::new(alloc);
    for word in setting.words {
        words.push(Bytes::of(alloc, word.as_bytes())?)?;
    }
    Ok(words)
}

/// The status for want of memory, which no clause rules out.
const NO_MEMORY: u8 = 10;

/// The first line of a response that says the same of one request.
const NOT_STORED: &[u8] = b"HTTP/1.1 507 ";

/// Whether the text holds the piece.
fn has(text: &[u8], piece: &[u8]) -> bool {
    for at in 0..text.len() {
        if text[at..].starts_with(piece) {
            return true;
        }
    }
    false
}

/// Runs the program, with at most so many bytes a call of the source, and compares its status and output. No run lacks memory.
pub fn gives(
    rt: &impl Abort,
    alloc: Global,
    setting: Setting,
    input: &[u8],
    most: usize,
    status: u8,
    output: &[u8],
) -> Result<(), Fail>
    requires { 1 ≤ most }
{
    let words = words_of(alloc, setting)?;
    let mut source = MemorySource::of(alloc, input, most, setting.failing)?;
    let mut sink = MemorySink::of(alloc, setting.room, &[])?;
    let answer = run(alloc, words.as_slice(), &mut source, &mut sink);
    assert!(rt; answer != NO_MEMORY && !has(sink.bytes(), NOT_STORED));
    assert_eq!(rt; answer, status);
    assert!(rt; sink.bytes() == output);
    Ok(())
}

/// Holds a conversation of these exchanges.
pub fn holds(
    rt: &impl Abort,
    alloc: Global,
    setting: Setting,
    exchanges: &[Exchange],
) -> Result<(), Fail> {
    let mut input = String::new(alloc);
    let mut output = String::new(alloc);
    for (asks, body, status, given) in exchanges {
        input.push_str(request(alloc, asks, body)?.as_str())?;
        output.push_str(response(alloc, status, given)?.as_str())?;
    }
    gives(
        rt,
        alloc,
        setting,
        input.as_bytes(),
        4096,
        0,
        output.as_bytes(),
    )
}

pub const ROWS: &[u8] = b"GET /groups/1/rows HTTP/1.1\r\nHost: desk\r\n\r\n";

pub const LISTING: &[u8] =
    b"HTTP/1.1 200 OK\r\ncontent-type: application/json\r\ncontent-length: 296\r\n\r\n{\"end\":true,\"next\":\"0.28936020.3\",\"revision\":0,\"rows\":[[\"2025-01-06T08:00Z\",1],[\"2025-01-06T08:00Z\",2],[\"2025-01-06T09:00Z\",1],[\"2025-01-06T09:00Z\",2],[\"2025-01-06T10:00Z\",1],[\"2025-01-06T10:00Z\",2],[\"2025-01-06T10:00Z\",3],[\"2025-01-06T11:00Z\",1],[\"2025-01-06T11:00Z\",2],[\"2025-01-06T11:00Z\",3]]}";

const USAGE: &[u8] =
    b"usage: desk batch STORE | import STORE CALLER FIRST | board STORE FROM TO | demo --seed N | serve STORE [--port N] [--workers N] [--connections N]\n";

#[test]
fn the_trial_listing(rt: HostRuntime) -> Result<(), Fail> {
    let alloc = rt.alloc();
    gives(&rt, alloc, TRIAL, ROWS, 4096, 0, LISTING)?;
    gives(&rt, alloc, TRIAL, b"", 4096, 0, b"")?;
    let exchanges = [
        ("GET /revision", "", OK, "{\"revision\":0}"),
        ("GET /revision?", "", OK, "{\"revision\":0}"),
        (
            "GET /groups/2/rows",
            "",
            "404 Not Found",
            "{\"key\":[2,0,0],\"refused\":\"unknown\",\"revision\":0,\"table\":\"group\"}",
        ),
    ];
    holds(&rt, alloc, TRIAL, &exchanges)
}

#[test]
fn other_words_print_the_usage_line(rt: HostRuntime) -> Result<(), Fail> {
    let cases: [&'static [&'static str]; 4] = [
        &[],
        &["batch"],
        &["batch", "full"],
        &["batch", "empty", "x"],
    ];
    for words in cases {
        let setting = Setting { words, ..TRIAL };
        gives(&rt, rt.alloc(), setting, ROWS, 4096, 2, USAGE)?;
    }
    Ok(())
}
