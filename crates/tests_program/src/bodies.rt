//! Bodies that are long, cut short, dropped, or ask for nothing.
use crate::ends::closing;
use crate::runs::{OK, TRIAL, gives, holds, request, response};
use std::alloc::Global;
use std::test::Fail;

const UNIT_2: &str = "{\"act\":\"put_unit\",\"caller\":7,\"number\":1,\"id\":2,\"name\":\"X\"}";

/// The change, which has 58 bytes, with spaces behind it.
fn padded(alloc: Global, spaces: u32) -> Result<String, Fail> {
    let mut body = String::new(alloc);
    body.push_str(UNIT_2)?;
    for _ in 0..spaces {
        body.push(' ')?;
    }
    Ok(body)
}

#[test]
fn bodies_have_a_limit(rt: HostRuntime) -> Result<(), Fail> {
    let alloc = rt.alloc();
    let most = padded(alloc, 65_478)?;
    let done = "{\"done\":\"put\",\"repeated\":false,\"revision\":1}";
    holds(
        &rt,
        alloc,
        TRIAL,
        &[("POST /changes", most.as_str(), OK, done)],
    )?;
    let more = padded(alloc, 65_479)?;
    let input = request(alloc, "POST /changes", more.as_str())?;
    let output = closing(
        alloc,
        "413 Content Too Large",
        "{\"error\":\"too_large\",\"limit\":\"body\"}",
    )?;
    gives(
        &rt,
        alloc,
        TRIAL,
        input.as_bytes(),
        4096,
        5,
        output.as_bytes(),
    )
}

#[test]
fn a_body_that_is_cut_short(rt: HostRuntime) -> Result<(), Fail> {
    let alloc = rt.alloc();
    let input =
        b"GET /revision HTTP/1.1\r\n\r\nPOST /changes HTTP/1.1\r\ncontent-length: 50\r\n\r\n{\"act\":\"pu".as_slice();
    let output = response(alloc, OK, "{\"revision\":0}")?;
    gives(&rt, alloc, TRIAL, input, 4096, 3, output.as_bytes())
}

#[test]
fn a_change_that_is_cut_at_every_byte(rt: HostRuntime) -> Result<(), Fail> {
    let alloc = rt.alloc();
    let whole = request(alloc, "POST /changes", UNIT_2)?;
    let input = whole.as_bytes();
    let done = response(
        alloc,
        OK,
        "{\"done\":\"put\",\"repeated\":false,\"revision\":1}",
    )?;
    gives(&rt, alloc, TRIAL, input, 1, 0, done.as_bytes())?;
    for end in 1..input.len() {
        gives(&rt, alloc, TRIAL, &input[..end], 4096, 3, b"")?;
    }
    Ok(())
}

#[test]
fn a_body_of_a_get_is_dropped(rt: HostRuntime) -> Result<(), Fail> {
    let exchanges = [
        ("GET /revision", "dropped", OK, "{\"revision\":0}"),
        (
            "GET /journal",
            UNIT_2,
            OK,
            "{\"entries\":[],\"revision\":0}",
        ),
        ("GET /revision", "", OK, "{\"revision\":0}"),
    ];
    holds(&rt, rt.alloc(), TRIAL, &exchanges)
}
