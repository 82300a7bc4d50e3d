//! What is answered to a request that is no command: the first rule that it breaks.
use crate::runs::{NOT_BUILT, OK, TRIAL, gives, holds, response_with};
use std::alloc::Global;
use std::process::Abort;
use std::test::Fail;

const NO_ROUTE: &str = "{\"error\":\"no_route\"}";

const WRONG_METHOD: &str = "{\"error\":\"wrong_method\"}";

const BAD_CURSOR: &str = "{\"error\":\"bad_cursor\"}";

const AT_0: &str = "{\"revision\":0}";

#[test]
fn paths_without_a_route(rt: HostRuntime) -> Result<(), Fail> {
    let alloc = rt.alloc();
    let asks = [
        "GET /",
        "GET /nothing",
        "GET /revision/",
        "GET //revision",
        "GET /Revision",
        "GET /%72evision",
        "GET /groups/rows",
        "GET /groups//rows",
        "GET /groups/1/rows/",
        "GET /groups/1/2/rows",
        "GET /groups/1/row",
        "GET /groups/1",
        "GET *",
        // the route comes before the method and the query
        "POST /nothing?limit=01",
        "DELETE /change",
    ];
    for ask in asks {
        holds(&rt, alloc, TRIAL, &[(ask, "", "404 Not Found", NO_ROUTE)])?;
    }
    Ok(())
}

#[test]
fn the_board_and_the_sheet_are_not_built(rt: HostRuntime) -> Result<(), Fail> {
    let (status, body) = NOT_BUILT;
    let exchanges = [
        ("GET /board", "", status, body),
        (
            "GET /board?from=2025-01-06T08:00Z&to=2025-01-06T12:00Z",
            "",
            status,
            body,
        ),
        ("POST /board?x", "", status, body),
        ("GET /resources/1/sheet", "", status, body),
        ("GET /resources/0/sheet?x=y", "", status, body),
        ("PUT /resources/x/sheet", "", status, body),
        ("GET /resources//sheet", "", "404 Not Found", NO_ROUTE),
        ("GET /revision", "", OK, AT_0),
    ];
    holds(&rt, rt.alloc(), TRIAL, &exchanges)
}

/// Sends a request without a body, and compares the response, which names the method of the route.
fn wants_method(rt: &impl Abort, alloc: Global, ask: &str, method: &str) -> Result<(), Fail> {
    let input = format!(in alloc; "{ask} HTTP/1.1\r\n\r\n")?;
    let line = format!(in alloc; "allow: {method}\r\n")?;
    let output = response_with(alloc, "405 Method Not Allowed", line.as_str(), WRONG_METHOD)?;
    gives(
        rt,
        alloc,
        TRIAL,
        input.as_bytes(),
        4096,
        0,
        output.as_bytes(),
    )
}

#[test]
fn methods_that_a_route_does_not_have(rt: HostRuntime) -> Result<(), Fail> {
    let alloc = rt.alloc();
    let cases = [
        ("POST /revision", "GET"),
        ("DELETE /journal", "GET"),
        ("get /revision", "GET"),
        ("GETS /revision", "GET"),
        ("PUT /groups/1/rows", "GET"),
        ("GET /changes", "POST"),
        ("PATCH /changes", "POST"),
        // the method comes before the id, the query and the body
        ("POST /groups/0/rows?limit=01", "GET"),
        ("POST /revision?x", "GET"),
        ("GET /changes?x", "POST"),
    ];
    for (ask, method) in cases {
        wants_method(&rt, alloc, ask, method)?;
    }
    Ok(())
}

/// Sends a GET of a target, and compares the response, which refuses a parameter.
fn refuses(rt: &impl Abort, alloc: Global, target: &str, parameter: &str) -> Result<(), Fail> {
    let ask = format!(in alloc; "GET {target}")?;
    let body = format!(in alloc; "{{\"error\":\"bad_parameter\",\"parameter\":\"{parameter}\"}}")?;
    holds(
        rt,
        alloc,
        TRIAL,
        &[(ask.as_str(), "", "400 Bad Request", body.as_str())],
    )
}

#[test]
fn parameters_off_their_forms(rt: HostRuntime) -> Result<(), Fail> {
    let alloc = rt.alloc();
    let cases = [
        ("/groups/0/rows", "id"),
        ("/groups/01/rows", "id"),
        ("/groups/1000000000/rows", "id"),
        ("/groups/+1/rows", "id"),
        ("/groups/%31/rows", "id"),
        ("/groups/x/rows?limit=01", "id"),
        ("/groups/1/rows?limit=01", "limit"),
        ("/groups/1/rows?limit=", "limit"),
        ("/groups/1/rows?limit", "limit"),
        ("/groups/1/rows?limit=-1", "limit"),
        ("/groups/1/rows?limit=4294967296", "limit"),
        ("/groups/1/rows?limit=99999999999999999999", "limit"),
        ("/groups/1/rows?limit=%FF", "limit"),
        ("/groups/1/rows?limit=+4", "limit"),
        ("/groups/1/rows?limit=%2B4", "limit"),
        ("/groups/1/rows?per=01", "per"),
        ("/groups/1/rows?per=4294967296", "per"),
        ("/groups/1/rows?at=5", "at"),
        ("/groups/1/rows?at=Latest", "at"),
        ("/groups/1/rows?from=2025-01-06T24:00Z", "from"),
        ("/groups/1/rows?from=2025-01-06T08:00", "from"),
        ("/groups/1/rows?from=5", "from"),
        ("/groups/1/rows?to=1999-12-31T23:59Z", "to"),
        ("/groups/1/rows?to=2100-01-01T00:01Z", "to"),
        // a name that the route does not have
        ("/groups/1/rows?id=1", "other"),
        ("/groups/1/rows?other=1", "other"),
        ("/groups/1/rows?Limit=1", "other"),
        ("/groups/1/rows?=1", "other"),
        ("/groups/1/rows?%FF=1", "other"),
        ("/groups/1/rows?limit=4;after=x", "limit"),
        ("/revision?x=1", "other"),
        ("/revision?from=0", "other"),
        ("/journal?limit=1", "other"),
        ("/journal?from=01", "from"),
        ("/journal?from=1000000000000001", "from"),
        ("/journal?from=", "from"),
        ("/journal?from=+1", "from"),
        ("/journal?from=2025-01-06T08:00Z", "from"),
        ("/journal?from=1&from=x", "from"),
        // a name that comes twice, whatever its second value is
        ("/groups/1/rows?limit=4&limit=4", "limit"),
        ("/groups/1/rows?limit=4&limit=x", "limit"),
        ("/groups/1/rows?per=1&per=01", "per"),
        ("/groups/1/rows?at=latest&at=", "at"),
        ("/groups/1/rows?after=0.28935900.2&after=x", "after"),
        ("/groups/1/rows?limit=4&%6Cimit=4", "limit"),
        // the pairs are taken from the left
        ("/groups/1/rows?limit=01&x=1", "limit"),
        ("/groups/1/rows?x=1&limit=01", "other"),
        ("/groups/1/rows?to=x&after=x", "to"),
    ];
    for (target, parameter) in cases {
        refuses(&rt, alloc, target, parameter)?;
    }
    Ok(())
}

#[test]
fn cursors_off_their_form(rt: HostRuntime) -> Result<(), Fail> {
    let alloc = rt.alloc();
    let cursors = [
        "",
        "x",
        "0.28935900",
        "0.28935900.",
        "0.028935900.2",
        "00.28935900.2",
        "1000000000000001.28935900.2",
        "0_.28935900.2",
        "0_501.28935900.2",
        "0.15778079.2",
        "0.28936020.1234567890",
        "0.28935900.0",
        "0.28935900.1.1.1.1.1.1.1.1.1.1.1.1.1.1.1.1.1.1.1.1.1.1.1.1.1",
        "0.28935900.2+",
        "%300.28935900.2",
        "x&limit=01",
    ];
    for cursor in cursors {
        let ask = format!(in alloc; "GET /groups/1/rows?after={cursor}")?;
        holds(
            &rt,
            alloc,
            TRIAL,
            &[(ask.as_str(), "", "400 Bad Request", BAD_CURSOR)],
        )?;
    }
    Ok(())
}

/// The bodies of a list, each with the field and the rule of its first fault.
fn breaks(rt: &impl Abort, alloc: Global, cases: &[(&str, &str, &str)]) -> Result<(), Fail> {
    for (body, field, rule) in cases {
        let given = format!(in alloc;
            "{{\"error\":\"bad_body\",\"field\":\"{field}\",\"rule\":\"{rule}\"}}"
        )?;
        holds(
            rt,
            alloc,
            TRIAL,
            &[("POST /changes", *body, "400 Bad Request", given.as_str())],
        )?;
    }
    Ok(())
}

#[test]
fn bodies_with_faults(rt: HostRuntime) -> Result<(), Fail> {
    let cases = [
        ("", "body", "syntax"),
        ("no JSON", "body", "syntax"),
        ("[]", "body", "object"),
        ("{}", "act", "missing"),
        (
            "{\"act\":\"put_unit\",\"caller\":7,\"number\":1,\"name\":\"X\"}",
            "id",
            "missing",
        ),
        (
            "{\"act\":\"fly\",\"caller\":7,\"number\":1}",
            "act",
            "range",
        ),
        ("{\"act\":5,\"caller\":7,\"number\":1}", "act", "type"),
        (
            "{\"act\":\"put_unit\",\"caller\":0,\"number\":1,\"id\":2,\"name\":\"X\"}",
            "caller",
            "range",
        ),
        (
            "{\"act\":\"put_unit\",\"caller\":7,\"number\":4294967296,\"id\":2,\"name\":\"X\"}",
            "number",
            "range",
        ),
        (
            "{\"act\":\"put_unit\",\"caller\":1000000000,\"number\":1,\"id\":2,\"name\":\"X\"}",
            "caller",
            "range",
        ),
        (
            "{\"act\":\"put_unit\",\"caller\":7,\"number\":0,\"id\":2,\"name\":\"X\"}",
            "number",
            "range",
        ),
        (
            "{\"act\":\"put_unit\",\"caller\":7,\"number\":4000000001,\"id\":2,\"name\":\"X\"}",
            "number",
            "range",
        ),
        (
            "{\"act\":\"put_unit\",\"caller\":7,\"number\":1,\"id\":18446744073709551616,\"name\":\"X\"}",
            "id",
            "type",
        ),
        (
            "{\"act\":\"put_unit\",\"caller\":7,\"number\":1.0,\"id\":2,\"name\":\"X\"}",
            "number",
            "type",
        ),
        (
            "{\"act\":\"put_unit\",\"caller\":7,\"number\":1,\"id\":-2,\"name\":\"X\"}",
            "id",
            "range",
        ),
        (
            "{\"act\":\"put_unit\",\"caller\":7,\"number\":1,\"id\":2,\"name\":null}",
            "name",
            "type",
        ),
        (
            "{\"act\":\"put_unit\",\"caller\":7,\"number\":1,\"id\":2,\"name\":\"X\",\"note\":1}",
            "other",
            "unknown",
        ),
        (
            "{\"act\":\"put_group\",\"caller\":7,\"number\":1,\"id\":2,\"name\":\"X\",\"from\":\"2025-01-06T08:00Z\",\"to\":\"2100-01-01T00:01Z\",\"step\":60,\"tree\":{\"leaf\":{\"duration\":60,\"effort\":1}}}",
            "to",
            "moment",
        ),
        (
            "{\"act\":\"put_group\",\"caller\":7,\"number\":1,\"id\":2,\"name\":\"X\",\"from\":\"2025-01-06T08:00Z\",\"to\":\"2025-01-06T12:00Z\",\"step\":60,\"tree\":{}}",
            "tree",
            "missing",
        ),
        // where a name is repeated, its last value stands
        (
            "{\"act\":\"put_unit\",\"caller\":7,\"number\":1,\"id\":2,\"name\":\"X\",\"id\":\"2\"}",
            "id",
            "type",
        ),
    ];
    breaks(&rt, rt.alloc(), &cases)
}

#[test]
fn a_body_of_many_brackets(rt: HostRuntime) -> Result<(), Fail> {
    let alloc = rt.alloc();
    let mut body = String::new(alloc);
    for _ in 0..200 {
        body.push('[')?;
    }
    for _ in 0..200 {
        body.push(']')?;
    }
    breaks(&rt, alloc, &[(body.as_str(), "body", "syntax")])
}

#[test]
fn a_refused_body_takes_no_number(rt: HostRuntime) -> Result<(), Fail> {
    let done = "{\"done\":\"put\",\"repeated\":false,\"revision\":1}";
    let exchanges = [
        (
            "POST /changes",
            "{\"act\":\"put_unit\",\"caller\":7,\"number\":1,\"id\":2}",
            "400 Bad Request",
            "{\"error\":\"bad_body\",\"field\":\"name\",\"rule\":\"missing\"}",
        ),
        // the query comes before the body
        (
            "POST /changes?x",
            "",
            "400 Bad Request",
            "{\"error\":\"bad_parameter\",\"parameter\":\"other\"}",
        ),
        (
            "POST /changes?",
            "{\"act\":\"put_unit\",\"caller\":7,\"number\":1,\"id\":2,\"name\":\"X\",\"id\":3}",
            OK,
            done,
        ),
        (
            "POST /changes?&&",
            "{\"act\":\"put_unit\",\"caller\":7,\"number\":1,\"id\":3,\"name\":\"X\"}",
            OK,
            "{\"done\":\"put\",\"repeated\":true,\"revision\":1}",
        ),
    ];
    holds(&rt, rt.alloc(), TRIAL, &exchanges)
}
