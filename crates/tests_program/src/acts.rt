//! Each act of a body: refused, done, and asked for again.
use crate::runs::{OK, TRIAL, gives, request, response};
use std::alloc::Global;
use std::process::Abort;
use std::test::Fail;

/// An act with its fields as they are done, with fields for which it is refused, and the response to those: the status, and the body
/// before and behind the revision.
type Case<'a> = (&'a str, &'a str, &'a str, (&'a str, &'a str, &'a str));

/// The body of a change of caller 7.
fn body(alloc: Global, number: u32, act: &str, fields: &str) -> Result<String, Fail> {
    Ok(format!(in alloc; "{{\"act\":\"{act}\",\"caller\":7,\"number\":{number},{fields}}}")?)
}

/// The rest of the answer to what was done, in front of whether it is repeated.
fn done(act: &str) -> &'static str {
    match act {
        "book_group" => "{\"bookings\":[1],\"done\":\"booked\",\"effort_minutes\":60,",
        "move_group" => "{\"bookings\":[2],\"done\":\"booked\",\"effort_minutes\":60,",
        "cancel_group" => "{\"count\":1,\"done\":\"cancelled\",\"effort_minutes\":60,",
        _ => {
            if act.starts_with("put_") {
                "{\"done\":\"put\","
            } else {
                "{\"done\":\"removed\","
            }
        }
    }
}

/// Adds the three exchanges of a case: the change is refused, done, and told again.
fn add(
    alloc: Global,
    input: &mut String,
    output: &mut String,
    number: u32,
    case: &Case<'_>,
) -> Result<(), Fail> {
    let (act, good, bad, (status, before, behind)) = *case;
    let revision = number.saturating_sub(1);
    let refused = body(alloc, number, act, bad)?;
    input.push_str(request(alloc, "POST /changes", refused.as_str())?.as_str())?;
    let why = format!(in alloc; "{before}{revision}{behind}")?;
    output.push_str(response(alloc, status, why.as_str())?.as_str())?;
    let accepted = body(alloc, number, act, good)?;
    let front = done(act);
    for repeated in [false, true] {
        input.push_str(request(alloc, "POST /changes", accepted.as_str())?.as_str())?;
        let told = format!(in alloc; "{front}\"repeated\":{repeated},\"revision\":{number}}}")?;
        output.push_str(response(alloc, OK, told.as_str())?.as_str())?;
    }
    Ok(())
}

const BAD_NAME: (&str, &str, &str) = (
    "422 Unprocessable Content",
    "{\"field\":\"name\",\"refused\":\"bad_field\",\"revision\":",
    "}",
);

const BAD_TO: (&str, &str, &str) = (
    "422 Unprocessable Content",
    "{\"field\":\"to\",\"refused\":\"bad_field\",\"revision\":",
    "}",
);

const NO_UNIT: (&str, &str, &str) = (
    "404 Not Found",
    "{\"key\":[99,0,0],\"refused\":\"unknown\",\"revision\":",
    ",\"table\":\"unit\"}",
);

/// What is not there: the front of an answer, up to the revision.
const UNKNOWN: &str = "{\"key\":[99,0,0],\"refused\":\"unknown\",\"revision\":";

const GROUP_2: &str =
    "\"id\":2,\"name\":\"Visit\",\"from\":\"2025-01-06T08:00Z\",\"to\":\"2025-01-06T12:00Z\",\"step\":60,\"tree\":{\"leaf\":{\"duration\":60,\"effort\":1}}";

const EMPTY_GROUP: &str =
    "\"id\":2,\"name\":\"Visit\",\"from\":\"2025-01-06T08:00Z\",\"to\":\"2025-01-06T08:00Z\",\"step\":60,\"tree\":{\"leaf\":{\"duration\":60,\"effort\":1}}";

const CASES: [Case<'static>; 37] = [
    (
        "put_zone",
        "\"id\":2,\"name\":\"X\",\"shifts\":[[\"2000-01-01T00:00Z\",60]]",
        "\"id\":2,\"name\":\"\",\"shifts\":[[\"2000-01-01T00:00Z\",60]]",
        BAD_NAME,
    ),
    (
        "put_calendar",
        "\"id\":3,\"name\":\"X\",\"zone\":2",
        "\"id\":3,\"name\":\"X\",\"zone\":99",
        ("404 Not Found", UNKNOWN, ",\"table\":\"zone\"}"),
    ),
    (
        "put_work",
        "\"calendar\":3,\"weekday\":1,\"from\":480,\"to\":720,\"capacity\":1",
        "\"calendar\":3,\"weekday\":1,\"from\":480,\"to\":480,\"capacity\":1",
        BAD_TO,
    ),
    (
        "put_break",
        "\"calendar\":3,\"weekday\":1,\"from\":500,\"to\":510",
        "\"calendar\":3,\"weekday\":1,\"from\":500,\"to\":1441",
        BAD_TO,
    ),
    (
        "put_day",
        "\"calendar\":3,\"day\":\"2025-01-07\",\"from\":0,\"to\":60,\"capacity\":0",
        "\"calendar\":99,\"day\":\"2025-01-07\",\"from\":0,\"to\":60,\"capacity\":0",
        ("404 Not Found", UNKNOWN, ",\"table\":\"calendar\"}"),
    ),
    (
        "put_off",
        "\"resource\":1,\"from\":\"2025-02-01T00:00Z\",\"to\":\"2025-02-02T00:00Z\"",
        "\"resource\":1,\"from\":\"2025-02-01T00:00Z\",\"to\":\"2025-02-01T00:00Z\"",
        BAD_TO,
    ),
    (
        "put_unit",
        "\"id\":2,\"name\":\"X\"",
        "\"id\":2,\"name\":\"\"",
        BAD_NAME,
    ),
    (
        "put_site",
        "\"id\":2,\"name\":\"X\"",
        "\"id\":2,\"name\":\"\"",
        BAD_NAME,
    ),
    (
        "put_role",
        "\"id\":1,\"name\":\"X\"",
        "\"id\":1,\"name\":\"\"",
        BAD_NAME,
    ),
    (
        "put_characteristic",
        "\"id\":1,\"name\":\"X\"",
        "\"id\":1,\"name\":\"\"",
        BAD_NAME,
    ),
    (
        "put_territory",
        "\"id\":1,\"name\":\"X\"",
        "\"id\":1,\"name\":\"\"",
        BAD_NAME,
    ),
    (
        "put_resource",
        "\"id\":10,\"name\":\"X\",\"kind\":\"crew\",\"calendar\":null,\"unit\":2,\"site\":2",
        "\"id\":10,\"name\":\"X\",\"kind\":\"crew\",\"calendar\":null,\"unit\":99,\"site\":2",
        NO_UNIT,
    ),
    (
        "put_has_role",
        "\"resource\":1,\"what\":1",
        "\"resource\":99,\"what\":1",
        ("404 Not Found", UNKNOWN, ",\"table\":\"resource\"}"),
    ),
    (
        "put_has_characteristic",
        "\"resource\":1,\"what\":1,\"rating\":5",
        "\"resource\":1,\"what\":1,\"rating\":11",
        (
            "422 Unprocessable Content",
            "{\"field\":\"rating\",\"refused\":\"bad_field\",\"revision\":",
            "}",
        ),
    ),
    (
        "put_has_territory",
        "\"resource\":1,\"what\":1",
        "\"resource\":1,\"what\":99",
        ("404 Not Found", UNKNOWN, ",\"table\":\"territory\"}"),
    ),
    (
        "put_member",
        "\"group\":10,\"member\":1,\"from\":\"2025-03-01T00:00Z\",\"to\":\"2025-03-02T00:00Z\"",
        "\"group\":1,\"member\":1,\"from\":\"2025-03-01T00:00Z\",\"to\":\"2025-03-02T00:00Z\"",
        (
            "422 Unprocessable Content",
            "{\"field\":\"group\",\"refused\":\"bad_field\",\"revision\":",
            "}",
        ),
    ),
    ("put_group", GROUP_2, EMPTY_GROUP, BAD_TO),
    (
        "book_group",
        "\"group\":2,\"start\":\"2025-01-06T09:00Z\",\"picks\":[1]",
        "\"group\":2,\"start\":\"2025-01-06T09:00Z\",\"picks\":[3]",
        (
            "409 Conflict",
            "{\"asked\":1,\"booking\":null,\"capacity\":0,\"minute\":\"2025-01-06T09:00Z\",\"refused\":\"conflict\",\"resource\":3,\"revision\":",
            ",\"standing\":0}",
        ),
    ),
    (
        "move_group",
        "\"group\":2,\"start\":\"2025-01-06T10:00Z\",\"picks\":[2]",
        "\"group\":2,\"start\":\"2025-01-06T10:30Z\",\"picks\":[2]",
        (
            "409 Conflict",
            "{\"refused\":\"off_grid\",\"revision\":",
            ",\"start\":\"2025-01-06T10:30Z\"}",
        ),
    ),
    (
        "cancel_group",
        "\"group\":2",
        "\"group\":1",
        (
            "409 Conflict",
            "{\"group\":1,\"refused\":\"not_booked\",\"revision\":",
            "}",
        ),
    ),
    (
        "drop_group",
        "\"group\":2",
        "\"group\":99",
        ("404 Not Found", UNKNOWN, ",\"table\":\"group\"}"),
    ),
    (
        "remove_member",
        "\"group\":10,\"member\":1,\"from\":\"2025-03-01T00:00Z\"",
        "\"group\":10,\"member\":1,\"from\":\"2025-03-01T00:01Z\"",
        (
            "404 Not Found",
            "{\"key\":[10,1,29013121],\"refused\":\"unknown\",\"revision\":",
            ",\"table\":\"member\"}",
        ),
    ),
    (
        "remove_has_territory",
        "\"resource\":1,\"what\":1",
        "\"resource\":1,\"what\":2",
        (
            "404 Not Found",
            "{\"key\":[1,2,0],\"refused\":\"unknown\",\"revision\":",
            ",\"table\":\"has_territory\"}",
        ),
    ),
    (
        "remove_has_characteristic",
        "\"resource\":1,\"what\":1",
        "\"resource\":1,\"what\":2",
        (
            "404 Not Found",
            "{\"key\":[1,2,0],\"refused\":\"unknown\",\"revision\":",
            ",\"table\":\"has_characteristic\"}",
        ),
    ),
    (
        "remove_has_role",
        "\"resource\":1,\"what\":1",
        "\"resource\":1,\"what\":2",
        (
            "404 Not Found",
            "{\"key\":[1,2,0],\"refused\":\"unknown\",\"revision\":",
            ",\"table\":\"has_role\"}",
        ),
    ),
    (
        "remove_resource",
        "\"id\":10",
        "\"id\":99",
        ("404 Not Found", UNKNOWN, ",\"table\":\"resource\"}"),
    ),
    (
        "remove_territory",
        "\"id\":1",
        "\"id\":99",
        ("404 Not Found", UNKNOWN, ",\"table\":\"territory\"}"),
    ),
    (
        "remove_characteristic",
        "\"id\":1",
        "\"id\":99",
        ("404 Not Found", UNKNOWN, ",\"table\":\"characteristic\"}"),
    ),
    (
        "remove_role",
        "\"id\":1",
        "\"id\":99",
        ("404 Not Found", UNKNOWN, ",\"table\":\"role\"}"),
    ),
    (
        "remove_site",
        "\"id\":2",
        "\"id\":1",
        (
            "409 Conflict",
            "{\"by_key\":[1,0,0],\"by_table\":\"resource\",\"key\":[1,0,0],\"refused\":\"in_use\",\"revision\":",
            ",\"table\":\"site\"}",
        ),
    ),
    (
        "remove_unit",
        "\"id\":2",
        "\"id\":1",
        (
            "409 Conflict",
            "{\"by_key\":[1,0,0],\"by_table\":\"resource\",\"key\":[1,0,0],\"refused\":\"in_use\",\"revision\":",
            ",\"table\":\"unit\"}",
        ),
    ),
    (
        "remove_off",
        "\"resource\":1,\"from\":\"2025-02-01T00:00Z\"",
        "\"resource\":2,\"from\":\"2025-02-01T00:00Z\"",
        (
            "404 Not Found",
            "{\"key\":[2,28972800,0],\"refused\":\"unknown\",\"revision\":",
            ",\"table\":\"off\"}",
        ),
    ),
    (
        "remove_day",
        "\"calendar\":3,\"day\":\"2025-01-07\",\"from\":0",
        "\"calendar\":3,\"day\":\"2025-01-08\",\"from\":0",
        (
            "404 Not Found",
            "{\"key\":[3,20096,0],\"refused\":\"unknown\",\"revision\":",
            ",\"table\":\"day\"}",
        ),
    ),
    (
        "remove_break",
        "\"calendar\":3,\"weekday\":1,\"from\":500",
        "\"calendar\":3,\"weekday\":1,\"from\":501",
        (
            "404 Not Found",
            "{\"key\":[3,1,501],\"refused\":\"unknown\",\"revision\":",
            ",\"table\":\"break\"}",
        ),
    ),
    (
        "remove_work",
        "\"calendar\":3,\"weekday\":1,\"from\":480",
        "\"calendar\":3,\"weekday\":1,\"from\":481",
        (
            "404 Not Found",
            "{\"key\":[3,1,481],\"refused\":\"unknown\",\"revision\":",
            ",\"table\":\"work\"}",
        ),
    ),
    (
        "remove_calendar",
        "\"id\":3",
        "\"id\":1",
        (
            "409 Conflict",
            "{\"by_key\":[1,0,480],\"by_table\":\"work\",\"key\":[1,0,0],\"refused\":\"in_use\",\"revision\":",
            ",\"table\":\"calendar\"}",
        ),
    ),
    (
        "remove_zone",
        "\"id\":2",
        "\"id\":1",
        (
            "409 Conflict",
            "{\"by_key\":[1,0,0],\"by_table\":\"calendar\",\"key\":[1,0,0],\"refused\":\"in_use\",\"revision\":",
            ",\"table\":\"zone\"}",
        ),
    ),
];

#[test]
fn each_act_is_refused_done_and_told_again(rt: HostRuntime) -> Result<(), Fail> {
    let alloc = rt.alloc();
    let mut input = String::new(alloc);
    let mut output = String::new(alloc);
    let mut number = 0u32;
    for case in &CASES {
        number = number.saturating_add(1);
        add(alloc, &mut input, &mut output, number, case)?;
    }
    gives(
        &rt,
        alloc,
        TRIAL,
        input.as_bytes(),
        4096,
        0,
        output.as_bytes(),
    )
}
