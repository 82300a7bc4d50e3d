//! A tree of three levels, and a booking that ends where the horizon ends.
use crate::runs::{Exchange, OK, TRIAL, holds};
use std::test::Fail;

const POST: &str = "POST /changes";

const PUT_AT_1: &str = "{\"done\":\"put\",\"repeated\":false,\"revision\":1}";

const PUT_AT_2: &str = "{\"done\":\"put\",\"repeated\":false,\"revision\":2}";

const PUT_AT_3: &str = "{\"done\":\"put\",\"repeated\":false,\"revision\":3}";

const PUT_AT_4: &str = "{\"done\":\"put\",\"repeated\":false,\"revision\":4}";

/// Any of one person, or of two who are both needed: one of them again is one of two. Each leaf asks for whom it may have.
const THREE_LEVELS: [Exchange<'static>; 4] = [
    (
        POST,
        "{\"act\":\"put_group\",\"caller\":7,\"number\":1,\"id\":2,\"name\":\"X\",\"from\":\"2025-01-06T10:00Z\",\"to\":\"2025-01-06T11:00Z\",\"step\":60,\"tree\":{\"any\":[{\"leaf\":{\"duration\":60,\"effort\":1,\"required\":[1]}},{\"all\":[{\"leaf\":{\"duration\":60,\"effort\":1,\"required\":[2]}},{\"any\":[{\"leaf\":{\"duration\":60,\"effort\":1,\"required\":[3]}},{\"leaf\":{\"duration\":60,\"effort\":1,\"required\":[1]}}]}]}]}}",
        OK,
        PUT_AT_1,
    ),
    (
        "GET /groups/2/rows",
        "",
        OK,
        "{\"end\":true,\"next\":\"1.28935960.-.2.-.1\",\"revision\":1,\"rows\":[[\"2025-01-06T10:00Z\",1,null,null,null],[\"2025-01-06T10:00Z\",null,2,3,null],[\"2025-01-06T10:00Z\",null,2,null,1]]}",
    ),
    (
        POST,
        "{\"act\":\"book_group\",\"caller\":7,\"number\":2,\"group\":2,\"start\":\"2025-01-06T10:00Z\",\"picks\":[null,2,null,1]}",
        OK,
        "{\"bookings\":[1,2],\"done\":\"booked\",\"effort_minutes\":120,\"repeated\":false,\"revision\":2}",
    ),
    (
        "GET /groups/1/rows?from=2025-01-06T10:00Z&to=2025-01-06T11:00Z",
        "",
        OK,
        "{\"end\":true,\"next\":\"2.28935960.3\",\"revision\":2,\"rows\":[[\"2025-01-06T10:00Z\",3]]}",
    ),
];

const END_OF_THE_HORIZON: [Exchange<'static>; 7] = [
    (
        POST,
        "{\"act\":\"put_calendar\",\"caller\":7,\"number\":1,\"id\":3,\"name\":\"X\",\"zone\":1}",
        OK,
        PUT_AT_1,
    ),
    (
        POST,
        "{\"act\":\"put_work\",\"caller\":7,\"number\":2,\"calendar\":3,\"weekday\":3,\"from\":1380,\"to\":1440,\"capacity\":1}",
        OK,
        PUT_AT_2,
    ),
    (
        POST,
        "{\"act\":\"put_resource\",\"caller\":7,\"number\":3,\"id\":4,\"name\":\"X\",\"kind\":\"generic\",\"calendar\":3,\"unit\":1,\"site\":1}",
        OK,
        PUT_AT_3,
    ),
    (
        POST,
        "{\"act\":\"put_group\",\"caller\":7,\"number\":4,\"id\":2,\"name\":\"X\",\"from\":\"2099-12-31T23:00Z\",\"to\":\"2100-01-01T00:00Z\",\"step\":60,\"tree\":{\"leaf\":{\"duration\":60,\"effort\":1,\"required\":[4]}}}",
        OK,
        PUT_AT_4,
    ),
    (
        POST,
        "{\"act\":\"book_group\",\"caller\":7,\"number\":5,\"group\":2,\"start\":\"2099-12-31T23:00Z\",\"picks\":[4]}",
        OK,
        "{\"bookings\":[1],\"done\":\"booked\",\"effort_minutes\":60,\"repeated\":false,\"revision\":5}",
    ),
    (
        POST,
        "{\"act\":\"put_group\",\"caller\":7,\"number\":6,\"id\":3,\"name\":\"X\",\"from\":\"2099-12-31T23:00Z\",\"to\":\"2100-01-01T00:01Z\",\"step\":60,\"tree\":{\"leaf\":{\"duration\":60,\"effort\":1}}}",
        "400 Bad Request",
        "{\"error\":\"bad_body\",\"field\":\"to\",\"rule\":\"moment\"}",
    ),
    (
        POST,
        "{\"act\":\"put_group\",\"caller\":7,\"number\":6,\"id\":3,\"name\":\"X\",\"from\":\"2099-12-31T23:00Z\",\"to\":\"2099-12-31T23:00Z\",\"step\":60,\"tree\":{\"leaf\":{\"duration\":60,\"effort\":1}}}",
        "422 Unprocessable Content",
        "{\"field\":\"to\",\"refused\":\"bad_field\",\"revision\":5}",
    ),
];

#[test]
fn a_tree_of_three_levels(rt: HostRuntime) -> Result<(), Fail> {
    holds(&rt, rt.alloc(), TRIAL, &THREE_LEVELS)
}

#[test]
fn a_booking_at_the_end_of_the_horizon(rt: HostRuntime) -> Result<(), Fail> {
    holds(&rt, rt.alloc(), TRIAL, &END_OF_THE_HORIZON)
}
