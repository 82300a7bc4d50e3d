//! Changes of a schedule over one connection, and what is answered.
use crate::runs::{EMPTY, Exchange, OK, TRIAL, holds};
use std::test::Fail;

const POST: &str = "POST /changes";

const CONFLICT: &str = "409 Conflict";

const PUT_AT_1: &str = "{\"done\":\"put\",\"repeated\":false,\"revision\":1}";

const PUT_AT_2: &str = "{\"done\":\"put\",\"repeated\":false,\"revision\":2}";

const PUT_AT_3: &str = "{\"done\":\"put\",\"repeated\":false,\"revision\":3}";

const NO_ROWS_AT_1: &str = "{\"end\":true,\"next\":null,\"revision\":1,\"rows\":[]}";

const FIRST_BOOKED_AT_1: &str =
    "{\"bookings\":[1],\"done\":\"booked\",\"effort_minutes\":60,\"repeated\":false,\"revision\":1}";

const NOTHING_FITS: [Exchange<'static>; 3] = [
    (
        POST,
        "{\"act\":\"put_group\",\"caller\":7,\"number\":1,\"id\":2,\"name\":\"Visit\",\"from\":\"2025-01-06T08:00Z\",\"to\":\"2025-01-06T08:45Z\",\"step\":60,\"tree\":{\"leaf\":{\"duration\":60,\"effort\":1}}}",
        OK,
        PUT_AT_1,
    ),
    ("GET /groups/2/rows", "", OK, NO_ROWS_AT_1),
    (
        "GET /groups/1/rows?from=2025-01-06T12:00Z",
        "",
        OK,
        NO_ROWS_AT_1,
    ),
];

const TOUCHING_ENDS: [Exchange<'static>; 3] = [
    (
        POST,
        "{\"act\":\"put_group\",\"caller\":7,\"number\":1,\"id\":2,\"name\":\"Visit\",\"from\":\"2025-01-06T08:00Z\",\"to\":\"2025-01-06T12:00Z\",\"step\":60,\"tree\":{\"leaf\":{\"duration\":60,\"effort\":1}}}",
        OK,
        PUT_AT_1,
    ),
    (
        POST,
        "{\"act\":\"book_group\",\"caller\":7,\"number\":2,\"group\":1,\"start\":\"2025-01-06T08:00Z\",\"picks\":[1]}",
        OK,
        "{\"bookings\":[1],\"done\":\"booked\",\"effort_minutes\":60,\"repeated\":false,\"revision\":2}",
    ),
    (
        POST,
        "{\"act\":\"book_group\",\"caller\":7,\"number\":3,\"group\":2,\"start\":\"2025-01-06T09:00Z\",\"picks\":[1]}",
        OK,
        "{\"bookings\":[2],\"done\":\"booked\",\"effort_minutes\":60,\"repeated\":false,\"revision\":3}",
    ),
];

/// A leaf that begins an hour after its group's start is booked for that hour.
const LATER_LEAF: [Exchange<'static>; 4] = [
    (
        POST,
        "{\"act\":\"put_group\",\"caller\":7,\"number\":1,\"id\":2,\"name\":\"Visit\",\"from\":\"2025-01-06T08:00Z\",\"to\":\"2025-01-06T12:00Z\",\"step\":60,\"tree\":{\"leaf\":{\"duration\":60,\"offset\":60,\"effort\":1}}}",
        OK,
        PUT_AT_1,
    ),
    (
        "GET /groups/2/rows",
        "",
        OK,
        "{\"end\":true,\"next\":\"1.28935960.3\",\"revision\":1,\"rows\":[[\"2025-01-06T08:00Z\",1],[\"2025-01-06T08:00Z\",2],[\"2025-01-06T09:00Z\",1],[\"2025-01-06T09:00Z\",2],[\"2025-01-06T09:00Z\",3],[\"2025-01-06T10:00Z\",1],[\"2025-01-06T10:00Z\",2],[\"2025-01-06T10:00Z\",3]]}",
    ),
    (
        POST,
        "{\"act\":\"book_group\",\"caller\":7,\"number\":2,\"group\":2,\"start\":\"2025-01-06T09:00Z\",\"picks\":[3]}",
        OK,
        "{\"bookings\":[1],\"done\":\"booked\",\"effort_minutes\":60,\"repeated\":false,\"revision\":2}",
    ),
    (
        "GET /groups/1/rows?from=2025-01-06T10:00Z&to=2025-01-06T11:00Z",
        "",
        OK,
        "{\"end\":true,\"next\":\"2.28935960.2\",\"revision\":2,\"rows\":[[\"2025-01-06T10:00Z\",1],[\"2025-01-06T10:00Z\",2]]}",
    ),
];

const CONFLICT_WITH_A_BOOKING: [Exchange<'static>; 4] = [
    (
        POST,
        "{\"act\":\"book_group\",\"caller\":7,\"number\":1,\"group\":1,\"start\":\"2025-01-06T08:00Z\",\"picks\":[1]}",
        OK,
        FIRST_BOOKED_AT_1,
    ),
    (
        POST,
        "{\"act\":\"put_group\",\"caller\":7,\"number\":2,\"id\":2,\"name\":\"Visit\",\"from\":\"2025-01-06T08:00Z\",\"to\":\"2025-01-06T12:00Z\",\"step\":30,\"tree\":{\"leaf\":{\"duration\":60,\"effort\":1}}}",
        OK,
        PUT_AT_2,
    ),
    (
        POST,
        "{\"act\":\"book_group\",\"caller\":7,\"group\":2,\"number\":3,\"picks\":[1],\"start\":\"2025-01-06T08:30Z\"}",
        CONFLICT,
        "{\"asked\":1,\"booking\":1,\"capacity\":1,\"minute\":\"2025-01-06T08:30Z\",\"refused\":\"conflict\",\"resource\":1,\"revision\":2,\"standing\":1}",
    ),
    (
        POST,
        "{\"act\":\"book_group\",\"caller\":7,\"group\":2,\"number\":3,\"picks\":[1],\"start\":\"2025-01-06T09:00Z\"}",
        OK,
        "{\"bookings\":[2],\"done\":\"booked\",\"effort_minutes\":60,\"repeated\":false,\"revision\":3}",
    ),
];

const REFUSED_BOOKINGS: [Exchange<'static>; 6] = [
    (
        POST,
        "{\"act\":\"book_group\",\"caller\":7,\"number\":1,\"group\":1,\"start\":\"2025-01-06T09:00Z\",\"picks\":[3]}",
        CONFLICT,
        "{\"asked\":1,\"booking\":null,\"capacity\":0,\"minute\":\"2025-01-06T09:00Z\",\"refused\":\"conflict\",\"resource\":3,\"revision\":0,\"standing\":0}",
    ),
    (
        POST,
        "{\"act\":\"book_group\",\"caller\":7,\"number\":1,\"group\":1,\"start\":\"2025-01-06T08:30Z\",\"picks\":[1]}",
        CONFLICT,
        "{\"refused\":\"off_grid\",\"revision\":0,\"start\":\"2025-01-06T08:30Z\"}",
    ),
    (
        POST,
        "{\"act\":\"book_group\",\"caller\":7,\"number\":1,\"group\":1,\"start\":\"2025-01-06T09:00Z\",\"picks\":[1,2]}",
        CONFLICT,
        "{\"leaf\":1,\"refused\":\"bad_shape\",\"revision\":0}",
    ),
    (
        POST,
        "{\"act\":\"book_group\",\"caller\":7,\"number\":1,\"group\":1,\"start\":\"2025-01-06T09:00Z\",\"picks\":[null]}",
        CONFLICT,
        "{\"leaf\":0,\"refused\":\"bad_shape\",\"revision\":0}",
    ),
    (
        POST,
        "{\"act\":\"book_group\",\"caller\":7,\"number\":1,\"group\":1,\"start\":\"2025-01-06T09:00Z\",\"picks\":[99]}",
        "404 Not Found",
        "{\"key\":[99,0,0],\"refused\":\"unknown\",\"revision\":0,\"table\":\"resource\"}",
    ),
    (
        POST,
        "{\"act\":\"put_group\",\"caller\":7,\"number\":1,\"id\":2,\"name\":\"X\",\"from\":\"2025-01-06T08:00Z\",\"to\":\"2025-01-06T08:00Z\",\"step\":60,\"tree\":{\"leaf\":{\"duration\":60,\"effort\":1}}}",
        "422 Unprocessable Content",
        "{\"field\":\"to\",\"refused\":\"bad_field\",\"revision\":0}",
    ),
];

const CANCELLED_ONCE: [Exchange<'static>; 3] = [
    (
        POST,
        "{\"act\":\"book_group\",\"caller\":7,\"number\":1,\"group\":1,\"start\":\"2025-01-06T08:00Z\",\"picks\":[1]}",
        OK,
        FIRST_BOOKED_AT_1,
    ),
    (
        POST,
        "{\"act\":\"cancel_group\",\"caller\":7,\"number\":2,\"group\":1}",
        OK,
        "{\"count\":1,\"done\":\"cancelled\",\"effort_minutes\":60,\"repeated\":false,\"revision\":2}",
    ),
    (
        POST,
        "{\"act\":\"cancel_group\",\"caller\":7,\"number\":3,\"group\":1}",
        CONFLICT,
        "{\"group\":1,\"refused\":\"not_booked\",\"revision\":2}",
    ),
];

const UNIT_2: &str = "{\"act\":\"put_unit\",\"caller\":7,\"number\":1,\"id\":2,\"name\":\"X\"}";

const UNIT_3: &str = "{\"act\":\"put_unit\",\"caller\":7,\"number\":2,\"id\":3,\"name\":\"X\"}";

const SECOND_FOUR_AT_2: &str =
    "{\"end\":false,\"next\":\"2.28936020.1\",\"revision\":2,\"rows\":[[\"2025-01-06T10:00Z\",1],[\"2025-01-06T10:00Z\",2],[\"2025-01-06T10:00Z\",3],[\"2025-01-06T11:00Z\",1]]}";

const OLD_CURSORS: [Exchange<'static>; 7] = [
    (POST, UNIT_2, OK, PUT_AT_1),
    (POST, UNIT_3, OK, PUT_AT_2),
    (
        "GET /groups/1/rows?after=0.28935900.2",
        "",
        CONFLICT,
        "{\"now\":2,\"refused\":\"moved\",\"revision\":2,\"shown\":0}",
    ),
    (
        "GET /groups/1/rows?at=latest&limit=4&after=0.28935900.2",
        "",
        OK,
        SECOND_FOUR_AT_2,
    ),
    (
        "GET /groups/1/rows?limit=4&after=2.28935900.3",
        "",
        OK,
        SECOND_FOUR_AT_2,
    ),
    (
        "GET /groups/1/rows?limit=4&after=2.28935901.9",
        "",
        OK,
        SECOND_FOUR_AT_2,
    ),
    (
        "GET /groups/1/rows?after=2.028935900.3",
        "",
        "400 Bad Request",
        "{\"error\":\"bad_cursor\"}",
    ),
];

const BOOKS: &str =
    "{\"act\":\"book_group\",\"caller\":7,\"number\":4,\"group\":1,\"start\":\"2025-01-06T08:00Z\",\"picks\":[1]}";

const REPEATS: [Exchange<'static>; 8] = [
    (POST, UNIT_2, OK, PUT_AT_1),
    (POST, UNIT_3, OK, PUT_AT_2),
    (
        POST,
        "{\"act\":\"put_unit\",\"caller\":7,\"number\":3,\"id\":4,\"name\":\"X\"}",
        OK,
        PUT_AT_3,
    ),
    (
        POST,
        BOOKS,
        OK,
        "{\"bookings\":[1],\"done\":\"booked\",\"effort_minutes\":60,\"repeated\":false,\"revision\":4}",
    ),
    (
        POST,
        BOOKS,
        OK,
        "{\"bookings\":[1],\"done\":\"booked\",\"effort_minutes\":60,\"repeated\":true,\"revision\":4}",
    ),
    (
        POST,
        UNIT_3,
        CONFLICT,
        "{\"last\":4,\"refused\":\"old_number\",\"revision\":4}",
    ),
    (
        POST,
        "{\"act\":\"cancel_group\",\"caller\":7,\"number\":6,\"group\":1}",
        CONFLICT,
        "{\"last\":4,\"refused\":\"skipped_number\",\"revision\":4}",
    ),
    // one booking stands
    (
        POST,
        "{\"act\":\"cancel_group\",\"caller\":7,\"number\":5,\"group\":1}",
        OK,
        "{\"count\":1,\"done\":\"cancelled\",\"effort_minutes\":60,\"repeated\":false,\"revision\":5}",
    ),
];

const FROM_NOTHING: [Exchange<'static>; 9] = [
    (
        POST,
        "{\"act\":\"put_zone\",\"caller\":7,\"number\":1,\"id\":1,\"name\":\"UTC\",\"shifts\":[[\"2000-01-01T00:00Z\",0]]}",
        OK,
        PUT_AT_1,
    ),
    (
        POST,
        "{\"act\":\"put_calendar\",\"caller\":7,\"number\":2,\"id\":1,\"name\":\"Day\",\"zone\":1}",
        OK,
        PUT_AT_2,
    ),
    (
        POST,
        "{\"act\":\"put_work\",\"caller\":7,\"number\":3,\"calendar\":1,\"weekday\":0,\"from\":480,\"to\":720,\"capacity\":1}",
        OK,
        PUT_AT_3,
    ),
    (
        POST,
        "{\"act\":\"put_unit\",\"caller\":7,\"number\":4,\"id\":1,\"name\":\"Main\"}",
        OK,
        "{\"done\":\"put\",\"repeated\":false,\"revision\":4}",
    ),
    (
        POST,
        "{\"act\":\"put_site\",\"caller\":7,\"number\":5,\"id\":1,\"name\":\"Depot\"}",
        OK,
        "{\"done\":\"put\",\"repeated\":false,\"revision\":5}",
    ),
    (
        POST,
        "{\"act\":\"put_resource\",\"caller\":7,\"number\":6,\"id\":1,\"name\":\"Ann\",\"kind\":\"generic\",\"calendar\":1,\"unit\":1,\"site\":1}",
        OK,
        "{\"done\":\"put\",\"repeated\":false,\"revision\":6}",
    ),
    (
        POST,
        "{\"act\":\"put_group\",\"caller\":7,\"number\":7,\"id\":1,\"name\":\"Visit\",\"from\":\"2025-01-06T08:00Z\",\"to\":\"2025-01-06T12:00Z\",\"step\":60,\"tree\":{\"leaf\":{\"duration\":60,\"effort\":1}}}",
        OK,
        "{\"done\":\"put\",\"repeated\":false,\"revision\":7}",
    ),
    (
        "GET /groups/1/rows",
        "",
        OK,
        "{\"end\":true,\"next\":\"7.28936020.1\",\"revision\":7,\"rows\":[[\"2025-01-06T08:00Z\",1],[\"2025-01-06T09:00Z\",1],[\"2025-01-06T10:00Z\",1],[\"2025-01-06T11:00Z\",1]]}",
    ),
    ("GET /revision", "", OK, "{\"revision\":7}"),
];

const BOTH_ENTRIES: &str =
    "{\"entries\":[{\"act\":\"put_group\",\"caller\":7,\"number\":1,\"pass\":0,\"revision\":1},{\"act\":\"book_group\",\"caller\":7,\"number\":2,\"pass\":0,\"revision\":2}],\"revision\":2}";

/// The journal above a revision.
const JOURNAL: [Exchange<'static>; 7] = [
    ("GET /journal", "", OK, "{\"entries\":[],\"revision\":0}"),
    (
        POST,
        "{\"act\":\"put_group\",\"caller\":7,\"number\":1,\"id\":2,\"name\":\"Visit\",\"from\":\"2025-01-06T08:00Z\",\"to\":\"2025-01-06T12:00Z\",\"step\":60,\"tree\":{\"leaf\":{\"duration\":60,\"effort\":1}}}",
        OK,
        PUT_AT_1,
    ),
    (
        POST,
        "{\"act\":\"book_group\",\"caller\":7,\"number\":2,\"group\":1,\"start\":\"2025-01-06T08:00Z\",\"picks\":[1]}",
        OK,
        "{\"bookings\":[1],\"done\":\"booked\",\"effort_minutes\":60,\"repeated\":false,\"revision\":2}",
    ),
    ("GET /journal", "", OK, BOTH_ENTRIES),
    ("GET /journal?from=0", "", OK, BOTH_ENTRIES),
    (
        "GET /journal?from=1",
        "",
        OK,
        "{\"entries\":[{\"act\":\"book_group\",\"caller\":7,\"number\":2,\"pass\":0,\"revision\":2}],\"revision\":2}",
    ),
    (
        "GET /journal?from=1000000000000000",
        "",
        OK,
        "{\"entries\":[],\"revision\":2}",
    ),
];

#[test]
fn changes_of_the_trial_tables(rt: HostRuntime) -> Result<(), Fail> {
    let alloc = rt.alloc();
    holds(&rt, alloc, TRIAL, &NOTHING_FITS)?;
    holds(&rt, alloc, TRIAL, &TOUCHING_ENDS)?;
    holds(&rt, alloc, TRIAL, &LATER_LEAF)?;
    holds(&rt, alloc, TRIAL, &JOURNAL)?;
    holds(&rt, alloc, TRIAL, &CONFLICT_WITH_A_BOOKING)?;
    holds(&rt, alloc, TRIAL, &REFUSED_BOOKINGS)?;
    holds(&rt, alloc, TRIAL, &CANCELLED_ONCE)?;
    holds(&rt, alloc, TRIAL, &OLD_CURSORS)?;
    holds(&rt, alloc, TRIAL, &REPEATS)?;
    holds(&rt, alloc, EMPTY, &FROM_NOTHING)
}
