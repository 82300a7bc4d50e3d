//! Pages of the trial group, asked for one by one.
use crate::runs::{OK, TRIAL, holds};
use std::test::Fail;

const FIRST_FOUR: &str =
    "{\"end\":false,\"next\":\"0.28935900.2\",\"revision\":0,\"rows\":[[\"2025-01-06T08:00Z\",1],[\"2025-01-06T08:00Z\",2],[\"2025-01-06T09:00Z\",1],[\"2025-01-06T09:00Z\",2]]}";

const SECOND_FOUR: &str =
    "{\"end\":false,\"next\":\"0.28936020.1\",\"revision\":0,\"rows\":[[\"2025-01-06T10:00Z\",1],[\"2025-01-06T10:00Z\",2],[\"2025-01-06T10:00Z\",3],[\"2025-01-06T11:00Z\",1]]}";

const LAST_TWO: &str =
    "{\"end\":true,\"next\":\"0.28936020.3\",\"revision\":0,\"rows\":[[\"2025-01-06T11:00Z\",2],[\"2025-01-06T11:00Z\",3]]}";

const NOTHING_MORE: &str = "{\"end\":true,\"next\":\"0.28936020.3\",\"revision\":0,\"rows\":[]}";

const AT_TEN: &str =
    "{\"end\":true,\"next\":\"0.28935960.3\",\"revision\":0,\"rows\":[[\"2025-01-06T10:00Z\",1],[\"2025-01-06T10:00Z\",2],[\"2025-01-06T10:00Z\",3]]}";

const FIRST_OF_EACH: &str =
    "{\"end\":true,\"next\":\"0_1.28936020.1\",\"revision\":0,\"rows\":[[\"2025-01-06T08:00Z\",1],[\"2025-01-06T09:00Z\",1],[\"2025-01-06T10:00Z\",1],[\"2025-01-06T11:00Z\",1]]}";

const TWO_OF_EACH_FIRST: &str =
    "{\"end\":false,\"next\":\"0_1.28935900.1\",\"revision\":0,\"rows\":[[\"2025-01-06T08:00Z\",1],[\"2025-01-06T08:00Z\",2],[\"2025-01-06T09:00Z\",1]]}";

const TWO_OF_EACH_SECOND: &str =
    "{\"end\":false,\"next\":\"0_2.28935960.2\",\"revision\":0,\"rows\":[[\"2025-01-06T09:00Z\",2],[\"2025-01-06T10:00Z\",1],[\"2025-01-06T10:00Z\",2]]}";

const TWO_OF_EACH_THIRD: &str =
    "{\"end\":true,\"next\":\"0_2.28936020.2\",\"revision\":0,\"rows\":[[\"2025-01-06T11:00Z\",1],[\"2025-01-06T11:00Z\",2]]}";

const TWO_OF_EACH_FROM_NINE: &str =
    "{\"end\":true,\"next\":\"0_2.28936020.2\",\"revision\":0,\"rows\":[[\"2025-01-06T09:00Z\",1],[\"2025-01-06T09:00Z\",2],[\"2025-01-06T10:00Z\",1],[\"2025-01-06T10:00Z\",2],[\"2025-01-06T11:00Z\",1],[\"2025-01-06T11:00Z\",2]]}";

const BAD_PER: &str = "{\"field\":\"per\",\"refused\":\"bad_field\",\"revision\":0}";

const BAD_LIMIT: &str = "{\"field\":\"limit\",\"refused\":\"bad_field\",\"revision\":0}";

const MOVED: &str = "{\"now\":0,\"refused\":\"moved\",\"revision\":0,\"shown\":5}";

#[test]
fn pages_of_the_trial_group(rt: HostRuntime) -> Result<(), Fail> {
    let alloc = rt.alloc();
    let unprocessable = "422 Unprocessable Content";
    let cases = [
        ("?limit=4", OK, FIRST_FOUR),
        ("?limit=4&after=0.28935900.2", OK, SECOND_FOUR),
        ("?after=0.28936020.1&limit=4", OK, LAST_TWO),
        ("?limit=4&after=0.28936020.3", OK, NOTHING_MORE),
        // not live, and off the grid
        ("?limit=4&after=0.28935900.3", OK, SECOND_FOUR),
        ("?limit=4&after=0.28935901.9", OK, SECOND_FOUR),
        ("?after=0.28936020.1", OK, LAST_TWO),
        ("?to=2025-01-06T11:00Z&from=2025-01-06T10:00Z", OK, AT_TEN),
        (
            "?at=latest&limit=4&after=5.28935900.2&from=2000-01-01T00:00Z&to=2100-01-01T00:00Z",
            OK,
            SECOND_FOUR,
        ),
        ("?limit=0", unprocessable, BAD_LIMIT),
        ("?limit=501", unprocessable, BAD_LIMIT),
        ("?limit=501&after=5.28935900.2", unprocessable, BAD_LIMIT),
        ("?after=5.28935900.2", "409 Conflict", MOVED),
        // of each start the first, and the first two, in three pages
        ("?per=1", OK, FIRST_OF_EACH),
        ("?per=2&limit=3", OK, TWO_OF_EACH_FIRST),
        (
            "?per=2&limit=3&after=0_1.28935900.1",
            OK,
            TWO_OF_EACH_SECOND,
        ),
        ("?per=2&limit=3&after=0_2.28935960.2", OK, TWO_OF_EACH_THIRD),
        // as many of that start were shown before
        ("?per=2&after=0_9.28935840.1", OK, TWO_OF_EACH_FROM_NINE),
        ("?per=0", unprocessable, BAD_PER),
        ("?per=501", unprocessable, BAD_PER),
        // a query is read as a form writes it
        ("?limit=%34", OK, FIRST_FOUR),
        ("?%6Cimit=4", OK, FIRST_FOUR),
        ("?&limit=4&&", OK, FIRST_FOUR),
        ("?limit=4&after=0%2E28935900%2e2", OK, SECOND_FOUR),
        (
            "?to=2025-01-06T11%3A00Z&from=2025-01-06T10%3A00Z",
            OK,
            AT_TEN,
        ),
    ];
    let mut targets = Vec::new(alloc);
    for (query, status, given) in cases {
        targets.push((
            format!(in alloc; "GET /groups/1/rows{query}")?,
            status,
            given,
        ))?;
    }
    for (target, status, given) in &targets {
        holds(&rt, alloc, TRIAL, &[(target.as_str(), "", *status, *given)])?;
    }
    Ok(())
}

#[test]
fn ten_pages_of_one_row(rt: HostRuntime) -> Result<(), Fail> {
    let alloc = rt.alloc();
    let rows = [
        ("08:00", 28_935_840, 1),
        ("08:00", 28_935_840, 2),
        ("09:00", 28_935_900, 1),
        ("09:00", 28_935_900, 2),
        ("10:00", 28_935_960, 1),
        ("10:00", 28_935_960, 2),
        ("10:00", 28_935_960, 3),
        ("11:00", 28_936_020, 1),
        ("11:00", 28_936_020, 2),
        ("11:00", 28_936_020, 3),
    ];
    let mut target = format!(in alloc; "GET /groups/1/rows?limit=1")?;
    for (i, (clock, minute, resource)) in rows.iter().enumerate() {
        let end = i == 9;
        let given = format!(in alloc;
            "{{\"end\":{end},\"next\":\"0.{minute}.{resource}\",\"revision\":0,\"rows\":[[\"2025-01-06T{clock}Z\",{resource}]]}}"
        )?;
        holds(
            &rt,
            alloc,
            TRIAL,
            &[(target.as_str(), "", OK, given.as_str())],
        )?;
        target = format!(in alloc; "GET /groups/1/rows?limit=1&after=0.{minute}.{resource}")?;
    }
    Ok(())
}
