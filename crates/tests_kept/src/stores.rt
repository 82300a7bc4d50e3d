//! Rows of a store: what is kept of tables, what is read of it again, and the first error.
use desk_base::laws::trial_is_sound;
use desk_base::{Bytes, Items, NoMemory, Tables};
use desk_kept::{KeptError, KeptRow, kept_rows, migrate, read_kept};
use std::alloc::Global;
use std::test::Fail;

/// A row of a store: the number of its table, its key, and its body.
type Row = (u8, u32, u32, u32, &'static str);

const SITE: Row = (8, 1, 0, 0, "{\"id\":1,\"name\":\"Depot\"}");

/// The group of the trial tables in the first version, and in the second.
const GROUP_BEFORE: Row = (
    17,
    1,
    0,
    0,
    "{\"from\":\"2025-01-06T08:00Z\",\"id\":1,\"name\":\"Visit\",\"step\":60,\"to\":\"2025-01-06T12:00Z\",\"tree\":{\"leaf\":{\"duration\":60,\"effort\":1}}}",
);

const GROUP: Row = (
    17,
    1,
    0,
    0,
    "{\"from\":\"2025-01-06T08:00Z\",\"id\":1,\"name\":\"Visit\",\"step\":60,\"to\":\"2025-01-06T12:00Z\",\"tree\":{\"leaf\":{\"duration\":60,\"effort\":1,\"offset\":0}}}",
);

const HEADER_BEFORE: Row = (
    20,
    0,
    0,
    0,
    "{\"last_booking\":7,\"revision\":9,\"version\":1}",
);

const HEADER: Row = (
    20,
    0,
    0,
    0,
    "{\"last_booking\":7,\"revision\":9,\"version\":2}",
);

/// The trial tables as they are kept.
const TRIAL: [Row; 12] = [
    (
        1,
        1,
        0,
        0,
        "{\"id\":1,\"name\":\"UTC\",\"shifts\":[[\"2000-01-01T00:00Z\",0]]}",
    ),
    (2, 1, 0, 0, "{\"id\":1,\"name\":\"Day\",\"zone\":1}"),
    (2, 2, 0, 0, "{\"id\":2,\"name\":\"Late\",\"zone\":1}"),
    (
        3,
        1,
        0,
        480,
        "{\"calendar\":1,\"capacity\":1,\"from\":480,\"to\":720,\"weekday\":0}",
    ),
    (
        3,
        2,
        0,
        600,
        "{\"calendar\":2,\"capacity\":1,\"from\":600,\"to\":720,\"weekday\":0}",
    ),
    (7, 1, 0, 0, "{\"id\":1,\"name\":\"Main\"}"),
    SITE,
    (
        12,
        1,
        0,
        0,
        "{\"calendar\":1,\"id\":1,\"kind\":\"generic\",\"name\":\"Ann\",\"site\":1,\"unit\":1}",
    ),
    (
        12,
        2,
        0,
        0,
        "{\"calendar\":1,\"id\":2,\"kind\":\"generic\",\"name\":\"Bob\",\"site\":1,\"unit\":1}",
    ),
    (
        12,
        3,
        0,
        0,
        "{\"calendar\":2,\"id\":3,\"kind\":\"generic\",\"name\":\"Cyd\",\"site\":1,\"unit\":1}",
    ),
    GROUP,
    (
        20,
        0,
        0,
        0,
        "{\"last_booking\":0,\"revision\":0,\"version\":2}",
    ),
];

fn kept(alloc: Global, rows: &[Row]) -> Result<Items<KeptRow>, NoMemory> {
    let mut kept = Items::new(alloc);
    for (kind, a, b, c, body) in rows {
        let body = Bytes::from_slice(alloc, body.as_bytes())?;
        kept.push(KeptRow {
            kind: *kind,
            a: *a,
            b: *b,
            c: *c,
            body,
        })?;
    }
    Ok(kept)
}

fn is_row(kept: &KeptRow, row: &Row) -> bool {
    let (kind, a, b, c, body) = row;
    kept.kind == *kind
        && kept.a == *a
        && kept.b == *b
        && kept.c == *c
        && kept.body.as_slice() == body.as_bytes()
}

fn are_rows(kept: &[KeptRow], rows: &[Row]) -> bool {
    kept.len() == rows.len()
        && kept
            .iter()
            .zip(rows.iter())
            .all(|(kept, row)| is_row(kept, row))
}

fn trial_rows(alloc: Global) -> Result<Items<KeptRow>, NoMemory> {
    trial_is_sound();
    let tables = Tables::trial(alloc)?;
    kept_rows(alloc, &tables)
}

#[test]
fn trial_tables_are_kept(rt: HostRuntime) -> Result<(), Fail> {
    assert!(rt; matches!(&trial_rows(rt.alloc()), Ok(kept) if are_rows(kept.as_slice(), &TRIAL)));
    Ok(())
}

fn is_store(tables: &Tables) -> bool {
    tables.revision == 9
        && tables.last_booking == 7
        && tables.sites.len() == 1
        && tables.groups.len() == 1
}

#[test]
fn stores_are_read(rt: HostRuntime) -> Result<(), Fail> {
    for rows in [[SITE, GROUP, HEADER], [SITE, GROUP_BEFORE, HEADER_BEFORE]] {
        let store = kept(rt.alloc(), &rows).map_err(|_| "no memory")?;
        assert!(rt;
            matches!(&read_kept(rt.alloc(), store.as_slice()), Ok(tables) if is_store(tables))
        );
    }
    let nothing = kept(rt.alloc(), &[]).map_err(|_| "no memory")?;
    assert!(rt;
        matches!(&read_kept(rt.alloc(), nothing.as_slice()), Ok(tables) if tables.revision == 0 && tables.zones.is_empty())
    );
    Ok(())
}

#[test]
fn a_store_of_the_first_version_is_carried_over(rt: HostRuntime) -> Result<(), Fail> {
    let store = kept(rt.alloc(), &[SITE, GROUP_BEFORE, HEADER_BEFORE]).map_err(|_| "no memory")?;
    let anew = migrate(rt.alloc(), store.as_slice());
    assert!(rt; matches!(&anew, Ok(kept) if are_rows(kept.as_slice(), &[SITE, GROUP, HEADER])));
    Ok(())
}

fn is_refused(alloc: Global, rows: &[Row], error: KeptError) -> bool {
    match kept(alloc, rows) {
        Ok(kept) => {
            matches!(&read_kept(alloc, kept.as_slice()), Err(found) if *found == error)
                && matches!(&migrate(alloc, kept.as_slice()), Err(found) if *found == error)
        }
        Err(_) => false,
    }
}

#[test]
fn first_errors(rt: HostRuntime) -> Result<(), Fail> {
    let third = (
        20,
        0,
        0,
        0,
        "{\"last_booking\":7,\"revision\":9,\"version\":3}",
    );
    let counters = (20, 0, 0, 0, "{\"last_booking\":7,\"revision\":9}");
    let other_key = (8, 2, 0, 0, SITE.4);
    let no_table = (0, 1, 0, 0, SITE.4);
    let other_header = (20, 0, 0, 1, HEADER.4);
    let cases = [
        ([SITE, SITE], KeptError::BadHeader),
        ([SITE, third], KeptError::BadHeader),
        ([other_key, counters], KeptError::BadHeader),
        ([other_key, HEADER], KeptError::BadBody(8, 2, 0, 0)),
        ([no_table, HEADER], KeptError::BadBody(0, 1, 0, 0)),
        ([GROUP_BEFORE, HEADER], KeptError::BadBody(17, 1, 0, 0)),
        ([GROUP, HEADER_BEFORE], KeptError::BadBody(17, 1, 0, 0)),
        ([HEADER, other_header], KeptError::BadBody(20, 0, 0, 1)),
        ([HEADER, HEADER], KeptError::BadBody(20, 0, 0, 0)),
        ([HEADER, SITE], KeptError::BadBody(8, 1, 0, 0)),
    ];
    for (rows, error) in cases {
        assert!(rt; is_refused(rt.alloc(), &rows, error));
    }
    Ok(())
}
