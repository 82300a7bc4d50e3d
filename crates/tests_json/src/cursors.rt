//! Which texts are cursors, and of which.
use desk_base::Cursor;
use desk_json::{CursorError, cursor_text, read_cursor};
use std::alloc::Global;
use std::test::Fail;

// Whether the text is read as a cursor with these numbers, and the cursor is written as this text.
fn is_written_so(
    alloc: Global,
    text: &str,
    numbers: (u64, Option<u16>, u32, usize),
) -> Result<bool, Fail> {
    let cursor: Cursor = match read_cursor(alloc, text.as_bytes()) {
        Ok(cursor) => cursor,
        Err(_) => return Ok(false),
    };
    let (revision, shown, start, picks) = numbers;
    let position = &cursor.position;
    let is_read = cursor.revision == revision
        && cursor.shown == shown
        && position.start.get() == start
        && position.picks.len() == picks;
    Ok(is_read && cursor_text(alloc, &cursor)?.as_str() == text)
}

#[test]
fn cursors_are_read_and_written(rt: HostRuntime) -> Result<(), Fail> {
    let alloc = rt.alloc();
    let cases = [
        ("0.28935900.2", (0, None, 28_935_900, 1)),
        ("2.28935960.-.2.3", (2, None, 28_935_960, 3)),
        (
            "1000000000000000.68374080.999999999",
            (1_000_000_000_000_000, None, 68_374_080, 1),
        ),
        ("0_1.28936020.1", (0, Some(1), 28_936_020, 1)),
        ("0_0.28935840.1", (0, Some(0), 28_935_840, 1)),
        ("0_500.28935840.1", (0, Some(500), 28_935_840, 1)),
        ("7_9.28935840.-.-", (7, Some(9), 28_935_840, 2)),
        (
            "0.15778080.1.2.3.4.5.6.7.8.9.10.11.12.13.14.15.16.17.18.19.20.21.22.23.24",
            (0, None, 15_778_080, 24),
        ),
    ];
    for (text, numbers) in cases {
        assert!(rt; is_written_so(alloc, text, numbers)?, "at {text}");
    }
    Ok(())
}

#[test]
fn other_texts_are_no_cursors(rt: HostRuntime) {
    let alloc = rt.alloc();
    let cases = [
        "0.15778080.1.2.3.4.5.6.7.8.9.10.11.12.13.14.15.16.17.18.19.20.21.22.23.24.25",
        "1000000000000001.28935900.2",
        "2.028935900.3",
        "00.28935900.2",
        "0.15778079.2",
        "0.68374081.2",
        "0.28935900.0",
        "0.28935900.1000000000",
        "0.28935900.",
        "0.28935900",
        "",
        "0_501.28935840.1",
        "0_01.28935840.1",
        "0_00.28935840.1",
        "0_.28935840.1",
        "0_-.28935840.1",
        "0_+1.28935840.1",
        "_1.28935840.1",
        "_.28935840.1",
        "0_1_1.28935840.1",
        "00_1.28935840.1",
        "1000000000000001_1.28935840.1",
        "0_1.28935840",
        "0.28935840_1.1",
        "0.28935840.1_1",
    ];
    for text in cases {
        assert!(rt;
            matches!(
                read_cursor(alloc, text.as_bytes()),
                Err(CursorError::BadCursor)
            ),
            "at {text}"
        );
    }
}
