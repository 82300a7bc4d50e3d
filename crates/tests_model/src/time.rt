//! `desk_time`: the ends of the horizon, days that the calendar has and has not, texts off the grammar, and two zones.
use desk_time::{Local, date_text, local, moment_text, read_date, read_moment, weekday};

#[test]
fn moments_have_their_texts(rt: HostRuntime) {
    let rows: [(u32, &[u8; 17]); 6] = [
        (15_778_080, b"2000-01-01T00:00Z"),
        (15_863_039, b"2000-02-28T23:59Z"),
        (28_935_840, b"2025-01-06T08:00Z"),
        (29_054_940, b"2025-03-30T01:00Z"),
        (68_374_079, b"2099-12-31T23:59Z"),
        (68_374_080, b"2100-01-01T00:00Z"),
    ];
    for (minute, text) in rows {
        assert_eq!(rt; read_moment(text), Some(minute));
        assert_eq!(rt; moment_text(minute), *text);
    }
}

#[test]
fn dates_have_their_texts(rt: HostRuntime) {
    let rows: [(u32, &[u8; 10]); 4] = [
        (10_956, b"1999-12-31"),
        (11_016, b"2000-02-29"),
        (20_094, b"2025-01-06"),
        (47_482, b"2100-01-01"),
    ];
    for (day, text) in rows {
        assert_eq!(rt; read_date(text), Some(day));
        assert_eq!(rt; date_text(day), *text);
    }
}

#[test]
fn other_texts_are_none(rt: HostRuntime) {
    let moments: [&[u8]; 12] = [
        b"1999-12-31T23:59Z",
        b"2100-01-01T00:01Z",
        b"2025-01-06T24:00Z",
        b"2025-01-06T08:60Z",
        b"2025-01-06T08:00z",
        b"2025-01-06t08:00Z",
        b"2025-01-06 08:00Z",
        b"2025-01-06T0800Z",
        b"2025-01-06T08:00",
        b"2025-01-06T08:00ZZ",
        b"2025-02-29T08:00Z",
        b"",
    ];
    for text in moments {
        assert_eq!(rt; read_moment(text), None);
    }
    let dates: [&[u8]; 9] = [
        b"1999-12-30",
        b"2100-01-02",
        b"2100-02-29",
        b"2025-1-06",
        b"2025-13-06",
        b"2025-00-06",
        b"2025-04-31",
        b"2025/01/06",
        b"+025-01-06",
    ];
    for text in dates {
        assert_eq!(rt; read_date(text), None);
    }
}

#[test]
fn weekdays_begin_with_monday(rt: HostRuntime) {
    assert_eq!(rt; weekday(10_956), 4);
    assert_eq!(rt; weekday(20_094), 0);
    assert_eq!(rt; weekday(20_100), 6);
    assert_eq!(rt; weekday(47_482), 4);
}

#[test]
fn clocks_follow_the_shifts(rt: HostRuntime) {
    let shifts = [(15_778_080, 60), (29_054_940, -1440)];
    let rows = [
        (15_778_080, 10_957, 60),
        (29_054_939, 20_177, 119),
        (29_054_940, 20_176, 60),
        (68_374_079, 47_480, 1439),
    ];
    for (minute, day, shown) in rows {
        let wanted = Local { day, minute: shown };
        assert!(rt; local(&shifts, minute) == wanted);
    }
}
