//! The body of a caller, as it is written and read again.
use desk_base::{AnyRow, BookingId, CallNumber, CallerId, CallerRow, Key, Receipt, Table};
use desk_kept::{read_row, row_text};
use std::alloc::Global;
use std::test::Fail;

const TEXT: &str =
    "{\"last\":7,\"receipt\":{\"count\":2,\"done\":\"booked\",\"effort_minutes\":120,\"first\":41}}";

fn caller() -> Option<CallerRow> {
    Some(CallerRow {
        caller: CallerId::of(3)?,
        last: CallNumber::of(7)?,
        receipt: Receipt::Booked {
            first: BookingId::of(41)?,
            count: 2,
            effort_minutes: 120,
        },
    })
}

fn is_written_so(alloc: Global, row: CallerRow) -> bool {
    let row = AnyRow::Caller(row);
    match row_text(alloc, &row) {
        Ok(text) => text.as_slice() == TEXT.as_bytes(),
        Err(_) => false,
    }
}

fn is_caller(row: &AnyRow) -> bool {
    match row {
        AnyRow::Caller(read) => {
            read.caller.get() == 3
                && read.last.get() == 7
                && matches!(
                    read.receipt,
                    Receipt::Booked {
                        count: 2,
                        effort_minutes: 120,
                        ..
                    }
                )
        }
        _ => false,
    }
}

#[test]
fn a_caller_is_written(rt: HostRuntime) -> Result<(), Fail> {
    let row = caller().ok_or("no caller")?;
    assert!(rt; is_written_so(rt.alloc(), row));
    Ok(())
}

#[test]
fn a_caller_is_read(rt: HostRuntime) -> Result<(), Fail> {
    let key = Key::of_id(Table::Caller, 3);
    assert!(rt; matches!(&read_row(rt.alloc(), &key, TEXT.as_bytes()), Ok(row) if is_caller(row)));
    Ok(())
}
