//! The header of kept rows: the counters of the tables, and the version.
ghost use Rattle.std.specs.Prelude.{◌≡◌, ◌⊎◌, find, IfOk, IfErr, Some, None};
ghost use Rattle.std.specs.Option.{option_copied};
ghost use Rattle.serde_json.specs.View.{view};
ghost use Rattle.desk_json.specs.Faults.{IsRead};
ghost use Rattle.desk_json.specs.Forms.{all_names};
ghost use Rattle.desk_kept.specs.Stored.{header_data, header_row, header_form, known_header, header_in, header_of_text, header_of, is_header};

use crate::stored::{HEADER_KIND, KeptError, KeptRow};
use crate::versions::Version;
use desk_base::{Bytes, Field, NoMemory, Tables};
use desk_json::{BodyError, BodyRule, Names, has_only, parse, value_under};
use serde_json::{Value, json};
use std::alloc::{AllocError, Global};

/// What the header of kept rows says: the greatest booking number ever given, the number of accepted changes, and the version.
#[derive(Clone, Copy, Debug, PartialEq, Eq)]
pub struct Header {
    pub last_booking: u32,
    pub revision: u64,
    pub version: Version,
}

fn header_value(alloc: Global, tables: &Tables) -> Result<Value, AllocError>
    ensures { IfOk result (λ value. view value ≡ header_data tables.now) }
{
    let last_booking = tables.last_booking;
    let revision = tables.revision;
    let version: u8 = 2;
    json!(in alloc; {"last_booking": last_booking, "revision": revision, "version": version})
}

/// The header of the tables.
#[tactic(auto, unfolding(crate::specs::Stored::header_row))]
pub(crate) fn header_row(alloc: Global, tables: &Tables) -> Result<KeptRow, NoMemory>
    ensures { IfOk result (λ row. row ≡ header_row tables.now) }
{
    let value = header_value(alloc, tables)?;
    Ok(KeptRow {
        kind: HEADER_KIND,
        a: 0,
        b: 0,
        c: 0,
        body: Bytes::from_vec(value.to_vec(alloc)?),
    })
}

const HEADER_NAMES: Names = Names {
    head: &[],
    key: &[],
    others: &["last_booking", "revision", "version"],
};

#[tactic(auto, unfolding(crate::specs::Stored::header_form, desk_json::specs::Forms::under))]
fn read_numbers(body: &Value) -> Result<(u32, u64, u8), BodyError>
    ensures { result ≡ header_form.read (view body.now) }
{
    let last_booking = value_under(body, "last_booking", Field::Body)?;
    let revision = value_under(body, "revision", Field::Body)?;
    let version = value_under(body, "version", Field::Body)?;
    Ok((last_booking, revision, version))
}

fn known_header(numbers: (u32, u64, u8)) -> Result<Header, BodyError>
    ensures { result ≡ known_header numbers }
{
    let (last_booking, revision, version) = numbers;
    match Version::of(version) {
        Some(version) => Ok(Header {
            last_booking,
            revision,
            version,
        }),
        None => Err(BodyError::Bad(BodyRule::Range, Field::Body)),
    }
}

#[tactic(auto, unfolding(crate::specs::Stored::header_in, crate::specs::Stored::header_form))]
fn read_body(body: &Value) -> Result<Header, BodyError>
    ensures { result ≡ header_in (view body.now) }
{
    if !body.is_object() {
        return Err(BodyError::Bad(BodyRule::Object, Field::Body));
    }
    let numbers = read_numbers(body)?;
    if !has_only(body, &HEADER_NAMES) {
        return Err(BodyError::Bad(BodyRule::Unknown, Field::Other));
    }
    known_header(numbers)
}

#[tactic(auto, unfolding(crate::specs::Stored::header_of_text))]
fn read_header(alloc: Global, text: &[u8]) -> Result<Header, BodyError>
    ensures { IsRead (header_of_text text.now) result }
{
    let body = parse(alloc, text)?;
    read_body(&body)
}

/// The first row at the place of the header.
fn first_header(rows: &[KeptRow]) -> Option<&KeptRow>
    ensures { option_copied result ≡ find is_header rows.now }
{
    rows.iter().find(|row| row.is_header())
}

/// The header of kept rows.
pub(crate) fn header_of(alloc: Global, rows: &[KeptRow]) -> Result<Header, KeptError>
    ensures header { IfOk result (λ header. header_of rows.now ≡ Some header) }
    ensures bad { IfErr result (λ why. ((header_of rows.now ≡ None) × (why ≡ KeptError.BadHeader)) ⊎ (why ≡ KeptError.NoMemory)) }
{
    let Some(row) = first_header(rows) else {
        return Err(KeptError::BadHeader);
    };
    match read_header(alloc, row.body.as_slice()) {
        Ok(header) => Ok(header),
        Err(BodyError::NoMemory) => Err(KeptError::NoMemory),
        Err(BodyError::Bad(_, _)) => Err(KeptError::BadHeader),
    }
}
