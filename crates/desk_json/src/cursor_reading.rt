//! A cursor read from its text.
ghost use Rattle.std.specs.Prelude.{◌≡◌, ◌≤◌, map, decimal, All};
ghost use Rattle.desk_base.specs.rules.Limits.{revision_limit, page_limit};
ghost use Rattle.desk_json.specs.Cursors.{pick_text, cursor_text};
ghost use Rattle.desk_json.specs.CursorReading.{IsMoment, IsPick, ArePicks, IsCursor, IsHead, IsReading, cursor_pieces, text_of_head, pieces_of_head};

use crate::decimals::{read_id, read_number};
use crate::pieces::pieces_of;
use desk_base::limits::{LEAF_LIMIT, PAGE_LIMIT, REVISION_LIMIT};
use desk_base::{Cursor, Items, Minute, NoMemory, Picks, Position, ResourceId};
use std::alloc::{AllocError, Global};

/// Why a text is not read as a cursor.
#[derive(Clone, Copy, Debug, PartialEq, Eq)]
pub enum CursorError {
    /// It is the text of no cursor.
    BadCursor,
    NoMemory,
}

impl From<AllocError> for CursorError {
    ghost use Rattle.std.specs.Prelude.{◌≡◌};
    ghost use Rattle.desk_json.specs.declared.cursor_reading.CursorError.TheVariants as error;

    ghost from_gives = { λ _ e. e ≡ error.NoMemory };

    fn from(_error: AllocError) -> CursorError {
        CursorError::NoMemory
    }
}

impl From<NoMemory> for CursorError {
    ghost use Rattle.std.specs.Prelude.{◌≡◌};
    ghost use Rattle.desk_json.specs.declared.cursor_reading.CursorError.TheVariants as error;

    ghost from_gives = { λ _ e. e ≡ error.NoMemory };

    fn from(_error: NoMemory) -> CursorError {
        CursorError::NoMemory
    }
}

fn read_up_to(text: &[u8], greatest: u64) -> Result<u64, CursorError>
    ensures { IsReading (λ n. n ≤ greatest) (λ n. decimal n) text.now result }
{
    let Some(number) = read_number(text) else {
        return Err(CursorError::BadCursor);
    };
    if number <= greatest {
        Ok(number)
    } else {
        Err(CursorError::BadCursor)
    }
}

fn read_revision(text: &[u8]) -> Result<u64, CursorError>
    ensures { IsReading (λ n. n ≤ revision_limit) (λ n. decimal n) text.now result }
{
    read_up_to(text, REVISION_LIMIT)
}

fn read_shown(text: &[u8]) -> Result<u16, CursorError>
    ensures { IsReading (λ n. n ≤ page_limit) (λ n. decimal n) text.now result }
{
    let shown = read_up_to(text, u64::from(PAGE_LIMIT))?;
    Ok(shown as u16)
}

fn read_head_pieces(pieces: &[&[u8]]) -> Result<(u64, Option<u16>), CursorError>
    ensures { IsReading IsHead pieces_of_head (map (λ piece. piece.now) pieces.now) result }
{
    match pieces {
        [revision] => Ok((read_revision(revision)?, None)),
        [revision, shown] => Ok((read_revision(revision)?, Some(read_shown(shown)?))),
        _ => Err(CursorError::BadCursor),
    }
}

// The revision, and how many rows were shown.
fn read_head(alloc: Global, text: &[u8]) -> Result<(u64, Option<u16>), CursorError>
    ensures { IsReading IsHead text_of_head text.now result }
{
    let pieces = pieces_of(alloc, text, b'_')?;
    read_head_pieces(pieces.as_slice())
}

fn read_start(text: &[u8]) -> Result<Minute, CursorError>
    ensures { IsReading IsMoment (λ n. decimal n) text.now result }
{
    let Some(number) = read_number(text) else {
        return Err(CursorError::BadCursor);
    };
    if number > u32::MAX as u64 {
        return Err(CursorError::BadCursor);
    }
    match Minute::of(number as u32) {
        Some(start) => Ok(start),
        None => Err(CursorError::BadCursor),
    }
}

fn read_pick(text: &[u8]) -> Result<Option<ResourceId>, CursorError>
    ensures { IsReading IsPick pick_text text.now result }
{
    if text == b"-".as_slice() {
        return Ok(None);
    }
    match read_id(text) {
        Some(resource) => Ok(Some(resource)),
        None => Err(CursorError::BadCursor),
    }
}

fn read_each(alloc: Global, pieces: &[&[u8]]) -> Result<Picks, CursorError>
    ensures { IsReading (All IsPick) (map pick_text) (map (λ piece. piece.now) pieces.now) result }
{
    let mut picks = Items::new(alloc);
    for piece in pieces {
        let pick = read_pick(piece)?;
        picks.push(pick)?;
    }
    Ok(picks)
}

fn read_picks(alloc: Global, pieces: &[&[u8]]) -> Result<Picks, CursorError>
    ensures { IsReading ArePicks (map pick_text) (map (λ piece. piece.now) pieces.now) result }
{
    if pieces.is_empty() || pieces.len() > LEAF_LIMIT {
        return Err(CursorError::BadCursor);
    }
    read_each(alloc, pieces)
}

fn read_pieces(alloc: Global, pieces: &[&[u8]]) -> Result<Cursor, CursorError>
    ensures { IsReading IsCursor cursor_pieces (map (λ piece. piece.now) pieces.now) result }
{
    let [head, start, picks @ ..] = pieces else {
        return Err(CursorError::BadCursor);
    };
    let (revision, shown) = read_head(alloc, head)?;
    let start = read_start(start)?;
    let picks = read_picks(alloc, picks)?;
    Ok(Cursor {
        revision,
        shown,
        position: Position { start, picks },
    })
}

/// The cursor that is written so: the revision up to 10^15, behind it `_` and how many rows were shown (0 to 500) or nothing, the
/// start as a minute of the horizon or its end, and 1 to 24 picks, each `-` or an id. No number has a leading zero.
pub fn read_cursor(alloc: Global, text: &[u8]) -> Result<Cursor, CursorError>
    ensures { IsReading IsCursor cursor_text text.now result }
{
    let pieces = pieces_of(alloc, text, b'.')?;
    read_pieces(alloc, pieces.as_slice())
}
