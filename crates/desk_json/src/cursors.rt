//! The text of a cursor.
ghost use Rattle.std.specs.Prelude.{◌≡◌, ◌++◌, decimal, string_bytes, All, IfOk, OnOk};
ghost use Rattle.desk_base.specs.declared.search.results.Cursor.{Cursor};
ghost use Rattle.desk_base.specs.search.Positions.{found_of};
ghost use Rattle.desk_json.specs.AnsweredPages.{IsRow};
ghost use Rattle.desk_json.specs.CursorReading.{IsPick};
ghost use Rattle.desk_json.specs.Cursors.{pick_text, further_pick, picks_text, shown_text, head_text, cursor_text};

use desk_base::{Cursor, NoMemory, Position, ResourceId};
use std::alloc::{AllocError, Global};

fn push_number(text: &mut String, alloc: Global, number: u64) -> Result<(), AllocError>
    ensures { OnOk result (string_bytes text.new ≡ string_bytes text.old ++ decimal number) }
{
    let digits = number.to_string(alloc)?;
    text.push_str(digits.as_str())
}

fn push_pick(text: &mut String, alloc: Global, pick: Option<ResourceId>) -> Result<(), AllocError>
    ensures text { OnOk result (string_bytes text.new ≡ string_bytes text.old ++ pick_text pick) }
    ensures pick { OnOk result (IsPick pick) }
{
    match pick {
        Some(resource) => push_number(text, alloc, resource.get() as u64),
        None => text.push_str("-"),
    }
}

fn push_further(
    text: &mut String,
    alloc: Global,
    pick: Option<ResourceId>,
) -> Result<(), AllocError>
    ensures text { OnOk result (string_bytes text.new ≡ string_bytes text.old ++ further_pick pick) }
    ensures pick { OnOk result (IsPick pick) }
{
    text.push_str(".")?;
    push_pick(text, alloc, pick)
}

fn push_picks(
    text: &mut String,
    alloc: Global,
    picks: &[Option<ResourceId>],
) -> Result<(), AllocError>
    ensures text { OnOk result (string_bytes text.new ≡ string_bytes text.old ++ picks_text picks.now) }
    ensures picks { OnOk result (All IsPick picks.now) }
{
    for pick in picks {
        push_further(text, alloc, *pick)?;
    }
    Ok(())
}

fn push_shown(text: &mut String, alloc: Global, shown: Option<u16>) -> Result<(), AllocError>
    ensures { OnOk result (string_bytes text.new ≡ string_bytes text.old ++ shown_text shown) }
{
    let Some(shown) = shown else {
        return Ok(());
    };
    text.push_str("_")?;
    push_number(text, alloc, shown as u64)
}

fn push_head(
    text: &mut String,
    alloc: Global,
    revision: u64,
    shown: Option<u16>,
) -> Result<(), AllocError>
    ensures { OnOk result (string_bytes text.new ≡ string_bytes text.old ++ head_text revision shown) }
{
    push_number(text, alloc, revision)?;
    push_shown(text, alloc, shown)
}

/// The text of the cursor behind a position of a search over a revision.
#[tactic(auto, unfolding(crate::specs::Cursors::cursor_text))]
pub(crate) fn text_behind(
    alloc: Global,
    revision: u64,
    shown: Option<u16>,
    position: &Position,
) -> Result<String, NoMemory>
    ensures text { IfOk result (λ text. string_bytes text ≡ cursor_text (record { revision = revision; shown = shown; position = position.now })) }
    ensures place { OnOk result (IsRow (found_of position.now)) }
{
    let mut text = String::new(alloc);
    push_head(&mut text, alloc, revision, shown)?;
    text.push_str(".")?;
    push_number(&mut text, alloc, position.start.get() as u64)?;
    push_picks(&mut text, alloc, position.picks.as_slice())?;
    Ok(text)
}

/// The text of a cursor, `REVISION.START.PICK` and further picks: decimal numbers between points, and `-` for a leaf that is
/// left out. Where the cursor says how many rows of its start were shown, the text is `REVISION_SHOWN.START.PICK`.
pub fn cursor_text(alloc: Global, cursor: &Cursor) -> Result<String, NoMemory>
    ensures { IfOk result (λ text. string_bytes text ≡ cursor_text cursor.now) }
{
    text_behind(alloc, cursor.revision, cursor.shown, &cursor.position)
}
