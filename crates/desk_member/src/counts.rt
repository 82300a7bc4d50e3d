//! How many members a crew or a pool has.
ghost use Rattle.std.specs.Prelude.{◌≡◌, ◌<◌, IfOk, IfSome, IfNone, length, map, pos};
ghost use Rattle.desk_base.specs.meaning.Load.{members};
ghost use Rattle.desk_base.specs.rules.Sound.{AreWellFormed};
ghost use Rattle.desk_spans.specs.Minutes.{EachMinute};
ghost use Rattle.desk_spans.specs.Timeline.{end_of, value_at};
ghost use Rattle.desk_member.specs.Counts.{one_more};
ghost use Rattle.desk_member.specs.Pieces.{IsGap, IsFilled};

use crate::spans::{MemberSpan, member_spans};
use desk_base::{Items, Minute, NoMemory, ResourceId, Tables, Window};
use desk_spans::{Piece, Profile};
use std::alloc::Global;

/// A span as one member more at each minute of it.
fn one_more(span: &MemberSpan) -> Piece
    ensures { result ≡ one_more span.now }
{
    Piece {
        from: span.from.get(),
        to: span.to.get(),
        value: 1,
    }
}

/// The spans, as pieces of a profile.
fn ones(alloc: Global, spans: &[MemberSpan]) -> Result<Items<Piece>, NoMemory>
    ensures { IfOk result (λ pieces. pieces ≡ map one_more spans.now) }
{
    let mut pieces = Items::new(alloc);
    for span in spans {
        pieces.push(one_more(span))?;
    }
    Ok(pieces)
}

/// At each minute of the window the number of members of the crew or the pool.
#[tactic(auto, using(crate::proofs::MemberRows::keys_rise))]
pub fn member_profile(
    alloc: Global,
    tables: &Tables,
    group: ResourceId,
    window: Window,
) -> Result<Profile, NoMemory>
    requires well_formed { AreWellFormed tables.now }
    requires window { window.from < window.to }
    ensures window_from { IfOk result (λ p. p.from ≡ window.from) }
    ensures window_end { IfOk result (λ p. end_of p ≡ window.to) }
    ensures counts { IfOk result (λ p. EachMinute window.from window.to (λ m. value_at p m ≡ pos (length (members tables.now group m)))) }
{
    let from = window.from.get();
    let to = window.to.get();
    let spans = member_spans(alloc, tables, group, window)?;
    let pieces = ones(alloc, spans.as_slice())?;
    match Profile::build(alloc, from, to, pieces.as_slice()) {
        Ok(profile) => Ok(profile),
        Err(_) => Err(NoMemory),
    }
}

/// The least minute of the window at which the crew or the pool has no member; `None` where it always has one.
pub fn first_gap(
    alloc: Global,
    tables: &Tables,
    group: ResourceId,
    window: Window,
) -> Result<Option<Minute>, NoMemory>
    requires well_formed { AreWellFormed tables.now }
    requires window { window.from < window.to }
    ensures some { IfOk result (λ gap. IfSome gap (IsGap tables.now group window)) }
    ensures none { IfOk result (λ gap. IfNone gap (IsFilled tables.now group window)) }
{
    let counts = member_profile(alloc, tables, group, window)?;
    match counts.first_below(window.from.get(), window.to.get(), 1) {
        Some(minute) => Ok(Minute::of(minute)),
        None => Ok(None),
    }
}
