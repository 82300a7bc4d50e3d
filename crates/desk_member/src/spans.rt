//! When who is a member of a crew or a pool.
ghost use Rattle.std.specs.Prelude.{◌≡◌, ◌≤◌, ◌<◌, [], ◌∷◌, ◌++◌, OnOk, IfOk, IfSome, IfNone, max, min};
ghost use Rattle.desk_base.specs.meaning.Load.{members};
ghost use Rattle.desk_base.specs.rows.Lookups.{KeysRise};
ghost use Rattle.desk_spans.specs.Minutes.{EachMinute};
ghost use Rattle.desk_member.specs.Spans.{span_in, spans_of, spans_in, members_among};

use desk_base::{Items, MemberRow, Minute, NoMemory, ResourceId, Tables, Window};
use std::alloc::Global;

/// A member, from when on and until when: the minute `to` is not in it.
#[derive(Clone, Copy, Debug)]
pub struct MemberSpan {
    pub member: ResourceId,
    pub from: Minute,
    pub to: Minute,
}

/// Spans of the members of one crew or pool. They rise by member and then by minute.
pub type MemberSpans = Items<MemberSpan>;

/// The later of two minutes.
pub(crate) fn later(a: Minute, b: Minute) -> Minute
    ensures { result ≡ max a b }
{
    if a.get() < b.get() { b } else { a }
}

/// The earlier of two minutes.
pub(crate) fn earlier(a: Minute, b: Minute) -> Minute
    ensures { result ≡ min a b }
{
    if a.get() < b.get() { a } else { b }
}

/// What of a membership lies in the window; `None` where nothing does.
fn span_in(window: &Window, row: &MemberRow) -> Option<MemberSpan>
    ensures none { IfNone result ((span_in window.now row.now).to ≤ (span_in window.now row.now).from) }
    ensures some { IfSome result (λ s. s ≡ span_in window.now row.now) }
    ensures not_empty { IfSome result (λ s. s.from < s.to) }
{
    let from = later(window.from, row.from);
    let to = earlier(window.to, row.to);
    if from.get() < to.get() {
        Some(MemberSpan {
            member: row.member,
            from,
            to,
        })
    } else {
        None
    }
}

/// Adds what of a membership lies in the window.
fn add_span(spans: &mut MemberSpans, window: &Window, row: &MemberRow) -> Result<(), NoMemory>
    ensures { OnOk result (spans.new ≡ spans.old ++ spans_of window.now (row.now ∷ [])) }
{
    match span_in(window, row) {
        Some(span) => spans.push(span),
        None => Ok(()),
    }
}

/// The pieces of the window in which a crew or a pool has which member, in the order of its memberships. No other membership is
/// looked at.
pub fn member_spans(
    alloc: Global,
    tables: &Tables,
    group: ResourceId,
    window: Window,
) -> Result<MemberSpans, NoMemory>
    requires { KeysRise tables.now }
    ensures spans { IfOk result (λ spans. spans ≡ spans_in tables.now group window) }
    ensures members { IfOk result (λ spans. EachMinute window.from window.to (λ m. members_among spans m ≡ members tables.now group m)) }
{
    let mut spans = Items::new(alloc);
    for row in tables.memberships_of(group) {
        add_span(&mut spans, &window, row)?;
    }
    Ok(spans)
}
