//! What the journal shows: its entries above a revision, as many as one answer has.
ghost use Rattle.std.specs.Prelude.{◌≡◌, ◌-◌, ◌≤◌, filter, map, min, nat_lt, take, IfOk};
ghost use Rattle.desk_base.specs.asked.Summaries.{summaries_from, summary_of};
ghost use Rattle.desk_base.specs.rules.Limits.{summary_limit};
ghost use Rattle.desk_core.specs.Journaled.{AreNumbered};

use desk_base::limits::SUMMARY_LIMIT;
use desk_base::{Entry, Items, NoMemory, Summaries};
use std::alloc::Global;

/// How many entries of a journal are not above a revision, where the journal ends with the revision `last`.
fn passed(last: u64, entries: usize, from: u64) -> usize
    requires { entries ≤ last }
    ensures { result ≡ min (from - (last - entries)) entries }
{
    let before = last - entries as u64;
    from.saturating_sub(before).min(entries as u64) as usize
}

/// The entries above a revision.
fn above(last: u64, journal: &[Entry], from: u64) -> &[Entry]
    requires { AreNumbered last journal.now }
    ensures { result.now ≡ filter (λ e. nat_lt from e.revision) journal.now }
{
    &journal[passed(last, journal.len(), from)..]
}

/// The first entries, at most as many as one answer shows.
fn first_of(entries: &[Entry]) -> &[Entry]
    ensures { result.now ≡ take summary_limit entries.now }
{
    &entries[..SUMMARY_LIMIT.min(entries.len())]
}

/// What is shown of entries.
fn summaries_of(alloc: Global, entries: &[Entry]) -> Result<Summaries, NoMemory>
    ensures { IfOk result (λ shown. shown ≡ map summary_of entries.now) }
{
    let mut shown = Items::new(alloc);
    for entry in entries {
        shown.push(entry.summary())?;
    }
    Ok(shown)
}

/// What is shown of the first entries of a journal above a revision. It looks at these entries alone.
pub(crate) fn summaries(
    alloc: Global,
    last: u64,
    journal: &[Entry],
    from: u64,
) -> Result<Summaries, NoMemory>
    requires { AreNumbered last journal.now }
    ensures { IfOk result (λ shown. shown ≡ summaries_from journal.now from) }
{
    let shown = summaries_of(alloc, first_of(above(last, journal, from)))?;
    Ok(shown)
}
