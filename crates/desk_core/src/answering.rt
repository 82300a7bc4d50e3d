//! Answers to questions.
ghost use Rattle.std.specs.Prelude.{◌≡◌, List, None, Contains, option_copied};
ghost use Rattle.std.specs.Option.{option_or};
ghost use Rattle.desk_base.specs.rows.Keys.{id_key};
ghost use Rattle.desk_base.specs.rules.Sound.{IsSound};
ghost use Rattle.desk_base.specs.rules.Fields.{is_within_range};
ghost use Rattle.desk_base.specs.rules.Limits.{page_limit};
ghost use Rattle.desk_base.specs.search.Page.{IsAskable};
ghost use Rattle.desk_base.specs.asked.Steps.{point_of, refused_limit, refused_per, refused_cursor};
ghost use Rattle.desk_base.specs.declared.asked.acts.Entry.{Entry};
ghost use Rattle.desk_base.specs.declared.asked.answers.Query.TheVariants.{Rows as RowsOf};
ghost use Rattle.desk_base.specs.declared.asked.refusals.Refusal.TheVariants.{UnknownId};
ghost use Rattle.desk_base.specs.declared.rows.tables.Table.TheVariants.{Group};
ghost use Rattle.desk_core.specs.Answering.{refused_known, IsAnswerOrNone, IsPageOrNone, IsSummariesOrNone};
ghost use Rattle.desk_core.specs.Journaled.{AreNumbered};
ghost use Rattle.desk_load.specs.Index.{IsIndexOf};

use crate::journaled::summaries;
use crate::searching::searched;
use crate::view::View;
use desk_base::limits::PAGE_LIMIT;
use desk_base::{
    Cursor, Entry, Field, GroupId, GroupRow, Key, NoMemory, Options, Outcome, Position, Query,
    Refusal, Reply, Table, Tables,
};
use std::alloc::Global;

/// The position that a cursor shows.
fn position_of(after: &Option<Cursor>) -> Option<&Position>
    ensures { option_copied result ≡ (point_of after.now).after }
{
    match after {
        Some(cursor) => Some(&cursor.position),
        None => None,
    }
}

/// How many rows of its position's start a cursor shows as shown.
fn shown_of(after: &Option<Cursor>) -> u16
    ensures { result ≡ (point_of after.now).shown }
{
    match after {
        Some(cursor) => cursor.shown.unwrap_or(0),
        None => 0,
    }
}

fn is_askable(count: u32) -> bool
    ensures { result ≡ is_within_range 1 page_limit count }
{
    1 <= count && count <= u32::from(PAGE_LIMIT)
}

fn refused_limit(limit: u32) -> Option<Refusal>
    ensures { result ≡ refused_limit limit }
{
    if is_askable(limit) {
        None
    } else {
        Some(Refusal::BadField(Field::Limit))
    }
}

fn refused_per(per: Option<u32>) -> Option<Refusal>
    ensures { result ≡ refused_per per }
{
    match per {
        None => None,
        Some(per) => {
            if is_askable(per) {
                None
            } else {
                Some(Refusal::BadField(Field::Per))
            }
        }
    }
}

fn refused_cursor(now: u64, after: &Option<Cursor>, latest: bool) -> Option<Refusal>
    ensures { result ≡ refused_cursor now after.now latest }
{
    match after {
        None => None,
        Some(cursor) => {
            if latest || cursor.revision == now {
                None
            } else {
                Some(Refusal::Moved(cursor.revision, now))
            }
        }
    }
}

/// Why a page with such a limit and so many rows of each start is refused.
fn refused_counts(limit: u32, per: Option<u32>) -> Option<Refusal>
    ensures { result ≡ option_or (refused_limit limit) (refused_per per) }
{
    match refused_limit(limit) {
        Some(why) => Some(why),
        None => refused_per(per),
    }
}

/// Why a page of a group that is there is refused.
fn refused_known(
    tables: &Tables,
    options: &Options,
    after: &Option<Cursor>,
    latest: bool,
    limit: u32,
) -> Option<Refusal>
    ensures { result ≡ refused_known tables.now options.now after.now latest limit }
{
    match refused_counts(limit, options.per) {
        Some(why) => Some(why),
        None => refused_cursor(tables.revision, after, latest),
    }
}

fn unknown_group(id: GroupId) -> Refusal
    ensures { result ≡ UnknownId (id_key Group id) }
{
    Refusal::UnknownId(Key {
        table: Table::Group,
        a: id.get(),
        b: 0,
        c: 0,
    })
}

/// A page of a group that is there.
fn page_of(
    alloc: Global,
    view: &View,
    group: &GroupRow,
    options: &Options,
    after: &Option<Cursor>,
    limit: u32,
) -> Outcome
    requires sound { IsSound view.now.tables }
    requires index { IsIndexOf view.now.tables view.now.index }
    requires there { Contains view.now.tables.groups group.now }
    requires askable { IsAskable options.now limit }
    ensures { IsPageOrNone view.now.tables group.now options.now (point_of after.now) limit result }
{
    let position = position_of(after);
    let shown = shown_of(after);
    match searched(alloc, view, group, options, position, shown, limit as u16) {
        Ok(page) => Outcome::Done(Reply::Rows(page)),
        Err(_) => Outcome::NoMemory,
    }
}

/// A page of a group's rows, or why it is refused.
fn rows(
    alloc: Global,
    view: &View,
    group: GroupId,
    options: &Options,
    after: &Option<Cursor>,
    latest: bool,
    limit: u32,
) -> Outcome
    requires sound { IsSound view.now.tables }
    requires index { IsIndexOf view.now.tables view.now.index }
    ensures { (journal : List Entry) → IsAnswerOrNone view.now.tables journal (RowsOf group options.now after.now latest limit) result }
{
    match view.tables.group(group) {
        Some(row) => match refused_known(&view.tables, options, after, latest, limit) {
            Some(why) => Outcome::Refused(why),
            None => page_of(alloc, view, row, options, after, limit),
        },
        None => Outcome::Refused(unknown_group(group)),
    }
}

/// The entries of the journal above a revision.
fn journal_above(alloc: Global, revision: u64, journal: &[Entry], from: u64) -> Outcome
    requires { AreNumbered revision journal.now }
    ensures { IsSummariesOrNone journal.now from result }
{
    match summaries(alloc, revision, journal, from) {
        Ok(summaries) => Outcome::Done(Reply::Journal(summaries)),
        Err(NoMemory) => Outcome::NoMemory,
    }
}

/// The answer of a sound schedule to a question. The entries of its journal end with its revision.
pub(crate) fn answer(alloc: Global, view: &View, journal: &[Entry], query: &Query) -> Outcome
    requires sound { IsSound view.now.tables }
    requires index { IsIndexOf view.now.tables view.now.index }
    requires numbered { AreNumbered view.now.tables.revision journal.now }
    ensures { IsAnswerOrNone view.now.tables journal.now query.now result }
{
    match query {
        Query::Rows {
            group,
            options,
            after,
            latest,
            limit,
        } => rows(alloc, view, *group, options, after, *latest, *limit),
        Query::Journal { from } => journal_above(alloc, view.tables.revision, journal, *from),
        Query::Revision => Outcome::Done(Reply::Revision),
    }
}
