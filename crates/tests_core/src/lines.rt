//! Lines of a conversation with a book: a change as the body that asks for it, or a question, and the text of the answer.
ghost use Rattle.std.specs.Prelude.{◌≡◌, true};
ghost use Rattle.desk_change.specs.Served.{IsServed, is_master};
ghost use Rattle.desk_core.specs.Built.{IsBuilt};

use crate::books::{discard, opened};
use desk_base::{Act, Bytes, Command, GroupId, Items, Options, Query, Table};
use desk_core::Book;
use desk_json::{answer_text, read_change};
use std::alloc::Global;
use std::process::Abort;
use std::str;
use std::test::Fail;

/// What is asked.
#[derive(Clone, Copy)]
pub(crate) enum Asked<'a> {
    /// A change of caller 7, by its number, its act, and the other fields of its body.
    Change(u32, &'a str, &'a str),
    /// The first change of another caller, by its caller.
    First(u32, &'a str, &'a str),
    /// The first rows of a group, at most so many.
    Rows(u32, u32),
    /// The entries of the journal above a revision.
    Journal(u64),
}

/// What is asked, and the text of the answer.
pub(crate) type Line<'a> = (Asked<'a>, &'a str);

/// Rows of this table are put and taken out one by one.
fn is_master(table: Table) -> bool
    ensures { result ≡ is_master table }
{
    match table {
        Table::Group => false,
        Table::Booking => false,
        Table::Caller => false,
        Table::BookingNumbers => false,
        _ => true,
    }
}

fn is_served(act: &Act) -> bool
    ensures { result ≡ true → IsServed act.now }
{
    match act {
        Act::Put(row) => is_master(row.key().table),
        Act::Remove(key) => is_master(key.table),
        _ => true,
    }
}

fn is_built(command: &Command) -> bool
    ensures { result ≡ true → IsBuilt command.now }
{
    match command {
        Command::Change(_, act) => is_served(act),
        Command::Ask(_) => true,
    }
}

/// The change of a caller, as its body is read.
fn change_of(
    alloc: Global,
    caller: u32,
    number: u32,
    act: &str,
    fields: &str,
) -> Result<Command, Fail> {
    let body = format!(in alloc;
        "{{\"act\":\"{act}\",\"caller\":{caller},\"number\":{number},{fields}}}"
    )?;
    let command = read_change(alloc, body.as_bytes()).ok().ok_or("no body")?;
    Ok(command)
}

fn command_of(alloc: Global, asked: Asked<'_>) -> Result<Command, Fail> {
    match asked {
        Asked::Change(number, act, fields) => change_of(alloc, 7, number, act, fields),
        Asked::First(caller, act, fields) => change_of(alloc, caller, 1, act, fields),
        Asked::Rows(group, limit) => Ok(Command::Ask(Query::Rows {
            group: GroupId::of(group).ok_or("no group")?,
            options: Options {
                from: None,
                to: None,
                per: None,
            },
            after: None,
            latest: false,
            limit,
        })),
        Asked::Journal(from) => Ok(Command::Ask(Query::Journal { from })),
    }
}

/// The text of the answer to a line, where the step serves it.
fn answer_to(alloc: Global, book: &mut Book, asked: Asked<'_>) -> Result<Bytes, Fail> {
    let command = command_of(alloc, asked)?;
    if is_built(&command) {
        let answer = book.step(alloc, 3, &command);
        let text = answer_text(alloc, &answer)?;
        Ok(text)
    } else {
        Ok(Items::new(alloc))
    }
}

/// Asks what the line says, and compares the answer.
pub(crate) fn go_through_line(
    rt: &impl Abort,
    alloc: Global,
    book: &mut Book,
    line: Line<'_>,
) -> Result<(), Fail> {
    let text = answer_to(alloc, book, line.0)?;
    assert_eq!(rt; str::from_utf8(text.as_slice()).unwrap_or(""), line.1);
    Ok(())
}

fn go_through(
    rt: &impl Abort,
    alloc: Global,
    book: &mut Book,
    lines: &[Line<'_>],
) -> Result<(), Fail> {
    for line in lines {
        go_through_line(rt, alloc, book, *line)?;
    }
    Ok(())
}

/// Goes through the lines over a book of the trial tables.
pub(crate) fn go_through_trial(
    rt: &impl Abort,
    alloc: Global,
    lines: &[Line<'_>],
) -> Result<(), Fail> {
    let mut book = opened(alloc)?;
    let done = go_through(rt, alloc, &mut book, lines);
    discard(book);
    done
}
