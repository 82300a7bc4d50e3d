//! Steps: changes of one caller, who makes all of them, and questions.
ghost use Rattle.std.specs.Prelude.{IfOk};
ghost use Rattle.desk_change.specs.Served.{IsServed};
ghost use Rattle.desk_core.specs.Built.{IsBuilt};

use crate::stop::Stop;
use desk_base::{Act, Answer, Call, CallNumber, CallerId, Command, Outcome, Query};
use desk_core::Book;
use std::alloc::Global;

/// The caller's next change.
fn next_command(book: &Book, act: Act) -> Result<Command, Stop>
    requires { IsServed act }
    ensures { IfOk result IsBuilt }
{
    let entries = u32::try_from(book.journal().len())
        .ok()
        .ok_or(Stop::OutOfRange)?;
    let call = Call {
        caller: CallerId::of(1).ok_or(Stop::OutOfRange)?,
        number: CallNumber::of(entries.saturating_add(1)).ok_or(Stop::OutOfRange)?,
    };
    Ok(Command::Change(call, act))
}

/// How many steps were accepted: this one or none.
fn count_of(answer: &Answer) -> Result<u32, Stop> {
    match &answer.outcome {
        Outcome::Done(_) => Ok(1),
        Outcome::Repeated(_) => Ok(0),
        Outcome::Refused(_) => Ok(0),
        Outcome::NoMemory => Err(Stop::NoMemory),
    }
}

/// Takes the caller's next change, and counts it where it is accepted.
pub(crate) fn change(alloc: Global, book: &mut Book, act: Act) -> Result<u32, Stop>
    requires { IsServed act }
{
    let command = next_command(book, act)?;
    count_of(&book.step(alloc, 0, &command))
}

/// Takes a change that makes the schedule.
pub(crate) fn make(alloc: Global, book: &mut Book, act: Act) -> Result<(), Stop>
    requires { IsServed act }
{
    match change(alloc, book, act)? {
        0 => Err(Stop::Refused),
        _ => Ok(()),
    }
}

/// Asks a question, and counts it where it is answered.
pub(crate) fn ask(alloc: Global, book: &mut Book, query: Query) -> Result<u32, Stop> {
    count_of(&book.step(alloc, 0, &Command::Ask(query)))
}
