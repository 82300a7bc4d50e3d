//! Books over the trial tables: 1 and 2 work on Mondays from 08:00 to 12:00, and 3 from 10:00, each with a capacity of 1.
ghost use Rattle.std.specs.Prelude.{IfOk};
ghost use Rattle.desk_base.specs.rules.Sound.{IsSound};
ghost use Rattle.desk_change.specs.Served.{IsServed};
ghost use Rattle.desk_core.specs.Built.{IsBuilt};

use crate::acts::{Booking, Wanted, book_of, group_of, put};
use desk_base::laws::trial_is_sound;
use desk_base::{Act, Call, CallNumber, CallerId, Command, NoMemory, Outcome, Tables};
use desk_core::Book;
use std::alloc::Global;
use std::test::Fail;

/// Monday 2025-01-06 at 08:00.
pub const EIGHT: u32 = 28_935_840;

pub const HALF_PAST_EIGHT: u32 = 28_935_870;

pub const NINE: u32 = 28_935_900;

pub const TEN: u32 = 28_935_960;

pub const HALF_PAST_TEN: u32 = 28_935_990;

pub const ELEVEN: u32 = 28_936_020;

pub const NOON: u32 = 28_936_080;

fn trial(alloc: Global) -> Result<Tables, NoMemory>
    ensures { IfOk result IsSound }
{
    trial_is_sound();
    let tables = Tables::trial(alloc)?;
    Ok(tables)
}

/// The next change of a caller, who makes all of them.
fn next_call(book: &Book) -> Option<Call> {
    let last = u32::try_from(book.journal().len()).ok()?;
    Some(Call {
        caller: CallerId::of(7)?,
        number: CallNumber::of(last.saturating_add(1))?,
    })
}

fn command_of(book: &Book, act: Act) -> Result<Command, Fail>
    requires { IsServed act }
    ensures { IfOk result IsBuilt }
{
    let call = next_call(book).ok_or("no call")?;
    Ok(Command::Change(call, act))
}

fn change(alloc: Global, book: &mut Book, act: Act) -> Result<(), Fail>
    requires { IsServed act }
{
    let command = command_of(book, act)?;
    let answer = book.step(alloc, 0, &command);
    let done = match &answer.outcome {
        Outcome::Done(_) => Some(()),
        _ => None,
    };
    done.ok_or("a change was refused")?;
    Ok(())
}

fn add_row(alloc: Global, book: &mut Book, wanted: Wanted) -> Result<(), Fail> {
    let act = put(alloc, wanted)?;
    change(alloc, book, act)
}

fn add_booking(alloc: Global, book: &mut Book, booking: Booking) -> Result<(), Fail> {
    let group = group_of(alloc, booking)?;
    change(alloc, book, group)?;
    let booked = book_of(alloc, booking)?;
    change(alloc, book, booked)
}

fn add_all(
    alloc: Global,
    book: &mut Book,
    rows: &[Wanted],
    bookings: &[Booking],
) -> Result<(), Fail> {
    for row in rows {
        add_row(alloc, book, *row)?;
    }
    for booking in bookings {
        add_booking(alloc, book, *booking)?;
    }
    Ok(())
}

/// A book over the trial tables.
fn opened(alloc: Global) -> Result<Book, NoMemory> {
    match Book::over(alloc, trial(alloc)?) {
        Ok(book) => Ok(book),
        Err(_tables) => Err(NoMemory),
    }
}

/// A book over the trial tables with these rows and these bookings, which have the numbers from 1 on.
pub fn book_with(alloc: Global, rows: &[Wanted], bookings: &[Booking]) -> Result<Book, Fail> {
    let mut book = opened(alloc)?;
    add_all(alloc, &mut book, rows, bookings)?;
    Ok(book)
}
