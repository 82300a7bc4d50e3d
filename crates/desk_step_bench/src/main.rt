//! What steps of the one-thread scheduler cost: a program that takes one step often, and is timed from outside.
//!
//! Its words are the work, how many resources the schedule has, and how often the work is done. The schedule is made by steps, from
//! empty tables on. It prints the words, and how many steps of the work were accepted.
#![tactic(auto)]

mod acts;
mod filling;
mod stop;
mod taking;
mod words;
mod works;

use crate::filling::filled;
use crate::stop::Stop;
use crate::words::{Work, work_of};
use crate::works::accepted;
use desk_core::Book;
use std::alloc::Global;
use std::env;
use std::process::ExitCode;

/// The status where the words are none that it knows.
const USAGE: u8 = 2;

/// The status where nothing can be printed.
const UNPRINTED: u8 = 7;

/// What is asked for: the work, over how many resources, and how often.
#[derive(Clone, Copy, Debug)]
struct Asked {
    work: Option<Work>,
    resources: u16,
    rounds: u32,
}

fn read_words(rt: &HostRuntime) -> Asked {
    let mut asked = Asked {
        work: None,
        resources: 0,
        rounds: 0,
    };
    if let Ok(args) = env::args(rt) {
        for (i, arg) in args.skip(1).take(3).enumerate() {
            match i {
                0 => asked.work = work_of(arg.as_str()),
                1 => asked.resources = arg.parse::<u16>().unwrap_or(0),
                _ => asked.rounds = arg.parse::<u32>().unwrap_or(0),
            }
        }
    }
    asked
}

/// Lets a book go.
fn discard(book: Book) {
    let _ = book;
}

/// How many steps of the work were accepted, in all of its rounds.
fn found(alloc: Global, work: Work, resources: u16, rounds: u32) -> Result<u32, Stop> {
    let mut book = filled(alloc, resources)?;
    let found = accepted(alloc, &mut book, work, resources, rounds);
    discard(book);
    found
}

fn main(rt: HostRuntime) -> ExitCode {
    let asked = read_words(&rt);
    let Some(work) = asked.work else {
        return ExitCode::from(USAGE);
    };
    match found(rt.alloc(), work, asked.resources, asked.rounds) {
        Ok(found) => {
            if println!(rt; "{work:?} {} {} {found}", asked.resources, asked.rounds).is_err() {
                return ExitCode::from(UNPRINTED);
            }
            ExitCode::from(0)
        }
        Err(stop) => ExitCode::from(stop.status()),
    }
}
