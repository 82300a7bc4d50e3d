//! What the work on a schedule costs: a program that does one work often, and is timed from outside.
//!
//! Its words are the work, how many resources the schedule has, and how often the work is done. It prints them, and a count
//! that shows what was found.
#![tactic(auto)]

mod ready;
mod schedule;
mod stop;
mod words;
mod works;

use crate::schedule::fill;
use crate::stop::Stop;
use crate::words::{Work, work_of};
use desk_base::Tables;
use std::alloc::Global;
use std::env;
use std::process::ExitCode;

/// The status where the words are none that it knows.
const USAGE: u8 = 2;

/// The status where nothing can be printed.
const UNPRINTED: u8 = 7;

/// What is asked for: the work, of how many resources, and how often.
#[derive(Clone, Copy, Debug)]
struct Asked {
    work: Option<Work>,
    resources: u16,
    rounds: u32,
}

fn read_words(rt: &HostRuntime) -> Asked {
    let mut asked = Asked {
        work: None,
        resources: 0,
        rounds: 0,
    };
    if let Ok(args) = env::args(rt) {
        for (i, arg) in args.skip(1).take(3).enumerate() {
            match i {
                0 => asked.work = work_of(arg.as_str()),
                1 => asked.resources = arg.parse::<u16>().unwrap_or(0),
                _ => asked.rounds = arg.parse::<u32>().unwrap_or(0),
            }
        }
    }
    asked
}

/// What the work finds, in all of its rounds.
fn found(alloc: Global, work: Work, resources: u16, rounds: u32) -> Result<usize, Stop> {
    let mut tables = Tables::empty(alloc);
    fill(alloc, &mut tables, resources, work == Work::Same)?;
    ready::found(alloc, &tables, work, rounds)
}

fn main(rt: HostRuntime) -> ExitCode {
    let asked = read_words(&rt);
    let Some(work) = asked.work else {
        return ExitCode::from(USAGE);
    };
    match found(rt.alloc(), work, asked.resources, asked.rounds) {
        Ok(found) => {
            if println!(rt; "{work:?} {} {} {found}", asked.resources, asked.rounds).is_err() {
                return ExitCode::from(UNPRINTED);
            }
            ExitCode::from(0)
        }
        Err(stop) => ExitCode::from(stop.status()),
    }
}
