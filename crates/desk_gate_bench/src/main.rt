//! What turns of a gate cost: a program that takes many of them, on as many threads as are asked for, and is timed from
//! outside.
//!
//! Its words are how many threads there are (1 to 4), and how many turns each takes. In a turn the shared counter rises
//! by one. It prints the counter.
#![tactic(auto)]

ghost use Rattle.std.specs.Prelude.{◌≡◌, ◌≤◌, [], length, IsSomeAnd, All};
ghost use Rattle.std.specs.Thread.{IsSync};
ghost use Rattle.desk_gate.specs.Passes.{IsOf};

use desk_gate::{Counted, Entered, Gate, Pass};
use std::alloc::{AllocError, Global};
use std::process::ExitCode;
use std::sync::Wait;
use std::thread::Threads;
use std::{env, thread};

/// How many threads there are at most.
const MOST_THREADS: usize = 4;

/// A counter, whose history stays empty.
#[derive(Drop)]
struct Counter {
    turns: u64,
}

impl Counted for Counter {
    type Entry = ();

    type Origin = ();

    ghost history = { λ _. [] };

    ghost author = { λ _. 0 };

    ghost origin_of = { λ _. tt };

    ghost fault_count = { λ _. 0 };

    fn count(&self) -> u64 {
        0
    }

    fn faults(&self) -> u64 {
        0
    }
}

/// What a thread has.
#[derive(Drop)]
struct Caller {
    pass: Option<Pass<Counter>>,
}

/// One turn, in which the counter rises.
fn take_turn<R: Wait>(rt: &R, gate: &Gate<Counter>, pass: Pass<Counter>) -> Pass<Counter>
    requires { IsOf gate.now pass }
    ensures { IsOf gate.now result }
{
    match gate.enter(rt, pass) {
        Entered::Turn(mut turn) => {
            turn.value.turns = turn.value.turns.wrapping_add(1);
            gate.leave(turn)
        }
        Entered::Spent(pass) => pass,
    }
}

/// So many turns, one after another.
fn take_turns<R: Wait>(
    rt: &R,
    gate: &Gate<Counter>,
    pass: Pass<Counter>,
    times: u32,
) -> Pass<Counter>
    requires { IsOf gate.now pass }
    ensures { IsOf gate.now result }
{
    let mut pass = pass;
    for _ in 0..times {
        pass = take_turn(rt, gate, pass);
    }
    pass
}

/// Each caller takes so many turns, on a thread of its own.
fn all_take_turns<R: Threads + Wait + Sync>(
    rt: &R,
    gate: &Gate<Counter>,
    callers: &mut [Caller],
    times: u32,
)
    requires { All (λ w. IsSomeAnd w.pass (λ p. IsOf gate.now p)) callers.old }
{
    thread::for_each_mut(
        rt,
        callers,
        MOST_THREADS,
        &|_, caller: &mut Caller|
            requires { IsSync R.row × IsSomeAnd caller.now.pass (λ p. IsOf gate.now p) }
        {
            if let Some(pass) = caller.pass.take() {
                caller.pass = Some(take_turns(rt, gate, pass, times));
            }
        },
    );
}

/// The counter, after so many turns on each of so many threads.
fn counted<R: Threads + Wait + Sync>(
    rt: &R,
    alloc: Global,
    threads: usize,
    times: u32,
) -> Result<u64, AllocError>
    requires { threads ≤ MOST_THREADS }
{
    let (gate, whole) = Gate::new(alloc, Counter { turns: 0 }).map_err(|_| AllocError)?;
    let (own, first) = gate.split(whole, 1).map_err(|_| AllocError)?;
    let (own, second) = gate.split(own, 1).map_err(|_| AllocError)?;
    let (own, third) = gate.split(own, 1).map_err(|_| AllocError)?;
    let (own, fourth) = gate.split(own, 1).map_err(|_| AllocError)?;
    let mut callers = [
        Caller { pass: Some(first) },
        Caller { pass: Some(second) },
        Caller { pass: Some(third) },
        Caller { pass: Some(fourth) },
    ];
    all_take_turns(rt, &gate, &mut callers[..threads], times);
    match gate.enter(rt, own) {
        Entered::Turn(turn) => {
            let turns = turn.value.turns;
            let _own = gate.leave(turn);
            Ok(turns)
        }
        Entered::Spent(_) => Ok(0),
    }
}

fn main(rt: HostRuntime) -> ExitCode {
    let mut words = [1u32, 0];
    if let Ok(args) = env::args(&rt) {
        for (i, arg) in args.skip(1).take(2).enumerate() {
            if let Some(word) = words.get_mut(i) {
                *word = arg.parse::<u32>().unwrap_or(0);
            }
        }
    }
    let threads = (words[0] as usize).min(MOST_THREADS);
    let Ok(turns) = counted(&rt, rt.alloc(), threads, words[1]) else {
        return ExitCode::from(10);
    };
    if println!(rt; "{turns}").is_err() {
        return ExitCode::from(7);
    }
    ExitCode::from(0)
}
