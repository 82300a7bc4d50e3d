//! Clients that wait: the program asks them for more only where they have more to say.
//!
//! A source that would block for ever fails here instead, so a program that asks it at the wrong moment ends with another status.
use crate::runs::{LISTING, ROWS, TRIAL, words_of};
use desk_batch::run;
use desk_io::{Failed, Sink, Source};
use std::alloc::Global;
use std::cell::Cell;
use std::process::Abort;
use std::test::Fail;

/// What a client sends once it has received so many bytes: a piece of its requests, or nothing, which ends its input.
type Step = (usize, Vec<u8>);

/// The sending end of a client. It fails where it is asked while it waits for an answer.
#[derive(Drop)]
struct Sending<'a> {
    received: &'a Cell<usize>,
    steps: Vec<Step>,
    /// The number of the next step.
    next: usize,
    faults: u64,
}

impl Source for Sending<'_> {
    ghost fault_count = { λ s. s.faults };

    fn take(&mut self, into: &mut [u8]) -> Result<usize, Failed> {
        let Some((wanted, piece)) = self.steps.get(self.next) else {
            return Ok(0);
        };
        let length = piece.len();
        if self.received.get() < *wanted || length > into.len() {
            self.faults = self.faults.saturating_add(1);
            return Err(Failed);
        }
        into[..length].copy_from_slice(piece.as_slice());
        self.next = self.next.saturating_add(1);
        Ok(length)
    }

    fn faults(&self) -> u64 {
        self.faults
    }
}

/// The receiving end of the same client, which counts what it is given.
#[derive(Drop)]
struct Receiving<'a> {
    received: &'a Cell<usize>,
}

impl Sink for Receiving<'_> {
    ghost fault_count = { λ s. 0 };

    fn give(&mut self, piece: &[u8]) -> Result<(), Failed> {
        let received = self.received.get();
        self.received.set(received.saturating_add(piece.len()));
        Ok(())
    }

    fn faults(&self) -> u64 {
        0
    }
}

/// Runs the program with a client of these steps, and compares its status and how many bytes the client received.
fn is_served(rt: &impl Abort, alloc: Global, steps: Vec<Step>, bytes: usize) -> Result<(), Fail> {
    let words = words_of(alloc, TRIAL)?;
    let received = Cell::new(0);
    let mut source = Sending {
        received: &received,
        steps,
        next: 0,
        faults: 0,
    };
    let mut sink = Receiving {
        received: &received,
    };
    let status = run(alloc, words.as_slice(), &mut source, &mut sink);
    assert_eq!(rt; status, 0);
    assert_eq!(rt; received.get(), bytes);
    Ok(())
}

fn push(alloc: Global, steps: &mut Vec<Step>, wanted: usize, piece: &[u8]) -> Result<(), Fail> {
    steps.push((wanted, piece.to_vec(alloc)?))?;
    Ok(())
}

#[test]
fn a_client_that_waits_for_each_answer(rt: HostRuntime) -> Result<(), Fail> {
    let alloc = rt.alloc();
    let one = LISTING.len();
    let mut steps = Vec::new(alloc);
    push(alloc, &mut steps, 0, ROWS)?;
    push(alloc, &mut steps, one, ROWS)?;
    push(alloc, &mut steps, 2 * one, b"")?;
    is_served(&rt, alloc, steps, 2 * one)
}

#[test]
fn a_client_that_sends_two_requests_and_waits_for_both(rt: HostRuntime) -> Result<(), Fail> {
    let alloc = rt.alloc();
    let one = LISTING.len();
    let mut two = ROWS.to_vec(alloc)?;
    two.extend_from_slice(ROWS)?;
    let mut steps = Vec::new(alloc);
    push(alloc, &mut steps, 0, two.as_slice())?;
    push(alloc, &mut steps, 2 * one, b"")?;
    is_served(&rt, alloc, steps, 2 * one)
}

#[test]
fn a_client_that_sends_halves(rt: HostRuntime) -> Result<(), Fail> {
    let alloc = rt.alloc();
    let one = LISTING.len();
    let half = ROWS.len() / 2;
    let mut steps = Vec::new(alloc);
    push(alloc, &mut steps, 0, &ROWS[..half])?;
    push(alloc, &mut steps, 0, &ROWS[half..])?;
    push(alloc, &mut steps, one, &ROWS[..half])?;
    push(alloc, &mut steps, one, &ROWS[half..])?;
    push(alloc, &mut steps, 2 * one, b"")?;
    is_served(&rt, alloc, steps, 2 * one)
}
