//! A framer: it is fed the bytes of a connection in any pieces, and whole requests are taken off its front.
ghost use Rattle.std.specs.Prelude.{◌≡◌, ◌≤◌, ◌+◌, ◌++◌, ◌↔◌, IsTrue, [], None, Some, Ok, IfOk, OnOk, OnErr, Option, drop, length, vec_len};
ghost use Rattle.desk_wire.specs.Framers.{next_of, end_of};
ghost use Rattle.desk_wire.specs.Requests.{Frames};
ghost use Rattle.desk_wire.specs.declared.rules.WireEnd.{WireEnd};

use crate::reading::{Found, FrontStep, front_step};
use crate::rules::{Next, WireEnd};
use desk_io::NoMemory;
use std::alloc::Global;
use std::marker::Model;

/// Contracts see the bytes that were fed and not taken off, the refusal that was answered, if one was, and how many bytes are
/// kept that were taken off. A head is read once: while its body is not whole, what was found of it is kept.
#[derive(Drop)]
pub struct Framer {
    bytes: Vec<u8>,
    start: usize,
    kept: Option<Found>,
    ended: Option<WireEnd>,
}

impl Model for Framer {
    ghost use Rattle.std.specs.Prelude.{◌≤◌, ◌+◌, drop, vec_len};
    ghost use Rattle.desk_wire.specs.Fed.{Fed};
    ghost use Rattle.desk_wire.specs.Looks.{IsKept};

    ghost Value = { Fed };

    ghost view = { λ f. record { rest = drop f.start f.bytes.items; ended = f.ended; spent = f.start } };

    ghost invariant = { λ f. (f.start + f.start ≤ vec_len f.bytes) × IsKept (drop f.start f.bytes.items) f.kept };
}

impl Framer {
    /// A framer that was fed nothing; this takes no memory.
    pub fn new(alloc: Global) -> Framer
        ensures rest { result.rest ≡ [] }
        ensures ended { result.ended ≡ None }
        ensures spent { result.spent ≡ 0 }
    {
        Framer {
            bytes: Vec::new(alloc),
            start: 0,
            kept: None,
            ended: None,
        }
    }

    /// Puts the piece behind the bytes that are there.
    pub fn feed(&mut self, piece: &[u8]) -> Result<(), NoMemory>
        ensures ok { OnOk result (self.new.rest ≡ self.old.rest ++ piece.now) }
        ensures ended { self.new.ended ≡ self.old.ended }
        ensures spent { self.new.spent ≤ length self.old.rest }
        ensures err { OnErr result (self.new ≡ self.old) }
    {
        self.bytes.extend_from_slice(piece)?;
        Ok(())
    }

    /// Whether nothing that was fed is left.
    pub fn is_empty(&self) -> bool
        ensures { IsTrue result ↔ (self.now.rest ≡ []) }
    {
        self.bytes[self.start..].is_empty()
    }

    /// Takes the first whole request off the front, or says why there is none. After `Bad` and `TooLarge` it answers
    /// the same from then on. A byte is moved at most a fixed number of times on average: what was taken off is dropped once
    /// it is at least as much as what is left.
    pub fn next_request(&mut self, alloc: Global) -> Result<Next, NoMemory>
        ensures first { self.old.ended ≡ None → IfOk result (λ next. Frames self.old.rest next self.new.rest × (self.new.ended ≡ end_of next)) }
        ensures same { (e : WireEnd) → self.old.ended ≡ Some e → (result ≡ Ok (next_of e)) × (self.new ≡ self.old) }
        ensures spent { self.new.spent ≤ length self.new.rest }
        ensures err { OnErr result (self.new ≡ self.old) }
    {
        if let Some(end) = self.ended {
            return Ok(next_at(end));
        }
        let FrontStep { next, taken, kept } = front_step(
            alloc,
            &self.bytes[self.start..],
            self.kept,
        )?;
        self.start = drop_spent(&mut self.bytes, self.start + taken);
        self.kept = kept;
        self.ended = end_at(&next);
        Ok(next)
    }
}

// Drops the first `count` bytes; this takes no memory.
fn drop_front(bytes: &mut Vec<u8>, count: usize)
    requires { count ≤ vec_len bytes.old }
    ensures items { bytes.new.items ≡ drop count bytes.old.items }
{
    bytes.drain(..count);
}

// Drops the first `count` bytes where they are at least half of all, and answers how many of them are still there.
fn drop_spent(bytes: &mut Vec<u8>, count: usize) -> usize
    requires { count ≤ vec_len bytes.old }
    ensures rest { drop result bytes.new.items ≡ drop count bytes.old.items }
    ensures few { result + result ≤ vec_len bytes.new }
{
    if count < bytes.len() - count {
        return count;
    }
    drop_front(bytes, count);
    0
}

fn next_at(end: WireEnd) -> Next
    ensures { result ≡ next_of end }
{
    match end {
        WireEnd::Bad(rule) => Next::Bad(rule),
        WireEnd::TooLarge(limit) => Next::TooLarge(limit),
    }
}

fn end_at(next: &Next) -> Option<WireEnd>
    ensures { result ≡ end_of next.now }
{
    match next {
        Next::Request(_) => None,
        Next::More => None,
        Next::Bad(rule) => Some(WireEnd::Bad(*rule)),
        Next::TooLarge(limit) => Some(WireEnd::TooLarge(*limit)),
    }
}
