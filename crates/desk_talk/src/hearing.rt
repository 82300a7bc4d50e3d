//! What is heard of a source: a whole request, a rest that is refused, or why there is no more.
ghost use Rattle.std.specs.Prelude.{◌≡◌, ◌<◌, ◌≤◌, ◌+◌, ◌^◌, None, ◌-◌, min};
ghost use Rattle.std.specs.Io.KnownBytes.{IsAtEnd};
ghost use Rattle.desk_io.specs.Counts.{Rose};
ghost use Rattle.desk_talk.specs.Hearing.{Hears, BeginsWhole, IsPulled, taken_limit, counted_limit};

use desk_io::Source;
use desk_wire::{Framer, Next, Request, WireEnd};
use std::alloc::Global;

/// What was heard next.
#[derive(Debug, Drop)]
pub enum Heard {
    Request(Request),
    Refused(WireEnd),
    AtEnd,
    Fault,
    Budget,
    NoMemory,
}

/// How many bytes a connection may send: after that many no more are taken.
pub const MOST_TAKEN: u64 = 4_294_967_296;

/// What one call of the source brought.
#[derive(Clone, Copy, Debug)]
enum Pulled {
    Bytes(usize),
    AtEnd,
    Fault,
    NoMemory(usize),
}

/// Feeds the next bytes of the source to the framer, at most 4,096.
fn pull<S: Source>(alloc: Global, source: &mut S, framer: &mut Framer) -> Pulled
    ensures pulled { IsPulled result (S.left source.old) (S.left source.new) framer.old framer.new }
    ensures rising { S.fault_count source.old ≤ S.fault_count source.new }
    ensures cause { result ≡ Pulled.Fault → Rose (S.fault_count source.old) (S.fault_count source.new) }
{
    let mut piece = [0; 4096];
    match source.take(&mut piece) {
        Ok(0) => Pulled::AtEnd,
        Ok(n) => match framer.feed(&piece[..n]) {
            Ok(()) => Pulled::Bytes(n),
            Err(_) => Pulled::NoMemory(n),
        },
        Err(_) => Pulled::Fault,
    }
}

/// Takes bytes until a whole request is there, or says why there is none. The number is how many bytes were taken on this
/// connection, `before` of them earlier.
pub fn hear<S: Source>(
    alloc: Global,
    source: &mut S,
    framer: &mut Framer,
    before: u64,
) -> (Heard, u64)
    requires waits { framer.old.ended ≡ None }
    requires budget { before < counted_limit }
    ensures hears { Hears (S.left source.old) (S.left source.new) before result.1 framer.old framer.new result.0 }

    // What begins with a whole request is heard before the source is asked for more.
    ensures first { BeginsWhole framer.old.rest → (source.new ≡ source.old) × (result.1 ≡ before) }
    ensures input { result.0 ≡ Heard.AtEnd → IsAtEnd (S.left source.new) }
    ensures budget { result.1 < counted_limit }
    ensures spent { result.0 ≡ Heard.Budget → taken_limit ≤ result.1 }
    ensures rising { S.fault_count source.old ≤ S.fault_count source.new }
    ensures cause { result.0 ≡ Heard.Fault → Rose (S.fault_count source.old) (S.fault_count source.new) }
{
    let mut taken = before;
    loop {
        match framer.next_request(alloc) {
            Ok(Next::Request(request)) => return (Heard::Request(request), taken),
            Ok(Next::Bad(rule)) => return (Heard::Refused(WireEnd::Bad(rule)), taken),
            Ok(Next::TooLarge(limit)) => return (Heard::Refused(WireEnd::TooLarge(limit)), taken),
            Ok(Next::More) => {}
            Err(_) => return (Heard::NoMemory, taken),
        }
        if taken >= MOST_TAKEN {
            return (Heard::Budget, taken);
        }
        match pull(alloc, source, framer) {
            Pulled::Bytes(n) => taken += n as u64,
            Pulled::AtEnd => return (Heard::AtEnd, taken),
            Pulled::Fault => return (Heard::Fault, taken),
            Pulled::NoMemory(n) => return (Heard::NoMemory, taken + n as u64),
        }
    }
}
