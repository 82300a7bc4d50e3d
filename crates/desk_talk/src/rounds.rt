//! The rounds of a conversation: a request is heard, a turn is taken, and its response is sent.
ghost use Rattle.std.specs.Prelude.{◌≡◌, ◌≤◌, IfOk, IfErr, Option, List, ℕ};
ghost use Rattle.desk_io.specs.Counts.{Rose};
ghost use Rattle.desk_wire.specs.declared.rules.Request.{Request};
ghost use Rattle.desk_wire.specs.declared.responses.Response.{Response};
ghost use Rattle.desk_talk.specs.declared.ends.Stop.{Stop};
ghost use Rattle.desk_talk.specs.declared.rounds.Sent.{Sent};
ghost use Rattle.desk_talk.specs.Rounds.{IsReplied, IsSent, IsFinished, refused_as, end_after, end_of_turn};
ghost use Rattle.desk_talk.specs.Sessions.{Exchange, Session, Turns};
ghost use Rattle.desk_talk.specs.Ends.{closing};

use crate::ends::{SessionEnd, Stop, closing_response};
use crate::hearing::{Heard, hear};
use desk_io::{Sink, Source};
use desk_wire::{Framer, Request, Response, WireEnd, response_bytes};
use std::alloc::Global;

/// Who takes the turns of a conversation. It is taken by value and given back, so that what it holds moves along.
pub trait Replier: Sized {
    // a turn: from one state to the next, with this response to the request
    ghost answers: { Self → Request → Response → Self → Type 0 };

    // a turn that has no response
    ghost stops: { Self → Request → Stop → Self → Type 0 };

    // what each turn asks and keeps
    ghost ready: { Self → Type 0 };

    // what is known of the exchanges of a conversation that begins in this state
    ghost knows: { Self → List Exchange → Type 0 };

    /// Takes a turn for a request.
    fn reply(self, alloc: Global, request: &Request) -> (Self, Result<Response, Stop>)
        requires { ready self }
        ensures ready { ready result.0 }
        ensures answered { IfOk result.1 (λ response. answers self request.now response result.0) }
        ensures stopped { IfErr result.1 (λ stop. stops self request.now stop result.0) };
}

/// What became of a response.
#[derive(Clone, Copy, Debug)]
pub enum Sent {
    Whole,
    Fault,
    NoMemory,
}

/// What became of a request.
#[derive(Clone, Copy, Debug)]
pub enum Replied {
    Sent(Sent),
    Stopped(Stop),
}

/// Sends a response.
fn send<W: Sink>(alloc: Global, sink: &mut W, response: &Response) -> Sent
    ensures sent { IsSent result (W.held sink.old) (W.held sink.new) response.now }
    ensures rising { W.fault_count sink.old ≤ W.fault_count sink.new }
    ensures cause { result ≡ Sent.Fault → Rose (W.fault_count sink.old) (W.fault_count sink.new) }
{
    match response_bytes(alloc, response) {
        Ok(bytes) => match sink.give(bytes.as_slice()) {
            Ok(()) => Sent::Whole,
            Err(_) => Sent::Fault,
        },
        Err(_) => Sent::NoMemory,
    }
}

/// Takes a turn, and sends its response.
fn reply_and_send<W: Sink, E: Replier>(
    alloc: Global,
    sink: &mut W,
    engine: E,
    request: &Request,
) -> (E, Replied)
    requires { E.ready engine }
    ensures ready { E.ready result.0 }
    ensures replied { IsReplied E.answers E.stops engine request.now result.1 result.0 (W.held sink.old) (W.held sink.new) }
    ensures rising { W.fault_count sink.old ≤ W.fault_count sink.new }
    ensures cause { result.1 ≡ Replied.Sent Sent.Fault → Rose (W.fault_count sink.old) (W.fault_count sink.new) }
{
    let (engine, replied) = engine.reply(alloc, request);
    match replied {
        Ok(response) => {
            let sent = send(alloc, sink, &response);
            (engine, Replied::Sent(sent))
        }
        Err(stop) => (engine, Replied::Stopped(stop)),
    }
}

fn refused_end(end: WireEnd) -> SessionEnd
    ensures { result ≡ refused_as end }
{
    match end {
        WireEnd::Bad(rule) => SessionEnd::BadHead(rule),
        WireEnd::TooLarge(limit) => SessionEnd::TooLarge(limit),
    }
}

/// Sends the response that says why no further request is read.
fn close<W: Sink>(alloc: Global, sink: &mut W, end: WireEnd) -> SessionEnd
    ensures closed { (sent : Sent) × (result ≡ end_after end sent) × IsSent sent (W.held sink.old) (W.held sink.new) (closing end) }
    ensures rising { W.fault_count sink.old ≤ W.fault_count sink.new }
    ensures cause { result ≡ SessionEnd.WriteFault → Rose (W.fault_count sink.old) (W.fault_count sink.new) }
{
    let Ok(response) = closing_response(alloc, end) else {
        return SessionEnd::NoMemory;
    };
    match send(alloc, sink, &response) {
        Sent::Whole => refused_end(end),
        Sent::Fault => SessionEnd::WriteFault,
        Sent::NoMemory => SessionEnd::NoMemory,
    }
}

/// Ends the conversation after what was heard in the place of a request. `empty` says that nothing is left of the rest.
fn finish<W: Sink>(alloc: Global, sink: &mut W, heard: &Heard, empty: bool) -> SessionEnd
    ensures finished { IsFinished heard.now empty result (W.held sink.old) (W.held sink.new) }
    ensures rising { W.fault_count sink.old ≤ W.fault_count sink.new }
    ensures cause { result ≡ SessionEnd.WriteFault → Rose (W.fault_count sink.old) (W.fault_count sink.new) }
{
    match heard {
        Heard::Request(_) => SessionEnd::NoMemory,
        Heard::Refused(end) => close(alloc, sink, *end),
        Heard::AtEnd => {
            if empty {
                SessionEnd::Closed
            } else {
                SessionEnd::Truncated
            }
        }
        Heard::Fault => SessionEnd::ReadFault,
        Heard::Budget => SessionEnd::BudgetEnd,
        Heard::NoMemory => SessionEnd::NoMemory,
    }
}

/// The end that a turn brings, if it does.
fn turn_end(replied: Replied, close: bool) -> Option<SessionEnd>
    ensures { result ≡ end_of_turn replied close }
{
    match replied {
        Replied::Sent(Sent::Whole) => {
            if close {
                Some(SessionEnd::Closed)
            } else {
                None
            }
        }
        Replied::Sent(Sent::Fault) => Some(SessionEnd::WriteFault),
        Replied::Sent(Sent::NoMemory) => Some(SessionEnd::NoMemory),
        Replied::Stopped(Stop::NoMemory) => Some(SessionEnd::NoMemory),
        Replied::Stopped(Stop::Spent) => Some(SessionEnd::Spent),
    }
}

/// Holds one conversation: the requests of the source, a turn for each, and the responses to the sink.
pub fn converse<S: Source, W: Sink, E: Replier>(
    alloc: Global,
    source: &mut S,
    sink: &mut W,
    engine: E,
) -> (E, SessionEnd)
    requires ready { E.ready engine }

    // Each chain of turns from here on is one of which that is known.
    requires knows { (exchanges : List Exchange) (now : E) → Turns E.answers engine exchanges now → E.knows engine exchanges }
    ensures ready { E.ready result.0 }

    // What was taken, answered, known of it and sent, by how the conversation ended.
    ensures session { Session E.answers E.stops (E.knows engine) (S.left source.old) (S.left source.new) (W.held sink.old) (W.held sink.new) engine result.0 result.1 }
    ensures read_fault { result.1 ≡ SessionEnd.ReadFault → Rose (S.fault_count source.old) (S.fault_count source.new) }
    ensures write_fault { result.1 ≡ SessionEnd.WriteFault → Rose (W.fault_count sink.old) (W.fault_count sink.new) }
    ensures source { S.fault_count source.old ≤ S.fault_count source.new }
    ensures sink { W.fault_count sink.old ≤ W.fault_count sink.new }
{
    let mut framer = Framer::new(alloc);
    let mut now = engine;
    let mut taken = 0;
    loop {
        let (heard, count) = hear(alloc, source, &mut framer, taken);
        let Heard::Request(request) = heard else {
            let empty = framer.is_empty();
            return (now, finish(alloc, sink, &heard, empty));
        };
        taken = count;
        let (next, replied) = reply_and_send(alloc, sink, now, &request);
        now = next;
        if let Some(end) = turn_end(replied, request.close) {
            return (now, end);
        }
    }
}
