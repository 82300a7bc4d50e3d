//! Turns: a request that reads as a command has one, and every other its refusal.
ghost use Rattle.std.specs.Prelude.{◌≡◌, List, IfOk, IfErr, OnOk, IfSome, IfNone};
ghost use Rattle.desk_wire.specs.declared.rules.Request.{Request};
ghost use Rattle.desk_wire.specs.declared.responses.Response.{Response};
ghost use Rattle.desk_base.specs.declared.asked.answers.Answer.{Answer};
ghost use Rattle.desk_base.specs.declared.asked.answers.Command.{Command};
ghost use Rattle.desk_talk.specs.declared.ends.Stop.{Stop};
ghost use Rattle.desk_json.specs.AnsweredPages.{ShowsPlaces};
ghost use Rattle.desk_talk.specs.Sessions.{Exchange};
ghost use Rattle.desk_route.specs.Exchanges.{Exchanged, IsRequested, IsResponse, IsStopped};
ghost use Rattle.desk_route.specs.Requesting.{Reads};
ghost use Rattle.desk_route.specs.Replies.{answer_response, refusal_response};

use crate::laws::requests_ask_for_listed_commands;
use crate::refusals::WebRefusal;
use crate::replies::{answer_response, refusal_response};
use crate::requests::{Routed, read_request};
use crate::routes::Routes;
use desk_base::{Answer, Command};
use desk_talk::{Replier, Stop};
use desk_wire::{Request, Response};
use std::alloc::Global;

/// Who takes the turns of requests: alone, or as one of several.
pub trait Taker: Sized {
    // a turn: from one state to the next, with this answer to the command
    ghost turn: { Self → Command → Answer → Self → Type 0 };

    // no turn can be drawn
    ghost spent: { Self → Self → Type 0 };

    // what each turn asks and keeps
    ghost ready: { Self → Type 0 };

    // what is known of the exchanges of a conversation that begins in this state
    ghost knows: { Self → List Exchange → Type 0 };

    /// Takes a turn for a command. `None` says that no turn can be drawn any more.
    fn take_turn(self, alloc: Global, command: &Command) -> (Self, Option<Answer>)
        requires ready { ready self }
        requires asked { IsRequested command.now }
        ensures ready { ready result.0 }
        ensures turn { IfSome result.1 (λ answer. turn self command.now answer result.0) }
        ensures spent { IfNone result.1 (spent self result.0) };
}

/// Reads each request, takes a turn for a command, and answers. A refusal has no turn.
pub struct Serving<T> {
    pub taker: T,
    pub routes: Routes,
}

/// The response of a refusal, or why there is none.
fn refuse(alloc: Global, request: &Request, refusal: &WebRefusal) -> Result<Response, Stop>
    ensures response { IfOk result (λ r. r ≡ refusal_response request.now refusal.now) }
    ensures stop { IfErr result (λ stop. stop ≡ Stop.NoMemory) }
{
    match refusal_response(alloc, request, refusal) {
        Ok(response) => Ok(response),
        Err(_) => Err(Stop::NoMemory),
    }
}

/// The response of an answer, or why there is none.
fn answer_with(alloc: Global, request: &Request, answer: &Answer) -> Result<Response, Stop>
    ensures response { IfOk result (λ r. r ≡ answer_response request.now answer.now) }
    ensures places { OnOk result (ShowsPlaces answer.now.outcome) }
    ensures stop { IfErr result (λ stop. stop ≡ Stop.NoMemory) }
{
    match answer_response(alloc, request, answer) {
        Ok(response) => Ok(response),
        Err(_) => Err(Stop::NoMemory),
    }
}

/// The response of what a turn came to, or why there is none.
fn respond(alloc: Global, request: &Request, answer: &Option<Answer>) -> Result<Response, Stop>
    ensures { IsResponse request.now answer.now result }
{
    match answer {
        Some(answer) => answer_with(alloc, request, answer),
        None => Err(Stop::Spent),
    }
}

/// Takes the turn of a command, and answers.
fn take_and_answer<T: Taker>(
    alloc: Global,
    taker: T,
    request: &Request,
    command: &Command,
) -> (T, Result<Response, Stop>)
    requires ready { T.ready taker }
    requires reads { Reads request.now (Routed.Command command.now) }
    ensures ready { T.ready result.0 }
    ensures answered { IfOk result.1 (λ response. Exchanged T.turn taker request.now response result.0) }
    ensures stopped { IfErr result.1 (λ stop. IsStopped T.turn T.spent taker request.now stop result.0) }
{
    requests_ask_for_listed_commands();
    let (taker, answer) = taker.take_turn(alloc, command);
    let response = respond(alloc, request, &answer);
    (taker, response)
}

/// Answers a request that was read.
fn reply_to<T: Taker>(
    alloc: Global,
    taker: T,
    request: &Request,
    routed: &Routed,
) -> (T, Result<Response, Stop>)
    requires ready { T.ready taker }
    requires reads { Reads request.now routed.now }
    ensures ready { T.ready result.0 }
    ensures answered { IfOk result.1 (λ response. Exchanged T.turn taker request.now response result.0) }
    ensures stopped { IfErr result.1 (λ stop. IsStopped T.turn T.spent taker request.now stop result.0) }
{
    match routed {
        Routed::Command(command) => take_and_answer(alloc, taker, request, command),
        Routed::Refused(refusal) => (taker, refuse(alloc, request, refusal)),
    }
}

impl<T: Taker> Replier for Serving<T> {
    ghost answers = { λ s q r t. Exchanged T.turn s.taker q r t.taker };

    ghost stops = { λ s q why t. IsStopped T.turn T.spent s.taker q why t.taker };

    ghost ready = { λ s. T.ready s.taker };

    ghost knows = { λ s exchanges. T.knows s.taker exchanges };

    fn reply(self, alloc: Global, request: &Request) -> (Self, Result<Response, Stop>) {
        let Serving { taker, routes } = self;
        let Ok(routed) = read_request(alloc, &routes, request) else {
            return (Serving { taker, routes }, Err(Stop::NoMemory));
        };
        let (taker, response) = reply_to(alloc, taker, request, &routed);
        (Serving { taker, routes }, response)
    }
}
