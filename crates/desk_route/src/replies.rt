//! The responses to requests.
ghost use Rattle.std.specs.Prelude.{◌≡◌, ◌++◌, codes, IfOk, OnOk};
ghost use Rattle.desk_json.specs.AnsweredPages.{ShowsPlaces};
ghost use Rattle.desk_route.specs.Requesting.{is_head};
ghost use Rattle.desk_route.specs.Replies.{json_response, refusal_status, outcome_status, answer_response, web_status, allow_of, rule_name, web_text, refusal_response};

use crate::parameters::parameter_name;
use crate::refusals::WebRefusal;
use desk_base::{Answer, NoMemory, Outcome, Refusal};
use desk_io::Bytes;
use desk_json::{BodyRule, answer_text, field_name};
use desk_wire::{Allow, BodyKind, Request, Response};
use std::alloc::Global;

fn is_head(request: &Request) -> bool
    ensures { result ≡ is_head request.now.method }
{
    request.method.as_slice() == b"HEAD".as_slice()
}

fn json_response(request: &Request, status: u16, allow: Option<Allow>, body: Bytes) -> Response
    ensures { result ≡ json_response request.now status allow body }
{
    Response {
        status,
        kind: BodyKind::Json,
        allow,
        close: request.close,
        bare: is_head(request),
        body,
    }
}

fn refusal_status(refusal: &Refusal) -> u16
    ensures { result ≡ refusal_status refusal.now }
{
    match refusal {
        Refusal::UnknownId(_) => 404,
        Refusal::BadField(_) => 422,
        Refusal::BadTree(_, _) => 422,
        _ => 409,
    }
}

fn outcome_status(outcome: &Outcome) -> u16
    ensures { result ≡ outcome_status outcome.now }
{
    match outcome {
        Outcome::Done(_) => 200,
        Outcome::Repeated(_) => 200,
        Outcome::Refused(refusal) => refusal_status(refusal),
        Outcome::NoMemory => 507,
    }
}

/// The response to a request that was answered: 200 where a command was done or had been done before, 404 where it names what is not
/// there, 422 where a field or a tree breaks a rule of its own, 409 for every other refusal (RFC 9110), and 507 for want of memory
/// (RFC 4918). A HEAD gets the head of the response to a GET, and no body.
#[tactic(auto, unfolding(crate::specs::Replies::answer_response))]
pub fn answer_response(
    alloc: Global,
    request: &Request,
    answer: &Answer,
) -> Result<Response, NoMemory>
    ensures response { IfOk result (λ response. response ≡ answer_response request.now answer.now) }
    ensures places { OnOk result (ShowsPlaces answer.now.outcome) }
{
    let text = answer_text(alloc, answer)?;
    let body = Bytes::from_vec(text.into_vec());
    Ok(json_response(request, outcome_status(&answer.outcome), None, body))
}

fn web_status(refusal: &WebRefusal) -> u16
    ensures { result ≡ web_status refusal.now }
{
    match refusal {
        WebRefusal::NoRoute => 404,
        WebRefusal::WrongMethod(_) => 405,
        WebRefusal::BadParameter(_) => 400,
        WebRefusal::BadCursor => 400,
        WebRefusal::BadBody(_, _) => 400,
        WebRefusal::NotBuilt => 501,
    }
}

/// The method that the route has, where the request has another.
fn allow_of(refusal: &WebRefusal) -> Option<Allow>
    ensures { result ≡ allow_of refusal.now }
{
    match refusal {
        WebRefusal::WrongMethod(allow) => Some(*allow),
        _ => None,
    }
}

/// The name of a rule of bodies.
fn rule_name(rule: BodyRule) -> &'static str
    ensures { result.now ≡ rule_name rule }
{
    match rule {
        BodyRule::Syntax => "syntax",
        BodyRule::Object => "object",
        BodyRule::Missing => "missing",
        BodyRule::Sort => "type",
        BodyRule::Range => "range",
        BodyRule::Moment => "moment",
        BodyRule::Unknown => "unknown",
    }
}

/// A copy of a text.
fn text(alloc: Global, of: &str) -> Result<Vec<u8>, NoMemory>
    ensures { IfOk result (λ text. text.items ≡ of.now) }
{
    let text = Vec::from_slice(alloc, of.as_bytes())?;
    Ok(text)
}

/// A text between two others.
fn between(alloc: Global, front: &str, word: &str, back: &str) -> Result<Vec<u8>, NoMemory>
    ensures { IfOk result (λ text. text.items ≡ front.now ++ word.now ++ back.now) }
{
    let mut text = text(alloc, front)?;
    text.extend_from_slice(word.as_bytes())?;
    text.extend_from_slice(back.as_bytes())?;
    Ok(text)
}

/// The body that tells the first fault of a body.
fn bad_body(alloc: Global, field: &str, rule: &str) -> Result<Vec<u8>, NoMemory>
    ensures { IfOk result (λ text. text.items ≡ codes "{\"error\":\"bad_body\",\"field\":\"" ++ field.now ++ codes "\",\"rule\":\"" ++ rule.now ++ codes "\"}") }
{
    let mut text = between(
        alloc,
        "{\"error\":\"bad_body\",\"field\":\"",
        field,
        "\",\"rule\":\"",
    )?;
    text.extend_from_slice(rule.as_bytes())?;
    text.extend_from_slice(b"\"}")?;
    Ok(text)
}

fn web_text(alloc: Global, refusal: &WebRefusal) -> Result<Vec<u8>, NoMemory>
    ensures { IfOk result (λ text. text.items ≡ web_text refusal.now) }
{
    match refusal {
        WebRefusal::NoRoute => text(alloc, "{\"error\":\"no_route\"}"),
        WebRefusal::WrongMethod(_) => text(alloc, "{\"error\":\"wrong_method\"}"),
        WebRefusal::BadParameter(parameter) => between(
            alloc,
            "{\"error\":\"bad_parameter\",\"parameter\":\"",
            parameter_name(*parameter),
            "\"}",
        ),
        WebRefusal::BadCursor => text(alloc, "{\"error\":\"bad_cursor\"}"),
        WebRefusal::BadBody(rule, field) => bad_body(alloc, field_name(*field), rule_name(*rule)),
        WebRefusal::NotBuilt => text(alloc, "{\"error\":\"not_built\"}"),
    }
}

/// The response to a request that is no command: 404 where its path has no route, 405 where its route has another method, which
/// `allow` names, 400 where a parameter, a cursor or the body is not of its form, and 501 where its route is not built.
#[tactic(auto, unfolding(crate::specs::Replies::refusal_response))]
pub fn refusal_response(
    alloc: Global,
    request: &Request,
    refusal: &WebRefusal,
) -> Result<Response, NoMemory>
    ensures { IfOk result (λ response. response ≡ refusal_response request.now refusal.now) }
{
    let body = Bytes::from_vec(web_text(alloc, refusal)?);
    Ok(json_response(request, web_status(refusal), allow_of(refusal), body))
}
