//! Which command a request is.
ghost use Rattle.std.specs.Prelude.{◌≡◌, ℕ, List, IfOk};
ghost use Rattle.desk_route.specs.Routes.{path_of, rows_path, IsPathOf};
ghost use Rattle.desk_route.specs.Queries.{OrNoMemory};
ghost use Rattle.desk_route.specs.Requesting.{serves, method_of, rows_of, ReadsRows, ReadsJournal, ReadsRevision, ReadsChange, ReadsPosted, ReadsServed, ReadsAt, ReadsAs, Reads};

use crate::parameters::{Asked, JOURNAL, ROWS};
use crate::queries::read_query;
use crate::refusals::{Fault, Parameter, WebRefusal};
use crate::routes::{Route, Routes, cut, group_part};
use desk_base::{Command, GroupId, NoMemory, Options, Query};
use desk_json::{BodyError, read_change, read_id};
use desk_wire::{Allow, Request};
use std::alloc::Global;

/// What a request is read as.
#[derive(Debug, Drop)]
pub enum Routed {
    Command(Command),
    Refused(WebRefusal),
}

/// The rows of a page where the request does not say.
const DEFAULT_LIMIT: u32 = 50;

/// Whether a route that has this method serves that of a request. A HEAD is served as a GET.
#[tactic(auto, unfolding(crate::specs::Requesting::serves))]
fn serves(allow: Allow, method: &[u8]) -> bool
    ensures { result ≡ serves allow method.now }
{
    match allow {
        Allow::Get => method == b"GET".as_slice() || method == b"HEAD".as_slice(),
        Allow::Post => method == b"POST".as_slice(),
    }
}

fn rows(group: GroupId, asked: Asked) -> Query
    ensures { result ≡ rows_of group asked }
{
    Query::Rows {
        group,
        options: Options {
            from: asked.from,
            to: asked.to,
            per: asked.per,
        },
        after: asked.after,
        latest: asked.latest,
        limit: asked.limit.unwrap_or(DEFAULT_LIMIT),
    }
}

fn read_rows(alloc: Global, path: &[u8], query: &[u8]) -> Result<Command, Fault>
    requires { (part : List ℕ) × (path.now ≡ rows_path part) }
    ensures { OrNoMemory (ReadsRows path.now query.now) result }
{
    let Some(group) = read_id(group_part(path)) else {
        return Err(Fault::Refused(WebRefusal::BadParameter(Parameter::Id)));
    };
    let asked = read_query(alloc, &ROWS, query)?;
    Ok(Command::Ask(rows(group, asked)))
}

fn read_journal(alloc: Global, query: &[u8]) -> Result<Command, Fault>
    ensures { OrNoMemory (ReadsJournal query.now) result }
{
    let asked = read_query(alloc, &JOURNAL, query)?;
    Ok(Command::Ask(Query::Journal {
        from: asked.above.unwrap_or(0),
    }))
}

fn read_revision(alloc: Global, query: &[u8]) -> Result<Command, Fault>
    ensures { OrNoMemory (ReadsRevision query.now) result }
{
    let _ = read_query(alloc, &[], query)?;
    Ok(Command::Ask(Query::Revision))
}

/// The change that a body asks for, or its first fault.
fn read_body(alloc: Global, body: &[u8]) -> Result<Command, Fault>
    ensures { OrNoMemory (ReadsChange body.now) result }
{
    match read_change(alloc, body) {
        Ok(command) => Ok(command),
        Err(BodyError::Bad(rule, field)) => {
            Err(Fault::Refused(WebRefusal::BadBody(rule, field)))
        }
        Err(BodyError::NoMemory) => Err(Fault::NoMemory),
    }
}

fn read_posted(alloc: Global, query: &[u8], body: &[u8]) -> Result<Command, Fault>
    ensures { OrNoMemory (ReadsPosted query.now body.now) result }
{
    let _ = read_query(alloc, &[], query)?;
    read_body(alloc, body)
}

/// What is read at a route, by a method that it serves.
fn read_served(
    alloc: Global,
    route: Route,
    path: &[u8],
    query: &[u8],
    body: &[u8],
) -> Result<Command, Fault>
    requires { IsPathOf route path.now }
    ensures { OrNoMemory (ReadsServed route path.now query.now body.now) result }
{
    match route {
        Route::Rows => read_rows(alloc, path, query),
        Route::Journal => read_journal(alloc, query),
        Route::Revision => read_revision(alloc, query),
        Route::Changes => read_posted(alloc, query, body),
        Route::Board => Err(Fault::Refused(WebRefusal::NotBuilt)),
        Route::Sheet => Err(Fault::Refused(WebRefusal::NotBuilt)),
    }
}

/// The method of a route. The board and the sheet are not built, whatever the method.
fn method_of(route: Route) -> Option<Allow>
    ensures { result ≡ method_of route }
{
    match route {
        Route::Rows => Some(Allow::Get),
        Route::Journal => Some(Allow::Get),
        Route::Revision => Some(Allow::Get),
        Route::Changes => Some(Allow::Post),
        Route::Board => None,
        Route::Sheet => None,
    }
}

/// What is read at a route.
fn read_at(alloc: Global, route: Route, request: &Request) -> Result<Command, Fault>
    requires { IsPathOf route (path_of request.now.target) }
    ensures { OrNoMemory (ReadsAt route request.now) result }
{
    let Some(allow) = method_of(route) else {
        return Err(Fault::Refused(WebRefusal::NotBuilt));
    };
    if !serves(allow, request.method.as_slice()) {
        return Err(Fault::Refused(WebRefusal::WrongMethod(allow)));
    }
    let (path, query) = cut(request.target.as_slice());
    read_served(alloc, route, path, query, request.body.as_slice())
}

fn read_command(alloc: Global, routes: &Routes, request: &Request) -> Result<Command, Fault>
    ensures { OrNoMemory (ReadsAs request.now) result }
{
    let (path, _) = cut(request.target.as_slice());
    match routes.route_of(path) {
        Some(route) => read_at(alloc, route, request),
        None => Err(Fault::Refused(WebRefusal::NoRoute)),
    }
}

/// The command that a request asks for, or the first rule of the interface that it breaks.
///
/// Served are `GET /groups/ID/rows`, with ID from 1 to 999,999,999, and the parameters `limit` and `per` (below 2^32), `after` (a
/// cursor), `at` (`latest`), `from` and `to` (moments); `GET /journal`, with `from` (up to 10^15); `GET /revision`; and `POST /changes`,
/// whose body asks for a change. A HEAD is read as a GET. Numbers are decimal, without leading zeros. Parameters come in any order, each
/// at most once, and are read as a form writes them (`application/x-www-form-urlencoded`, URL Standard). The rules are taken in this
/// order: the path has a route, the route has the method, the ID, the pairs of the query from the left, the body. The ranges of the
/// schedule and the caller's number are not looked at, nor is the body of a GET.
pub fn read_request(alloc: Global, routes: &Routes, request: &Request) -> Result<Routed, NoMemory>
    ensures { IfOk result (Reads request.now) }
{
    match read_command(alloc, routes, request) {
        Ok(command) => Ok(Routed::Command(command)),
        Err(Fault::Refused(why)) => Ok(Routed::Refused(why)),
        Err(Fault::NoMemory) => Err(NoMemory),
    }
}
