//! The routes, and which of them a path has.
ghost use Rattle.std.specs.Prelude.{◌≡◌, ℕ, List, IfOk, Ok};
ghost use Rattle.matchit.specs.Route.{parse_route};
ghost use Rattle.matchit.specs.Router.{InsertsRead};
ghost use Rattle.desk_route.specs.Routes.{six_rows, path_of, query_of, rows_path, IsPart, HasRoute, is_question_mark};
ghost use Rattle.std.specs.List.{position};

use desk_base::NoMemory;
use matchit::Router;
use std::alloc::Global;
use std::marker::Model;

/// What a path leads to.
#[derive(Clone, Copy, Debug)]
pub(crate) enum Route {
    /// GET /groups/{id}/rows
    Rows,
    /// GET /board
    Board,
    /// GET /resources/{id}/sheet
    Sheet,
    /// GET /journal
    Journal,
    /// GET /revision
    Revision,
    /// POST /changes
    Changes,
}

fn with_route(router: Router<Route>, route: &str, value: Route) -> Result<Router<Route>, NoMemory>
    ensures { IfOk result (λ r. InsertsRead (parse_route route.now) value router r (Ok tt)) }
{
    let mut router = router;
    match router.insert(route, value) {
        Ok(()) => Ok(router),
        Err(_) => Err(NoMemory),
    }
}

/// A router of the six routes.
fn router_of_routes(alloc: Global) -> Result<Router<Route>, NoMemory>
    ensures { IfOk result (λ r. r ≡ six_rows) }
{
    let empty = Router::new(alloc);
    let router = with_route(empty, "/groups/{id}/rows", Route::Rows)?;
    let router = with_route(router, "/board", Route::Board)?;
    let router = with_route(router, "/resources/{id}/sheet", Route::Sheet)?;
    let router = with_route(router, "/journal", Route::Journal)?;
    let router = with_route(router, "/revision", Route::Revision)?;
    with_route(router, "/changes", Route::Changes)
}

/// The routes of the interface, made once for a connection.
#[derive(Drop)]
pub struct Routes {
    router: Router<Route>,
}

impl Model for Routes {
    ghost use Rattle.std.specs.Prelude.{◌≡◌, ⊤};
    ghost use Rattle.desk_route.specs.Routes.{six_rows};

    ghost Value = { ⊤ };

    ghost view = { λ _. tt };

    ghost invariant = { λ r. r.router ≡ six_rows };
}

/// The route of a text.
fn route_in(router: &Router<Route>, path: &str) -> Option<Route>
    requires { router.now ≡ six_rows }
    ensures { HasRoute path.now result }
{
    match router.at(path) {
        Ok(found) => Some(*found.value),
        Err(_) => None,
    }
}

impl Routes {
    /// All routes.
    pub fn new(alloc: Global) -> Result<Routes, NoMemory> {
        let router = router_of_routes(alloc)?;
        Ok(Routes { router })
    }

    /// The route of a path, if it has one. It takes no memory.
    pub(crate) fn route_of(&self, path: &[u8]) -> Option<Route>
        ensures { HasRoute path.now result }
    {
        match std::str::from_utf8(path) {
            Ok(text) => route_in(&self.router, text),
            Err(_) => None,
        }
    }
}

/// Where the first `?` of a target stands.
fn question_at(target: &[u8]) -> Option<usize>
    ensures { result ≡ position is_question_mark target.now }
{
    target.iter().position(|b| *b == b'?')
}

/// The path of a target, and its query.
#[tactic(auto, unfolding(crate::specs::Routes::path_of, crate::specs::Routes::query_of))]
pub(crate) fn cut(target: &[u8]) -> (&[u8], &[u8])
    ensures path { result.0.now ≡ path_of target.now }
    ensures query { result.1.now ≡ query_of target.now }
{
    match question_at(target) {
        Some(at) => (&target[..at], &target[at + 1..]),
        None => (target, &[]),
    }
}

/// The part that names a group in the path of its rows.
pub(crate) fn group_part(path: &[u8]) -> &[u8]
    requires { (part : List ℕ) × (path.now ≡ rows_path part) }
    ensures { path.now ≡ rows_path result.now }
{
    &path[8..path.len() - 5]
}
