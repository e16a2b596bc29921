//! Finds the route of a path, the methods that it allows, and the method of a request.

ghost use Rattle.std.specs.Prelude.{◌≡◌, IfOk, OnOk, fold, option_map};
ghost use Rattle.matchit.specs.Seek.{first};
ghost use Rattle.portal_wire.specs.Wish.{route_at, allow_of, method_of};
ghost use Rattle.portal_wire.specs.inner.RouteRows.{the_rows, with_route};

use http::method::MethodError;
use matchit::{InsertError, Router};
use std::alloc::{AllocError, Global};

/// A route of the portal.
#[derive(Clone, Copy, Debug, PartialEq, Eq, Drop)]
pub(crate) enum Route {
    Me,
    Catalogue,
    Choices,
    Applicants,
    Ranking,
    /// The route `/ranking/fill`.
    Fill,
    /// The route `/result`.
    Outcome,
    Lecturers,
    Projects,
    Students,
    Phase,
    Status,
    Allocation,
    AllocationCsv,
    Report,
}

/// Each path with its route.
const ROUTES: [(&str, Route); 15] = [
    ("/me", Route::Me),
    ("/catalogue", Route::Catalogue),
    ("/choices", Route::Choices),
    ("/applicants", Route::Applicants),
    ("/ranking", Route::Ranking),
    ("/result", Route::Outcome),
    ("/rolls/lecturers", Route::Lecturers),
    ("/rolls/projects", Route::Projects),
    ("/rolls/students", Route::Students),
    ("/phase", Route::Phase),
    ("/ranking/fill", Route::Fill),
    ("/status", Route::Status),
    ("/allocation", Route::Allocation),
    ("/allocation.csv", Route::AllocationCsv),
    ("/report", Route::Report),
];

/// Inserts each path of a table with its route.
fn insert_each(router: &mut Router<Route>, table: &[(&str, Route)]) -> Result<(), InsertError>
    ensures { OnOk result (router.new ≡ fold with_route router.old table.now) }
{
    for entry in table {
        router.insert(entry.0, entry.1)?;
    }
    Ok(())
}

/// Makes a router for all routes.
fn all_routes(alloc: Global) -> Result<Router<Route>, InsertError>
    ensures { IfOk result (λ router. router ≡ the_rows) }
{
    let mut router = Router::new(alloc);
    insert_each(&mut router, &ROUTES)?;
    Ok(router)
}

/// Finds the route of a path in a router.
fn found_by(router: &Router<Route>, path: &str) -> Option<Route>
    ensures { result ≡ option_map (λ route. route.value) (first router.now path.now) }
{
    match router.at(path) {
        Ok(found) => Some(*found.value),
        Err(_) => None,
    }
}

/// Finds the route of a path, if it has one.
pub(crate) fn route_in(alloc: Global, path: &[u8]) -> Result<Option<Route>, InsertError>
    ensures { IfOk result (λ route. route ≡ route_at path.now) }
{
    let Ok(text) = str::from_utf8(path) else {
        return Ok(None);
    };
    let router = all_routes(alloc)?;
    Ok(found_by(&router, text))
}

/// Returns the methods that a route allows, as the header `Allow` lists them.
pub(crate) fn allow_at(route: Route) -> &'static str
    ensures { result.now ≡ allow_of route }
{
    match route {
        Route::Choices | Route::Ranking => "GET, HEAD, PUT",
        Route::Fill | Route::Lecturers | Route::Projects | Route::Students | Route::Phase => "POST",
        _ => "GET, HEAD",
    }
}

/// A method that some route allows, or `Other`.
#[derive(Clone, Copy, Debug, PartialEq, Eq, Drop)]
pub(crate) enum Method {
    /// GET or HEAD.
    Get,
    Put,
    Post,
    Other,
}

/// Returns the method with this name.
fn method_named(method: &str) -> Method
    ensures { result ≡ method_of method.now }
{
    match method {
        "GET" | "HEAD" => Method::Get,
        "PUT" => Method::Put,
        "POST" => Method::Post,
        _ => Method::Other,
    }
}

/// Parses the method of a request.
pub(crate) fn method_in(alloc: Global, bytes: &[u8]) -> Result<Method, AllocError>
    ensures { IfOk result (λ method. method ≡ method_of bytes.now) }
{
    match http::Method::from_bytes(alloc, bytes) {
        Ok(method) => Ok(method_named(method.as_str())),
        Err(MethodError::Invalid) => Ok(Method::Other),
        Err(MethodError::OutOfMemory) => Err(AllocError),
    }
}
