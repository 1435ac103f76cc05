//! The routes.
ghost use Rattle.std.specs.Prelude.{◌≡◌, IfOk};
ghost use Rattle.gate_http.specs.Routes.{routes, with_route, route_of, path_of, behind_slash, parameter_of, queue_in};
ghost use Rattle.gate_http.specs.Routes.{place_in};

use crate::digits::number_up_to;
use matchit::{InsertError, Router};
use std::alloc::Global;

/// The last place in a history that a path can say.
const LAST_PLACE: usize = 9_999_999_999_999_999;

/// Where a path leads.
#[derive(Clone, Copy)]
pub(crate) enum Route {
    Forge,
    Worker,
    Status,
    Orders,
    Running,
    Builds,
    Changes,
    Items,
    History,
    HistoryFrom,
    Deliveries,
    DeliveriesAfter,
}

/// The router of the routes.
pub(crate) fn router(alloc: Global) -> Result<Router<Route>, InsertError>
    ensures { IfOk result (λ r. r ≡ routes) }
{
    let router = with_route(Router::new(alloc), "/forge", Route::Forge)?;
    let router = with_route(router, "/worker", Route::Worker)?;
    let router = with_route(router, "/status", Route::Status)?;
    let router = with_route(router, "/orders", Route::Orders)?;
    let router = with_route(router, "/running", Route::Running)?;
    let router = with_route(router, "/builds/{id}", Route::Builds)?;
    let router = with_route(router, "/changes/{change}", Route::Changes)?;
    let router = with_route(router, "/items/{order}", Route::Items)?;
    let router = with_route(router, "/history/{queue}", Route::History)?;
    let router = with_route(router, "/history/{queue}/{from}", Route::HistoryFrom)?;
    let router = with_route(router, "/deliveries", Route::Deliveries)?;
    with_route(router, "/deliveries/{id}", Route::DeliveriesAfter)
}

/// The router with one more route.
fn with_route(
    mut router: Router<Route>,
    path: &str,
    route: Route,
) -> Result<Router<Route>, InsertError>
    ensures { IfOk result (λ r. r ≡ with_route path.now route router) }
{
    router.insert(path, route)?;
    Ok(router)
}

/// The route of a path.
#[tactic(auto, unfolding(crate::specs::Routes::route_of))]
pub(crate) fn find_route(router: &Router<Route>, path: &str) -> Option<Route>
    requires { router.now ≡ routes }
    ensures { result ≡ route_of path.now }
{
    match router.at(path) {
        Ok(found) => Some(*found.value),
        Err(_) => None,
    }
}

/// A target up to its first question mark.
pub(crate) fn cut_query(target: &str) -> &str
    ensures { result.now ≡ path_of target.now }
{
    match target.split_once('?') {
        Some((path, _)) => path,
        None => target,
    }
}

/// What stands behind the first slash.
fn after_slash(text: &str) -> &str
    ensures { result.now ≡ behind_slash text.now }
{
    match text.split_once('/') {
        Some((_, rest)) => rest,
        None => "",
    }
}

/// What a path has in the place of its parameters.
pub(crate) fn parameter(path: &str) -> &str
    ensures { result.now ≡ parameter_of path.now }
{
    after_slash(after_slash(path))
}

/// The first of two parameters.
pub(crate) fn queue(path: &str) -> &str
    ensures { result.now ≡ queue_in path.now }
{
    let parameters = parameter(path);
    match parameters.split_once('/') {
        Some((queue, _)) => queue,
        None => parameters,
    }
}

/// The place in a history that the second of two parameters says.
pub(crate) fn place(path: &str) -> Option<u64>
    ensures { result ≡ place_in path.now }
{
    match number_up_to(after_slash(parameter(path)).as_bytes(), LAST_PLACE) {
        Some(number) => Some(number as u64),
        None => None,
    }
}
