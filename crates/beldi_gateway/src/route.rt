// Which route a path is.
ghost use Rattle.std.specs.Prelude.{◌≡◌, IfOk};
ghost use Rattle.beldi_gateway.specs.Route.{endpoint_at, found_in, method_of, routes};

use beldi_value::{OutOfMemory, or_drop};
use matchit::{InsertError, Router};
use std::alloc::Global;

/// What a request is for.
#[derive(Clone, Copy, Debug, PartialEq, Eq)]
pub enum Endpoint {
    /// `POST /tickets`.
    Tickets,
    /// `POST /call/{function}/{ticket}`.
    Call,
    /// `GET /reply/{ticket}`.
    Reply,
}

impl Endpoint {
    /// The one method that it has.
    pub fn method(self) -> &'static str
        ensures { result.now ≡ method_of self }
    {
        match self {
            Endpoint::Tickets | Endpoint::Call => "POST",
            Endpoint::Reply => "GET",
        }
    }
}

// The routes.
fn router(alloc: Global) -> Result<Router<Endpoint>, InsertError>
    ensures { IfOk result (λ r. r ≡ routes) }
{
    let mut router = Router::new(alloc);
    or_drop!(router.insert("/tickets", Endpoint::Tickets); router);
    or_drop!(router.insert("/call/{function}/{ticket}", Endpoint::Call); router);
    or_drop!(router.insert("/reply/{ticket}", Endpoint::Reply); router);
    Ok(router)
}

// The route of a path.
fn find(router: &Router<Endpoint>, path: &[u8]) -> Option<Endpoint>
    ensures { result ≡ found_in router.now path.now }
{
    let Ok(path) = str::from_utf8(path) else {
        return None;
    };
    match router.at(path) {
        Ok(found) => Some(*found.value),
        Err(_) => None,
    }
}

/// What a request for this path is for.
pub fn endpoint_of(alloc: Global, path: &[u8]) -> Result<Option<Endpoint>, OutOfMemory>
    ensures { IfOk result (λ e. e ≡ endpoint_at path.now) }
{
    match router(alloc) {
        Ok(router) => Ok(find(&router, path)),
        Err(_) => Err(OutOfMemory),
    }
}
