//! Where a path leads.
ghost use Rattle.std.specs.Prelude.{◌≡◌, IfOk};
ghost use Rattle.rpc_calls.specs.Routes.{allowed, has_post, has_route, route_behind};
ghost use Rattle.rpc_calls.specs.Routes.{route_of, service_route, version_asked};

use crate::path::{cut_path, read_segment};
use crate::surface::Surface;
use delta_base::{Id, OutOfMemory, Text, read_id};
use http_heads::{are_digits, digits_value};
use std::alloc::Global;

/// What a path stands for.
#[derive(Debug, Drop)]
pub enum Route {
    Ping,
    Rpc,
    Log(Text),
    Run(Text),
    Version(Text, u64),
    Patch(Text, Id),
}

impl Route {
    /// Whether a surface has it.
    pub fn is_on(&self, surface: Surface) -> bool
        ensures { result ≡ has_route surface self.now }
    {
        match self {
            Route::Run(_) => surface.takes_appends(),
            _ => true,
        }
    }

    /// The methods that it has.
    pub fn allowed(&self, surface: Surface) -> &'static str
        ensures { result.now ≡ allowed surface self.now }
    {
        match self {
            Route::Ping => "GET, POST",
            Route::Log(_) if surface.takes_appends() => "GET, POST",
            Route::Rpc | Route::Run(_) => "POST",
            Route::Log(_) | Route::Version(_, _) | Route::Patch(_, _) => "GET",
        }
    }

    /// Whether POST is one of them.
    pub fn has_post(&self, surface: Surface) -> bool
        ensures { result ≡ has_post surface self.now }
    {
        match self {
            Route::Ping | Route::Rpc => true,
            Route::Log(_) | Route::Run(_) => surface.takes_appends(),
            Route::Version(_, _) | Route::Patch(_, _) => false,
        }
    }
}

// The number that 1 to 10 digits have.
fn version_of(text: &[u8]) -> Option<u64>
    ensures { result ≡ version_asked text.now }
{
    if text.is_empty() || text.len() > 10 || !are_digits(text) {
        return None;
    }
    Some(digits_value(text))
}

// The route of a segment behind `$`.
fn service_route(second: &str) -> Option<Route>
    ensures { result ≡ service_route second.now }
{
    if second == "ping" {
        Some(Route::Ping)
    } else if second == "rpc" {
        Some(Route::Rpc)
    } else {
        None
    }
}

// The route of a segment behind a name.
fn route_behind(name: Text, second: &str) -> Option<Route>
    ensures { result ≡ route_behind name second.now }
{
    if let Some(version) = version_of(second.as_bytes()) {
        return Some(Route::Version(name, version));
    }
    if second == "run" {
        return Some(Route::Run(name));
    }
    match read_id(second.as_bytes()) {
        Some(id) => Some(Route::Patch(name, id)),
        None => None,
    }
}

/// The route of a path.
pub fn read_route(alloc: Global, path: &[u8]) -> Result<Option<Route>, OutOfMemory>
    ensures { IfOk result (λ route. route ≡ route_of path.now) }
{
    let Some((first, second)) = cut_path(path) else {
        return Ok(None);
    };
    let Some(first) = read_segment(alloc, first)? else {
        return Ok(None);
    };
    if first.is_empty() {
        return Ok(None);
    }
    let Some(second) = second else {
        if first.as_str() == "$" {
            return Ok(None);
        }
        return Ok(Some(Route::Log(first)));
    };
    let Some(second) = read_segment(alloc, second)? else {
        return Ok(None);
    };
    if first.as_str() == "$" {
        return Ok(service_route(second.as_str()));
    }
    Ok(route_behind(first, second.as_str()))
}
