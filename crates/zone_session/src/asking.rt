//! What a request asks of a zone's server.
ghost use Rattle.std.specs.Prelude.{IfErr};
ghost use Rattle.rpc_calls.specs.Outcomes.{TellsMethods};
ghost use Rattle.rpc_calls.specs.Services.{object_in};
ghost use Rattle.zone_session.specs.Asking.{AnswersAsked, asked_of_service, zone_asked};
ghost use Rattle.zone_session.specs.Asking.{match_asked, matched_by, sync_asked, version_asked};

use http_heads::RawRequest;
use rpc_calls::{CallFault, check_get, check_post, read_object, read_service};
use serde_json::Value;
use std::alloc::Global;

/// What is asked of a zone.
#[derive(Drop)]
pub enum ZoneCall {
    /// How many patches it has taken, and the id of the last one.
    Version,
    /// The quads that match the pattern of an object.
    Match(Value),
    /// To catch up with its log.
    Sync,
}

fn read_version(request: &RawRequest) -> Result<ZoneCall, CallFault>
    ensures asked { AnswersAsked result (version_asked request.now) }
    ensures methods { IfErr result TellsMethods }
{
    match check_get(request) {
        Ok(()) => Ok(ZoneCall::Version),
        Err(fault) => Err(fault),
    }
}

// The object of a body, of a request that was taken.
fn read_body(alloc: Global, request: &RawRequest) -> Result<ZoneCall, CallFault>
    ensures asked { AnswersAsked result (matched_by (object_in request.now.body)) }
    ensures methods { IfErr result TellsMethods }
{
    match read_object(alloc, request.body.as_slice()) {
        Ok(value) => Ok(ZoneCall::Match(value)),
        Err(fault) => Err(fault),
    }
}

fn read_match(alloc: Global, request: &RawRequest) -> Result<ZoneCall, CallFault>
    ensures asked { AnswersAsked result (match_asked request.now) }
    ensures methods { IfErr result TellsMethods }
{
    match check_post(request) {
        Ok(()) => read_body(alloc, request),
        Err(fault) => Err(fault),
    }
}

fn read_sync(request: &RawRequest) -> Result<ZoneCall, CallFault>
    ensures asked { AnswersAsked result (sync_asked request.now) }
    ensures methods { IfErr result TellsMethods }
{
    match check_post(request) {
        Ok(()) => Ok(ZoneCall::Sync),
        Err(fault) => Err(fault),
    }
}

// What a request to a service asks.
fn read_at(alloc: Global, service: &str, request: &RawRequest) -> Result<ZoneCall, CallFault>
    ensures asked { AnswersAsked result (asked_of_service service.now request.now) }
    ensures methods { IfErr result TellsMethods }
{
    if service == "version" {
        return read_version(request);
    }
    if service == "match" {
        return read_match(alloc, request);
    }
    if service == "sync" {
        return read_sync(request);
    }
    Err(CallFault::NoRoute)
}

/// What a request asks, or the first reason why it asks nothing.
pub(crate) fn read_asked(alloc: Global, request: &RawRequest) -> Result<ZoneCall, CallFault>
    ensures asked { AnswersAsked result (zone_asked request.now) }
    ensures methods { IfErr result TellsMethods }
{
    match read_service(alloc, request.path.as_slice()) {
        Ok(Some(service)) => read_at(alloc, service.as_str(), request),
        Ok(None) => Err(CallFault::NoRoute),
        Err(_) => Err(CallFault::OutOfMemory),
    }
}
