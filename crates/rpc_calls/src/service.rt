//! What other servers than a hall read of a request.
ghost use Rattle.std.specs.Prelude.{◌≡◌, IfErr, IfOk, None, OnOk, Some};
ghost use Rattle.serde_json.specs.View.{view};
ghost use Rattle.rpc_calls.specs.Outcomes.{TellsMethods};
ghost use Rattle.rpc_calls.specs.Services.{IsNoObject, TellsReason, get_refusal, object_in};
ghost use Rattle.rpc_calls.specs.Services.{post_refusal, service_of};

use crate::call::CallFault;
use crate::count::has_too_many_values;
use crate::media::has_refused_media;
use crate::path::{cut_path, read_segment};
use delta_base::{OutOfMemory, Text};
use http_heads::RawRequest;
use serde_json::Value;
use std::alloc::Global;

/// The service that a path names: the text of its second segment, where the first one is `$`.
pub fn read_service(alloc: Global, path: &[u8]) -> Result<Option<Text>, OutOfMemory>
    ensures { IfOk result (λ service. service ≡ service_of path.now) }
{
    let Some((first, Some(second))) = cut_path(path) else {
        return Ok(None);
    };
    match read_segment(alloc, first)? {
        Some(first) if first.as_str() == "$" => read_segment(alloc, second),
        _ => Ok(None),
    }
}

/// Whether a service that has GET alone takes a request.
pub fn check_get(request: &RawRequest) -> Result<(), CallFault>
    ensures well { OnOk result (get_refusal request.now ≡ None) }
    ensures reason { IfErr result (λ fault. TellsReason fault (get_refusal request.now)) }
    ensures methods { IfErr result TellsMethods }
{
    if request.method.as_slice() == b"GET".as_slice() {
        Ok(())
    } else {
        Err(CallFault::BadMethod { allow: "GET" })
    }
}

/// Whether a service that has POST alone takes a request.
pub fn check_post(request: &RawRequest) -> Result<(), CallFault>
    ensures well { OnOk result (post_refusal request.now ≡ None) }
    ensures reason { IfErr result (λ fault. TellsReason fault (post_refusal request.now)) }
    ensures methods { IfErr result TellsMethods }
{
    if request.method.as_slice() != b"POST".as_slice() {
        return Err(CallFault::BadMethod { allow: "POST" });
    }
    if has_refused_media(request) {
        Err(CallFault::Media)
    } else {
        Ok(())
    }
}

// The JSON object that a body is, of any number of values.
fn read_value(alloc: Global, body: &[u8]) -> Result<Value, CallFault>
    ensures object { IfOk result (λ value. object_in body.now ≡ Some (view value)) }
    ensures fault { IfErr result (λ fault. IsNoObject fault body.now) }
{
    match Value::from_slice(alloc, body) {
        Ok(value) => {
            if value.is_object() {
                Ok(value)
            } else {
                Err(CallFault::BadJson)
            }
        }
        Err(error) => {
            if error.is_memory() {
                Err(CallFault::OutOfMemory)
            } else {
                Err(CallFault::BadJson)
            }
        }
    }
}

/// The JSON object that a body is. One of too many values is answered as where no memory is found.
pub fn read_object(alloc: Global, body: &[u8]) -> Result<Value, CallFault>
    ensures object { IfOk result (λ value. object_in body.now ≡ Some (view value)) }
    ensures fault { IfErr result (λ fault. IsNoObject fault body.now) }
{
    if has_too_many_values(body) {
        return Err(CallFault::OutOfMemory);
    }
    read_value(alloc, body)
}
