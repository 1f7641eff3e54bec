//! The objects of operations.
ghost use Rattle.std.specs.Prelude.{◌≡◌, IfOk, codes};
ghost use Rattle.std.specs.Option.{ForSome};
ghost use Rattle.serde_json.specs.View.{view};
ghost use Rattle.delta_base.specs.Ids.{IsId, text_of};
ghost use Rattle.serde_json.specs.Data.{member, no_members, string};
ghost use Rattle.rpc_calls.specs.Requests.{new_source, operation_object, one};

use delta_base::{Id, OutOfMemory, Text, id_string};
use serde_json::{Value, json};
use std::alloc::Global;

/// `list`.
pub fn listed(alloc: Global) -> Result<Value, OutOfMemory>
    ensures { IfOk result (λ value. view value ≡ operation_object (codes "list") no_members) }
{
    Ok(json!(in alloc; {"operation": "list"})?)
}

/// An operation on a name.
pub fn named(alloc: Global, word: &str, name: &Text) -> Result<Value, OutOfMemory>
    ensures { IfOk result (λ value. view value
        ≡ operation_object word.now (one (codes "name") name.now)) }
{
    Ok(json!(in alloc; {"name": name.as_str(), "operation": word})?)
}

/// The operation on an id.
pub fn with_id(alloc: Global, id: Id) -> Result<Value, OutOfMemory>
    ensures value { IfOk result (λ value.
        view value ≡ operation_object (codes "source_by_id") (one (codes "id") (text_of id.0))) }
    ensures fits { IsId id.0 }
{
    let text = id_string(alloc, id)?;
    Ok(json!(in alloc; {"id": text, "operation": "source_by_id"})?)
}

/// The operation on a URI.
pub fn with_uri(alloc: Global, uri: &Text) -> Result<Value, OutOfMemory>
    ensures { IfOk result (λ value.
        view value ≡ operation_object (codes "source_by_uri") (one (codes "uri") uri.now)) }
{
    Ok(json!(in alloc; {"operation": "source_by_uri", "uri": uri.as_str()})?)
}

/// `create`, with an id if it is given.
pub fn created(alloc: Global, name: &Text, uri: &Text, id: Option<Id>) -> Result<Value, OutOfMemory>
    ensures value { IfOk result (λ value.
        view value ≡ operation_object (codes "create") (new_source name.now uri.now id)) }
    ensures fits { ForSome id (λ i. IsId i.0) }
{
    let Some(id) = id else {
        return Ok(
            json!(in alloc; {"name": name.as_str(), "operation": "create", "uri": uri.as_str()})?,
        );
    };
    let text = id_string(alloc, id)?;
    Ok(
        json!(in alloc; {"id": text, "name": name.as_str(), "operation": "create",
            "uri": uri.as_str()})?,
    )
}

/// `rename`.
pub fn renamed(alloc: Global, name: &Text, new_name: &Text) -> Result<Value, OutOfMemory>
    ensures { IfOk result (λ value. view value ≡ operation_object (codes "rename")
        (member (codes "name") (string name.now) (one (codes "new_name") new_name.now))) }
{
    Ok(
        json!(in alloc; {"name": name.as_str(), "new_name": new_name.as_str(),
            "operation": "rename"})?,
    )
}
