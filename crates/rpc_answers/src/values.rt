//! The values of which the bodies of answers are made.
ghost use Rattle.std.specs.Prelude.{◌≡◌, IfOk, map};
ghost use Rattle.std.specs.List.{All};
ghost use Rattle.std.specs.Option.{ForSome};
ghost use Rattle.serde_json.specs.View.{view};
ghost use Rattle.delta_base.specs.Ids.{IsId};
ghost use Rattle.rpc_answers.specs.Answers.{IsAnsweredSource};
ghost use Rattle.rpc_answers.specs.Values.{whole_or_null, id_data, id_or_null};
ghost use Rattle.rpc_answers.specs.Values.{limit_name, source_data};

use delta_base::{Id, OutOfMemory, id_string};
use log_base::{FullKind, SourceInfo};
use serde_json::{Value, json};
use std::alloc::Global;

/// An id as a member.
pub fn id_value(alloc: Global, id: Id) -> Result<Value, OutOfMemory>
    ensures value { IfOk result (λ v. view v ≡ id_data id) }
    ensures fits { IsId id.0 }
{
    Ok(Value::String(id_string(alloc, id)?))
}

/// An id, or null.
pub fn id_or_null(alloc: Global, id: Option<Id>) -> Result<Value, OutOfMemory>
    ensures value { IfOk result (λ v. view v ≡ id_or_null id) }
    ensures fits { ForSome id (λ i. IsId i.0) }
{
    match id {
        None => Ok(Value::Null),
        Some(id) => id_value(alloc, id),
    }
}

/// A number, or null.
pub fn number_or_null(number: Option<u32>) -> Value
    ensures { view result ≡ whole_or_null number }
{
    match number {
        None => Value::Null,
        Some(number) => Value::from(number),
    }
}

/// Which limit was reached.
pub fn limit_name(what: FullKind) -> &'static str
    ensures { result.now ≡ limit_name what }
{
    match what {
        FullKind::Patches => "patches",
        FullKind::Bytes => "bytes",
        FullKind::Slots => "slots",
    }
}

/// A source with its own values.
pub fn source_value(alloc: Global, source: &SourceInfo) -> Result<Value, OutOfMemory>
    ensures value { IfOk result (λ v. view v ≡ source_data source.now) }
    ensures fits { IfOk result (λ _. IsAnsweredSource source.now) }
{
    let id = id_value(alloc, source.id)?;
    Ok(json!(in alloc; {
        "id": id,
        "name": source.name.as_str(),
        "slot": u64::from(source.slot),
        "uri": source.uri.as_str()
    })?)
}

/// Sources in their order.
pub fn source_values(alloc: Global, sources: &[SourceInfo]) -> Result<Vec<Value>, OutOfMemory>
    ensures values { IfOk result (λ values. map view values.items ≡ map source_data sources.now) }
    ensures fits { IfOk result (λ _. All IsAnsweredSource sources.now) }
{
    let mut values = Vec::new(alloc);
    for source in sources {
        let value = source_value(alloc, source)?;
        values.push(value)?;
    }
    Ok(values)
}
