//! The answers of sources.
ghost use Rattle.std.specs.Prelude.{◌≡◌, List, IfOk, IfSome, IfNone};
ghost use Rattle.std.specs.List.{All};
ghost use Rattle.serde_json.specs.Data.{Data, array};
ghost use Rattle.serde_json.specs.View.{view, items_view};
ghost use Rattle.rpc_answers.specs.Answers.{IsAnsweredSource};
ghost use Rattle.rpc_answers.specs.Parts.{IsRowOf, IsOfSources};
ghost use Rattle.delta_base.specs.Listed.{Listed};
ghost use Rattle.rpc_answers.specs.Values.{source_data, sources_data};

use crate::answer::Answer;
use crate::fields::{id_in, short_in, text_in};
use crate::members::{four_members, one_member};
use delta_base::{Id, Listing, OutOfMemory, Text};
use log_base::SourceInfo;
use serde_json::Value;
use std::alloc::Global;

// The slot, id, name and URI of a source.
fn parts_in(value: &Value) -> Option<(u32, Id, &str, &str)>
    ensures found { IfSome result (λ row. (view value.now
        ≡ source_data (record { slot = row.0; id = row.1; name = row.2.now; uri = row.3.now }))
        × IsAnsweredSource (record
        { slot = row.0; id = row.1; name = row.2.now; uri = row.3.now })) }
    ensures none { IfNone result ((source : SourceInfo) → IsAnsweredSource source
        → view value.now ≡ source_data source → ⊥) }
{
    let (id, name, slot, uri) = four_members(value, "id", "name", "slot", "uri")?;
    if let Some(id) = id_in(id)
        && let Some(name) = text_in(name)
        && let Some(slot) = short_in(slot)
        && let Some(uri) = text_in(uri)
    {
        Some((slot, id, name, uri))
    } else {
        None
    }
}

// A source.
fn source_in(alloc: Global, value: &Value) -> Result<Option<SourceInfo>, OutOfMemory>
    ensures found { IfOk result (λ o. IfSome o (λ source. (view value.now ≡ source_data source)
        × IsAnsweredSource source)) }
    ensures none { IfOk result (λ o. IfNone o ((source : SourceInfo) → IsAnsweredSource source
        → view value.now ≡ source_data source → ⊥)) }
{
    match parts_in(value) {
        None => Ok(None),
        Some((slot, id, name, uri)) => {
            let name = Text::from_str(alloc, name)?;
            let uri = Text::from_str(alloc, uri)?;
            Ok(Some(SourceInfo {
                slot,
                id,
                name,
                uri,
            }))
        }
    }
}

// Sources in their order.
fn sources_in(alloc: Global, values: &[Value]) -> Result<Option<Vec<SourceInfo>>, OutOfMemory>
    ensures found { IfOk result (λ o.
        IfSome o (λ sources. (array (items_view values.now) ≡ sources_data sources.items)
        × All IsAnsweredSource sources.items)) }
    ensures none { IfOk result
        (λ o. IfNone o ((sources : List SourceInfo) → All IsAnsweredSource sources
        → array (items_view values.now) ≡ sources_data sources → ⊥)) }
{
    let mut sources = Vec::new(alloc);
    for value in values {
        match source_in(alloc, value)? {
            Some(source) => sources.push(source)?,
            None => return Ok(None),
        }
    }
    Ok(Some(sources))
}

// The sources of an answer, where it is a list.
fn list_in(alloc: Global, value: &Value) -> Result<Option<Vec<SourceInfo>>, OutOfMemory>
    ensures found { IfOk result (λ o. IfSome o (λ sources. IsRowOf 200 (view value.now)
        (Answer.Sources (record { items = sources.items; spare = 0 })))) }
    ensures none { IfOk result (λ o. IfNone o ((sources : Listed SourceInfo)
        → IsRowOf 200 (view value.now) (Answer.Sources sources) → ⊥)) }
{
    let Some(list) = one_member(value, "sources") else {
        return Ok(None);
    };
    match list {
        Value::Array(values) => sources_in(alloc, values),
        _ => Ok(None),
    }
}

/// The answer of a status and a value, where it is one of sources.
pub fn sources_answer_in(
    alloc: Global,
    status: u16,
    value: &Value,
) -> Result<Option<Answer>, OutOfMemory>
    ensures found { IfOk result (λ o. IfSome o (λ a. IsRowOf status (view value.now) a)) }
    ensures none { IfOk result (λ o. IfNone o ((a : Answer) → IsOfSources a
        → IsRowOf status (view value.now) a → ⊥)) }
{
    if status != 200 {
        return Ok(None);
    }
    if let Some(source) = source_in(alloc, value)? {
        return Ok(Some(Answer::Source(source)));
    }
    match list_in(alloc, value)? {
        Some(sources) => Ok(Some(Answer::Sources(Listing::from_vec(sources)))),
        None => Ok(None),
    }
}
