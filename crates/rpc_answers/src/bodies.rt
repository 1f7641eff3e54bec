//! The bodies of answers, a function for each shape.
ghost use Rattle.std.specs.Prelude.{◌≡◌, [], ◌∷◌, IfOk, codes};
ghost use Rattle.serde_json.specs.View.{view};
ghost use Rattle.rpc_answers.specs.Answers.{body_of, NamesItsFault};
ghost use Rattle.rpc_answers.specs.Parts.{MakesAnswer, IsJson};
ghost use Rattle.rpc_answers.specs.Values.{object_of, word, whole_number};

use crate::answer::Answer;
use crate::values::{
    id_or_null, id_value, limit_name, number_or_null, source_value, source_values,
};
use delta_base::{Id, OutOfMemory, Text};
use log_base::{FullKind, Sources};
use serde_json::{Value, json};
use std::alloc::{AllocError, Global};

// A refusal that says no more than its name.
fn refusal_body(alloc: Global, name: &str) -> Result<Value, OutOfMemory>
    ensures { IfOk result (λ v. view v ≡ object_of ((codes "error", word name.now) ∷ [])) }
{
    Ok(json!(in alloc; {"error": name})?)
}

// A refusal with a place in a text.
fn place_body(alloc: Global, at: u64, name: &str) -> Result<Value, OutOfMemory>
    ensures { IfOk result (λ v.
        view v ≡ object_of ((codes "at", whole_number at) ∷ (codes "error", word name.now) ∷ [])) }
{
    Ok(json!(in alloc; {"at": at, "error": name})?)
}

fn pong_body(alloc: Global) -> Result<Value, OutOfMemory>
    ensures { IfOk result (λ v. MakesAnswer (view v) Answer.Pong) }
{
    Ok(json!(in alloc; {"ping": "ok"})?)
}

fn sources_body(alloc: Global, sources: &Sources) -> Result<Value, OutOfMemory>
    ensures { IfOk result (λ v. MakesAnswer (view v) (Answer.Sources sources.now)) }
{
    let values = Value::Array(source_values(alloc, sources.as_slice())?);
    Ok(json!(in alloc; {"sources": values})?)
}

fn info_body(alloc: Global, version: u32, head: Option<Id>) -> Result<Value, OutOfMemory>
    ensures { IfOk result (λ v. MakesAnswer (view v) (Answer.Info version head)) }
{
    let head = id_or_null(alloc, head)?;
    Ok(json!(in alloc; {"head": head, "version": u64::from(version)})?)
}

fn version_body(alloc: Global, version: u32) -> Result<Value, OutOfMemory>
    ensures { IfOk result (λ v. MakesAnswer (view v) (Answer.Version version)) }
{
    Ok(json!(in alloc; {"version": u64::from(version)})?)
}

fn run_body(alloc: Global, first: u32, version: u32) -> Result<Value, OutOfMemory>
    ensures { IfOk result (λ v. MakesAnswer (view v) (Answer.Run first version)) }
{
    Ok(json!(in alloc; {"first": u64::from(first), "version": u64::from(version)})?)
}

fn no_patch_body(alloc: Global, version: u32) -> Result<Value, OutOfMemory>
    ensures { IfOk result (λ v. MakesAnswer (view v) (Answer.NoPatch version)) }
{
    Ok(json!(in alloc; {"error": "no_patch", "version": u64::from(version)})?)
}

fn bad_call_body(alloc: Global, member: &Text) -> Result<Value, OutOfMemory>
    ensures { IfOk result (λ v. MakesAnswer (view v) (Answer.BadCall member.now)) }
{
    Ok(json!(in alloc; {"error": "bad_call", "member": member.as_str()})?)
}

fn bad_patch_body(alloc: Global, at: u64, kind: &Text) -> Result<Value, OutOfMemory>
    ensures { IfOk result (λ v. MakesAnswer (view v) (Answer.BadPatch at kind.now)) }
{
    Ok(json!(in alloc; {"at": at, "error": "bad_patch", "kind": kind.as_str()})?)
}

fn known_body(alloc: Global, version: u32, same: bool) -> Result<Value, OutOfMemory>
    ensures { IfOk result (λ v. MakesAnswer (view v) (Answer.Known version same)) }
{
    Ok(json!(in alloc; {"error": "known", "same": same, "version": u64::from(version)})?)
}

// The members of a conflict.
fn conflict_members(
    alloc: Global,
    version: u32,
    head: Value,
    prev_version: Value,
) -> Result<Value, AllocError>
    ensures { IfOk result (λ v. view v ≡ object_of
        ((codes "error", word (codes "conflict")) ∷ (codes "head", view head)
        ∷ (codes "prev_version", view prev_version)
        ∷ (codes "version", whole_number version) ∷ [])) }
{
    json!(in alloc; {
        "error": "conflict",
        "head": head,
        "prev_version": prev_version,
        "version": u64::from(version)
    })
}

fn conflict_body(
    alloc: Global,
    version: u32,
    head: Option<Id>,
    prev_version: Option<u32>,
) -> Result<Value, OutOfMemory>
    ensures { IfOk result (λ v. MakesAnswer (view v) (Answer.Conflict version head prev_version)) }
{
    let head = id_or_null(alloc, head)?;
    let prev_version = number_or_null(prev_version);
    Ok(conflict_members(alloc, version, head, prev_version)?)
}

fn name_taken_body(alloc: Global, id: Id) -> Result<Value, OutOfMemory>
    ensures { IfOk result (λ v. MakesAnswer (view v) (Answer.NameTaken id)) }
{
    let id = id_value(alloc, id)?;
    Ok(json!(in alloc; {"error": "name_taken", "id": id})?)
}

fn id_taken_body(alloc: Global, name: &Text) -> Result<Value, OutOfMemory>
    ensures { IfOk result (λ v. MakesAnswer (view v) (Answer.IdTaken name.now)) }
{
    Ok(json!(in alloc; {"error": "id_taken", "name": name.as_str()})?)
}

fn full_body(alloc: Global, what: FullKind, have: u64, limit: u64) -> Result<Value, OutOfMemory>
    ensures { IfOk result (λ v. MakesAnswer (view v) (Answer.Full what have limit)) }
{
    let what = limit_name(what);
    Ok(json!(in alloc; {"error": "full", "have": have, "limit": limit, "what": what})?)
}

fn bad_request_body(alloc: Global, kind: &Text) -> Result<Value, OutOfMemory>
    requires { NamesItsFault (Answer.BadRequest kind.now) }
    ensures { IfOk result (λ v. MakesAnswer (view v) (Answer.BadRequest kind.now)) }
{
    Ok(json!(in alloc; {"error": "bad_request", "kind": kind.as_str()})?)
}

/// The value of the body of an answer that is no patch.
pub fn answer_value(alloc: Global, answer: &Answer) -> Result<Value, OutOfMemory>
    requires names_its_fault { NamesItsFault answer.now }
    requires json { IsJson (body_of answer.now) }
    ensures { IfOk result (λ v. MakesAnswer (view v) answer.now) }
{
    match answer {
        Answer::Pong => pong_body(alloc),
        Answer::Sources(sources) => sources_body(alloc, sources),
        Answer::Source(source) => source_value(alloc, source),
        Answer::Info { version, head } => info_body(alloc, *version, *head),
        Answer::Version { version } => version_body(alloc, *version),
        Answer::Run { first, version } => run_body(alloc, *first, *version),
        Answer::Patch { .. } => unreachable!(),
        Answer::NoRoute => refusal_body(alloc, "no_route"),
        Answer::NoSource => refusal_body(alloc, "no_source"),
        Answer::NoPatch { version } => no_patch_body(alloc, *version),
        Answer::BadMethod => refusal_body(alloc, "bad_method"),
        Answer::Media => refusal_body(alloc, "media"),
        Answer::BadJson => refusal_body(alloc, "bad_json"),
        Answer::BadCall { member } => bad_call_body(alloc, member),
        Answer::BadPatch { at, kind } => bad_patch_body(alloc, *at, kind),
        Answer::BadRun { at } => place_body(alloc, *at, "bad_run"),
        Answer::BadName { at } => place_body(alloc, *at, "bad_name"),
        Answer::BadUri { at } => place_body(alloc, *at, "bad_uri"),
        Answer::Known { version, same } => known_body(alloc, *version, *same),
        Answer::Conflict {
            version,
            head,
            prev_version,
        } => { conflict_body(alloc, *version, *head, *prev_version) }
        Answer::NameTaken { id } => name_taken_body(alloc, *id),
        Answer::IdTaken { name } => id_taken_body(alloc, name),
        Answer::Full { what, have, limit } => full_body(alloc, *what, *have, *limit),
        Answer::DiskFault => refusal_body(alloc, "disk_fault"),
        Answer::OutOfMemory => refusal_body(alloc, "out_of_memory"),
        Answer::BadRequest { kind } => bad_request_body(alloc, kind),
    }
}
