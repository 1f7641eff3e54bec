//! What is said of a catching up that ended.
ghost use Rattle.std.specs.Prelude.{◌≡◌, ◌≤◌, ◌==◌, false, true, None, IfOk, IsErr};
ghost use Rattle.std.specs.List.{list_any};
ghost use Rattle.serde_json.specs.Data.{depth};
ghost use Rattle.serde_json.specs.View.{view};
ghost use Rattle.serde_json.specs.Written.{compact_text, has_float};
ghost use Rattle.http_session.specs.Said.{IsPrintableSaid};
ghost use Rattle.http_session.specs.Texts.{json_reply};
ghost use Rattle.http_text.specs.Print.{IsPrintableReply, statuses};
ghost use Rattle.rpc_answers.specs.Answers.{json};
ghost use Rattle.rpc_answers.specs.Prints.{IsBodyText};
ghost use Rattle.rpc_answers.specs.Values.{object_of};
ghost use Rattle.call_replies.specs.Ends.{IsEndName, NamesEnd, SaysEnd, SaysEndObject};
ghost use Rattle.call_replies.specs.Ends.{caught_up_members, caught_up_reply, end_members, end_reply};

use crate::telling::say;
use delta_base::{Bytes, OutOfMemory};
use http_heads::RawReply;
use http_session::Said;
use rpc_answers::Answer;
use serde_json::{Value, json};
use std::alloc::Global;

/// How a catching up ended, as it is told.
#[derive(Clone, Copy, Debug, PartialEq, Eq)]
pub enum EndTold {
    /// It has all that the peer had at this version.
    CaughtUp { version: u32 },
    DiskFault,
    OutOfMemory,
    /// Another end, by its name.
    Named(&'static str),
}

fn caught_up_value(alloc: Global, version: u32) -> Result<Value, OutOfMemory>
    ensures { IfOk result (λ v. view v ≡ object_of (caught_up_members version)) }
{
    Ok(json!(in alloc; {"end": "CaughtUp", "version": u64::from(version)})?)
}

fn end_value(alloc: Global, name: &str) -> Result<Value, OutOfMemory>
    ensures { IfOk result (λ v. view v ≡ object_of (end_members name.now)) }
{
    Ok(json!(in alloc; {"end": name})?)
}

// The reply whose body is a value in JSON.
fn json_reply(alloc: Global, status: u16, value: Value) -> Result<RawReply, OutOfMemory>
    requires flat { (has_float (view value) ≡ false) × (depth (view value) ≤ 127) }
    requires status { list_any (λ one. one == status) statuses ≡ true }
    ensures reply { IfOk result (λ reply.
        reply ≡ json_reply status false (compact_text (view value))) }
    ensures reads { IfOk result (λ reply. IsBodyText reply.body (json (view value))) }
    ensures printable { IfOk result (λ reply. IsPrintableReply reply None) }
{
    let text = value.to_vec(alloc);
    drop(value);
    let body = Bytes::from_vec(text?);
    let content_type = Bytes::from_slice(alloc, b"application/json")?;
    Ok(RawReply {
        status,
        close: false,
        content_type: Some(content_type),
        body,
    })
}

// The reply to a catching up that has all.
fn caught_up(alloc: Global, version: u32) -> Result<RawReply, OutOfMemory>
    ensures reply { IfOk result (λ reply. reply ≡ caught_up_reply version false) }
    ensures reads { IfOk result (λ reply.
        IsBodyText reply.body (json (object_of (caught_up_members version)))) }
    ensures printable { IfOk result (λ reply. IsPrintableReply reply None) }
{
    let value = caught_up_value(alloc, version)?;
    json_reply(alloc, 200, value)
}

// The reply to one with another end.
fn ended(alloc: Global, name: &str) -> Result<RawReply, OutOfMemory>
    requires { IsEndName name.now }
    ensures reply { IfOk result (λ reply. reply ≡ end_reply name.now false) }
    ensures reads { IfOk result (λ reply.
        IsBodyText reply.body (json (object_of (end_members name.now)))) }
    ensures printable { IfOk result (λ reply. IsPrintableReply reply None) }
{
    let value = end_value(alloc, name)?;
    json_reply(alloc, 409, value)
}

// Says a reply that was made.
fn say_made(made: Result<RawReply, OutOfMemory>) -> Said
    requires { IfOk made (λ reply. IsPrintableReply reply None) }
    ensures says { IfOk made (λ reply. result ≡ Said.Reply reply None) }
    ensures want { IsErr made → result ≡ Said.OutOfMemory }
    ensures printable { IsPrintableSaid result }
{
    match made {
        Ok(reply) => Said::Reply { reply, allow: None },
        Err(_) => Said::OutOfMemory,
    }
}

/// Says how a catching up ended. A name stands in its reply as it is.
pub fn say_end(alloc: Global, told: EndTold) -> Said
    requires { NamesEnd told }
    ensures says { SaysEnd told result }
    ensures object { SaysEndObject told result }
    ensures printable { IsPrintableSaid result }
{
    match told {
        EndTold::CaughtUp { version } => say_made(caught_up(alloc, version)),
        EndTold::DiskFault => say(alloc, Answer::DiskFault),
        EndTold::OutOfMemory => Said::OutOfMemory,
        EndTold::Named(name) => say_made(ended(alloc, name)),
    }
}
