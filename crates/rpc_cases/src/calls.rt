//! Calls in words.
use case_scripts::Answer as Told;
use delta_base::{Id, Text, id_text};
use http_heads::RawRequest;
use rpc_calls::{Call, CallFault, Surface, read_call_on};
use std::alloc::Global;
use std::fmt::Write;

// Tells words with blanks between them.
fn tell_words(words: &[&[u8]], told: &mut Told) {
    for (place, word) in words.iter().enumerate() {
        if place > 0 {
            told.push(b" ");
        }
        told.push(word);
    }
}

// Tells the operation on a name.
fn tell_named(operation: &[u8], name: &Text, told: &mut Told) {
    tell_words(&[operation, name.as_bytes()], told);
}

fn tell_created(name: &Text, uri: &Text, id: Option<Id>, told: &mut Told) {
    tell_words(&[b"create", name.as_bytes(), uri.as_bytes()], told);
    if let Some(id) = id {
        told.push(b" ");
        told.push(&id_text(id));
    }
}

fn tell_fetched(name: &Text, version: u64, told: &mut Told) {
    tell_named(b"fetch_version", name, told);
    let _ = write!(told, " {version}");
}

// Tells a call.
fn tell_call(call: &Call, told: &mut Told) {
    match call {
        Call::Ping => told.push(b"ping"),
        Call::List => told.push(b"list"),
        Call::Source { name } => tell_named(b"source", name, told),
        Call::SourceById { id } => tell_words(&[b"source_by_id", &id_text(*id)], told),
        Call::SourceByUri { uri } => tell_named(b"source_by_uri", uri, told),
        Call::Log { name } => tell_named(b"log", name, told),
        Call::Version { name } => tell_named(b"version", name, told),
        Call::Remove { name } => tell_named(b"remove", name, told),
        Call::Create { name, uri, id } => tell_created(name, uri, *id, told),
        Call::Rename { name, new_name } => {
            tell_words(&[b"rename", name.as_bytes(), new_name.as_bytes()], told);
        }
        Call::Append { name, patch } => {
            tell_words(&[b"append", name.as_bytes(), patch.as_slice()], told);
        }
        Call::AppendRun { name, patches } => {
            tell_words(&[b"append_run", name.as_bytes(), patches.as_slice()], told);
        }
        Call::FetchVersion { name, version } => tell_fetched(name, *version, told),
        Call::FetchId { name, id } => {
            tell_words(&[b"fetch_id", name.as_bytes(), &id_text(*id)], told);
        }
    }
}

/// Tells why a request is no call.
pub(crate) fn tell_fault(fault: CallFault, told: &mut Told) {
    match fault {
        CallFault::NoRoute => told.push(b"no route"),
        CallFault::BadMethod { allow } => tell_words(&[b"allow", allow.as_bytes()], told),
        CallFault::Media => told.push(b"media"),
        CallFault::BadJson => told.push(b"bad json"),
        CallFault::BadCall { member } => tell_words(&[b"bad call", member.as_bytes()], told),
        CallFault::OutOfMemory => told.push(b"out of memory"),
    }
}

/// Tells what a request asks of a server of that surface, or why it is no call.
pub(crate) fn tell_asked(alloc: Global, surface: Surface, request: RawRequest, told: &mut Told) {
    match read_call_on(alloc, surface, request) {
        Ok(call) => {
            tell_call(&call, told);
            drop(call);
        }
        Err(fault) => tell_fault(fault, told),
    }
}
