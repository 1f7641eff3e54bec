//! Replies of the registry as answers, and what is said of them.
ghost use Rattle.std.specs.Prelude.{◌≡◌, None, IfOk, IsErr};
ghost use Rattle.http_session.specs.Said.{IsPrintableSaid};
ghost use Rattle.registry_core.specs.Replies as registry;
ghost use Rattle.call_replies.specs.Says.{Says};
ghost use Rattle.delta_session.specs.Telling.{change_answer, create_answer, registry_answer};

use call_replies::say;
use delta_base::OutOfMemory;
use http_session::Said;
use log_base::{SourceInfo, Sources};
use registry_core::{ChangeAnswer, CreateAnswer};
use rpc_answers::Answer;
use std::alloc::Global;

pub(crate) fn create_answer(answer: CreateAnswer) -> Answer
    ensures { result ≡ create_answer answer }
{
    match answer {
        CreateAnswer::Made(source) => Answer::Source(source),
        CreateAnswer::BadName { at } => Answer::BadName { at },
        CreateAnswer::BadUri { at } => Answer::BadUri { at },
        CreateAnswer::NameTaken { id } => Answer::NameTaken { id },
        CreateAnswer::IdTaken { name } => Answer::IdTaken { name },
        CreateAnswer::Full { what, have, limit } => Answer::Full { what, have, limit },
        CreateAnswer::OutOfMemory => Answer::OutOfMemory,
        CreateAnswer::DiskFault => Answer::DiskFault,
    }
}

pub(crate) fn change_answer(answer: ChangeAnswer) -> Answer
    ensures { result ≡ change_answer answer }
{
    match answer {
        ChangeAnswer::Done(source) => Answer::Source(source),
        ChangeAnswer::NoSuchName => Answer::NoSource,
        ChangeAnswer::BadName { at } => Answer::BadName { at },
        ChangeAnswer::NameTaken { id } => Answer::NameTaken { id },
        ChangeAnswer::Full { what, have, limit } => Answer::Full { what, have, limit },
        ChangeAnswer::OutOfMemory => Answer::OutOfMemory,
        ChangeAnswer::DiskFault => Answer::DiskFault,
    }
}

/// Says the source that was found.
pub(crate) fn say_found(alloc: Global, found: Result<Option<SourceInfo>, OutOfMemory>) -> Said
    ensures says { IfOk found (λ reply. Says (registry_answer (registry.found reply)) None result) }
    ensures want { IsErr found → result ≡ Said.OutOfMemory }
    ensures printable { IsPrintableSaid result }
{
    match found {
        Ok(Some(source)) => say(alloc, Answer::Source(source)),
        Ok(None) => say(alloc, Answer::NoSource),
        Err(_) => Said::OutOfMemory,
    }
}

/// Says the sources of a list.
pub(crate) fn say_listed(alloc: Global, listed: Result<Sources, OutOfMemory>) -> Said
    ensures says { IfOk listed (λ sources.
        Says (registry_answer (registry.listed sources.items)) None result) }
    ensures want { IsErr listed → result ≡ Said.OutOfMemory }
    ensures printable { IsPrintableSaid result }
{
    match listed {
        Ok(sources) => say(alloc, Answer::Sources(sources)),
        Err(_) => Said::OutOfMemory,
    }
}
