//! What a mirror says to the calls that ask its log.
ghost use Rattle.http_session.specs.Said.{IsPrintableSaid};
ghost use Rattle.turn_cell.specs.Sharing.{IsPassOf};
ghost use Rattle.shared_log.specs.History.{shared_log};
ghost use Rattle.mirror_session.specs.Answered.{AsksLog, ByName};

use call_replies::{say, say_fetched, version_within};
use delta_base::{Id, Text};
use disk_model::Disk;
use http_session::Said;
use log_base::LogInfo;
use rpc_answers::Answer;
use shared_log::{LogPass, SharedLog};
use std::alloc::Global;
use std::sync::Wait;

/// What is asked of the log of a mirror.
#[derive(Clone, Copy, Debug)]
pub enum LogAsk {
    /// How long it is, and the id of its last patch.
    Describe,
    /// How long it is.
    Version,
    /// The patch of a version.
    FetchVersion(u64),
    /// The patch with an id.
    FetchId(Id),
}

// What is said of the log.
fn say_of_log<R: Wait, D: Disk>(
    rt: &R,
    alloc: Global,
    log: &SharedLog<D>,
    pass: &mut LogPass<D>,
    asked: LogAsk,
) -> Said
    requires of { IsPassOf (shared_log D.Disk) log.now pass.old }
    ensures of { IsPassOf (shared_log D.Disk) log.now pass.new }
    ensures asks { AsksLog D.Disk log.now.origin asked pass.old result pass.new }
    ensures printable { IsPrintableSaid result }
{
    match asked {
        LogAsk::Describe => {
            let LogInfo { version, head } = log.describe(rt, pass);
            say(alloc, Answer::Info { version, head })
        }
        LogAsk::Version => {
            let version = log.version(pass);
            say(alloc, Answer::Version { version })
        }
        LogAsk::FetchVersion(version) => say_fetched(
            alloc,
            log.fetch_version(rt, pass, version_within(version)),
        ),
        LogAsk::FetchId(id) => say_fetched(alloc, log.fetch_id(rt, pass, id)),
    }
}

/// What is said of the source with a name, which is the log where it has that name.
pub(crate) fn say_by_name<R: Wait, D: Disk>(
    rt: &R,
    alloc: Global,
    log: &SharedLog<D>,
    name: &Text,
    pass: &mut LogPass<D>,
    source: Text,
    asked: LogAsk,
) -> Said
    requires of { IsPassOf (shared_log D.Disk) log.now pass.old }
    ensures of { IsPassOf (shared_log D.Disk) log.now pass.new }
    ensures by_name { ByName D.Disk log.now.origin name.now source asked pass.old result pass.new }
    ensures printable { IsPrintableSaid result }
{
    let is_its_name = source.as_str() == name.as_str();
    drop(source);
    if is_its_name {
        say_of_log(rt, alloc, log, pass, asked)
    } else {
        say(alloc, Answer::NoSource)
    }
}
