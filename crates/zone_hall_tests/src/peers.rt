//! Peers that give written replies, and ends in short.
ghost use Rattle.std.specs.Prelude.{◌≡◌, true, IfOk};
ghost use Rattle.std.specs.List.{list_all};
ghost use Rattle.http_text.specs.Print.{is_visible};

use delta_base::{Bytes, Calls, MemLink, OutOfMemory, Text};
use delta_client::MemDial;
use follower::SyncEnd;
use std::alloc::Global;
use worked_rows::{FIRST, SECOND, calls};

/// The patch behind `SECOND`, which takes a quad away.
pub(crate) const THIRD: &[u8] =
    b"H id <uuid:00000000-0000-4000-8000-000000000003> .\nH prev <uuid:00000000-0000-4000-8000-000000000002> .\nTX .\nD <http://e/s> <http://e/p> <http://e/o> .\nTC .\n";

/// A reply of a peer.
#[derive(Clone, Copy)]
pub(crate) enum Reply {
    /// The answer to the log's call by a log of so many patches.
    Log(usize),
    /// That answer, behind which the connection closes.
    LastLog(usize),
    /// The patch of this number.
    Patch(usize),
    /// Another text in the place of a patch.
    Text(&'static [u8]),
    /// JSON with this status.
    Json(&'static str, &'static [u8]),
}

const OK: &str = "200 OK";

const JSON: &str = "Content-Type: application/json\r\n";

const PATCH: &str = "Content-Type: application/rdf-patch\r\n";

/// What a log of so many patches answers to its call.
static INFOS: [&[u8]; 4] = [
    b"{\"head\":null,\"version\":0}",
    b"{\"head\":\"00000000-0000-4000-8000-000000000001\",\"version\":1}",
    b"{\"head\":\"00000000-0000-4000-8000-000000000002\",\"version\":2}",
    b"{\"head\":\"00000000-0000-4000-8000-000000000003\",\"version\":3}",
];

/// The patch of this number, of three.
fn text(number: usize) -> &'static [u8] {
    match number {
        1 => FIRST,
        2 => SECOND,
        _ => THIRD,
    }
}

fn info(version: usize) -> &'static [u8] {
    INFOS.get(version).copied().unwrap_or(b"")
}

/// Adds a reply with this status, fields and body.
fn add_reply(
    alloc: Global,
    all: &mut Vec<u8>,
    (status, fields): (&str, &str),
    body: &[u8],
) -> Result<(), OutOfMemory> {
    let head = format!(in alloc;
        "HTTP/1.1 {status}\r\n{fields}Content-Length: {}\r\n\r\n",
        body.len()
    )?;
    all.extend_from_slice(head.as_bytes())?;
    drop(head);
    all.extend_from_slice(body)?;
    Ok(())
}

fn add(alloc: Global, all: &mut Vec<u8>, reply: &Reply) -> Result<(), OutOfMemory> {
    let last = "Connection: close\r\nContent-Type: application/json\r\n";
    match reply {
        Reply::Log(version) => add_reply(alloc, all, (OK, JSON), info(*version)),
        Reply::LastLog(version) => add_reply(alloc, all, (OK, last), info(*version)),
        Reply::Patch(number) => add_reply(alloc, all, (OK, PATCH), text(*number)),
        Reply::Text(body) => add_reply(alloc, all, (OK, PATCH), body),
        Reply::Json(status, body) => add_reply(alloc, all, (*status, JSON), body),
    }
}

/// Replies one behind another.
fn joined(alloc: Global, replies: &[Reply]) -> Result<Vec<u8>, OutOfMemory> {
    let mut all = Vec::new(alloc);
    for reply in replies {
        add(alloc, &mut all, reply)?;
    }
    Ok(all)
}

/// Adds a link that gives these replies, and whose calls of these numbers fail.
fn add_link(
    alloc: Global,
    links: &mut Vec<MemLink>,
    replies: &[Reply],
    failing: &[u64],
) -> Result<(), OutOfMemory> {
    let bytes = joined(alloc, replies)?;
    let content = Bytes::from_slice(alloc, &bytes)?;
    links.push(MemLink::new(alloc, content, 8_192, calls(alloc, failing)?))?;
    Ok(())
}

fn add_links(
    alloc: Global,
    links: &mut Vec<MemLink>,
    texts: &[&[Reply]],
    failing: &[u64],
) -> Result<(), OutOfMemory> {
    for replies in texts {
        add_link(alloc, links, replies, failing)?;
    }
    Ok(())
}

/// A dial whose connections give these replies, and on each of which the calls of these numbers fail.
pub(crate) fn dial_of(
    alloc: Global,
    texts: &[&[Reply]],
    failing: &[u64],
) -> Result<MemDial<MemLink>, OutOfMemory> {
    let mut links = Vec::new(alloc);
    match add_links(alloc, &mut links, texts, failing) {
        Ok(()) => MemDial::new(alloc, links, Calls::new(alloc)),
        Err(fault) => {
            drop(links);
            Err(fault)
        }
    }
}

/// The host of all requests.
pub(crate) fn host(alloc: Global) -> Result<Text, OutOfMemory>
    ensures { IfOk result (λ host. list_all is_visible host ≡ true) }
{
    Text::from_str(alloc, "e:80")
}

/// An end by its name, with its version.
pub(crate) fn short(end: &SyncEnd) -> (&'static str, u32) {
    match end {
        SyncEnd::CaughtUp { version } => ("CaughtUp", *version),
        SyncEnd::NoSuchName => ("NoSuchName", 0),
        SyncEnd::PeerBehind { mine, .. } => ("PeerBehind", *mine),
        SyncEnd::NoPatch { version } => ("NoPatch", *version),
        SyncEnd::PeerRefused { .. } => ("PeerRefused", 0),
        SyncEnd::Diverged { version, .. } => ("Diverged", *version),
        SyncEnd::Repeated { version, .. } => ("Repeated", *version),
        SyncEnd::BadPatch { version, .. } => ("BadPatch", *version),
        SyncEnd::LinkFault => ("LinkFault", 0),
        SyncEnd::CutShort => ("CutShort", 0),
        SyncEnd::NotUnderstood { .. } => ("NotUnderstood", 0),
        SyncEnd::Full { .. } => ("Full", 0),
        SyncEnd::TermsFull => ("TermsFull", 0),
        SyncEnd::DiskFault => ("DiskFault", 0),
        SyncEnd::OutOfMemory => ("OutOfMemory", 0),
    }
}
