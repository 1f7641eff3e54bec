//! Peers that give written replies, zones in memory, and ends in short.
ghost use Rattle.std.specs.Prelude.{◌≡◌, true, IfOk};
ghost use Rattle.std.specs.List.{list_all};
ghost use Rattle.http_text.specs.Print.{is_visible};

use delta_base::{Bytes, Calls, MemLink, OutOfMemory, Text};
use delta_client::MemDial;
use disk_model::MemDisk;
use follower::{Follower, SyncEnd, sync};
use log_base::{LOG_LIMITS, LogLimits};
use paired_zone::PairedZone;
use patch_meaning::check_patch;
use std::alloc::Global;
use std::test::Fail;
use worked_rows::disk_of;
use zone_state::Zone;

/// The file of a zone that took nothing.
const EMPTY: &[u8] = b"RDJ2\0\0\x03\xe8\0";

/// Five patches, each behind the one before it.
static PATCHES: [&[u8]; 5] = [
    b"H id <uuid:00000000-0000-4000-8000-000000000001> .\nTX .\nA <http://e/s> <http://e/p> <http://e/o> .\nTC .\n",
    b"H id <uuid:00000000-0000-4000-8000-000000000002> .\nH prev <uuid:00000000-0000-4000-8000-000000000001> .\nA <http://e/s> <http://e/p> <http://e/o2> .\n",
    b"H id <uuid:00000000-0000-4000-8000-000000000003> .\nH prev <uuid:00000000-0000-4000-8000-000000000002> .\nD <http://e/s> <http://e/p> <http://e/o> .\n",
    b"H id <uuid:00000000-0000-4000-8000-000000000004> .\nH prev <uuid:00000000-0000-4000-8000-000000000003> .\n",
    b"H id <uuid:00000000-0000-4000-8000-000000000005> .\nH prev <uuid:00000000-0000-4000-8000-000000000004> .\nA <http://e/s> <http://e/p> \"5\" .\n",
];

/// What the log's call is answered with by a log of so many of them; 0 stands for a log of none.
static INFOS: [&[u8]; 6] = [
    b"{\"head\":null,\"version\":0}",
    b"{\"head\":\"00000000-0000-4000-8000-000000000001\",\"version\":1}",
    b"{\"head\":\"00000000-0000-4000-8000-000000000002\",\"version\":2}",
    b"{\"head\":\"00000000-0000-4000-8000-000000000003\",\"version\":3}",
    b"{\"head\":\"00000000-0000-4000-8000-000000000004\",\"version\":4}",
    b"{\"head\":\"00000000-0000-4000-8000-000000000005\",\"version\":5}",
];

/// The request for the log ABC.
pub(crate) const LOG_ASKED: &[u8] =
    b"POST /$/rpc HTTP/1.1\r\nHost: e:80\r\nContent-Type: application/json\r\nContent-Length: 32\r\n\r\n{\"name\":\"ABC\",\"operation\":\"log\"}";

/// A reply of a peer.
#[derive(Clone, Copy)]
pub(crate) enum Reply {
    /// The answer to the log's call by a log of so many patches.
    Log(usize),
    /// That answer, behind which the connection closes.
    LastLog(usize),
    /// The patch of this number.
    Patch(usize),
    /// Another text in the place of a patch.
    Text(&'static [u8]),
    /// JSON with this status.
    Json(&'static str, &'static [u8]),
    /// Other bytes.
    Bytes(&'static [u8]),
}

const OK: &str = "200 OK";

const JSON: &str = "Content-Type: application/json\r\n";

/// Adds a reply with this status, fields and body.
fn add_reply(
    alloc: Global,
    all: &mut Vec<u8>,
    (status, fields): (&str, &str),
    body: &[u8],
) -> Result<(), OutOfMemory> {
    let head = format!(in alloc;
        "HTTP/1.1 {status}\r\n{fields}Content-Length: {}\r\n\r\n",
        body.len()
    )?;
    all.extend_from_slice(head.as_bytes())?;
    drop(head);
    all.extend_from_slice(body)?;
    Ok(())
}

fn info(version: usize) -> &'static [u8] {
    INFOS.get(version).copied().unwrap_or(b"")
}

fn text(number: usize) -> &'static [u8] {
    PATCHES.get(number.wrapping_sub(1)).copied().unwrap_or(b"")
}

fn add(alloc: Global, all: &mut Vec<u8>, reply: &Reply) -> Result<(), OutOfMemory> {
    let last = "Connection: close\r\nContent-Type: application/json\r\n";
    let patch = "Content-Type: application/rdf-patch\r\n";
    match reply {
        Reply::Log(version) => add_reply(alloc, all, (OK, JSON), info(*version)),
        Reply::LastLog(version) => add_reply(alloc, all, (OK, last), info(*version)),
        Reply::Patch(number) => add_reply(alloc, all, (OK, patch), text(*number)),
        Reply::Text(body) => add_reply(alloc, all, (OK, patch), body),
        Reply::Json(status, body) => add_reply(alloc, all, (*status, JSON), body),
        Reply::Bytes(bytes) => Ok(all.extend_from_slice(bytes)?),
    }
}

/// Replies one behind another.
fn joined(alloc: Global, replies: &[Reply]) -> Result<Vec<u8>, OutOfMemory> {
    let mut all = Vec::new(alloc);
    for reply in replies {
        add(alloc, &mut all, reply)?;
    }
    Ok(all)
}

/// The first bytes, so many less than there are.
fn front(bytes: &[u8], less: usize) -> &[u8] {
    &bytes[..bytes.len().saturating_sub(less)]
}

/// Adds a link that gives these replies, less so many bytes at the end.
fn add_link(
    alloc: Global,
    links: &mut Vec<MemLink>,
    replies: &[Reply],
    less: usize,
) -> Result<(), OutOfMemory> {
    let bytes = joined(alloc, replies)?;
    let content = Bytes::from_slice(alloc, front(&bytes, less))?;
    links.push(MemLink::new(alloc, content, 8_192, Calls::new(alloc)))?;
    Ok(())
}

fn add_links(
    alloc: Global,
    links: &mut Vec<MemLink>,
    texts: &[&[Reply]],
    less: usize,
) -> Result<(), OutOfMemory> {
    for replies in texts {
        add_link(alloc, links, replies, less)?;
    }
    Ok(())
}

/// A dial whose connections give these replies, less so many bytes at the end of each.
pub(crate) fn dial_of(
    alloc: Global,
    texts: &[&[Reply]],
    less: usize,
) -> Result<MemDial<MemLink>, OutOfMemory> {
    let mut links = Vec::new(alloc);
    match add_links(alloc, &mut links, texts, less) {
        Ok(()) => MemDial::new(alloc, links, Calls::new(alloc)),
        Err(fault) => {
            drop(links);
            Err(fault)
        }
    }
}

/// A zone that took nothing, on a disk whose calls of these numbers fail; none where one of them is
/// a call of the opening.
pub(crate) fn new_zone(
    alloc: Global,
    failing: &[u64],
    limits: LogLimits,
) -> Result<Option<Zone<MemDisk>>, OutOfMemory> {
    let disk = disk_of(alloc, EMPTY, failing)?;
    match Zone::open_on(alloc, disk, limits) {
        Ok(zone) => Ok(Some(zone)),
        Err(_) => Ok(None),
    }
}

/// A zone on two files that took nothing, on disks whose calls of these numbers fail; none where one
/// of them is a call of the opening.
pub(crate) fn new_pair(
    alloc: Global,
    (of_first, of_second): (&[u64], &[u64]),
) -> Result<Option<PairedZone<MemDisk>>, OutOfMemory> {
    let first = disk_of(alloc, EMPTY, of_first)?;
    let second = match disk_of(alloc, b"", of_second) {
        Ok(second) => second,
        Err(fault) => {
            drop(first);
            return Err(fault);
        }
    };
    match PairedZone::open_pair(alloc, first, second, LOG_LIMITS) {
        Ok(zone) => Ok(Some(zone)),
        Err(_) => Ok(None),
    }
}

/// A zone takes these patches.
fn takes(alloc: Global, zone: &mut Zone<MemDisk>, patches: &[&[u8]]) -> Result<(), Fail> {
    for text in patches {
        let next = check_patch(alloc, text)?;
        zone.take_next(&next);
        drop(next);
    }
    Ok(())
}

/// A zone that took the first so many of the five.
pub(crate) fn zone_at(
    alloc: Global,
    version: usize,
    limits: LogLimits,
) -> Result<Zone<MemDisk>, Fail> {
    let Some(mut zone) = new_zone(alloc, &[], limits)? else {
        return Err(Fail::from("not opened"));
    };
    match takes(alloc, &mut zone, &PATCHES[..version.min(5)]) {
        Ok(()) => Ok(zone),
        Err(fault) => {
            drop(zone);
            Err(fault)
        }
    }
}

/// The host of all requests.
fn host(alloc: Global) -> Result<Text, OutOfMemory>
    ensures { IfOk result (λ host. list_all is_visible host ≡ true) }
{
    Text::from_str(alloc, "e:80")
}

/// Catches up with the log ABC.
fn synced<Z: Follower>(
    alloc: Global,
    net: &mut MemDial<MemLink>,
    zone: &mut Z,
) -> Result<SyncEnd, OutOfMemory> {
    let host = host(alloc)?;
    let name = Text::from_str(alloc, "ABC")?;
    Ok(sync(alloc, net, &host, &name, zone))
}

/// How catching up with the log ABC ends, in short.
pub(crate) fn synced_in_short<Z: Follower>(
    alloc: Global,
    net: &mut MemDial<MemLink>,
    zone: &mut Z,
) -> Result<(&'static str, u64, u64), OutOfMemory> {
    let end = synced(alloc, net, zone)?;
    let told = short(&end);
    drop(end);
    Ok(told)
}

/// How a zone of this version and these limits ends catching up with the log ABC, and its version then.
pub(crate) fn caught_up(
    alloc: Global,
    mine: usize,
    limits: LogLimits,
    net: &mut MemDial<MemLink>,
) -> Result<((&'static str, u64, u64), u32), Fail> {
    let mut zone = zone_at(alloc, mine, limits)?;
    let end = synced_in_short(alloc, net, &mut zone);
    let after = zone.version();
    drop(zone);
    Ok((end?, after))
}

/// An end by its name, with its numbers.
fn short(end: &SyncEnd) -> (&'static str, u64, u64) {
    match end {
        SyncEnd::CaughtUp { version } => ("CaughtUp", u64::from(*version), 0),
        SyncEnd::NoSuchName => ("NoSuchName", 0, 0),
        SyncEnd::PeerBehind { mine, theirs } => {
            ("PeerBehind", u64::from(*mine), u64::from(*theirs))
        }
        SyncEnd::NoPatch { version } => ("NoPatch", u64::from(*version), 0),
        SyncEnd::PeerRefused { status, body } => {
            ("PeerRefused", u64::from(*status), body.len() as u64)
        }
        SyncEnd::Diverged { version, .. } => ("Diverged", u64::from(*version), 0),
        SyncEnd::Repeated { version, .. } => ("Repeated", u64::from(*version), 0),
        SyncEnd::BadPatch { version, .. } => ("BadPatch", u64::from(*version), 0),
        SyncEnd::LinkFault => ("LinkFault", 0, 0),
        SyncEnd::CutShort => ("CutShort", 0, 0),
        SyncEnd::NotUnderstood { at } => ("NotUnderstood", *at, 0),
        SyncEnd::Full { have, limit, .. } => ("Full", *have, *limit),
        SyncEnd::TermsFull => ("TermsFull", 0, 0),
        SyncEnd::DiskFault => ("DiskFault", 0, 0),
        SyncEnd::OutOfMemory => ("OutOfMemory", 0, 0),
    }
}
