//! What a zone has taken, what was asked, over which connections, and what failing calls leave.
use crate::peers::{LOG_ASKED, Reply, caught_up, dial_of, new_zone, synced_in_short, zone_at};
use delta_base::{MemLink, OutOfMemory, Text};
use delta_client::{Dial, MemDial};
use disk_model::MemDisk;
use line_log::MadeLines;
use log_base::LOG_LIMITS;
use std::alloc::Global;
use std::process::Abort;
use std::test::Fail;
use zone_state::Zone;

/// What the five patches make.
pub(crate) const LINES: &[u8] =
    b"<http://e/s> <http://e/p> \"5\" .\n<http://e/s> <http://e/p> <http://e/o2> .\n";

/// The answers of a log of all five patches to a zone that has none.
pub(crate) static ALL: [Reply; 6] = [
    Reply::Log(5),
    Reply::Patch(1),
    Reply::Patch(2),
    Reply::Patch(3),
    Reply::Patch(4),
    Reply::Patch(5),
];

/// The requests for the patches 3 to 5.
const FETCH3: &[u8] = b"GET /ABC/3 HTTP/1.1\r\nHost: e:80\r\n\r\n";

const FETCH4: &[u8] = b"GET /ABC/4 HTTP/1.1\r\nHost: e:80\r\n\r\n";

const FETCH5: &[u8] = b"GET /ABC/5 HTTP/1.1\r\nHost: e:80\r\n\r\n";

/// What a zone at version 2 reads on its connections, how it ends, what it asked on each of them,
/// and how many of its tries to connect failed.
struct Row {
    shows: &'static str,
    links: &'static [&'static [Reply]],
    end: &'static str,
    asked: &'static [&'static [&'static [u8]]],
    tries: u64,
    faults: u64,
}

static ROWS: [Row; 3] = [
    Row {
        shows: "one connection serves all calls",
        links: &[&[
            Reply::Log(5),
            Reply::Patch(3),
            Reply::Patch(4),
            Reply::Patch(5),
        ]],
        end: "CaughtUp",
        asked: &[&[LOG_ASKED, FETCH3, FETCH4, FETCH5]],
        tries: 1,
        faults: 0,
    },
    Row {
        shows: "a reply that closes is followed by another connection",
        links: &[&[Reply::LastLog(3)], &[Reply::Patch(3)]],
        end: "CaughtUp",
        asked: &[&[LOG_ASKED], &[FETCH3]],
        tries: 2,
        faults: 0,
    },
    Row {
        shows: "a connect that fails is told",
        links: &[],
        end: "LinkFault",
        asked: &[],
        tries: 1,
        faults: 1,
    },
];

/// Whether these texts were sent one behind another.
fn is_sent(sent: &[u8], texts: &[&[u8]]) -> bool {
    let mut rest = sent;
    for text in texts {
        match rest.strip_prefix(*text) {
            Some(behind) => rest = behind,
            None => return false,
        }
    }
    rest.is_empty()
}

/// On these connections this was sent.
fn are_asked(links: &[MemLink], asked: &[&[&[u8]]]) -> bool {
    links.len() == asked.len()
        && links
            .iter()
            .zip(asked)
            .all(|(link, texts)| is_sent(link.sent(), texts))
}

fn catches_up(
    rt: &impl Abort,
    alloc: Global,
    net: &mut MemDial<MemLink>,
    row: &Row,
) -> Result<(), Fail> {
    let (told, _) = caught_up(alloc, 2, LOG_LIMITS, net)?;
    assert!(rt; told.0 == row.end, "{}: {}", row.shows, told.0);
    assert!(rt;
        net.tries() == row.tries && net.faults() == row.faults,
        "{}",
        row.shows
    );
    assert!(rt; are_asked(net.back(), row.asked), "{}", row.shows);
    Ok(())
}

fn dials(rt: &impl Abort, alloc: Global, row: &Row) -> Result<(), Fail> {
    let mut net = dial_of(alloc, row.links, 0)?;
    let told = catches_up(rt, alloc, &mut net, row);
    drop(net);
    told
}

#[test]
fn what_is_asked_over_which_connections(rt: HostRuntime) -> Result<(), Fail> {
    for row in &ROWS {
        dials(&rt, rt.alloc(), row)?;
    }
    Ok(())
}

/// The lines of a new zone that caught up over a dial.
fn lines_behind(alloc: Global, net: &mut MemDial<MemLink>) -> Result<MadeLines, Fail> {
    let mut zone = zone_at(alloc, 0, LOG_LIMITS)?;
    let lines = reads_lines(alloc, net, &mut zone);
    drop(zone);
    lines
}

fn reads_lines(
    alloc: Global,
    net: &mut MemDial<MemLink>,
    zone: &mut Zone<MemDisk>,
) -> Result<MadeLines, Fail> {
    synced_in_short(alloc, net, zone)?;
    Ok(zone.lines()?)
}

/// Lines one behind another.
pub(crate) fn joined_lines(alloc: Global, lines: &MadeLines) -> Result<Vec<u8>, OutOfMemory> {
    let mut found = Vec::new(alloc);
    for at in 0..lines.len() {
        found.extend_from_slice(lines.line(at))?;
    }
    Ok(found)
}

#[test]
fn a_zone_that_caught_up_has_the_dataset_of_the_log(rt: HostRuntime) -> Result<(), Fail> {
    let alloc = rt.alloc();
    let mut net = dial_of(alloc, &[&ALL], 0)?;
    let lines = lines_behind(alloc, &mut net);
    drop(net);
    let lines = lines?;
    let found = joined_lines(alloc, &lines);
    drop(lines);
    assert!(rt; found?.as_slice() == LINES);
    Ok(())
}

/// A zone whose disk fails at this call has caught up, or tells it; none where it can't be opened.
fn told_behind(
    alloc: Global,
    net: &mut MemDial<MemLink>,
    number: u64,
) -> Result<Option<(&'static str, u32, u64)>, OutOfMemory> {
    match new_zone(alloc, &[number], LOG_LIMITS)? {
        Some(zone) => {
            let mut zone = zone;
            let end = synced_in_short(alloc, net, &mut zone);
            let (version, faults) = (zone.version(), zone.faults());
            drop(zone);
            Ok(Some((end?.0, version, faults)))
        }
        None => Ok(None),
    }
}

/// A disk that fails at this call is told with its fault, and the zone then has not taken all.
fn tells_a_fault_at<R: Abort>(rt: &R, alloc: Global, number: u64) -> Result<(), OutOfMemory> {
    let mut net = dial_of(alloc, &[&ALL], 0)?;
    let told = told_behind(alloc, &mut net, number);
    drop(net);
    if let Some((name, version, faults)) = told? {
        tells_its_fault(rt, name, version, faults);
    }
    Ok(())
}

/// A zone with this version and these faults of its disk tells this end.
fn tells_its_fault<R: Abort>(rt: &R, name: &str, version: u32, faults: u64) {
    if name == "DiskFault" {
        assert!(rt; version < 5 && faults == 1);
    } else {
        assert!(rt; name == "CaughtUp" && version == 5 && faults == 0);
    }
}

#[test]
fn a_disk_that_fails_is_told(rt: HostRuntime) -> Result<(), Fail> {
    for number in 0..40 {
        tells_a_fault_at(&rt, rt.alloc(), number)?;
    }
    Ok(())
}

/// A zone at version 2 that catches up tells its end by what failed.
fn tells_want<R: Abort>(rt: &R, alloc: Global, net: &mut MemDial<MemLink>) -> Result<(), Fail> {
    let (told, version) = caught_up(alloc, 2, LOG_LIMITS, net)?;
    assert!(rt; net.addresses().len() == net.back().len());
    is_want(rt, told.0, net.faults(), version);
    Ok(())
}

/// This end goes with so many failed calls of the dial, and with this version.
fn is_want<R: Abort>(rt: &R, name: &str, faults: u64, version: u32) {
    match name {
        "LinkFault" => assert!(rt; faults == 1),
        "CaughtUp" => assert!(rt; version == 3),
        "OutOfMemory" => assert!(rt; version == 2),
        _ => {}
    }
}

// A link, a dial or a disk in memory that finds none counts it as a failed call.
#[test]
fn want_of_memory_is_told(rt: HostRuntime) -> Result<(), Fail> {
    let alloc = rt.alloc();
    let replies = [Reply::Log(3), Reply::Patch(3)];
    let mut net = dial_of(alloc, &[&replies], 0)?;
    let told = tells_want(&rt, alloc, &mut net);
    drop(net);
    told
}
