//! A zone on two files that catches up, whose disk fails meanwhile, and that catches up again.
use crate::peers::{Reply, dial_of, new_pair, synced_in_short};
use crate::taken::{ALL, LINES, joined_lines};
use delta_base::MemLink;
use delta_client::MemDial;
use disk_model::MemDisk;
use paired_zone::PairedZone;
use std::alloc::Global;
use std::process::Abort;
use std::test::Fail;

type Pair = PairedZone<MemDisk>;

/// Which calls fail of the disks of a new zone, the first file's and the second's; how it ends
/// catching up with a log of five patches then, its version, and whether no patch is in doubt; and
/// what it is answered when it catches up again.
struct Row {
    shows: &'static str,
    failing: (&'static [u64], &'static [u64]),
    end: (&'static str, u64, u64),
    version: u32,
    settled: bool,
    again: &'static [Reply],
}

/// The answers of that log to a zone at version 2.
const LATER: &[Reply] = &[
    Reply::Log(5),
    Reply::Patch(3),
    Reply::Patch(4),
    Reply::Patch(5),
];

static ROWS: [Row; 4] = [
    Row {
        shows: "no disk fails",
        failing: (&[], &[]),
        end: ("CaughtUp", 5, 0),
        version: 5,
        settled: true,
        again: &[Reply::Log(5)],
    },
    Row {
        shows: "the current file fails before the gate of the third patch",
        failing: (&[16], &[]),
        end: ("DiskFault", 0, 0),
        version: 2,
        settled: true,
        again: LATER,
    },
    Row {
        shows: "the current file fails at that gate",
        failing: (&[20], &[]),
        end: ("DiskFault", 0, 0),
        version: 2,
        settled: false,
        again: LATER,
    },
    Row {
        shows: "the other file isn't asked meanwhile",
        failing: (&[], &[2]),
        end: ("CaughtUp", 5, 0),
        version: 5,
        settled: true,
        again: &[Reply::Log(5)],
    },
];

/// Catches up over a connection that gives these replies.
fn caught_up(
    alloc: Global,
    zone: &mut Pair,
    replies: &[Reply],
) -> Result<(&'static str, u64, u64), Fail> {
    let mut net = dial_of(alloc, &[replies], 0)?;
    let told = synced_in_short(alloc, &mut net, zone);
    drop(net);
    Ok(told?)
}

/// The zone has what the five patches make.
fn has_all(rt: &impl Abort, alloc: Global, zone: &Pair, row: &Row) -> Result<(), Fail> {
    let lines = zone.lines()?;
    let found = joined_lines(alloc, &lines);
    drop(lines);
    assert!(rt; found?.as_slice() == LINES, "{}", row.shows);
    Ok(())
}

/// It ends as the row says, and leaves the zone so.
fn ends_so(rt: &impl Abort, alloc: Global, zone: &mut Pair, row: &Row) -> Result<(), Fail> {
    let end = caught_up(alloc, zone, &ALL)?;
    assert!(rt; end == row.end, "{}: {}", row.shows, end.0);
    assert!(rt;
        zone.version() == row.version,
        "{}: {}",
        row.shows,
        zone.version()
    );
    assert!(rt; zone.is_settled() == row.settled, "{}", row.shows);
    Ok(())
}

fn catches_up_again(
    rt: &impl Abort,
    alloc: Global,
    zone: &mut Pair,
    row: &Row,
) -> Result<(), Fail> {
    ends_so(rt, alloc, zone, row)?;
    let end = caught_up(alloc, zone, row.again)?;
    assert!(rt; end == ("CaughtUp", 5, 0), "{}: {}", row.shows, end.0);
    assert!(rt; zone.is_settled(), "{}", row.shows);
    has_all(rt, alloc, zone, row)
}

fn shows(rt: &impl Abort, alloc: Global, row: &Row) -> Result<(), Fail> {
    let Some(mut zone) = new_pair(alloc, row.failing)? else {
        return Err(Fail::from("not opened"));
    };
    let told = catches_up_again(rt, alloc, &mut zone, row);
    drop(zone);
    told
}

#[test]
fn a_pair_catches_up_behind_a_disk_that_failed(rt: HostRuntime) -> Result<(), Fail> {
    for row in &ROWS {
        shows(&rt, rt.alloc(), row)?;
    }
    Ok(())
}
