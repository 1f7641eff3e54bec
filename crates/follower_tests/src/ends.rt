//! How catching up ends, by what the peer answers.
use crate::peers::{Reply, caught_up, dial_of};
use log_base::{LOG_LIMITS, LogLimits};
use std::alloc::Global;
use std::process::Abort;
use std::test::Fail;

/// What a zone that took the first so many patches reads on its connections, less so many bytes at
/// the end of each; how it ends; and its version then.
struct Row {
    shows: &'static str,
    mine: usize,
    links: &'static [&'static [Reply]],
    less: usize,
    end: (&'static str, u64, u64),
    after: u32,
}

const NO_SOURCE: Reply = Reply::Json("404 Not Found", b"{\"error\":\"no_source\"}");

const NO_PATCH: Reply = Reply::Json("404 Not Found", b"{\"error\":\"no_patch\",\"version\":3}");

const REFUSAL: &[u8] = b"{\"error\":\"out_of_memory\"}";

const REFUSED: Reply = Reply::Json("503 Service Unavailable", REFUSAL);

const AGAIN: &[u8] =
    b"H id <uuid:00000000-0000-4000-8000-000000000001> .\nH prev <uuid:00000000-0000-4000-8000-000000000002> .\n";

static ROWS: [Row; 24] = [
    Row {
        shows: "a zone at 2 catches up with a log of 5",
        mine: 2,
        links: &[&[
            Reply::Log(5),
            Reply::Patch(3),
            Reply::Patch(4),
            Reply::Patch(5),
        ]],
        less: 0,
        end: ("CaughtUp", 5, 0),
        after: 5,
    },
    Row {
        shows: "a zone at 0 that is equal has caught up",
        mine: 0,
        links: &[&[Reply::Log(0)]],
        less: 0,
        end: ("CaughtUp", 0, 0),
        after: 0,
    },
    Row {
        shows: "a zone at 1 that is equal has caught up",
        mine: 1,
        links: &[&[Reply::Log(1)]],
        less: 0,
        end: ("CaughtUp", 1, 0),
        after: 1,
    },
    Row {
        shows: "a zone at 2 that is equal has caught up",
        mine: 2,
        links: &[&[Reply::Log(2)]],
        less: 0,
        end: ("CaughtUp", 2, 0),
        after: 2,
    },
    Row {
        shows: "a zone at 3 that is equal has caught up",
        mine: 3,
        links: &[&[Reply::Log(3)]],
        less: 0,
        end: ("CaughtUp", 3, 0),
        after: 3,
    },
    Row {
        shows: "a zone at 4 that is equal has caught up",
        mine: 4,
        links: &[&[Reply::Log(4)]],
        less: 0,
        end: ("CaughtUp", 4, 0),
        after: 4,
    },
    Row {
        shows: "a zone at 5 that is equal has caught up",
        mine: 5,
        links: &[&[Reply::Log(5)]],
        less: 0,
        end: ("CaughtUp", 5, 0),
        after: 5,
    },
    Row {
        shows: "a log of 1 is behind a zone at 2",
        mine: 2,
        links: &[&[Reply::Log(1)]],
        less: 0,
        end: ("PeerBehind", 2, 1),
        after: 2,
    },
    Row {
        shows: "another head at the zone's version diverges",
        mine: 2,
        links: &[&[Reply::Json(
            "200 OK",
            b"{\"head\":\"00000000-0000-4000-8000-000000000009\",\"version\":2}",
        )]],
        less: 0,
        end: ("Diverged", 2, 0),
        after: 2,
    },
    Row {
        shows: "a patch behind another one diverges",
        mine: 2,
        links: &[&[Reply::Log(5), Reply::Patch(3), Reply::Patch(5)]],
        less: 0,
        end: ("Diverged", 3, 0),
        after: 3,
    },
    Row {
        shows: "a patch that was taken is repeated",
        mine: 2,
        links: &[&[Reply::Log(5), Reply::Text(AGAIN)]],
        less: 0,
        end: ("Repeated", 1, 0),
        after: 2,
    },
    Row {
        shows: "a text that is no patch is told with its version",
        mine: 2,
        links: &[&[Reply::Log(5), Reply::Patch(3), Reply::Text(b"H id 1 .\n")]],
        less: 0,
        end: ("BadPatch", 4, 0),
        after: 3,
    },
    Row {
        shows: "a patch that the peer has not is told",
        mine: 2,
        links: &[&[Reply::Log(5), Reply::Patch(3), NO_PATCH]],
        less: 0,
        end: ("NoPatch", 4, 0),
        after: 3,
    },
    Row {
        shows: "a name without a source is told",
        mine: 2,
        links: &[&[NO_SOURCE]],
        less: 0,
        end: ("NoSuchName", 0, 0),
        after: 2,
    },
    Row {
        shows: "a name whose source has gone is told",
        mine: 2,
        links: &[&[Reply::Log(5), Reply::Patch(3), NO_SOURCE]],
        less: 0,
        end: ("NoSuchName", 0, 0),
        after: 3,
    },
    Row {
        shows: "a refusal is told with its body",
        mine: 2,
        links: &[&[REFUSED]],
        less: 0,
        end: ("PeerRefused", 503, REFUSAL.len() as u64),
        after: 2,
    },
    Row {
        shows: "a later refusal is told with its body",
        mine: 2,
        links: &[&[Reply::Log(5), Reply::Patch(3), REFUSED]],
        less: 0,
        end: ("PeerRefused", 503, REFUSAL.len() as u64),
        after: 3,
    },
    Row {
        shows: "a patch in the place of a log is not understood",
        mine: 2,
        links: &[&[Reply::Patch(3)]],
        less: 0,
        end: ("NotUnderstood", 0, 0),
        after: 2,
    },
    Row {
        shows: "a log in the place of a patch is not understood",
        mine: 2,
        links: &[&[Reply::Log(5), Reply::Log(5)]],
        less: 0,
        end: ("NotUnderstood", 0, 0),
        after: 2,
    },
    Row {
        shows: "bytes that are no answer are told with their place",
        mine: 2,
        links: &[&[Reply::Bytes(b"SSH-2.0-x\r\n")]],
        less: 0,
        end: ("NotUnderstood", 0, 0),
        after: 2,
    },
    Row {
        shows: "a member that is not asked is told with its place",
        mine: 2,
        links: &[&[Reply::Log(5), Reply::Json("200 OK", b"{\"a\":1}")]],
        less: 0,
        end: ("NotUnderstood", 7, 0),
        after: 2,
    },
    Row {
        shows: "an answer that ends early is cut short",
        mine: 2,
        links: &[&[Reply::Log(5)]],
        less: 1,
        end: ("CutShort", 0, 0),
        after: 2,
    },
    Row {
        shows: "no answer behind the log's is cut short",
        mine: 2,
        links: &[&[Reply::Log(5)]],
        less: 0,
        end: ("CutShort", 0, 0),
        after: 2,
    },
    Row {
        shows: "a last patch that ends early is cut short",
        mine: 2,
        links: &[&[
            Reply::Log(5),
            Reply::Patch(3),
            Reply::Patch(4),
            Reply::Patch(5),
        ]],
        less: 1,
        end: ("CutShort", 0, 0),
        after: 4,
    },
];

fn ends(rt: &impl Abort, alloc: Global, row: &Row) -> Result<(), Fail> {
    let mut net = dial_of(alloc, row.links, row.less)?;
    let ended = caught_up(alloc, row.mine, LOG_LIMITS, &mut net);
    drop(net);
    let (told, version) = ended?;
    assert!(rt; told.0 == row.end.0, "{}: {}", row.shows, told.0);
    assert!(rt; told.1 == row.end.1 && told.2 == row.end.2, "{}", row.shows);
    assert!(rt; version == row.after, "{}", row.shows);
    Ok(())
}

#[test]
fn each_answer_of_a_peer_has_its_end(rt: HostRuntime) -> Result<(), Fail> {
    for row in &ROWS {
        ends(&rt, rt.alloc(), row)?;
    }
    Ok(())
}

/// A zone of these limits that took two patches fetches a third; how that ends.
struct Full {
    shows: &'static str,
    limits: LogLimits,
    end: (&'static str, u64, u64),
}

static FULL: [Full; 3] = [
    Full {
        shows: "a third patch is one too many",
        limits: LogLimits {
            patches: 2,
            bytes: LOG_LIMITS.bytes,
        },
        end: ("Full", 2, 2),
    },
    Full {
        shows: "a third patch is one byte too long",
        limits: LogLimits {
            patches: LOG_LIMITS.patches,
            bytes: 434,
        },
        end: ("Full", 435, 434),
    },
    Full {
        shows: "a third patch fits",
        limits: LogLimits {
            patches: 3,
            bytes: 435,
        },
        end: ("CaughtUp", 3, 0),
    },
];

fn fills(rt: &impl Abort, alloc: Global, row: &Full) -> Result<(), Fail> {
    let mut net = dial_of(alloc, &[&[Reply::Log(3), Reply::Patch(3)]], 0)?;
    let ended = caught_up(alloc, 2, row.limits, &mut net);
    drop(net);
    let (told, version) = ended?;
    assert!(rt; told == row.end, "{}: {} {}", row.shows, told.0, told.1);
    assert!(rt; (version == 2) == (told.0 == "Full"), "{}", row.shows);
    Ok(())
}

#[test]
fn a_zone_takes_no_more_than_its_limits(rt: HostRuntime) -> Result<(), Fail> {
    for row in &FULL {
        fills(&rt, rt.alloc(), row)?;
    }
    Ok(())
}
