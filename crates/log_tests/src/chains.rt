//! Chains by hand: what they keep, find and decide.
ghost use Rattle.std.specs.Prelude.{◌≡◌, ◌≤◌, length, IfOk};
ghost use Rattle.log_base.specs.declared.limits.TheConstants.{PATCH_LIMIT};

use crate::tables::{Place, is};
use chain_core::{Chain, ChainFault, ChainTest, Decision, LogAnswer, Lookup, Patch, decide};
use delta_base::{Bytes, Id, OutOfMemory};
use log_base::{ChainLink, FullKind, LOG_BYTES, LOG_LIMITS, LogLimits, PATCH_LIMIT};
use patch_log::IndexedChain;
use std::alloc::Global;
use std::process::Abort;
use std::test::Fail;
use worked_rows::{FIRST, SECOND};

const U1: Id = Id(0x4000_8000_0000_0000_0001);

const U2: Id = Id(0x4000_8000_0000_0000_0002);

const U3: Id = Id(0x4000_8000_0000_0000_0003);

const U9: Id = Id(0x4000_8000_0000_0000_0009);

// A chain of the first patch.
fn one(alloc: Global) -> Result<Chain, OutOfMemory>
    ensures { IfOk result (λ chain. length chain.items ≡ 1) }
{
    let mut chain = Chain::new(alloc);
    chain.reserve(1)?;
    let text = Bytes::from_slice(alloc, FIRST)?;
    chain.push(
        Patch {
            id: U1,
            prev: None,
            text,
        },
        7,
        0,
    );
    Ok(chain)
}

// A chain of two patches, whose journal has 289 bytes.
fn two(alloc: Global) -> Result<Chain, OutOfMemory>
    ensures { IfOk result (λ chain. length chain.items ≡ 2) }
{
    let mut chain = Chain::new(alloc);
    chain.reserve(1)?;
    let first = Bytes::from_slice(alloc, FIRST)?;
    chain.push(
        Patch {
            id: U1,
            prev: None,
            text: first,
        },
        7,
        0,
    );
    chain.reserve(1)?;
    let second = Bytes::from_slice(alloc, SECOND)?;
    chain.push(
        Patch {
            id: U2,
            prev: Some(U1),
            text: second,
        },
        0,
        0,
    );
    Ok(chain)
}

fn has_two(rt: &impl Abort, chain: &Chain) {
    assert!(rt; chain.version() == 2);
    assert!(rt; chain.head() == Some(U2));
    assert!(rt; chain.journal_length() == 289);
    assert!(rt; chain.entry(1).is_some_and(|entry| entry.by == 7));
    assert!(rt;
        chain
            .by_version(2)
            .is_some_and(|patch| patch.prev == Some(U1))
    );
    assert!(rt; chain.by_id(U1).is_some_and(|patch| patch.text.len() == 104));
    assert!(rt; chain.by_id(U3).is_none());
    assert!(rt; chain.entry(0).is_none());
    assert!(rt; chain.by_version(3).is_none());
}

#[test]
fn a_chain_of_two_is_kept(rt: HostRuntime) -> Result<(), Fail> {
    let chain = two(rt.alloc())?;
    has_two(&rt, &chain);
    drop(chain);
    Ok(())
}

/// A patch behind so many others, within limits, and what is decided of it.
struct Row {
    shows: &'static str,
    behind: usize,
    id: Id,
    prev: Option<Id>,
    text: &'static [u8],
    limits: LogLimits,
    decision: Decision,
}

static ROWS: [Row; 9] = [
    Row {
        shows: "the first patch is accepted",
        behind: 0,
        id: U1,
        prev: None,
        text: FIRST,
        limits: LOG_LIMITS,
        decision: Decision::Accept { version: 1 },
    },
    Row {
        shows: "the patch behind the head is accepted",
        behind: 1,
        id: U2,
        prev: Some(U1),
        text: SECOND,
        limits: LOG_LIMITS,
        decision: Decision::Accept { version: 2 },
    },
    Row {
        shows: "a patch that is there is known",
        behind: 2,
        id: U1,
        prev: None,
        text: FIRST,
        limits: LOG_LIMITS,
        decision: Decision::Known {
            version: 1,
            same: true,
        },
    },
    Row {
        shows: "another text of a patch that is there is known",
        behind: 2,
        id: U2,
        prev: Some(U9),
        text: FIRST,
        limits: LOG_LIMITS,
        decision: Decision::Known {
            version: 2,
            same: false,
        },
    },
    Row {
        shows: "a patch behind the first of two conflicts",
        behind: 2,
        id: U3,
        prev: Some(U1),
        text: SECOND,
        limits: LOG_LIMITS,
        decision: Decision::Conflict {
            version: 2,
            head: Some(U2),
            prev_version: Some(1),
        },
    },
    Row {
        shows: "a patch behind one that an empty chain lacks conflicts",
        behind: 0,
        id: U2,
        prev: Some(U1),
        text: SECOND,
        limits: LOG_LIMITS,
        decision: Decision::Conflict {
            version: 0,
            head: None,
            prev_version: None,
        },
    },
    Row {
        shows: "a patch that names none before it conflicts",
        behind: 1,
        id: U9,
        prev: None,
        text: FIRST,
        limits: LOG_LIMITS,
        decision: Decision::Conflict {
            version: 1,
            head: Some(U1),
            prev_version: Some(0),
        },
    },
    Row {
        shows: "a chain has as many patches as it may",
        behind: 2,
        id: U3,
        prev: Some(U2),
        text: SECOND,
        limits: LogLimits {
            patches: 2,
            bytes: LOG_BYTES,
        },
        decision: Decision::Full {
            what: FullKind::Patches,
            have: 2,
            limit: 2,
        },
    },
    Row {
        shows: "a patch leads over the bytes that a chain may have",
        behind: 2,
        id: U3,
        prev: Some(U2),
        text: SECOND,
        limits: LogLimits {
            patches: 3,
            bytes: 455,
        },
        decision: Decision::Full {
            what: FullKind::Bytes,
            have: 456,
            limit: 455,
        },
    },
];

fn behind(alloc: Global, count: usize) -> Result<Chain, OutOfMemory>
    ensures { IfOk result (λ chain. length chain.items ≤ 2) }
{
    match count {
        0 => Ok(Chain::new(alloc)),
        1 => one(alloc),
        _ => two(alloc),
    }
}

// What is decided of a row's patch, where its text and limits are those of a log.
fn decided(chain: &Chain, row: &Row) -> Option<Decision>
    requires { length chain.now.items ≤ 2 }
{
    if row.text.len() as u64 > PATCH_LIMIT || row.limits.patches < 2 {
        return None;
    }
    let link = ChainLink {
        id: row.id,
        prev: row.prev,
    };
    Some(decide(chain, &row.limits, link, row.text))
}

#[test]
fn what_a_chain_decides_of_a_patch_behind_it(rt: HostRuntime) -> Result<(), Fail> {
    for row in &ROWS {
        let chain = behind(rt.alloc(), row.behind)?;
        let found = decided(&chain, row);
        drop(chain);
        let shows = row.shows;
        is(&rt, Place { shows, step: 0 }, &found, &Some(row.decision));
    }
    let second = LogAnswer::told(Decision::Accept { version: 2 });
    assert!(rt; second == LogAnswer::Accepted { version: 2 });
    Ok(())
}

fn link(id: u128, prev: Option<u128>) -> ChainLink {
    ChainLink {
        id: Id(id),
        prev: prev.map(Id),
    }
}

#[test]
fn a_patch_behind_two_is_tested(rt: HostRuntime) -> Result<(), Fail> {
    let mut test = ChainTest::new(rt.alloc());
    assert!(rt; test.fault_of(link(1, None)) == None);
    test.push(link(1, None))?;
    assert!(rt; test.fault_of(link(2, Some(1))) == None);
    test.push(link(2, Some(1)))?;
    let repeated = ChainFault::Repeated {
        id: Id(1),
        version: 1,
    };
    assert!(rt; test.fault_of(link(1, Some(2))) == Some(repeated));
    let diverged = ChainFault::Diverged {
        version: 2,
        have: Some(Id(2)),
        found: Some(Id(1)),
    };
    assert!(rt; test.fault_of(link(3, Some(1))) == Some(diverged));
    drop(test);
    Ok(())
}

// A chain of two patches that are found by their ids, which fall.
fn falling(alloc: Global) -> Result<IndexedChain, Fail>
    ensures { IfOk result (λ log. length log.items ≡ 2) }
{
    let one = Bytes::from_slice(alloc, b"one")?;
    let two = Bytes::from_slice(alloc, b"two")?;
    let mut log = IndexedChain::new(alloc);
    log.reserve(1)?;
    log.push(
        Patch {
            id: Id(9),
            prev: None,
            text: one,
        },
        7,
        0,
    );
    log.reserve(1)?;
    log.push(
        Patch {
            id: Id(2),
            prev: Some(Id(9)),
            text: two,
        },
        0,
        0,
    );
    Ok(log)
}

fn finds_two(rt: &impl Abort, log: &IndexedChain)
    requires { length log.now.items ≡ 2 }
{
    assert!(rt; log.version_of(Id(9)) == Some(1));
    assert!(rt; log.version_of(Id(2)) == Some(2));
    assert!(rt; log.version_of(Id(3)).is_none());
    assert!(rt; log.chain().head() == Some(Id(2)));
    let conflict = Decision::Conflict {
        version: 2,
        head: Some(Id(2)),
        prev_version: Some(1),
    };
    assert!(rt; decide(log, &LOG_LIMITS, link(3, Some(9)), b"three") == conflict);
}

#[test]
fn two_patches_are_found_and_one_behind_the_first_conflicts(rt: HostRuntime) -> Result<(), Fail> {
    let log = falling(rt.alloc())?;
    finds_two(&rt, &log);
    drop(log);
    Ok(())
}
