//! Workers that serve at once: the first connection ends only where the second
//! was answered meanwhile.
ghost use Rattle.std.specs.Prelude.{None};

use crate::runs::{TWO, add_gate, fill, run, shelf};
use delta_base::{Failed, Link, OutOfMemory};
use disk_model::MemShelf;
use std::alloc::Global;
use std::process::Abort;
use std::sync::Wait;
use std::sync::atomic::{AtomicU64, Ordering};
use std::test::Fail;
use std::thread::Threads;
use worker_pool::MemGate;

/// How often the first connection looks.
const LOOKS: u32 = 100_000_000;

const PING: &[u8] = b"GET /$/ping HTTP/1.1\r\nHost: a\r\n\r\n";

/// A connection that asks whether the server is there. One that waits gives its last byte only
/// after the other was answered.
#[derive(Drop)]
struct Asking<'a> {
    answered: &'a AtomicU64,
    waits: bool,
    /// How many bytes were read.
    at: usize,
    sent: u64,
    faults: u64,
}

impl<'a> Asking<'a> {
    fn new(answered: &'a AtomicU64, waits: bool) -> Asking<'a> {
        Asking {
            answered,
            waits,
            at: 0,
            sent: 0,
            faults: 0,
        }
    }

    // Whether the other connection was answered within so many looks.
    fn sees_the_other(&self) -> bool {
        for _ in 0..LOOKS {
            if self.answered.load(Ordering::SeqCst) > 0 {
                return true;
            }
        }
        false
    }
}

impl<'a> Link for Asking<'a> {
    ghost left = { λ l. None };

    ghost sent = { λ l. None };

    ghost faults = { λ l. l.faults };

    fn read(&mut self, into: &mut [u8]) -> Result<usize, Failed> {
        let Some(byte) = PING.get(self.at) else {
            return Ok(0);
        };
        if into.is_empty() {
            return Ok(0);
        }
        if self.at + 1 == PING.len() && self.waits && !self.sees_the_other() {
            self.faults = self.faults.saturating_add(1);
            return Err(Failed);
        }
        self.at += 1;
        into[0] = *byte;
        Ok(1)
    }

    fn write(&mut self, bytes: &[u8]) -> Result<usize, Failed> {
        self.sent = self.sent.saturating_add(bytes.len() as u64);
        if !self.waits {
            self.answered.store(1, Ordering::SeqCst);
        }
        Ok(bytes.len())
    }

    fn faults(&self) -> u64 {
        self.faults
    }
}

// A gate of one such connection.
fn add<'a>(
    alloc: Global,
    gates: &mut Vec<MemGate<Asking<'a>>>,
    answered: &'a AtomicU64,
    waits: bool,
) -> Result<(), OutOfMemory> {
    let mut links = Vec::new(alloc);
    links.push(Asking::new(answered, waits))?;
    add_gate(alloc, gates, links, &[])
}

// Adds a gate of one that waits and a gate of the other, and further ones up to sixteen.
fn add_all<'a>(
    alloc: Global,
    gates: &mut Vec<MemGate<Asking<'a>>>,
    answered: &'a AtomicU64,
) -> Result<(), OutOfMemory> {
    add(alloc, gates, answered, true)?;
    add(alloc, gates, answered, false)?;
    fill(alloc, gates)
}

// Those gates.
fn gates_of<'a>(
    alloc: Global,
    answered: &'a AtomicU64,
) -> Result<Vec<MemGate<Asking<'a>>>, OutOfMemory> {
    let mut gates = Vec::new(alloc);
    match add_all(alloc, &mut gates, answered) {
        Ok(()) => Ok(gates),
        Err(OutOfMemory) => {
            drop(gates);
            Err(OutOfMemory)
        }
    }
}

// How many connections were answered; there are no others.
fn count_answered<R: Abort>(rt: &R, gates: &[MemGate<Asking<'_>>]) -> u32 {
    let mut answers = 0u32;
    for gate in gates {
        for link in gate.back() {
            assert!(rt; link.sent > 0 && link.faults == 0);
            answers = answers.saturating_add(1);
        }
    }
    answers
}

// A server over this shelf answers both.
fn answers_both<R: Abort + Threads + Wait + Sync>(
    rt: &R,
    alloc: Global,
    shelf: &mut MemShelf,
    answered: &AtomicU64,
) -> Result<(), Fail> {
    let gates = gates_of(alloc, answered)?;
    let gates = run(rt, alloc, TWO, shelf, gates, 0, "")?;
    let answers = count_answered(rt, &gates);
    drop(gates);
    assert!(rt; answers == 2);
    Ok(())
}

#[test]
fn both_connections_are_answered(rt: HostRuntime) -> Result<(), Fail> {
    let alloc = rt.alloc();
    let answered = AtomicU64::new(0);
    let mut shelf = shelf(alloc, &[])?;
    let ran = answers_both(&rt, alloc, &mut shelf, &answered);
    drop(shelf);
    ran
}
