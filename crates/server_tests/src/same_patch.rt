//! Two gates of one connection each, which send the same patch to a hall.
ghost use Rattle.std.specs.Prelude.{◌≡◌, ◌<◌, IfOk, vec_len};

use crate::runs::add_connection;
use delta_base::{Bytes, Calls, MemLink, OutOfMemory};
use delta_session::{Worked, open_hall, serve_gates};
use disk_model::MemDisk;
use std::alloc::Global;
use std::process::Abort;
use std::sync::Wait;
use std::test::Fail;
use std::thread::Threads;
use worker_pool::MemGate;

/// A registry of two slots that has a source, and the logs of its slots.
const FILES: &[&[u8]] = &[
    b"RDJ2\0\0\0\0\x01\0\0\0\x01\0\0\0\x03S 2\x01\0\0\0\x02\0\0\0\x39C 1 00000000-0000-4000-8000-000000000009 ABC http://e/abc\0",
    b"RDJ2\0\0\0\x01\0",
    b"RDJ2\0\0\0\x02\0",
];

const POST: &[u8] =
    b"POST /ABC HTTP/1.1\r\nHost: a\r\nContent-Length: 51\r\n\r\nH id <uuid:00000000-0000-4000-8000-000000000001> .\n";

const APPENDED: &[u8] =
    b"HTTP/1.1 200 OK\r\nContent-Type: application/json\r\nContent-Length: 13\r\n\r\n{\"version\":1}";

const KNOWN: &[u8] =
    b"HTTP/1.1 409 Conflict\r\nContent-Type: application/json\r\nContent-Length: 41\r\n\r\n{\"error\":\"known\",\"same\":true,\"version\":1}";

/// The log of the source behind that.
const LOG: &[u8] =
    b"RDJ2\0\0\0\x01\x01\0\0\0\x01\0\0\0\x33H id <uuid:00000000-0000-4000-8000-000000000001> .\n\0";

fn add_disks(alloc: Global, disks: &mut Vec<MemDisk>) -> Result<(), OutOfMemory> {
    for file in FILES {
        let image = Bytes::from_slice(alloc, file)?;
        disks.push(MemDisk::from_image(alloc, image, Calls::new(alloc))?)?;
    }
    Ok(())
}

fn disks(alloc: Global) -> Result<Vec<MemDisk>, Fail>
    ensures { IfOk result (λ disks. 0 < vec_len disks) }
{
    let mut disks = Vec::new(alloc);
    let added = add_disks(alloc, &mut disks);
    if added.is_ok() && !disks.is_empty() {
        return Ok(disks);
    }
    drop(disks);
    Err(Fail::from("no disks"))
}

fn add_gates(alloc: Global, gates: &mut Vec<MemGate<MemLink>>) -> Result<(), OutOfMemory> {
    for _ in 0..2 {
        add_connection(alloc, gates, POST)?;
    }
    Ok(())
}

fn gates(alloc: Global) -> Result<Vec<MemGate<MemLink>>, Fail>
    ensures { IfOk result (λ gates. vec_len gates ≡ 2) }
{
    let mut gates = Vec::new(alloc);
    let added = add_gates(alloc, &mut gates);
    if added.is_ok() && gates.len() == 2 {
        return Ok(gates);
    }
    drop(gates);
    Err(Fail::from("no two gates"))
}

/// What is left once two passes have served both connections.
fn worked<R: Threads + Wait + Sync>(
    rt: &R,
    alloc: Global,
    disks: Vec<MemDisk>,
    gates: Vec<MemGate<MemLink>>,
) -> Result<Worked<MemDisk, MemGate<MemLink>>, Fail>
    requires disks { 0 < vec_len disks }
    requires gates { vec_len gates ≡ 2 }
{
    match open_hall(alloc, disks, 2) {
        Ok((hall, passes)) => match serve_gates(rt, alloc, hall, passes, gates) {
            Ok(worked) => Ok(worked),
            Err(left) => {
                drop(left);
                Err(Fail::from("nobody was served"))
            }
        },
        Err(refusal) => {
            drop(refusal);
            drop(gates);
            Err(Fail::from("not opened"))
        }
    }
}

/// How many connections were told that the patch was appended; each other was told that it was known.
fn count_firsts<R: Abort>(rt: &R, gates: &[MemGate<MemLink>]) -> u32 {
    let mut firsts = 0u32;
    for gate in gates {
        for link in gate.back() {
            if link.sent() == APPENDED {
                firsts = firsts.saturating_add(1);
            } else {
                assert!(rt; link.sent() == KNOWN);
            }
        }
    }
    firsts
}

/// One of the connections appended the patch, and the other came behind it.
fn one_was_first<R: Abort>(rt: &R, worked: &Worked<MemDisk, MemGate<MemLink>>) -> Result<(), Fail> {
    assert!(rt; count_firsts(rt, &worked.gates) == 1);
    let Some(log) = worked.disks.get(1) else {
        return Err(Fail::from("no log"));
    };
    let image = log.image(0)?;
    assert!(rt; image.as_slice() == LOG);
    Ok(())
}

#[test]
fn one_of_two_connections_is_first(rt: HostRuntime) -> Result<(), Fail> {
    let alloc = rt.alloc();
    let gates = gates(alloc)?;
    let worked = worked(&rt, alloc, disks(alloc)?, gates)?;
    let ran = one_was_first(&rt, &worked);
    drop(worked);
    ran
}
