//! What connections are sent, and what stands in the files behind a server.
use crate::runs::{TWO, add_connection, fill, run, shelf};
use delta_base::{MemLink, OutOfMemory, Text};
use disk_model::MemShelf;
use std::alloc::Global;
use std::process::Abort;
use std::sync::Wait;
use std::test::Fail;
use std::thread::Threads;
use worker_pool::MemGate;

const CREATE: &str =
    "{\"operation\":\"create\",\"name\":\"ABC\",\"uri\":\"http://e/abc\",\"id\":\"00000000-0000-4000-8000-000000000009\"}";

const FIRST: &str =
    "H id <uuid:00000000-0000-4000-8000-000000000001> .\nTX .\nA <http://e/s> <http://e/p> <http://e/o> .\nTC .\n";

// A request with this first line and body.
fn request(alloc: Global, line: &str, body: &str) -> Result<String, Fail> {
    Ok(format!(in alloc;
        "{line} HTTP/1.1\r\nHost: a\r\nContent-Length: {}\r\n\r\n{body}",
        body.len()
    )?)
}

// Adds gates of one connection each, with these texts, and others up to sixteen.
fn add_all(
    alloc: Global,
    gates: &mut Vec<MemGate<MemLink>>,
    texts: &[&str],
) -> Result<(), OutOfMemory> {
    for text in texts {
        add_connection(alloc, gates, text.as_bytes())?;
    }
    fill(alloc, gates)
}

// Sixteen gates, of which the first ones have one connection each, with these texts.
fn gates_of(alloc: Global, texts: &[&str]) -> Result<Vec<MemGate<MemLink>>, OutOfMemory> {
    let mut gates = Vec::new(alloc);
    match add_all(alloc, &mut gates, texts) {
        Ok(()) => Ok(gates),
        Err(OutOfMemory) => {
            drop(gates);
            Err(OutOfMemory)
        }
    }
}

// Whether the one connection of a gate was sent this last.
fn was_sent(gate: &MemGate<MemLink>, end: &str) -> bool {
    match gate.back() {
        [link] => link.sent().ends_with(end.as_bytes()),
        _ => false,
    }
}

// A server of these texts sends this last at the gate of this place.
fn sends<R: Abort + Threads + Wait + Sync>(
    rt: &R,
    alloc: Global,
    shelf: &mut MemShelf,
    texts: &[&str],
    place: usize,
    end: &str,
) -> Result<(), Fail> {
    let gates = gates_of(alloc, texts)?;
    let gates = run(rt, alloc, TWO, shelf, gates, 0, "")?;
    let is_sent = match gates.get(place) {
        Some(gate) => was_sent(gate, end),
        None => false,
    };
    drop(gates);
    assert!(rt; is_sent);
    Ok(())
}

// A source is made, and the first patch of its log.
fn appends<R: Abort + Threads + Wait + Sync>(
    rt: &R,
    alloc: Global,
    shelf: &mut MemShelf,
) -> Result<(), Fail> {
    let mut text = request(alloc, "POST /$/rpc", CREATE)?;
    let append = request(alloc, "POST /ABC", FIRST)?;
    text.push_str(append.as_str())?;
    sends(rt, alloc, shelf, &[text.as_str()], 0, "{\"version\":1}")
}

// The file of the first log holds the patch.
fn holds<R: Abort>(rt: &R, alloc: Global, shelf: &MemShelf) -> Result<(), Fail> {
    let dir = Text::from_str(alloc, "d")?;
    let bytes = shelf.file(&dir, 1).unwrap_or(b"");
    assert!(rt; bytes.starts_with(b"RDJ2\0\0\0\x01\x01\0\0\0\x01\0\0\0\x68H id"));
    assert!(rt; bytes.ends_with(b"TC .\n\0"));
    Ok(())
}

// The patch is made, stands in its file, and is fetched from another server.
fn keeps<R: Abort + Threads + Wait + Sync>(
    rt: &R,
    alloc: Global,
    shelf: &mut MemShelf,
) -> Result<(), Fail> {
    appends(rt, alloc, shelf)?;
    holds(rt, alloc, shelf)?;
    let fetch = request(alloc, "GET /ABC/1", "")?;
    sends(rt, alloc, shelf, &["", fetch.as_str()], 1, FIRST)
}

#[test]
fn the_files_hold_what_was_said(rt: HostRuntime) -> Result<(), Fail> {
    let alloc = rt.alloc();
    let mut shelf = shelf(alloc, &[])?;
    let ran = keeps(&rt, alloc, &mut shelf);
    drop(shelf);
    ran
}

// The first two of these gates have a worker, and the first three a connection.
fn are_in_order<R: Abort>(rt: &R, gates: &[MemGate<MemLink>]) -> Result<(), Fail> {
    let [first, second, third, rest @ ..] = gates else {
        return Err(Fail::from("three gates"));
    };
    assert!(rt; was_sent(first, "{\"ping\":\"ok\"}"));
    assert!(rt; was_sent(second, ""));
    // The connection of a gate that has no worker isn't served.
    assert!(rt; third.back().is_empty());
    assert!(rt; rest.len() == 13);
    Ok(())
}

// Three connections come to a server over this shelf.
fn comes_back<R: Abort + Threads + Wait + Sync>(
    rt: &R,
    alloc: Global,
    shelf: &mut MemShelf,
) -> Result<(), Fail> {
    let ping = request(alloc, "GET /$/ping", "")?;
    let gates = gates_of(alloc, &[ping.as_str(), "", ping.as_str()])?;
    let gates = run(rt, alloc, TWO, shelf, gates, 0, "")?;
    let ran = are_in_order(rt, &gates);
    drop(gates);
    ran
}

#[test]
fn gates_come_back_in_their_order(rt: HostRuntime) -> Result<(), Fail> {
    let alloc = rt.alloc();
    let mut shelf = shelf(alloc, &[])?;
    let ran = comes_back(&rt, alloc, &mut shelf);
    drop(shelf);
    ran
}
