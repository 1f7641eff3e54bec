//! Gates over sockets, and their links.
use delta_base::Link;
use std::alloc::Global;
use std::io::{Read, Write};
use std::net::{Net, OpenStream, Shutdown, TcpListener, TcpStream};
use std::process::Abort;
use std::sync::Wait;
use std::test::Fail;
use std::thread::Threads;
use std::time::Clock;
use worker_pool::{ClientLink, Door, Gate, Post, TcpGate, Worker, serve_all};

// A listener at a port that is free, with its address.
fn listen<R: Net<Stream = TcpStream, Listener = TcpListener>>(
    rt: &R,
    alloc: Global,
) -> Result<(TcpListener, String), Fail> {
    let listener = TcpListener::bind(rt, "127.0.0.1:0")?;
    let address = format!(in alloc; "{}", listener.local_addr()?)?;
    Ok((listener, address))
}

// A connection over which four bytes were sent.
fn ping<R: Net<Stream = TcpStream, Listener = TcpListener>>(
    rt: &R,
    address: &str,
) -> Result<TcpStream, Fail> {
    let mut stream = TcpStream::connect(rt, address)?;
    stream.write_all(b"ping")?;
    Ok(stream)
}

// The next arrival has these dice, and brings four bytes.
fn takes_a_ping<'a, C: Clock + Drop>(
    rt: &impl Abort,
    gate: &mut TcpGate<'a, C>,
    dice: u128,
) -> Result<ClientLink<'a, C>, Fail> {
    let mut arrival = gate.next().ok_or("an arrival")?;
    let mut piece = [0; 8];
    assert!(rt; arrival.link.read(&mut piece) == Ok(4));
    assert!(rt; arrival.dice == dice);
    Ok(arrival.link)
}

#[test]
fn a_gate_gives_links(rt: HostRuntime) -> Result<(), Fail> {
    let (listener, address) = listen(&rt, rt.alloc())?;
    let door = Door::new(&rt, Some(listener));
    let mut gate = TcpGate::new(&door, 5, 2);
    for number in 0..2u32 {
        let stream = ping(&rt, address.as_str())?;
        let link = takes_a_ping(&rt, &mut gate, 5 + (2 << 32) + (u128::from(number) << 36))?;
        gate.put_back(link);
        drop(stream);
    }
    assert!(rt; gate.faults() == 0);
    Ok(())
}

/// Does nothing.
#[derive(Drop)]
struct Idler;

impl<L> Worker<L> for Idler {
    ghost works = { λ before link dice after linked. Unit {0} };

    fn work<R: Wait>(&mut self, _rt: &R, _link: &mut L, _dice: u128) {}
}

// Two gates over one door, with whoever serves them.
fn posts_over<'a, C: Clock + Drop>(
    alloc: Global,
    door: &'a Door<C>,
) -> Result<Vec<Post<TcpGate<'a, C>, Idler>>, Fail> {
    let mut posts = Vec::new(alloc);
    for place in 0..2 {
        let gate = TcpGate::new(door, 0, place);
        posts.push(Post {
            gate,
            worker: Idler,
        })?;
    }
    Ok(posts)
}

// How often each of two gates failed that were served over a door without a listener.
fn faults_of_two<R: Clock + Sync + Threads + Wait>(
    rt: &R,
    alloc: Global,
) -> Result<Vec<u64>, Fail> {
    let door = Door::new(rt, None);
    let posts = posts_over(alloc, &door)?;
    let mut faults = Vec::new(alloc);
    for post in serve_all(rt, posts) {
        faults.push(post.gate.faults())?;
    }
    Ok(faults)
}

#[test]
fn gates_without_a_listener_fail_once(rt: HostRuntime) -> Result<(), Fail> {
    let faults = faults_of_two(&rt, rt.alloc())?;
    assert!(rt; faults.as_slice() == [1, 1].as_slice());
    Ok(())
}

// What the peer sends to its end.
fn reads_to_the_end(rt: &impl Abort, stream: &mut TcpStream, wanted: &[u8]) -> Result<(), Fail> {
    let mut piece = [0; 8];
    let count = stream.read(&mut piece)?;
    assert!(rt; &piece[..count] == wanted);
    assert!(rt; stream.read(&mut piece)? == 0);
    Ok(())
}

#[test]
fn a_link_goes_both_ways(rt: HostRuntime) -> Result<(), Fail> {
    let (listener, address) = listen(&rt, rt.alloc())?;
    let door = Door::new(&rt, Some(listener));
    let mut gate = TcpGate::new(&door, 0, 0);
    let mut stream = ping(&rt, address.as_str())?;
    stream.shutdown(Shutdown::Write)?;
    let mut link = takes_a_ping(&rt, &mut gate, 0)?;
    let mut piece = [0; 8];
    assert!(rt; link.read(&mut piece) == Ok(0));
    assert!(rt; link.write(b"pong") == Ok(4));
    assert!(rt; link.faults() == 0);
    gate.put_back(link);
    reads_to_the_end(&rt, &mut stream, b"pong")
}

// Whether one of many writes fails. The system takes some, until the peer's has answered that
// nobody reads them.
fn fails_to_write(link: &mut impl Link) -> bool {
    for _ in 0..1_000 {
        if link.write(b"pong").is_err() {
            return true;
        }
    }
    false
}

#[test]
fn a_write_behind_the_peers_end_counts_one_fault(rt: HostRuntime) -> Result<(), Fail> {
    let (listener, address) = listen(&rt, rt.alloc())?;
    let door = Door::new(&rt, Some(listener));
    let mut gate = TcpGate::new(&door, 0, 0);
    let stream = ping(&rt, address.as_str())?;
    let mut link = takes_a_ping(&rt, &mut gate, 0)?;
    drop(stream);
    assert!(rt; fails_to_write(&mut link));
    assert!(rt; link.faults() == 1);
    gate.put_back(link);
    Ok(())
}
