//! Calls over the system's sockets, to a server in the same thread: its replies are there before
//! they are asked for.
ghost use Rattle.std.specs.Prelude.{◌≡◌, ◌≤◌, true, IfOk};
ghost use Rattle.std.specs.List.{list_all};
ghost use Rattle.http_text.specs.Print.{is_visible};

use crate::calls::{Both, FIRST, SECOND, are_told, asks_twice};
use delta_base::{OutOfMemory, StdLink, Text};
use delta_client::{Dial, DialFault, Line, Open, TcpDial, is_host};
use http_text::ReplyReader;
use std::alloc::Global;
use std::io::{Read, Write};
use std::net::{Net, OpenListener, TcpListener, TcpStream};
use std::process::Abort;
use std::test::Fail;

const BODY: &str = "{\"name\":\"ABC\",\"operation\":\"version\"}";

/// The address that a server listens at.
fn address_of(alloc: Global, listener: &TcpListener) -> Result<Text, Fail>
    ensures { IfOk result (λ address. list_all is_visible address ≡ true) }
{
    let address = listener.local_addr()?;
    let address = Text::from_string(format!(in alloc; "{address}")?);
    if is_host(&address) {
        Ok(address)
    } else {
        Err(Fail::from("a host"))
    }
}

/// The server's end of the next connection, over which both replies were sent.
fn served(listener: &TcpListener) -> Result<TcpStream, Fail> {
    let (mut server, _) = listener.accept()?;
    let sent = server
        .write_all(FIRST)
        .and_then(|()| server.write_all(SECOND));
    sent?;
    Ok(server)
}

/// What is answered to two calls over a connection, which is hung up then.
fn asked_over<R: Net<Stream = TcpStream, Listener = TcpListener>>(
    alloc: Global,
    net: &mut TcpDial<'_, R>,
    link: StdLink<TcpStream>,
    address: &Text,
) -> Result<Both, OutOfMemory>
    requires visible { list_all is_visible address.now ≡ true }
    requires dialled { 1 ≤ net.old.held }
{
    let reader = ReplyReader::new(alloc);
    let mut line = Line {
        open: Some(Open { link, reader }),
    };
    let told = asks_twice(alloc, net, &mut line, address);
    line.hang_up(net);
    drop(line);
    told
}

/// A server was sent the request twice, and no more.
fn was_asked_twice(
    rt: &impl Abort,
    alloc: Global,
    server: &mut TcpStream,
    host: &str,
) -> Result<(), Fail> {
    let asked = format!(in alloc;
        "POST /$/rpc HTTP/1.1\r\nHost: {host}\r\nContent-Type: application/json\r\nContent-Length: 36\r\n\r\n{BODY}"
    )?;
    let mut text = Vec::new(alloc);
    server.read_to_end(&mut text)?;
    let (one, other) = text.as_slice().split_at(text.len() / 2);
    assert!(rt; one == asked.as_bytes() && other == asked.as_bytes());
    Ok(())
}

/// Two calls over a connection are answered by what its server sent.
fn are_answered<R: Net<Stream = TcpStream, Listener = TcpListener> + Abort>(
    rt: &R,
    alloc: Global,
    link: StdLink<TcpStream>,
    address: &Text,
    net: &mut TcpDial<'_, R>,
) -> Result<(), Fail>
    requires visible { list_all is_visible address.now ≡ true }
    requires dialled { 1 ≤ net.old.held }
{
    let told = asked_over(alloc, net, link, address)?;
    are_told(rt, told, [Ok(1), Ok(2)]);
    assert!(rt; net.faults() == 0);
    Ok(())
}

/// Two calls to a server go over the connection that was made for the first.
fn go_over_one<R: Net<Stream = TcpStream, Listener = TcpListener> + Abort>(
    rt: &R,
    alloc: Global,
    listener: &TcpListener,
) -> Result<(), Fail> {
    let address = address_of(alloc, listener)?;
    let mut net = TcpDial::new(rt);
    let Ok(link) = net.connect(&address) else {
        return Err(Fail::from("a connection"));
    };
    let mut server = served(listener)?;
    are_answered(rt, alloc, link, &address, &mut net)?;
    was_asked_twice(rt, alloc, &mut server, address.as_str())
}

#[test]
fn two_calls_go_over_one_socket(rt: HostRuntime) -> Result<(), Fail> {
    let listener = TcpListener::bind(&rt, "127.0.0.1:0")?;
    let gone = go_over_one(&rt, rt.alloc(), &listener);
    drop(listener);
    gone
}

/// No connection is made to an address.
fn is_no_connection<R: Net<Stream = TcpStream, Listener = TcpListener> + Abort>(
    rt: &R,
    address: &Text,
) -> Result<(), Fail> {
    let mut net = TcpDial::new(rt);
    match net.connect(address) {
        Ok(link) => {
            net.hang_up(link);
            return Err(Fail::from("no connection"));
        }
        Err(fault) => assert!(rt; fault == DialFault::Failed),
    }
    assert!(rt; net.faults() == 1);
    Ok(())
}

#[test]
fn a_port_that_nobody_listens_at_is_no_connection(rt: HostRuntime) -> Result<(), Fail> {
    let listener = TcpListener::bind(&rt, "127.0.0.1:0")?;
    let address = address_of(rt.alloc(), &listener);
    drop(listener);
    is_no_connection(&rt, &address?)
}
