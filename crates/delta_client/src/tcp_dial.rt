//! A dial over the system's sockets.
ghost use Rattle.std.specs.Prelude.{◌≡◌, IfOk};

use crate::dial::{Dial, DialFault};
use delta_base::{Link, StdLink, Text};
use std::io;
use std::net::{Net, TcpListener, TcpStream};
use std::time::Duration;

/// How long a server may be silent, in seconds: a read or write that waits longer fails.
const PATIENCE: u64 = 75;

/// Connections to servers. It tells nothing of them. It counts those that are open in a u64: one
/// more than that fails.
#[derive(Drop)]
pub struct TcpDial<'a, R> {
    rt: &'a R,
    held: u64,
    tries: u64,
    faults: u64,
}

impl<'a, R> TcpDial<'a, R> {
    pub fn new(rt: &'a R) -> TcpDial<'a, R>
        ensures held { result.held ≡ 0 }
        ensures tries { result.tries ≡ 0 }
        ensures faults { result.faults ≡ 0 }
    {
        TcpDial {
            rt,
            held: 0,
            tries: 0,
            faults: 0,
        }
    }
}

// The link of a connection. Small writes go out at once, and a silent server doesn't hold whoever
// asks it for ever.
fn link_over(stream: TcpStream) -> io::Result<StdLink<TcpStream>>
    ensures { IfOk result (λ link. link.faults ≡ 0) }
{
    let patience = Some(Duration::from_secs(PATIENCE));
    stream.set_nodelay(true)?;
    stream.set_read_timeout(patience)?;
    stream.set_write_timeout(patience)?;
    Ok(StdLink::new(stream))
}

impl<'a, R: Net<Stream = TcpStream, Listener = TcpListener>> Dial for TcpDial<'a, R> {
    ghost use Rattle.std.specs.Prelude.{[]};

    type L = StdLink<TcpStream>;

    ghost tells = { ⊥ };

    ghost to_come = { λ d. [] };

    ghost addresses = { λ d. [] };

    ghost back = { λ d. [] };

    ghost held = { λ d. d.held };

    ghost tries = { λ d. d.tries };

    ghost faults = { λ d. d.faults };

    fn faults(&self) -> u64 {
        self.faults
    }

    fn connect(&mut self, address: &Text) -> Result<StdLink<TcpStream>, DialFault> {
        self.tries = self.tries.saturating_add(1);
        let Some(held) = self.held.checked_add(1) else {
            self.faults = self.faults.saturating_add(1);
            return Err(DialFault::Failed);
        };
        match TcpStream::connect(self.rt, address.as_str()).and_then(link_over) {
            Ok(link) => {
                self.held = held;
                Ok(link)
            }
            Err(_) => {
                self.faults = self.faults.saturating_add(1);
                Err(DialFault::Failed)
            }
        }
    }

    fn hang_up(&mut self, link: StdLink<TcpStream>) {
        if link.faults() > 0 {
            self.faults = self.faults.saturating_add(1);
        }
        self.held -= 1;
        drop(link);
    }
}
