//! A connection with a client.
ghost use Rattle.std.specs.Prelude.{◌≤◌, ◌<◌, length, None, IfSome};

use crate::budget::Budget;
use crate::door::Door;
use delta_base::{Failed, Link};
use std::io;
use std::io::{ErrorKind, Read, Write};
use std::net::{OpenStream, Shutdown, TcpStream};
use std::time::{Clock, Duration, Instant};

/// How long one call of the system waits, in milliseconds. Behind it the clock is asked.
const SLICE: u64 = 50;

/// How long one read or one write waits for the client, in seconds.
const PATIENCE: u64 = 75;

/// How long the first byte of a connection is waited for where all workers are busy, in seconds.
/// The system may make a connection well before its client is told.
const WELCOME: u64 = 1;

/// How long what still comes behind the last reply is read, in seconds.
const PARTING: u64 = 1;

/// How many bytes of it are read, and how many at once.
const PARTING_BYTES: usize = 67_108_864;

const PIECE: usize = 8_192;

/// The text by which a client is asked to go on with its request, so that it ends none.
const GO_ON: &[u8] = b"HTTP/1.1 100 Continue\r\n\r\n";

/// What a connection is at.
#[derive(Clone, Copy)]
enum Stage {
    /// No byte has come so far.
    New,
    /// No byte of a request has come behind the reply to the one before.
    Between,
    Request(Budget),
    /// A text of which the system took only a part so far.
    Reply(Budget),
}

impl Stage {
    /// Whether a call that was begun then may still wait.
    fn may_wait<C: Clock>(&self, door: &Door<C>, begun: Instant, now: Instant) -> bool {
        let waited = now.duration_since(begun);
        if waited >= Duration::from_secs(PATIENCE) {
            return false;
        }
        match self {
            Stage::New => waited < Duration::from_secs(WELCOME) || !door.is_busy(),
            // What has come is read also where all workers are busy.
            Stage::Between => waited.is_zero() || !door.is_busy(),
            Stage::Request(budget) | Stage::Reply(budget) => !budget.is_spent(now),
        }
    }

    /// The request to which these bytes belong that came then.
    fn behind_read(self, count: usize, now: Instant) -> Stage {
        match self {
            Stage::Request(budget) => Stage::Request(budget.behind(count)),
            _ => Stage::Request(Budget::from(now).behind(count)),
        }
    }

    /// What these bytes belong to, which are sent from then on.
    fn before_write(self, bytes: &[u8], now: Instant) -> Stage {
        match self {
            Stage::Request(_) if bytes == GO_ON => self,
            Stage::Reply(_) => self,
            _ => Stage::Reply(Budget::from(now)),
        }
    }

    /// The same once the system took so many of them.
    fn behind_write(self, count: usize, length: usize) -> Stage {
        match self {
            Stage::Request(_) => self,
            Stage::Reply(budget) if count < length => Stage::Reply(budget.behind(count)),
            _ => Stage::Between,
        }
    }
}

/// A connection with a client, which tells nothing of its bytes. Each request and each reply has a
/// budget of time, no call waits for more than 75 seconds, and between requests a call waits only
/// while a worker is free. What takes longer has failed, as what the system refuses.
#[derive(Drop)]
pub struct ClientLink<'a, C> {
    stream: TcpStream,
    door: &'a Door<C>,
    stage: Stage,
    /// The last call was a write that went well.
    has_replied: bool,
    faults: u64,
}

impl<'a, C: Clock> ClientLink<'a, C> {
    /// Small writes go out at once, and each call of the system ends behind a slice of time.
    pub(crate) fn new(stream: TcpStream, door: &'a Door<C>) -> io::Result<ClientLink<'a, C>> {
        let slice = Some(Duration::from_millis(SLICE));
        stream.set_nodelay(true)?;
        stream.set_read_timeout(slice)?;
        stream.set_write_timeout(slice)?;
        Ok(ClientLink {
            stream,
            door,
            stage: Stage::New,
            has_replied: false,
            faults: 0,
        })
    }

    /// Ends the connection. Behind a reply what still comes is read for a moment, since a reset
    /// would take the reply from a client that is still sending.
    pub(crate) fn close(mut self)
    where
        C: Drop,
    {
        let door = self.door;
        if self.has_replied && self.stream.shutdown(Shutdown::Write).is_ok() {
            read_rest(&mut self.stream, door);
        }
    }
}

// Whether a call of the system ended only because its slice of time did, or by a signal.
fn is_slice_end(error: &io::Error) -> bool {
    matches!(
        error.kind(),
        ErrorKind::WouldBlock | ErrorKind::TimedOut | ErrorKind::Interrupted
    )
}

// Reads what has come or comes in time. It tells when the clock was last asked.
fn receive<C: Clock>(
    stream: &mut TcpStream,
    door: &Door<C>,
    stage: Stage,
    into: &mut [u8],
) -> Option<(usize, Instant)>
    ensures { IfSome result (λ read. read.0 ≤ length into.new) }
{
    let begun = door.now()?;
    let mut now = begun;
    for _ in 0..u64::MAX {
        if !stage.may_wait(door, begun, now) {
            return None;
        }
        match stream.read(into) {
            Ok(count) => return Some((count, now)),
            Err(error) if is_slice_end(&error) => now = door.now()?,
            Err(_) => return None,
        }
    }
    None
}

// Sends a part of the bytes in time, and tells what they belonged to.
fn transmit<C: Clock>(
    stream: &mut TcpStream,
    door: &Door<C>,
    stage: Stage,
    bytes: &[u8],
) -> Option<(usize, Stage)>
    ensures bound { IfSome result (λ sent. sent.0 ≤ length bytes.now) }
    ensures some { IfSome result (λ sent. 0 < length bytes.now → 0 < sent.0) }
{
    let begun = door.now()?;
    let mut now = begun;
    let stage = stage.before_write(bytes, begun);
    for _ in 0..u64::MAX {
        if !stage.may_wait(door, begun, now) {
            return None;
        }
        match stream.write(bytes) {
            Ok(count) if count > 0 || bytes.is_empty() => return Some((count, stage)),
            Err(error) if is_slice_end(&error) => now = door.now()?,
            _ => return None,
        }
    }
    None
}

// Reads to the end, but no longer than for the parting, and not where the clock doesn't tell.
fn read_rest<C: Clock>(stream: &mut TcpStream, door: &Door<C>) {
    let Some(begun) = door.now() else {
        return;
    };
    let mut left = PARTING_BYTES;
    let mut piece = [0; PIECE];
    for _ in 0..u64::MAX {
        match stream.read(&mut piece) {
            Ok(0) => return,
            Ok(count) if count < left => left -= count,
            Err(error) if is_slice_end(&error) => {}
            _ => return,
        }
        match door.now() {
            Some(now) if now.duration_since(begun) < Duration::from_secs(PARTING) => {}
            _ => return,
        }
    }
}

impl<'a, C: Clock> Link for ClientLink<'a, C> {
    ghost left = { λ l. None };

    ghost sent = { λ l. None };

    ghost faults = { λ l. l.faults };

    fn read(&mut self, into: &mut [u8]) -> Result<usize, Failed> {
        self.has_replied = false;
        let Some((count, now)) = receive(&mut self.stream, self.door, self.stage, into) else {
            self.faults = self.faults.saturating_add(1);
            return Err(Failed);
        };
        if count > 0 {
            self.stage = self.stage.behind_read(count, now);
        }
        Ok(count)
    }

    fn write(&mut self, bytes: &[u8]) -> Result<usize, Failed> {
        self.has_replied = false;
        let Some((count, stage)) = transmit(&mut self.stream, self.door, self.stage, bytes) else {
            self.faults = self.faults.saturating_add(1);
            return Err(Failed);
        };
        self.stage = stage.behind_write(count, bytes.len());
        self.has_replied = true;
        Ok(count)
    }

    fn faults(&self) -> u64 {
        self.faults
    }
}
