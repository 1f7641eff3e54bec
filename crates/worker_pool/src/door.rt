//! What the gates of a server share.
use std::net::{OpenListener, TcpListener, TcpStream};
use std::sync::atomic::{AtomicU64, Ordering};
use std::thread;
use std::time::{Clock, Duration, Instant};

/// The listener of sixteen gates, a clock, and how many of the gates wait for a connection.
#[derive(Drop)]
pub struct Door<C> {
    clock: C,
    listener: Option<TcpListener>,
    /// How many gates wait in `accept`. A gate whose worker serves doesn't, nor one that no worker
    /// asks.
    free: AtomicU64,
}

impl<C: Clock> Door<C> {
    /// A door over this listener, which is None where it couldn't be bound.
    pub fn new(clock: C, listener: Option<TcpListener>) -> Door<C> {
        Door {
            clock,
            listener,
            free: AtomicU64::new(0),
        }
    }

    /// Whether there is a listener.
    pub(crate) fn is_bound(&self) -> bool {
        self.listener.is_some()
    }

    /// Waits for a connection, and meanwhile counts as free.
    pub(crate) fn accept(&self) -> Option<TcpStream> {
        let listener = self.listener.as_ref()?;
        self.free.fetch_add(1, Ordering::SeqCst);
        let accepted = listener.accept();
        self.free.fetch_sub(1, Ordering::SeqCst);
        match accepted {
            Ok((stream, _)) => Some(stream),
            Err(_) => None,
        }
    }

    /// Whether no gate waits for a connection, so that one that comes may have to wait.
    pub(crate) fn is_busy(&self) -> bool {
        self.free.load(Ordering::SeqCst) == 0
    }

    /// The time, where the clock tells it.
    pub(crate) fn now(&self) -> Option<Instant> {
        Instant::now(&self.clock).ok()
    }

    pub(crate) fn pause(&self, time: Duration) {
        thread::sleep(&self.clock, time);
    }
}
